// A script with all that is looked up where a state is tested.

ghost use Rattle.std.specs.Prelude.{◌≡◌, IfOk};

use crate::captures::Captures;
use sky_base::text::Memory;
use sky_machine_code::code::Code;
use sky_machine_numbers::code::Numbered;
use sky_machine_numbers::nodes::Nodes;
use std::alloc::Global;
use std::marker::Model;

/// A script with the numbers of its nodes, its nodes by their numbers, and the names that its functions use. It is made once for
/// all states that are tested. Contracts see it as the script.
#[derive(Drop)]
pub struct Fitting<'b, 'a> {
    script: &'b Numbered<'a>,
    captures: Captures<'b, 'a>,
}

impl<'b, 'a> Model for Fitting<'b, 'a> {
    ghost use Rattle.std.specs.Prelude.{◌≡◌};
    ghost use Rattle.sky_base.specs.Tree as logic;
    ghost use Rattle.sky_base.specs.ScriptCode.{script_code};

    ghost Value = { logic.Script };

    ghost coded = { script_code };

    ghost view = { λ f. f.script.now.code };

    ghost invariant = { λ f. (f.script.now.nodes ≡ f.script.now.code) × (f.captures ≡ f.script.now.code) };
}

impl<'b, 'a> Fitting<'b, 'a> {
    /// The script with what is looked up.
    ///
    /// Answers `Memory` for want of memory.
    pub fn new(alloc: Global, script: &'b Numbered<'a>) -> Result<Fitting<'b, 'a>, Memory>
        requires { script.now.nodes ≡ script.now.code }
        ensures { IfOk result (λ f. f ≡ script.now.code) }
    {
        let captures = Captures::new(alloc, script.code.program())?;
        Ok(Fitting { script, captures })
    }

    /// The script, with the numbers of its nodes.
    pub(crate) fn code(&self) -> &'b Code<'a>
        ensures { result.now ≡ self.now }
    {
        &self.script.code
    }

    /// Its nodes, by their numbers.
    pub(crate) fn nodes(&self) -> &'b Nodes<'a>
        ensures { result.now ≡ self.now }
    {
        &self.script.nodes
    }

    /// The names that its functions use.
    pub(crate) fn captures(&self) -> &Captures<'b, 'a>
        ensures { result.now ≡ self.now }
    {
        &self.captures
    }
}
