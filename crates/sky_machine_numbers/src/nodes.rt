// The nodes of a script by their numbers. No list of them is kept: a node is found by going down from the body that holds
// its number: the statement of a block by halves, and in other forms each part before it is passed over by its end.

ghost use Rattle.std.specs.Prelude.{◌≡◌, Some, None, MatchOption, IfSome};
ghost use Rattle.sky_base_law.specs.Nodes.{node_at};
ghost use Rattle.sky_machine_numbers.specs.Filled.{node_view};
ghost use Rattle.sky_machine_numbers.specs.Standing.{HasNode};

use crate::find_stm::node_in_block;
use crate::node::NodeRef;
use sky_machine_code::code::Code;
use std::marker::Model;

/// The nodes of a script, found by their numbers. Contracts see the script.
#[derive(Drop)]
pub struct Nodes<'a> {
    code: Code<'a>,
}

impl<'a> Model for Nodes<'a> {
    ghost use Rattle.sky_base.specs.Tree as logic;
    ghost use Rattle.sky_base.specs.ScriptCode.{script_code};

    ghost Value = { logic.Script };

    ghost coded = { script_code };

    ghost view = { λ n. n.code };
}

impl<'a> Nodes<'a> {
    /// The nodes of the script.
    pub(crate) fn of(code: Code<'a>) -> Nodes<'a>
        ensures { result ≡ code.entry }
    {
        Nodes { code }
    }

    /// The node of this number, if there is one; all that is in it stands at the numbers that follow. In each form round it it takes
    /// time in the number of parts before it; in a block, in the logarithm of the number of statements.
    pub fn at(&self, number: u32) -> Option<NodeRef<'a>>
        ensures node { MatchOption result (node_at self.now number ≡ None) (λ r. node_at self.now number ≡ Some (node_view r)) }
        ensures whole { IfSome result (λ r. HasNode (λ i. node_at self.now i) (node_view r) number) }
    {
        match self.code.holding(number) {
            Some(body) => Some(node_in_block(&self.code, body.block, body.node, number)),
            None => None,
        }
    }
}
