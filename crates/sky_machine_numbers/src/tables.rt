// The tables by which a script is run. They hold nothing of the script itself, so they can be kept beside it: they are made
// once, and each run of the script takes them at no cost.

ghost use Rattle.std.specs.Prelude.{◌≡◌};
ghost use Rattle.sky_machine_numbers.specs.Tabled.{TablesOf};

use crate::code::Numbered;
use crate::nodes::Nodes;
use sky_base::script::Script;
use sky_machine_code::code::Code;
use sky_machine_code::places::Places;
use sky_machine_code::program::Program;
use std::marker::Model;

/// What is counted once for a script: the place of the first function of each name, for each node the number after all that
/// is in it, the nodes of the functions' blocks, and for each node the numbers of the nodes directly in it.
#[derive(Drop)]
pub struct Tables {
    places: Places,
    ends: Vec<u32>,
    starts: Vec<u32>,
    // For each node the place in `parts` where the numbers of the nodes directly in it begin.
    firsts: Vec<usize>,
    parts: Vec<u32>,
}

impl Model for Tables {
    ghost use Rattle.sky_machine_numbers.specs.Tabled.{TablesSeen};

    ghost Value = { TablesSeen };

    ghost view = { λ t. record {
      places = t.places;
      ends = t.ends.items;
      starts = t.starts.items;
      firsts = t.firsts.items;
      parts = t.parts.items;
    } };
}

impl Tables {
    // The tables of these parts.
    pub(crate) fn of(
        places: Places,
        ends: Vec<u32>,
        starts: Vec<u32>,
        firsts: Vec<usize>,
        parts: Vec<u32>,
    ) -> Tables
        ensures { result ≡ record { places = places; ends = ends.items; starts = starts.items; firsts = firsts.items; parts = parts.items } }
    {
        Tables {
            places,
            ends,
            starts,
            firsts,
            parts,
        }
    }

    /// The script, whose tables they are, ready to be run: in constant time, and without memory.
    pub fn over<'a>(&'a self, script: &'a Script) -> Numbered<'a>
        requires { TablesOf script.now self.now }
        ensures code { result.code ≡ script.now }
        ensures nodes { result.nodes ≡ script.now }
    {
        Numbered {
            code: self.code(script),
            nodes: Nodes::of(self.code(script)),
        }
    }

    // The script with the numbers of its nodes.
    fn code<'a>(&'a self, script: &'a Script) -> Code<'a>
        requires { TablesOf script.now self.now }
        ensures { result ≡ script.now }
    {
        let program = Program::of(script, &self.places);
        Code::of(
            program,
            self.ends.as_slice(),
            self.starts.as_slice(),
            self.firsts.as_slice(),
            self.parts.as_slice(),
        )
    }
}
