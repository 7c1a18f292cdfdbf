//! Laws of the steps of forms. Each is the contract of a function that does nothing.

ghost use Rattle.sky_machine.specs.NarrowLaws.{ChainedCanBeSaved, ScriptsAreNarrow, StepsAreWithin};

/// A step that there is at a node is at most two further than the node is wide.
pub fn steps_are_within()
    ensures steps { StepsAreWithin }
{}

/// In a script whose nodes are narrow, forms under way that follow each other as a saved stack does can be saved: their steps
/// and what a `for` has taken fit the numbers of a saved form.
pub fn chained_forms_can_be_saved()
    ensures forms { ChainedCanBeSaved }
{}

/// A script that bytes are, fewer than 2,147,483,648 of them, has narrow nodes: each is at most as wide as there are bytes.
pub fn scripts_are_narrow()
    ensures scripts { ScriptsAreNarrow }
{}
