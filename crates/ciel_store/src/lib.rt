// The store: each worker's shelf of blocks, which all workers read where they lie, and for each worker a word
// that holds its loss once one is marked. A shelf only grows, and a place names a block for good, so that a
// read takes no lock; a read loads the word first, so that a loss is seen from the moment on that it is marked.
//
// The seats at the words (`seats`) carry what each party knows: the marker all losses that it marked, an eye those
// that it saw. That what was seen was marked is the rule that the words keep (`specs/Words`).
#![tactic(auto)]

pub mod loss;
pub mod rule;
pub mod seats;
pub mod shelves;
