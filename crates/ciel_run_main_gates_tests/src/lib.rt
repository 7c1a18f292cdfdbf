// Rows of what gates tell of a run of the whole program. They stand apart from its other rows, since each kind of gate is a program of its own to
// prove.
#![tactic(auto)]

#[cfg(test)]
mod gates;
