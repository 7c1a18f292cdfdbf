// Rows of runs by rounds, whose journal is the same each time: with one seed it is compared with itself, and an object that is lost while the
// order that reads it is out is found missing each time. They stand apart from the other rows of runs, since the two together would be dear
// to prove.
#![tactic(auto)]

#[cfg(test)]
mod missing;
#[cfg(test)]
mod rounds;
#[cfg(test)]
mod same;
