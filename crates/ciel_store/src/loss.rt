// Losses, and what a seat at the words knows of them.

use std::collections::LinkedList;

/// The loss of a worker, with its number in the plan.
#[derive(Clone, Copy, PartialEq, Eq, Debug)]
pub struct Loss {
    pub number: u32,
    pub worker: u32,
}

/// What a seat at the words knows. No value of it is made.
pub struct View {
    /// Whether it is the seat that marks losses; its own list then has all of them.
    pub marks: bool,
    /// The losses that it marked or saw.
    pub own: LinkedList<Loss>,
    /// Those that another seat saw, whose list it was handed.
    pub beside: LinkedList<Loss>,
}
