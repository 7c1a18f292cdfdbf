//! The laws, as contracts of functions that do nothing.

ghost use Rattle.ciel_task_inputs.specs.Laws.{CopiesAreFetched, CopiesAreSound, CopiesFit, NamedIsGiven, OrdersBring};

/// Of an order of the master, with the open Start that it is of: what it brings along is what the task holds at the order's wait and
/// was live then, each with its object under its name.
pub fn orders_bring()
    ensures bring { OrdersBring }
    ensures given { NamedIsGiven }
{}

/// What is copied of that to the worker's own shelf was fetched from another worker, and is the object of what the task holds; and it
/// fits the order, and is sound for the script where what the order brings along is.
pub fn copies_are_fetched()
    ensures fetched { CopiesAreFetched }
    ensures fit { CopiesFit }
    ensures sound { CopiesAreSound }
{}
