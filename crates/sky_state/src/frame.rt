// The frames of a stack, one for each body that is open. A form under way is known by the number of its
// node in the script and by the step at which it stands, so a frame holds no tree.

ghost use Rattle.std.specs.Prelude.{◌≡◌};
ghost use Rattle.sky_state.specs.StandView.{todos_view, stack_view, frames_view};

use sky_base::text::Txt;
use sky_base::value::{Pairs, Value};
use std::marker::Model;

/// A form under way: the number of its node, and the step at which it stands. Which part is pending there,
/// and which values of the frame's stack the form keeps, is a table of the script's forms.
#[derive(Clone, Copy, PartialEq, Eq, Debug)]
pub struct Todo {
    pub node: u32,
    pub step: u32,
}

/// Forms under way, the outermost first.
#[derive(Drop)]
pub struct Todos {
    items: Vec<Todo>,
}

impl Model for Todos {
    ghost use Rattle.std.specs.Prelude.{List};
    ghost use Rattle.sky_base.specs.Read as logic;
    ghost use Rattle.sky_state.specs.StandCode.{todos_code};

    ghost Value = { List logic.Todo };

    ghost coded = { todos_code };

    ghost use Rattle.sky_state.specs.StandView.{todos_view};

    ghost view = { λ a. todos_view a.items.items };
}

impl Todos {
    /// The forms, the outermost first.
    pub fn of(items: Vec<Todo>) -> Todos
        ensures { result ≡ todos_view items.items }
    {
        Todos { items }
    }

    /// The forms themselves.
    pub fn as_slice(&self) -> &[Todo]
        ensures { todos_view result.now ≡ self.now }
    {
        self.items.as_slice()
    }

    /// Hands the forms out.
    pub fn into_vec(self) -> Vec<Todo>
        ensures { todos_view result.items ≡ self }
    {
        self.items
    }
}

/// The values that the forms under way in a frame keep, the deepest first.
#[derive(Drop)]
pub struct Stack {
    items: Vec<Value>,
}

impl Model for Stack {
    ghost use Rattle.std.specs.Prelude.{List, ℕ};
    ghost use Rattle.sky_base.specs.Val as logic;
    ghost use Rattle.sky_state.specs.StandCode.{stack_code};

    ghost Value = { List (logic.Val (List ℕ)) };

    ghost coded = { stack_code };

    ghost use Rattle.sky_state.specs.StandView.{stack_view};

    ghost view = { λ a. stack_view a.items.items };
}

impl Stack {
    /// The values, the deepest first.
    pub fn of(items: Vec<Value>) -> Stack
        ensures { result ≡ stack_view items.items }
    {
        Stack { items }
    }

    /// The values themselves.
    pub fn as_slice(&self) -> &[Value]
        ensures { stack_view result.now ≡ self.now }
    {
        self.items.as_slice()
    }

    /// Hands the values out.
    pub fn into_vec(self) -> Vec<Value>
        ensures { stack_view result.items ≡ self }
    {
        self.items
    }
}

/// A body that is open: its function, by its name (empty for the main body), its variables, and the forms under
/// way in it with the values that they keep.
#[derive(Drop)]
pub struct Frame {
    pub fun: Txt,
    pub vars: Pairs,
    pub stack: Stack,
    pub todo: Todos,
}

/// The bodies that are open, the bottom one first: each further one was called by the one before it.
#[derive(Drop)]
pub struct Frames {
    items: Vec<Frame>,
}

impl Model for Frames {
    ghost use Rattle.std.specs.Prelude.{List, ℕ};
    ghost use Rattle.sky_base.specs.Read as logic;
    ghost use Rattle.sky_state.specs.StandCode.{frames_code};

    ghost Value = { List (logic.Frame (List ℕ)) };

    ghost coded = { frames_code };

    ghost use Rattle.sky_state.specs.StandView.{frames_view};

    ghost view = { λ a. frames_view a.items.items };
}

impl Frames {
    /// The frames, the bottom one first.
    pub fn of(items: Vec<Frame>) -> Frames
        ensures { result ≡ frames_view items.items }
    {
        Frames { items }
    }

    /// The frames themselves.
    pub fn as_slice(&self) -> &[Frame]
        ensures { frames_view result.now ≡ self.now }
    {
        self.items.as_slice()
    }

    /// Hands the frames out.
    pub fn into_vec(self) -> Vec<Frame>
        ensures { frames_view result.items ≡ self }
    {
        self.items
    }
}
