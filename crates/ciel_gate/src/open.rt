// A gate that does nothing.

ghost use Rattle.std.specs.Prelude.{◌≡◌, None};

use crate::gate::Gate;
use sky_base::object::TaskId;

/// A gate that tells nothing and does nothing.
#[derive(Clone, Copy, Debug)]
pub struct Open;

impl Gate for Open {
    ghost entered = { λ _. None };

    fn enter(&mut self, _task: &TaskId) {}

    fn leave(&mut self, _task: &TaskId) {}
}
