//! What a task comes to where it goes on.

use sky_base::object::Object;
use sky_state::shown::Shown;

/// What a task comes to where it goes on from its state.
#[derive(Drop)]
pub enum Step {
    /// The call ended with this object.
    Ended(Object),
    /// The task waits: its state is the one at its next wait.
    Waits,
    /// The root task came to the job's answer.
    Shown(Shown),
}
