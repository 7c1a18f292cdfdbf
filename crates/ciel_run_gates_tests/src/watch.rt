// A gate that counts, and a kit that sees whether the gate of its worker was entered before a task, and not left yet.

ghost use Rattle.std.specs.Prelude.{◌≡◌, None};

use crate::counting::FIRST;
use ciel_gate::gate::Gate;
use line_kit::kit::LineKit;
use once_cell::race::OnceBool;
use sky_base::fault::FaultKind;
use sky_base::kit::Kit;
use sky_base::name::Name;
use sky_base::object::TaskId;
use sky_base::text::{Bytes, Memory, Txt};
use sky_base::value::Value;
use std::alloc::Global;
use std::sync::Arc;
use std::test::Fail;

/// Whether the task that counts the first part was entered at a gate, and whether it was left. A flag is set once.
#[derive(Drop)]
pub(crate) struct Flags {
    is_entered: OnceBool,
    is_left: OnceBool,
}

impl Flags {
    pub(crate) fn new(alloc: Global) -> Result<Arc<Flags>, Fail> {
        let flags = Flags {
            is_entered: OnceBool::new(),
            is_left: OnceBool::new(),
        };
        match Arc::new(alloc, flags) {
            Ok(flags) => Ok(flags),
            Err(_) => Err(Fail::from("memory")),
        }
    }

    /// The task was entered, and is not left yet.
    fn are_within(&self) -> bool {
        self.is_entered.get().is_some() && self.is_left.get().is_none()
    }

    /// The task was entered and left.
    pub(crate) fn are_over(&self) -> bool {
        self.is_entered.get().is_some() && self.is_left.get().is_some()
    }
}

fn is_first(task: &TaskId) -> bool {
    *task == TaskId::Of(Name::short(FIRST))
}

/// A gate that counts its entrances and exits, and sees whether each exit is that of the last entrance.
#[derive(Drop)]
pub(crate) struct Watch {
    flags: Arc<Flags>,
    inside: Option<TaskId>,
    enters: u64,
    leaves: u64,
    astray: bool,
}

impl Watch {
    /// A gate that sets these flags.
    pub(crate) fn new(flags: &Arc<Flags>) -> Result<Watch, Fail> {
        match Arc::try_clone(flags) {
            Ok(flags) => Ok(Watch {
                flags,
                inside: None,
                enters: 0,
                leaves: 0,
                astray: false,
            }),
            Err(_) => Err(Fail::from("memory")),
        }
    }

    // Whether this task was entered, and is not left yet.
    fn is_inside(&self, task: &TaskId) -> bool {
        match &self.inside {
            Some(inside) => *inside == *task,
            None => false,
        }
    }

    /// Whether so many tasks came by, each of them entered and then left, and no other meanwhile.
    pub(crate) fn has_seen(&self, tasks: u64) -> bool {
        !self.astray && self.inside.is_none() && self.enters == tasks && self.leaves == tasks
    }
}

impl Gate for Watch {
    ghost entered = { λ _. None };

    fn enter(&mut self, task: &TaskId) {
        if self.inside.is_some() {
            self.astray = true;
        }
        self.inside = Some(*task);
        self.enters = self.enters.saturating_add(1);
        if is_first(task) {
            let _ = self.flags.is_entered.set(true);
        }
    }

    fn leave(&mut self, task: &TaskId) {
        if !self.is_inside(task) {
            self.astray = true;
        }
        self.inside = None;
        self.leaves = self.leaves.saturating_add(1);
        if is_first(task) {
            let _ = self.flags.is_left.set(true);
        }
    }
}

// Whether this is the task that counts the first part, which is the line `b`.
fn counts_first(executor: &Txt, inputs: &[Bytes]) -> bool {
    match inputs {
        [part] => executor.as_str() == "tally" && part.as_slice() == b"b\n".as_slice(),
        _ => false,
    }
}

/// The executors over lines, with no memory for the task that counts the first part where it is not between its gate's entrance and exit.
#[derive(Drop)]
pub(crate) struct Watched {
    flags: Arc<Flags>,
}

impl Watched {
    /// A kit that looks at these flags.
    pub(crate) fn new(flags: &Arc<Flags>) -> Result<Watched, Fail> {
        match Arc::try_clone(flags) {
            Ok(flags) => Ok(Watched { flags }),
            Err(_) => Err(Fail::from("memory")),
        }
    }
}

impl Kit for Watched {
    ghost use Rattle.line_kit.specs.Gives.{gives as given};
    ghost use Rattle.line_kit.specs.Counts.{gives_counts};

    ghost gives = { λ _. given };

    ghost counts = { λ _. gives_counts };

    fn known(&self, executor: &Txt) -> bool {
        LineKit.known(executor)
    }

    fn run(
        &self,
        alloc: Global,
        executor: &Txt,
        args: &Value,
        inputs: &[Bytes],
        outputs: u32,
    ) -> Result<Result<Vec<Bytes>, FaultKind>, Memory> {
        if counts_first(executor, inputs) && !self.flags.are_within() {
            return Err(Memory);
        }
        LineKit.run(alloc, executor, args, inputs, outputs)
    }
}
