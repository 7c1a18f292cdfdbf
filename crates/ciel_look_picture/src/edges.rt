//! Who is made from whom.

use crate::nodes::Nodes;
use ciel_look_tasks::scene::{How, Scene, Task};
use ciel_look_told::told::Outcome;
use sky_base::name::Name;
use sky_base::object::{Desc1, TaskId};
use sky_base::text::Memory;
use std::alloc::Global;
use std::collections::{BTreeMap, BTreeSet};

/// The second is made from the first.
#[derive(Clone, Copy, PartialEq, Eq, PartialOrd, Ord)]
pub struct Edge {
    pub from: usize,
    pub to: usize,
}

/// The edges, and from each node those that are made from it.
#[derive(Drop)]
pub struct Edges {
    pub all: BTreeSet<Edge>,
    pub from: BTreeMap<usize, Vec<usize>>,
}

/// Which nodes are made from which.
///
/// Answers `Memory` for want of memory.
pub fn edges_of(alloc: Global, scene: &Scene, nodes: &Nodes) -> Result<Edges, Memory> {
    let mut edges = Edges {
        all: BTreeSet::new(alloc),
        from: BTreeMap::new(alloc),
    };
    for task in &scene.roll.tasks {
        if let Some(to) = nodes.of_task.get(&task.id).copied() {
            edges.add_task(alloc, scene, nodes, task, to)?;
        }
    }
    Ok(edges)
}

impl Edges {
    /// What a task is made from: what its description names, the main call if it is the root task, and what it waited for.
    fn add_task(
        &mut self,
        alloc: Global,
        scene: &Scene,
        nodes: &Nodes,
        task: &Task,
        to: usize,
    ) -> Result<(), Memory> {
        if let Some(known) = scene.desc_of(task) {
            if let Desc1::Exec {
                executor: _,
                args,
                outputs: _,
                index: _,
            } = &known.desc
            {
                let names = args.refs(alloc)?;
                self.add_names(alloc, scene, nodes, names.as_slice(), to)?;
            }
        }
        if matches!(task.id, TaskId::Show) {
            if let Some(main) = scene.known.all.first() {
                self.add_names(alloc, scene, nodes, &[main.name], to)?;
            }
        }
        self.add_waits(alloc, scene, nodes, task, to)?;
        Ok(())
    }

    /// What the task waited for.
    fn add_waits(
        &mut self,
        alloc: Global,
        scene: &Scene,
        nodes: &Nodes,
        task: &Task,
        to: usize,
    ) -> Result<(), Memory> {
        for place in &task.runs {
            if let Some(run) = scene.runs.get(*place) {
                if let Some(end) = &run.end {
                    if let How::Told {
                        outcome: Outcome::Saved {
                            j: _,
                            weight: _,
                            waits,
                        },
                        made: _,
                    } = &end.how
                    {
                        self.add_names(alloc, scene, nodes, waits.as_slice(), to)?;
                    }
                }
            }
        }
        Ok(())
    }

    /// A node is made from what has these names.
    fn add_names(
        &mut self,
        alloc: Global,
        scene: &Scene,
        nodes: &Nodes,
        names: &[Name],
        to: usize,
    ) -> Result<(), Memory> {
        for name in names {
            if let Some(known) = scene.find(name) {
                if let Some(from) = nodes.of_task.get(&known.task).copied() {
                    self.join(alloc, from, to)?;
                }
            }
        }
        Ok(())
    }

    /// One node is made from another.
    fn join(&mut self, alloc: Global, from: usize, to: usize) -> Result<(), Memory> {
        if from == to {
            return Ok(());
        }
        let Ok(is_new) = self.all.insert(Edge { from, to }) else {
            return Err(Memory);
        };
        if !is_new {
            return Ok(());
        }
        if let Some(ends) = self.from.get_mut(&from) {
            return put(ends, to);
        }
        let mut ends = Vec::new(alloc);
        put(&mut ends, to)?;
        match self.from.insert(from, ends) {
            Ok(_) => Ok(()),
            Err(_) => Err(Memory),
        }
    }
}

fn put(list: &mut Vec<usize>, thing: usize) -> Result<(), Memory> {
    match list.push(thing) {
        Ok(()) => Ok(()),
        Err(_) => Err(Memory),
    }
}
