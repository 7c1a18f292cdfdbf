//! The nodes of the graph: one for each input, and one for each task or, where there are many tasks, for each head.

ghost use Rattle.std.specs.Prelude.{◌≡◌, ◌≤◌, [], ◌∷◌, ◌++◌, IfOk, flat_map, length, map};
ghost use Rattle.sky_base.specs.ObjectView.{desc_view};
ghost use Rattle.ciel_look_shown.specs.Plain.{shown};
ghost use Rattle.ciel_look_tasks.specs.Known.{known_view, knowns};
ghost use Rattle.ciel_look_tasks.specs.SceneView.{row_view, scene_view};
ghost use Rattle.ciel_look_sheet.specs.Titles.{named_title};
ghost use Rattle.ciel_look_picture.specs.Nodes.{input_title, is_input, node_title, nodes};
ghost use Rattle.ciel_look_picture.specs.Titles.{titles};

use ciel_look_sheet::nodes::{
    MOST_DRAWN, colour_of, known_tip, task_colour, task_head, task_tip, task_words,
};
use ciel_look_shown::plain::Plain;
use ciel_look_tasks::scene::{How, Scene, Task};
use ciel_look_told::told::Outcome;
use ciel_look_words::known::Known;
use ciel_look_words::words;
use sky_base::object::{Desc1, TaskId};
use sky_base::text::{Memory, Txt};
use std::alloc::Global;
use std::collections::BTreeMap;

/// The most groups of nodes: what comes behind them is in one more.
const MOST_GROUPS: usize = 300;

/// When a node was made: those that never ended come last, the deepest first; and its place among the nodes.
#[derive(Clone, Copy, PartialEq, Eq, PartialOrd, Ord)]
pub struct Rank {
    pub late: bool,
    pub at: usize,
    pub node: usize,
}

/// A node: its words, a longer text, its colour, how many tasks it is of, whether one of them was begun again, and its rank.
#[derive(Drop)]
pub struct Node {
    pub text: Plain,
    pub tip: Plain,
    pub colour: &'static str,
    pub count: usize,
    pub again: bool,
    pub rank: Rank,
}

/// The nodes, the node of each task, and that of each head, where they are folded.
#[derive(Drop)]
pub struct Nodes {
    pub all: Vec<Node>,
    pub of_task: BTreeMap<TaskId, usize>,
    pub of_head: BTreeMap<Txt, usize>,
}

/// The nodes of a run.
///
/// Answers `Memory` for want of memory.
pub fn nodes_of(alloc: Global, scene: &Scene) -> Result<Nodes, Memory>
    ensures titles { IfOk result (λ ns. length scene.now.roll.tasks.items ≤ 300 → titles ns.all.items ≡ nodes (scene_view scene.now)) }
{
    let mut nodes = Nodes::new(alloc);
    nodes.add_inputs(alloc, scene.known.all.as_slice())?;
    nodes.add_tasks(alloc, scene)?;
    Ok(nodes)
}

impl Nodes {
    /// None.
    fn new(alloc: Global) -> Nodes
        ensures titles { titles result.all.items ≡ [] }
    {
        Nodes {
            all: Vec::new(alloc),
            of_task: BTreeMap::new(alloc),
            of_head: BTreeMap::new(alloc),
        }
    }

    /// A node for each of these descriptions that is of an input.
    fn add_inputs(&mut self, alloc: Global, all: &[Known]) -> Result<(), Memory>
        ensures titles { IfOk result (λ _. titles self.new.all.items ≡ titles self.old.all.items ++ flat_map input_title (knowns all.now)) }
    {
        for known in all {
            self.add_input(alloc, known)?;
        }
        Ok(())
    }

    /// A node for a description, where it is of an input.
    fn add_input(&mut self, alloc: Global, known: &Known) -> Result<(), Memory>
        ensures titles { IfOk result (λ _. titles self.new.all.items ≡ titles self.old.all.items ++ input_title (known_view known.now)) }
    {
        if is_input(&known.desc) {
            self.put_input(alloc, known)?;
            return Ok(());
        }
        Ok(())
    }

    /// A node for the description of an input.
    fn put_input(&mut self, alloc: Global, known: &Known) -> Result<(), Memory>
        ensures titles { IfOk result (λ _. titles self.new.all.items ≡ titles self.old.all.items ++ shown (named_title (known_view known.now)) ∷ []) }
    {
        let node = self.all.len();
        let text = words::words(alloc, &known.desc)?;
        let tip = known_tip(alloc, known)?;
        self.push(Node {
            text,
            tip,
            colour: colour_of(&known.desc),
            count: 1,
            again: false,
            rank: Rank {
                late: false,
                at: 0,
                node,
            },
        })?;
        self.name(known.task, node)?;
        Ok(())
    }

    /// One node more.
    fn push(&mut self, node: Node) -> Result<(), Memory>
        ensures pushed { IfOk result (λ _. self.new.all.items ≡ self.old.all.items ++ node ∷ []) }
    {
        match self.all.push(node) {
            Ok(()) => Ok(()),
            Err(_) => Err(Memory),
        }
    }

    /// The node of a task.
    fn name(&mut self, task: TaskId, node: usize) -> Result<(), Memory>
        ensures nodes { self.new.all.items ≡ self.old.all.items }
    {
        match self.of_task.insert(task, node) {
            Ok(_) => Ok(()),
            Err(_) => Err(Memory),
        }
    }

    /// A node for each task, or for each head where there are many tasks.
    fn add_tasks(&mut self, alloc: Global, scene: &Scene) -> Result<(), Memory>
        ensures titles { IfOk result (λ _. length scene.now.roll.tasks.items ≤ 300 → titles self.new.all.items
            ≡ titles self.old.all.items ++ map node_title (scene_view scene.now).rows) }
    {
        let folded = scene.roll.tasks.len() > MOST_DRAWN;
        if folded {
            self.fold_all(alloc, scene, scene.roll.tasks.as_slice())?;
            return Ok(());
        }
        self.add_each(alloc, scene, scene.roll.tasks.as_slice())?;
        Ok(())
    }

    /// A node for each of these tasks.
    fn add_each(&mut self, alloc: Global, scene: &Scene, tasks: &[Task]) -> Result<(), Memory>
        ensures titles { IfOk result (λ _. titles self.new.all.items
            ≡ titles self.old.all.items ++ map node_title (map (row_view scene.now) tasks.now)) }
    {
        for task in tasks {
            self.single(alloc, scene, task)?;
        }
        Ok(())
    }

    /// A node for the heads of these tasks.
    fn fold_all(&mut self, alloc: Global, scene: &Scene, tasks: &[Task]) -> Result<(), Memory> {
        for task in tasks {
            let node = self.fold(alloc, scene, task)?;
            self.name(task.id, node)?;
        }
        Ok(())
    }

    /// A node for a task.
    fn single(&mut self, alloc: Global, scene: &Scene, task: &Task) -> Result<(), Memory>
        ensures titles { IfOk result (λ _. titles self.new.all.items ≡ titles self.old.all.items ++ node_title (row_view scene.now task.now) ∷ []) }
    {
        let node = self.all.len();
        let text = task_words(alloc, scene, task)?;
        let tip = task_tip(alloc, scene, task)?;
        self.push(Node {
            text,
            tip,
            colour: task_colour(scene, task),
            count: 1,
            again: is_again(scene, task),
            rank: rank_of(scene, task, node),
        })?;
        self.name(task.id, node)?;
        Ok(())
    }

    /// The node of a task's head, which is a new one where it has none and there aren't too many.
    fn fold(&mut self, alloc: Global, scene: &Scene, task: &Task) -> Result<usize, Memory> {
        let head = task_head(alloc, scene, task)?;
        let key = text_of(alloc, &head)?;
        if let Some(node) = self.of_head.get(&key).copied() {
            self.grow(scene, task, node);
            return Ok(node);
        }
        if self.of_head.len() >= MOST_GROUPS {
            if let Some(node) = self.all.len().checked_sub(1) {
                self.grow(scene, task, node);
                return Ok(node);
            }
        }
        let node = self.all.len();
        let mut tip = Plain::new(alloc);
        tip.put_all(&head)?;
        self.push(Node {
            text: head,
            tip,
            colour: task_colour(scene, task),
            count: 1,
            again: is_again(scene, task),
            rank: rank_of(scene, task, node),
        })?;
        match self.of_head.insert(key, node) {
            Ok(_) => Ok(node),
            Err(_) => Err(Memory),
        }
    }

    /// One task more in a node.
    fn grow(&mut self, scene: &Scene, task: &Task, node: usize) {
        let again = is_again(scene, task);
        if let Some(held) = self.all.get_mut(node) {
            held.count = held.count.saturating_add(1);
            held.again = held.again || again;
        }
    }
}

/// Whether a description is of an input.
fn is_input(desc: &Desc1) -> bool
    ensures { result ≡ is_input (desc_view desc.now) }
{
    match desc {
        Desc1::Input { key: _ } => true,
        Desc1::Call {
            fun: _,
            caught: _,
            args: _,
        } => false,
        Desc1::Exec {
            executor: _,
            args: _,
            outputs: _,
            index: _,
        } => false,
    }
}

/// Whether a task was begun again.
fn is_again(scene: &Scene, task: &Task) -> bool {
    for place in &task.runs {
        if let Some(run) = scene.runs.get(*place) {
            if run.again {
                return true;
            }
        }
    }
    false
}

/// When a task came to its end first; else those begun later come first.
fn rank_of(scene: &Scene, task: &Task, node: usize) -> Rank {
    for place in &task.runs {
        if let Some(at) = done_at(scene, *place) {
            return Rank {
                late: false,
                at,
                node,
            };
        }
    }
    Rank {
        late: true,
        at: scene.happened.len().saturating_sub(begun_at(scene, task)),
        node,
    }
}

/// Where an order came to the end of its task, if it did.
fn done_at(scene: &Scene, place: usize) -> Option<usize> {
    let run = scene.runs.get(place)?;
    match &run.end {
        Some(end) => if is_done(&end.how) {
            Some(end.at)
        } else {
            None
        },
        None => None,
    }
}

/// Where a task was begun last.
fn begun_at(scene: &Scene, task: &Task) -> usize {
    let Some(last) = task.runs.last() else {
        return 0;
    };
    match scene.runs.get(*last) {
        Some(run) => run.begun,
        None => 0,
    }
}

fn is_done(how: &How) -> bool {
    match how {
        How::Lost { loss: _ } => false,
        How::Told { outcome, made: _ } => matches!(
            outcome,
            Outcome::Made(_) | Outcome::Answer(_) | Outcome::Fault(_)
        ),
    }
}

/// A text as a key.
fn text_of(alloc: Global, text: &Plain) -> Result<Txt, Memory> {
    match str::from_utf8(text.as_slice()) {
        Ok(text) => Txt::new(alloc, text),
        Err(_) => Txt::new(alloc, ""),
    }
}
