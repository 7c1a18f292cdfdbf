//! What is known of a run's descriptions.

ghost use Rattle.std.specs.Prelude.{◌≡◌, [], ◌∷◌, ◌++◌, ◌&&◌, ℕ, List, IfOk, Some, cond, map, nat_eq};
ghost use Rattle.sky_base.specs.ObjectView.{desc_view};
ghost use Rattle.sky_base.specs.Val.{Desc};
ghost use Rattle.sky_base.specs.declared.object.TaskId.{TaskId};
ghost use Rattle.ciel_look_told.specs.Head as head;
ghost use Rattle.ciel_look_told.specs.View.{head_view};
ghost use Rattle.ciel_look_tasks.specs.Heads.{task_place};
ghost use Rattle.ciel_look_tasks.specs.Known.{knowns, with_known};
ghost use Rattle.ciel_look_tasks.specs.Learned.{AreMade, given, learned, with_name};
ghost use Rattle.ciel_look_tasks.specs.ReportView.{TellsOutputs, output_in};
ghost use Rattle.ciel_look_tasks.specs.Tasks.{same_task};

use crate::register::Register;
use ciel_look_told::header::Header;
use ciel_look_words::known::{Known, named};
use sky_base::name::Name;
use sky_base::object::{Desc1, TaskId};
use sky_base::text::{Memory, Txt};
use sky_base::value::{Pairs, Vals};
use std::alloc::Global;
use std::collections::BTreeMap;

/// Whether names are short, the descriptions that are known, and the name of each output, by the name of its task and its number.
#[derive(Drop)]
pub struct Book {
    pub short: bool,
    pub known: Register,
    pub outputs: BTreeMap<(Name, usize), Name>,
}

impl Book {
    /// What is known before anything is spawned: the main call, and the inputs.
    pub fn new(alloc: Global, header: &Header) -> Result<Book, Memory>
        ensures short { IfOk result (λ b. b.short ≡ head.short (head_view header.now)) }
        ensures known { IfOk result (λ b. knowns b.known.all.items ≡ learned (head.short (head_view header.now)) [] (given (head_view header.now))) }
        ensures made { IfOk result (λ b. AreMade (head.short (head_view header.now)) b.known.all.items) }
        ensures outputs { IfOk result (λ b. TellsOutputs (head.short (head_view header.now)) b.outputs (given (head_view header.now))) }
    {
        let mut book = Book {
            short: header.job.short,
            known: Register::new(alloc),
            outputs: BTreeMap::new(alloc),
        };
        let main = Desc1::Call {
            fun: Txt::new(alloc, "")?,
            caught: Pairs::new(alloc),
            args: Vals::new(alloc),
        };
        book.learn(alloc, main)?;
        for input in &header.job.inputs {
            let key = input.key.share()?;
            book.learn(alloc, Desc1::Input { key })?;
        }
        Ok(book)
    }

    /// Learns descriptions.
    pub fn learn_all(&mut self, alloc: Global, spawned: Vec<Desc1>) -> Result<(), Memory>
        ensures short { self.new.short ≡ self.old.short }
        ensures known { IfOk result (λ _. knowns self.new.known.all.items
            ≡ learned self.old.short (knowns self.old.known.all.items) (map desc_view spawned.items)) }
        ensures made { IfOk result (λ _. AreMade self.old.short self.old.known.all.items → AreMade self.old.short self.new.known.all.items) }
        ensures outputs { IfOk result (λ _. (ds : List (Desc (List ℕ))) → TellsOutputs self.old.short self.old.outputs ds
            → TellsOutputs self.old.short self.new.outputs (ds ++ map desc_view spawned.items)) }
    {
        for desc in spawned {
            self.learn(alloc, desc)?;
        }
        Ok(())
    }

    /// Learns a description, where its name is new.
    fn learn(&mut self, alloc: Global, desc: Desc1) -> Result<(), Memory>
        ensures short { self.new.short ≡ self.old.short }
        ensures known { IfOk result (λ _. knowns self.new.known.all.items
            ≡ with_known (knowns self.old.known.all.items) (with_name self.old.short (desc_view desc))) }
        ensures made { IfOk result (λ _. AreMade self.old.short self.old.known.all.items → AreMade self.old.short self.new.known.all.items) }
        ensures outputs { IfOk result (λ _. (ds : List (Desc (List ℕ))) → TellsOutputs self.old.short self.old.outputs ds
            → TellsOutputs self.old.short self.new.outputs (ds ++ desc_view desc ∷ [])) }
    {
        let one = named(alloc, self.short, desc)?;
        note_output(&mut self.outputs, &one)?;
        self.known.learn(one)?;
        Ok(())
    }

    /// The place of a task's description.
    pub fn of_task(&self, id: &TaskId) -> Option<usize>
        ensures place { result ≡ task_place id.now self.now.known.all.items }
    {
        match id {
            TaskId::Show => None,
            TaskId::Of(name) => self.known.place(name),
        }
    }

    /// The name of an output of a task, if it is known.
    pub fn output(&self, task: &Name, index: usize) -> Option<Name>
        ensures name { result ≡ output_in self.now.outputs task.now index }
    {
        self.outputs.get(&(*task, index)).copied()
    }
}

/// The name of an output, where the description is of one.
fn note_output(names: &mut BTreeMap<(Name, usize), Name>, one: &Known) -> Result<(), Memory>
    ensures noted { IfOk result (λ _. (ds : List (Desc (List ℕ))) → TellsOutputs one.now.short names.old ds
        → TellsOutputs one.now.short names.new (ds ++ desc_view one.now.desc ∷ [])) }
{
    match &one.desc {
        Desc1::Exec {
            executor: _,
            args: _,
            outputs: _,
            index,
        } => {
            put_output(names, one, *index as usize)?;
            Ok(())
        }
        Desc1::Call {
            fun: _,
            caught: _,
            args: _,
        } => Ok(()),
        Desc1::Input { key: _ } => Ok(()),
    }
}

/// The name of the output of this number of its task.
fn put_output(
    names: &mut BTreeMap<(Name, usize), Name>,
    one: &Known,
    index: usize,
) -> Result<(), Memory>
    ensures put { IfOk result (λ _. (n : List ℕ) (i : ℕ) → output_in names.new n i
        ≡ cond (same_task (TaskId.Of n) one.now.task && nat_eq index i) (Some one.now.name) (output_in names.old n i)) }
{
    let TaskId::Of(task) = one.task else {
        return Ok(());
    };
    match names.insert((task, index), one.name) {
        Ok(_) => Ok(()),
        Err(_) => Err(Memory),
    }
}
