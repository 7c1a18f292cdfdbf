//! The scene of a story, made entry by entry.

ghost use Rattle.std.specs.Prelude.{◌≡◌, [], ◌∷◌, ◌++◌, ℕ, List, IfOk, Some, length, map, slice_get};
ghost use Rattle.std.specs.List.{AllZip, cons_option, filter};
ghost use Rattle.sky_base.specs.ObjectView.{desc_view};
ghost use Rattle.sky_base.specs.Val.{Desc};
ghost use Rattle.sky_base.specs.declared.object.TaskId.{TaskId};
ghost use Rattle.ciel_look_told.specs.Head as head;
ghost use Rattle.ciel_look_told.specs.View.{head_view, outcome_view, told_view};
ghost use Rattle.ciel_look_tasks.specs.Again.{TellsOrigins, again_by, agains};
ghost use Rattle.ciel_look_tasks.specs.CutPlaces.{AreKept, cut_by, cuts_view};
ghost use Rattle.ciel_look_tasks.specs.Cuts.{cuts, out_numbers};
ghost use Rattle.ciel_look_tasks.specs.Happened.{began, closing, happened, happened_by, if_ended, lost};
ghost use Rattle.ciel_look_tasks.specs.Heads.{AreDescribed, task_place, with_begun, with_heading};
ghost use Rattle.ciel_look_tasks.specs.Known.{knowns, makers};
ghost use Rattle.ciel_look_tasks.specs.Learned.{AreMade, given, known, learned, spawned};
ghost use Rattle.ciel_look_tasks.specs.ObjectPlaces.{objects_view, placed};
ghost use Rattle.ciel_look_tasks.specs.Objects.{AreTaken, IsTaken, Taking, lost_worker, put_at, taking_by, workers_of};
ghost use Rattle.ciel_look_tasks.specs.Orders.{after_told, closed, cut, ended, is_wait, orders, out};
ghost use Rattle.ciel_look_tasks.specs.Origins.{has_origin};
ghost use Rattle.ciel_look_tasks.specs.ReportView.{TellsOutputs, makes_view, output_in, said_after, said_more, takes_view};
ghost use Rattle.ciel_look_tasks.specs.Reports.{made, objects_made, objects_of, report_at, report_by, report_copied, report_made, took};
ghost use Rattle.ciel_look_tasks.specs.Rows.{AreFiled, places_of};
ghost use Rattle.ciel_look_tasks.specs.StackPlaces.{HaveStacks, if_passes, passes, places_where, stack_counts, stacks_view};
ghost use Rattle.ciel_look_tasks.specs.Stacks.{has_stack, saved_at, stacked, stacked_by};
ghost use Rattle.ciel_look_tasks.specs.Tasks.{begun, loss_of, losses, start_of, starts, tasks, with_task, with_tasks};
ghost use Rattle.ciel_look_tasks.specs.View.{agains_view, ending_view, happened_view, headings, ids, losses_view, numbers, order_ends};
ghost use Rattle.ciel_look_tasks.specs.View.{orders_view, rows, starts_view};

use crate::book::Book;
use crate::origins::Origins;
use crate::places::{Place, Places, push, put_all};
use crate::roll::Roll;
use crate::scene::{Copied, End, Happening, How, Loss, Run, Scene, Task};
use crate::starts::Starts;
use ciel_look_told::header::Header;
use ciel_look_told::told::{Ended, Outcome, Story, Told};
use sky_base::name::Name;
use sky_base::object::TaskId;
use sky_base::text::Memory;
use std::alloc::Global;

/// The parts of a scene, and what it is made with.
#[derive(Drop)]
struct Maker {
    header: Header,
    book: Book,
    roll: Roll,
    starts: Starts,
    origins: Origins,
    places: Places,
    losses: Vec<Loss>,
    copies: Vec<Copied>,
    happened: Vec<Happening>,
    late: usize,
}

/// What was seen of a run, by its story.
///
/// Answers `Memory` for want of memory.
pub fn scene_of(alloc: Global, story: Story) -> Result<Scene, Memory>
    ensures tasks { IfOk result (λ s. ids s.roll.tasks.items ≡ tasks (map told_view story.told.items)) }
    ensures rows { IfOk result (λ s. AreFiled (rows s.roll.tasks.items) (starts_view s.runs.items)) }
    ensures descs { IfOk result (λ s. AreDescribed (head_view story.header) (map told_view story.told.items) (knowns s.known.all.items)
        (headings s.roll.tasks.items)) }
    ensures starts { IfOk result (λ s. starts_view s.runs.items ≡ starts (map told_view story.told.items)) }
    ensures losses { IfOk result (λ s. losses_view s.losses.items ≡ losses (map told_view story.told.items)) }
    ensures orders { IfOk result (λ s. orders_view s.runs.items ≡ orders (map told_view story.told.items)) }
    ensures agains { IfOk result (λ s. agains_view s.runs.items ≡ agains (map told_view story.told.items)) }
    ensures took { IfOk result (λ s. takes_view s.runs.items ≡ took (head_view story.header) (map told_view story.told.items)) }
    ensures outputs { IfOk result (λ s. makes_view s.runs.items ≡ made (head_view story.header) (map told_view story.told.items)) }
    ensures cuts { IfOk result (λ s. cuts_view (numbers s.runs.items) s.losses.items ≡ cuts (map told_view story.told.items)) }
    ensures stacked { IfOk result (λ s. stacks_view (ids s.roll.tasks.items) s.losses.items ≡ stacked (map told_view story.told.items)) }
    ensures stacks { IfOk result (λ s. stack_counts s.losses.items ≡ map length (stacked (map told_view story.told.items))) }
    ensures objects { IfOk result (λ s. AreTaken (head_view story.header) (map told_view story.told.items) (objects_view s.losses.items)) }
    ensures known { IfOk result (λ s. knowns s.known.all.items ≡ known (head_view story.header) (map told_view story.told.items)) }
    ensures made { IfOk result (λ s. AreMade (head.short (head_view story.header)) s.known.all.items) }
    ensures happened { IfOk result (λ s. happened_view s.happened.items ≡ happened (map told_view story.told.items)) }
{
    let Story { header, told } = story;
    let mut maker = Maker::new(alloc, header)?;
    for one in told {
        maker.take(alloc, one)?;
    }
    Ok(maker.into_scene())
}

impl Maker {
    /// Nothing is told; the main call and the inputs are known.
    fn new(alloc: Global, header: Header) -> Result<Maker, Memory>
        ensures tasks { IfOk result (λ m. ids m.roll.tasks.items ≡ []) }
        ensures rows { IfOk result (λ m. AreFiled (rows m.roll.tasks.items) (starts_view m.starts.runs.items)) }
        ensures headings { IfOk result (λ m. headings m.roll.tasks.items ≡ []) }
        ensures starts { IfOk result (λ m. starts_view m.starts.runs.items ≡ []) }
        ensures orders { IfOk result (λ m. orders_view m.starts.runs.items ≡ []) }
        ensures agains { IfOk result (λ m. agains_view m.starts.runs.items ≡ []) }
        ensures took { IfOk result (λ m. takes_view m.starts.runs.items ≡ []) }
        ensures outputs { IfOk result (λ m. makes_view m.starts.runs.items ≡ []) }
        ensures names { IfOk result (λ m. TellsOutputs (head.short (head_view header)) m.book.outputs (given (head_view header))) }
        ensures origins { IfOk result (λ m. TellsOrigins m.origins (starts_view m.starts.runs.items)) }
        ensures losses { IfOk result (λ m. losses_view m.losses.items ≡ []) }
        ensures cuts { IfOk result (λ m. cuts_view (numbers m.starts.runs.items) m.losses.items ≡ []) }
        ensures kept { IfOk result (λ m. AreKept (length m.starts.runs.items) m.losses.items) }
        ensures stacked { IfOk result (λ m. stacks_view (ids m.roll.tasks.items) m.losses.items ≡ []) }
        ensures places { IfOk result (λ m. (n : List ℕ) → placed m.places.at n ≡ []) }
        ensures gone { IfOk result (λ m. m.places.gone.items ≡ []) }
        ensures objects { IfOk result (λ m. objects_view m.losses.items ≡ []) }
        ensures have { IfOk result (λ m. HaveStacks (length (ids m.roll.tasks.items)) m.losses.items) }
        ensures short { IfOk result (λ m. m.book.short ≡ head.short (head_view header)) }
        ensures known { IfOk result (λ m. knowns m.book.known.all.items ≡ learned (head.short (head_view header)) [] (given (head_view header))) }
        ensures made { IfOk result (λ m. AreMade (head.short (head_view header)) m.book.known.all.items) }
        ensures happened { IfOk result (λ m. happened_view m.happened.items ≡ []) }
    {
        let book = Book::new(alloc, &header)?;
        Ok(Maker {
            header,
            book,
            roll: Roll::new(alloc),
            starts: Starts::new(alloc),
            origins: Origins::new(alloc),
            places: Places::new(alloc),
            losses: Vec::new(alloc),
            copies: Vec::new(alloc),
            happened: Vec::new(alloc),
            late: 0,
        })
    }

    fn into_scene(self) -> Scene
        ensures tasks { ids result.roll.tasks.items ≡ ids self.roll.tasks.items }
        ensures rows { rows result.roll.tasks.items ≡ rows self.roll.tasks.items }
        ensures headings { headings result.roll.tasks.items ≡ headings self.roll.tasks.items }
        ensures starts { starts_view result.runs.items ≡ starts_view self.starts.runs.items }
        ensures orders { orders_view result.runs.items ≡ orders_view self.starts.runs.items }
        ensures agains { agains_view result.runs.items ≡ agains_view self.starts.runs.items }
        ensures took { takes_view result.runs.items ≡ takes_view self.starts.runs.items }
        ensures outputs { makes_view result.runs.items ≡ makes_view self.starts.runs.items }
        ensures losses { losses_view result.losses.items ≡ losses_view self.losses.items }
        ensures cuts { cuts_view (numbers result.runs.items) result.losses.items ≡ cuts_view (numbers self.starts.runs.items) self.losses.items }
        ensures stacked { stacks_view (ids result.roll.tasks.items) result.losses.items ≡ stacks_view (ids self.roll.tasks.items) self.losses.items }
        ensures objects { objects_view result.losses.items ≡ objects_view self.losses.items }
        ensures stacks { stack_counts result.losses.items ≡ stack_counts self.losses.items }
        ensures known { knowns result.known.all.items ≡ knowns self.book.known.all.items }
        ensures makers { makers result.known.all.items ≡ makers self.book.known.all.items }
        ensures happened { happened_view result.happened.items ≡ happened_view self.happened.items }
    {
        let Maker {
            header,
            book,
            roll,
            starts,
            origins: _,
            places: _,
            losses,
            copies,
            happened,
            late,
        } = self;
        let Book {
            short: _,
            known,
            outputs: _,
        } = book;
        let Starts { runs, run_of: _ } = starts;
        Scene {
            header,
            known,
            roll,
            runs,
            losses,
            copies,
            happened,
            late,
        }
    }

    /// Takes an entry of the story.
    fn take(&mut self, alloc: Global, told: Told) -> Result<(), Memory>
        ensures tasks { IfOk result (λ _. ids self.new.roll.tasks.items ≡ with_tasks (ids self.old.roll.tasks.items) (begun (told_view told))) }
        ensures headings { IfOk result (λ _. headings self.new.roll.tasks.items
            ≡ with_begun self.old.book.known.all.items (headings self.old.roll.tasks.items) (told_view told)) }
        ensures rows { IfOk result (λ _. AreFiled (rows self.old.roll.tasks.items) (starts_view self.old.starts.runs.items)
            → AreFiled (rows self.new.roll.tasks.items) (starts_view self.new.starts.runs.items)) }
        ensures starts { IfOk result (λ _. starts_view self.new.starts.runs.items
            ≡ starts_view self.old.starts.runs.items ++ start_of (told_view told)) }
        ensures orders { IfOk result (λ _. orders_view self.new.starts.runs.items
            ≡ after_told (told_view told) (orders_view self.old.starts.runs.items)) }
        ensures agains { IfOk result (λ _. agains_view self.new.starts.runs.items
            ≡ agains_view self.old.starts.runs.items ++ again_by self.old.origins (told_view told)) }
        ensures took { IfOk result (λ _. (ds : List (Desc (List ℕ))) → takes_view self.new.starts.runs.items
            ≡ said_after report_copied (told_view told) (report_by self.old.book.short ds (orders_view self.old.starts.runs.items) (told_view told))
            (takes_view self.old.starts.runs.items)) }
        ensures outputs { IfOk result (λ _. (ds : List (Desc (List ℕ))) → TellsOutputs self.old.book.short self.old.book.outputs ds
            → makes_view self.new.starts.runs.items ≡ said_after report_made (told_view told)
            (report_by self.old.book.short (ds ++ spawned (told_view told)) (orders_view self.old.starts.runs.items) (told_view told))
            (makes_view self.old.starts.runs.items)) }
        ensures names { IfOk result (λ _. (ds : List (Desc (List ℕ))) → TellsOutputs self.old.book.short self.old.book.outputs ds
            → TellsOutputs self.old.book.short self.new.book.outputs (ds ++ spawned (told_view told))) }
        ensures origins { IfOk result (λ _. TellsOrigins self.old.origins (starts_view self.old.starts.runs.items)
            → TellsOrigins self.new.origins (starts_view self.new.starts.runs.items)) }
        ensures losses { IfOk result (λ _. losses_view self.new.losses.items ≡ losses_view self.old.losses.items ++ loss_of (told_view told)) }
        ensures cuts { IfOk result (λ _. AreKept (length self.old.starts.runs.items) self.old.losses.items
            → cuts_view (numbers self.new.starts.runs.items) self.new.losses.items
            ≡ cuts_view (numbers self.old.starts.runs.items) self.old.losses.items ++ cut_by (orders_view self.old.starts.runs.items) (told_view told)) }
        ensures kept { IfOk result (λ _. AreKept (length self.old.starts.runs.items) self.old.losses.items
            → AreKept (length self.new.starts.runs.items) self.new.losses.items) }
        ensures stacked { IfOk result (λ _. AreFiled (rows self.old.roll.tasks.items) (starts_view self.old.starts.runs.items)
            → HaveStacks (length (ids self.old.roll.tasks.items)) self.old.losses.items
            → stacks_view (ids self.new.roll.tasks.items) self.new.losses.items ≡ stacks_view (ids self.old.roll.tasks.items) self.old.losses.items
            ++ stacked_by (ids self.old.roll.tasks.items) (orders_view self.old.starts.runs.items) (told_view told)) }
        ensures have { IfOk result (λ _. AreFiled (rows self.old.roll.tasks.items) (starts_view self.old.starts.runs.items)
            → HaveStacks (length (ids self.old.roll.tasks.items)) self.old.losses.items
            → HaveStacks (length (ids self.new.roll.tasks.items)) self.new.losses.items) }
        ensures places { IfOk result (λ _. (ds : List (Desc (List ℕ))) → TellsOutputs self.old.book.short self.old.book.outputs ds
            → (n : List ℕ) → placed self.new.places.at n ≡ placed self.old.places.at n ++ workers_of (report_by self.old.book.short
            (ds ++ spawned (told_view told)) (orders_view self.old.starts.runs.items) (told_view told)) n) }
        ensures gone { IfOk result (λ _. self.new.places.gone.items ≡ self.old.places.gone.items ++ map lost_worker (loss_of (told_view told))) }
        ensures objects { IfOk result (λ _. (ts : List Taking) → AllZip IsTaken ts (objects_view self.old.losses.items)
            → AllZip IsTaken (ts ++ taking_by self.old.places.gone.items (placed self.old.places.at) (told_view told)) (objects_view self.new.losses.items)) }
        ensures short { self.new.book.short ≡ self.old.book.short }
        ensures known { IfOk result (λ _. knowns self.new.book.known.all.items
            ≡ learned self.old.book.short (knowns self.old.book.known.all.items) (spawned (told_view told))) }
        ensures made { IfOk result (λ _. AreMade self.old.book.short self.old.book.known.all.items
            → AreMade self.old.book.short self.new.book.known.all.items) }
        ensures happened { IfOk result (λ _. happened_view self.new.happened.items
            ≡ happened_view self.old.happened.items ++ happened_by (length (starts_view self.old.starts.runs.items)) (orders_view self.old.starts.runs.items)
            (length (losses_view self.old.losses.items)) (told_view told)) }
    {
        match told {
            Told::Start {
                number,
                worker,
                from,
                task,
            } => {
                self.begin(alloc, number, worker, from, &task)?;
                Ok(())
            }
            Told::Ended(ended) => {
                self.end(alloc, ended)?;
                Ok(())
            }
            Told::Lost { worker, after } => {
                self.lose(alloc, worker, after)?;
                Ok(())
            }
            Told::Late { number: _ } => {
                self.late = self.late.saturating_add(1);
                Ok(())
            }
        }
    }

    /// A task is started.
    fn begin(
        &mut self,
        alloc: Global,
        number: u64,
        worker: u32,
        from: u32,
        id: &TaskId,
    ) -> Result<(), Memory>
        ensures tasks { IfOk result (λ _. ids self.new.roll.tasks.items ≡ with_task (ids self.old.roll.tasks.items) id.now) }
        ensures headings { IfOk result (λ _. headings self.new.roll.tasks.items
            ≡ with_heading (headings self.old.roll.tasks.items) id.now (task_place id.now self.old.book.known.all.items)) }
        ensures rows { IfOk result (λ _. AreFiled (rows self.old.roll.tasks.items) (starts_view self.old.starts.runs.items)
            → AreFiled (rows self.new.roll.tasks.items) (starts_view self.new.starts.runs.items)) }
        ensures starts { IfOk result (λ _. starts_view self.new.starts.runs.items
            ≡ starts_view self.old.starts.runs.items ++ (number, (worker, (from, id.now))) ∷ []) }
        ensures orders { IfOk result (λ _. orders_view self.new.starts.runs.items
            ≡ orders_view self.old.starts.runs.items ++ ((number, (worker, (from, id.now))), out) ∷ []) }
        ensures agains { IfOk result (λ _. agains_view self.new.starts.runs.items
            ≡ agains_view self.old.starts.runs.items ++ has_origin self.old.origins id.now from ∷ []) }
        ensures took { IfOk result (λ _. takes_view self.new.starts.runs.items ≡ takes_view self.old.starts.runs.items ++ [] ∷ []) }
        ensures outputs { IfOk result (λ _. makes_view self.new.starts.runs.items ≡ makes_view self.old.starts.runs.items ++ [] ∷ []) }
        ensures origins { IfOk result (λ _. TellsOrigins self.old.origins (starts_view self.old.starts.runs.items)
            → TellsOrigins self.new.origins (starts_view self.new.starts.runs.items)) }
        ensures losses { self.new.losses ≡ self.old.losses }
        ensures places { self.new.places ≡ self.old.places }
        ensures book { self.new.book ≡ self.old.book }
        ensures happened { IfOk result (λ _. happened_view self.new.happened.items
            ≡ happened_view self.old.happened.items ++ began (length (starts_view self.old.starts.runs.items)) ∷ []) }
    {
        let known = self.book.of_task(id);
        let task = self.roll.enter(alloc, id, known)?;
        let again = self.origins.note(id, from)?;
        let run = self.starts.begin(Run {
            number,
            worker,
            from,
            id: *id,
            task,
            begun: self.happened.len(),
            again,
            end: None,
        })?;
        self.roll.note(task, run)?;
        push(&mut self.happened, Happening::Begun(run))?;
        Ok(())
    }

    /// An order ended.
    fn end(&mut self, alloc: Global, ended: Ended) -> Result<(), Memory>
        ensures tasks { IfOk result (λ _. ids self.new.roll.tasks.items ≡ ids self.old.roll.tasks.items) }
        ensures rows { IfOk result (λ _. rows self.new.roll.tasks.items ≡ rows self.old.roll.tasks.items) }
        ensures headings { IfOk result (λ _. headings self.new.roll.tasks.items ≡ headings self.old.roll.tasks.items) }
        ensures starts { IfOk result (λ _. starts_view self.new.starts.runs.items ≡ starts_view self.old.starts.runs.items) }
        ensures orders { IfOk result (λ _. orders_view self.new.starts.runs.items
            ≡ closed ended.number (outcome_view ended.how) (orders_view self.old.starts.runs.items)) }
        ensures took { IfOk result (λ _. (ds : List (Desc (List ℕ))) → takes_view self.new.starts.runs.items
            ≡ said_more report_copied (report_at self.old.book.short ds (orders_view self.old.starts.runs.items) ended.copied.items
            (outcome_view ended.how) (closing ended.number (orders_view self.old.starts.runs.items))) (takes_view self.old.starts.runs.items)) }
        ensures outputs { IfOk result (λ _. (ds : List (Desc (List ℕ))) → TellsOutputs self.old.book.short self.old.book.outputs ds
            → makes_view self.new.starts.runs.items ≡ said_more report_made (report_at self.old.book.short (ds ++ map desc_view ended.spawned.items)
            (orders_view self.old.starts.runs.items) ended.copied.items (outcome_view ended.how)
            (closing ended.number (orders_view self.old.starts.runs.items))) (makes_view self.old.starts.runs.items)) }
        ensures names { IfOk result (λ _. (ds : List (Desc (List ℕ))) → TellsOutputs self.old.book.short self.old.book.outputs ds
            → TellsOutputs self.old.book.short self.new.book.outputs (ds ++ map desc_view ended.spawned.items)) }
        ensures agains { IfOk result (λ _. agains_view self.new.starts.runs.items ≡ agains_view self.old.starts.runs.items) }
        ensures origins { self.new.origins ≡ self.old.origins }
        ensures losses { self.new.losses ≡ self.old.losses }
        ensures places { IfOk result (λ _. (ds : List (Desc (List ℕ))) → TellsOutputs self.old.book.short self.old.book.outputs ds
            → (n : List ℕ) → placed self.new.places.at n ≡ placed self.old.places.at n ++ workers_of (report_at self.old.book.short
            (ds ++ map desc_view ended.spawned.items) (orders_view self.old.starts.runs.items) ended.copied.items (outcome_view ended.how)
            (closing ended.number (orders_view self.old.starts.runs.items))) n) }
        ensures gone { self.new.places.gone ≡ self.old.places.gone }
        ensures short { self.new.book.short ≡ self.old.book.short }
        ensures known { IfOk result (λ _. knowns self.new.book.known.all.items
            ≡ learned self.old.book.short (knowns self.old.book.known.all.items) (map desc_view ended.spawned.items)) }
        ensures made { IfOk result (λ _. AreMade self.old.book.short self.old.book.known.all.items
            → AreMade self.old.book.short self.new.book.known.all.items) }
        ensures happened { IfOk result (λ _. happened_view self.new.happened.items
            ≡ happened_view self.old.happened.items ++ if_ended (closing ended.number (orders_view self.old.starts.runs.items))) }
    {
        let Ended {
            number,
            spawned,
            copied,
            how,
        } = ended;
        self.book.learn_all(alloc, spawned)?;
        let Some(held) = self.starts.order(number) else {
            return Ok(());
        };
        let place = Place {
            worker: held.worker,
            run: held.run,
        };
        let made = made(alloc, &self.book, &held.id, &how)?;
        put_all(alloc, &mut self.places, made.as_slice(), place)?;
        copy_all(
            alloc,
            &mut self.places,
            &mut self.copies,
            copied.as_slice(),
            place,
        )?;
        let at = self.happened.len();
        self.starts.close(
            held.run,
            End {
                at,
                how: How::Told { outcome: how, made },
                took: copied,
            },
        );
        push(&mut self.happened, Happening::Ended(held.run))?;
        Ok(())
    }

    /// A worker is lost, and the orders that it had end so.
    fn lose(&mut self, alloc: Global, worker: u32, after: u64) -> Result<(), Memory>
        ensures tasks { IfOk result (λ _. ids self.new.roll.tasks.items ≡ ids self.old.roll.tasks.items) }
        ensures rows { IfOk result (λ _. rows self.new.roll.tasks.items ≡ rows self.old.roll.tasks.items) }
        ensures headings { IfOk result (λ _. headings self.new.roll.tasks.items ≡ headings self.old.roll.tasks.items) }
        ensures starts { IfOk result (λ _. starts_view self.new.starts.runs.items ≡ starts_view self.old.starts.runs.items) }
        ensures orders { IfOk result (λ _. orders_view self.new.starts.runs.items ≡ map (cut worker) (orders_view self.old.starts.runs.items)) }
        ensures agains { IfOk result (λ _. agains_view self.new.starts.runs.items ≡ agains_view self.old.starts.runs.items) }
        ensures took { IfOk result (λ _. takes_view self.new.starts.runs.items ≡ takes_view self.old.starts.runs.items) }
        ensures outputs { IfOk result (λ _. makes_view self.new.starts.runs.items ≡ makes_view self.old.starts.runs.items) }
        ensures origins { self.new.origins ≡ self.old.origins }
        ensures losses { IfOk result (λ _. losses_view self.new.losses.items ≡ losses_view self.old.losses.items ++ (worker, after) ∷ []) }
        ensures cuts { IfOk result (λ _. cuts_view (numbers self.new.starts.runs.items) self.new.losses.items
            ≡ cuts_view (numbers self.old.starts.runs.items) self.old.losses.items ++ out_numbers worker (orders_view self.old.starts.runs.items) ∷ []) }
        ensures kept { IfOk result (λ _. AreKept (length self.old.starts.runs.items) self.old.losses.items
            → AreKept (length self.new.starts.runs.items) self.new.losses.items) }
        ensures stacked { IfOk result (λ _. AreFiled (rows self.old.roll.tasks.items) (starts_view self.old.starts.runs.items)
            → stacks_view (ids self.new.roll.tasks.items) self.new.losses.items ≡ stacks_view (ids self.old.roll.tasks.items) self.old.losses.items
            ++ filter (has_stack worker (orders_view self.old.starts.runs.items)) (ids self.old.roll.tasks.items) ∷ []) }
        ensures have { IfOk result (λ _. AreFiled (rows self.old.roll.tasks.items) (starts_view self.old.starts.runs.items)
            → HaveStacks (length (ids self.old.roll.tasks.items)) self.old.losses.items
            → HaveStacks (length (ids self.new.roll.tasks.items)) self.new.losses.items) }
        ensures book { self.new.book ≡ self.old.book }
        ensures places { self.new.places.at ≡ self.old.places.at }
        ensures gone { IfOk result (λ _. self.new.places.gone.items ≡ self.old.places.gone.items ++ worker ∷ []) }
        ensures objects { IfOk result (λ _. (ts : List Taking) → AllZip IsTaken ts (objects_view self.old.losses.items)
            → AllZip IsTaken (ts ++ record { worker = worker; gone = self.old.places.gone.items; at = placed self.old.places.at } ∷ [])
            (objects_view self.new.losses.items)) }
        ensures happened { IfOk result (λ _. happened_view self.new.happened.items
            ≡ happened_view self.old.happened.items ++ lost (length (losses_view self.old.losses.items)) ∷ []) }
    {
        let at = self.happened.len();
        let loss = self.losses.len();
        let objects = self.places.lose(alloc, worker)?;
        let stacks = stacks_at(alloc, &self.roll, self.starts.runs.as_slice(), worker)?;
        let runs = self.starts.cut(alloc, worker, at, loss)?;
        push(
            &mut self.losses,
            Loss {
                worker,
                after,
                at,
                objects,
                stacks,
                runs,
            },
        )?;
        push(&mut self.happened, Happening::Lost(loss))?;
        Ok(())
    }
}

/// The names of the objects that an order made, as far as they are known.
fn made(alloc: Global, book: &Book, id: &TaskId, how: &Outcome) -> Result<Vec<Name>, Memory>
    ensures made { IfOk result (λ names. (ds : List (Desc (List ℕ))) → TellsOutputs book.now.short book.now.outputs ds
        → names.items ≡ objects_made book.now.short ds id.now (outcome_view how.now)) }
{
    match how {
        Outcome::Made(weights) => {
            let names = objects_of(alloc, book, id, weights.len())?;
            Ok(names)
        }
        Outcome::Saved {
            j: _,
            weight: _,
            waits: _,
        } => Ok(Vec::new(alloc)),
        Outcome::Answer(_) => Ok(Vec::new(alloc)),
        Outcome::Fault(_) => Ok(Vec::new(alloc)),
        Outcome::Missing { name: _, loss: _ } => Ok(Vec::new(alloc)),
    }
}

/// The names of so many objects of a task, as far as they are known.
fn objects_of(alloc: Global, book: &Book, id: &TaskId, count: usize) -> Result<Vec<Name>, Memory>
    ensures names { IfOk result (λ names. (ds : List (Desc (List ℕ))) → TellsOutputs book.now.short book.now.outputs ds
        → names.items ≡ objects_of book.now.short ds id.now count) }
{
    match id {
        TaskId::Show => Ok(Vec::new(alloc)),
        TaskId::Of(name) => {
            let names = outputs_of(alloc, book, name, count)?;
            Ok(names)
        }
    }
}

/// The names of so many outputs of the task of a name, as far as they are known: its own is that of the first one.
fn outputs_of(alloc: Global, book: &Book, task: &Name, count: usize) -> Result<Vec<Name>, Memory>
    ensures names { IfOk result (λ names. (ds : List (Desc (List ℕ))) → TellsOutputs book.now.short book.now.outputs ds
        → names.items ≡ objects_of book.now.short ds (TaskId.Of task.now) count) }
{
    let mut names = Vec::new(alloc);
    push(&mut names, *task)?;
    for index in 1..count {
        add_output(&mut names, book, task, index)?;
    }
    Ok(names)
}

/// The name of an output, where it is known.
fn add_output(names: &mut Vec<Name>, book: &Book, task: &Name, index: usize) -> Result<(), Memory>
    ensures added { IfOk result (λ _. names.new.items ≡ names.old.items ++ cons_option (output_in book.now.outputs task.now index) []) }
{
    match book.output(task, index) {
        Some(name) => {
            push(names, name)?;
            Ok(())
        }
        None => Ok(()),
    }
}

/// What an order took along is copied.
fn copy_all(
    alloc: Global,
    places: &mut Places,
    copies: &mut Vec<Copied>,
    names: &[Name],
    place: Place,
) -> Result<(), Memory>
    ensures put { IfOk result (λ _. (n : List ℕ) → placed places.new.at n ≡ placed places.old.at n ++ put_at place.worker names.now n) }
    ensures gone { places.new.gone ≡ places.old.gone }
{
    for name in names {
        let from = places.first(name);
        push(
            copies,
            Copied {
                name: *name,
                run: place.run,
                from,
            },
        )?;
        places.put(alloc, *name, place)?;
    }
    Ok(())
}

/// The places of the tasks whose last order ended at a wait, with the stack at this worker.
fn stacks_at(alloc: Global, roll: &Roll, runs: &[Run], worker: u32) -> Result<Vec<usize>, Memory>
    ensures places { IfOk result (λ ps. AreFiled (rows roll.now.tasks.items) (starts_view runs.now)
        → ps.items ≡ places_where (has_stack worker (orders_view runs.now)) 0 (ids roll.now.tasks.items)) }
{
    let mut stacks = Vec::new(alloc);
    for place in 0..roll.tasks.len() {
        add_stack(&mut stacks, roll, runs, place, worker)?;
    }
    Ok(stacks)
}

/// The place of a task, where its stack lies at this worker.
fn add_stack(
    stacks: &mut Vec<usize>,
    roll: &Roll,
    runs: &[Run],
    place: usize,
    worker: u32,
) -> Result<(), Memory>
    ensures places { IfOk result (λ _. AreFiled (rows roll.now.tasks.items) (starts_view runs.now)
        → stacks.new.items ≡ stacks.old.items ++ if_passes (has_stack worker (orders_view runs.now)) place (slice_get (ids roll.now.tasks.items) place)) }
{
    if has_stack_at(roll, runs, place, worker) {
        push(stacks, place)?;
        return Ok(());
    }
    Ok(())
}

/// Whether the stack of the task at a place lies at this worker.
fn has_stack_at(roll: &Roll, runs: &[Run], place: usize, worker: u32) -> bool
    ensures { AreFiled (rows roll.now.tasks.items) (starts_view runs.now)
        → result ≡ passes (has_stack worker (orders_view runs.now)) (slice_get (ids roll.now.tasks.items) place) }
{
    match roll.tasks.get(place) {
        Some(task) => has_stack(runs, task, worker),
        None => false,
    }
}

/// Whether the last order of a task ended at a wait, at this worker.
fn has_stack(runs: &[Run], task: &Task, worker: u32) -> bool
    ensures { task.now.runs.items ≡ places_of task.now.id 0 (starts_view runs.now)
        → result ≡ has_stack worker (orders_view runs.now) task.now.id }
{
    match task.runs.last() {
        Some(last) => saved_there(runs, *last, worker),
        None => false,
    }
}

/// Whether the order at a place ended at a wait, at this worker.
fn saved_there(runs: &[Run], place: usize, worker: u32) -> bool
    ensures { result ≡ saved_at worker (slice_get (orders_view runs.now) place) }
{
    match runs.get(place) {
        Some(run) => saved_at(run, worker),
        None => false,
    }
}

/// Whether an order ended at a wait, at this worker.
fn saved_at(run: &Run, worker: u32) -> bool
    ensures { result ≡ saved_at worker (Some (order_ends run.now)) }
{
    worker == run.worker && is_saved(run)
}

/// Whether an order ended at a wait.
pub fn is_saved(run: &Run) -> bool
    ensures saved { result ≡ is_wait (ending_view run.now.end) }
{
    match &run.end {
        Some(end) => match &end.how {
            How::Told { outcome, made: _ } => is_wait(outcome),
            How::Lost { loss: _ } => false,
        },
        None => false,
    }
}

/// Whether a report tells of a wait.
fn is_wait(outcome: &Outcome) -> bool
    ensures { result ≡ is_wait (ended (outcome_view outcome.now)) }
{
    match outcome {
        Outcome::Saved {
            j: _,
            weight: _,
            waits: _,
        } => true,
        Outcome::Made(_) => false,
        Outcome::Answer(_) => false,
        Outcome::Fault(_) => false,
        Outcome::Missing { name: _, loss: _ } => false,
    }
}
