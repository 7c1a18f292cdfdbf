//! The story of a log's file.

ghost use Rattle.std.specs.Prelude.{◌≡◌, ◌≤◌, ◌<◌, ◌+◌, ◌^◌, [], ◌∷◌, ◌++◌, IfErr, IfOk, map};
ghost use Rattle.ciel_log_read.specs.File.{RecordAt};
ghost use Rattle.ciel_log_read.specs.View.{record_view};
ghost use Rattle.ciel_look_told.specs.Head.{IsHead, head_bytes};
ghost use Rattle.ciel_look_story.specs.Inside.{Goes, stand_of};
ghost use Rattle.ciel_look_story.specs.Story.{NotLog, Rests, Tells};
ghost use Rattle.ciel_look_story.specs.Refusal.{IfNotLog};
ghost use Rattle.ciel_look_told.specs.View.{head_view, told_view};

use crate::read_header::read_header;
use crate::teller::Teller;
use ciel_log_read::file::next_record;
use ciel_log_read::read::read_record;
use ciel_log_read::record::Record;
use ciel_look_told::header::Header;
use ciel_look_told::told::{Story, Told};
use ciel_name::refusal::Decode;
use sky_base::text::Memory;
use std::alloc::Global;

/// Why there is no story.
#[derive(Clone, Copy)]
pub enum NoStory {
    /// The bytes are no log's: at this place stands no header, or a whole record that is none.
    NotLog { at: usize },
    /// Want of memory.
    Memory,
}

impl From<Memory> for NoStory {
    ghost use Rattle.ciel_look_story.specs.declared.story.NoStory.{NoStory};
    ghost use Rattle.std.specs.Prelude.{◌≡◌};

    ghost from_gives = { λ _ e. e ≡ NoStory.Memory };

    fn from(_refused: Memory) -> NoStory {
        NoStory::Memory
    }
}

/// What the file of a log tells: its header, its records in order, each told as it is, and the losses where they are due. A last record that
/// is cut is left out.
///
/// Answers `NotLog` exactly where the file begins with no header, which is its place 0, or where behind whole records stands at this place a
/// whole one that is none; and `Memory` for want of memory.
pub fn read_story(alloc: Global, log: &[u8]) -> Result<Story, NoStory>
    ensures told { IfOk result (λ s. Tells log.now (head_view s.header) (map told_view s.told.items)) }
    ensures refused { IfErr result (λ e. IfNotLog e (NotLog log.now)) }
{
    let Some((bytes, first)) = next_record(log, 0) else {
        return Err(NoStory::NotLog { at: 0 });
    };
    let header = match read_header(alloc, bytes) {
        Ok(header) => header,
        Err(Decode::NotValue) => return Err(NoStory::NotLog { at: 0 }),
        Err(Decode::Memory) => return Err(NoStory::Memory),
    };
    let told = tell_records(alloc, log, first, &header)?;
    Ok(Story { header, told })
}

/// What the records behind a header tell.
fn tell_records(
    alloc: Global,
    log: &[u8],
    first: usize,
    header: &Header,
) -> Result<Vec<Told>, NoStory>
    requires header { RecordAt log.now 0 (head_bytes (head_view header.now)) first }
    requires good { IsHead (head_view header.now) }
    ensures told { IfOk result (λ ts. Tells log.now (head_view header.now) (map told_view ts.items)) }
    ensures refused { IfErr result (λ e. IfNotLog e (NotLog log.now)) }
{
    let losses = header.losses.as_slice();
    let mut teller = Teller::new(alloc);
    let mut told = Vec::new(alloc);
    let mut at = first;
    while let Some((bytes, next)) = next_record(log, at) {
        let record = match read_record(alloc, bytes) {
            Ok(record) => record,
            Err(Decode::NotValue) => return Err(NoStory::NotLog { at }),
            Err(Decode::Memory) => return Err(NoStory::Memory),
        };
        tell_one(alloc, &mut teller, losses, record, &mut told)?;
        at = next;
    }
    tell_losses(&mut teller, losses, &mut told)?;
    Ok(told)
}

/// The losses that are due, and then a record.
fn tell_one(
    alloc: Global,
    teller: &mut Teller,
    losses: &[(u32, u32)],
    next: Record,
    told: &mut Vec<Told>,
) -> Result<(), Memory>
    requires room { teller.old.closes + 1 < 2 ^ 64 }
    ensures goes { IfOk result (λ _. Goes losses.now (stand_of teller.old) (record_view next ∷ []) (map told_view told.old.items)
        (map told_view told.new.items) (stand_of teller.new)) }
    ensures closes { IfOk result (λ _. teller.new.closes ≤ teller.old.closes + 1) }
{
    tell_losses(teller, losses, told)?;
    let one = teller.tell(alloc, next)?;
    put(told, one)?;
    Ok(())
}

/// The losses that are due, one after another.
fn tell_losses(
    teller: &mut Teller,
    losses: &[(u32, u32)],
    told: &mut Vec<Told>,
) -> Result<(), Memory>
    ensures goes { IfOk result (λ _. Goes losses.now (stand_of teller.old) [] (map told_view told.old.items) (map told_view told.new.items)
        (stand_of teller.new)) }
    ensures rests { IfOk result (λ _. Rests losses.now (stand_of teller.new)) }
    ensures closes { IfOk result (λ _. teller.new.closes ≡ teller.old.closes) }
{
    while let Some(worker) = teller.next_loss(losses) {
        put(
            told,
            Told::Lost {
                worker,
                after: teller.closes,
            },
        )?;
        teller.lose(worker)?;
    }
    Ok(())
}

/// Puts an entry at the end.
fn put(told: &mut Vec<Told>, one: Told) -> Result<(), Memory>
    ensures { IfOk result (λ _. map told_view told.new.items ≡ map told_view told.old.items ++ told_view one ∷ []) }
{
    match told.push(one) {
        Ok(()) => Ok(()),
        Err(_) => Err(Memory),
    }
}
