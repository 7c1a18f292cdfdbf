//! What stands behind the files of a line's job: the memo that it begins or reads, and the log that it goes on from.

ghost use Rattle.std.specs.Prelude.{◌≡◌, ◌≤◌, ◌<◌, ◌^◌, ◌-◌, [], is_some, option_map, IfErr, IfOk, IfSome, OnOk, length};
ghost use Rattle.sky_base.specs.KitView.{Gives};
ghost use Rattle.ciel_io.specs.Faults.{HasRisen};
ghost use Rattle.ciel_io.specs.Tells.{Tells};
ghost use Rattle.ciel_memo_file.specs.File.{BadAt, IsMemo};
ghost use Rattle.ciel_words.specs.Sound.{LineIsSound};
ghost use Rattle.ciel_run_line.specs.Answering.{AsksLast, IfBadHere, NoMemoBy, Unread as NotRead};
ghost use Rattle.ciel_run_line.specs.Given.{BeginsWith, GivesOf, IsRecalled, memo_path};
ghost use Rattle.ciel_run_line.specs.Recall.{gives_with};
ghost use Rattle.ciel_run_line.specs.Line.{named};

use ciel_io::files::Files;
use ciel_memo::kit::MemoKit;
use ciel_memo_file::law::files_are_told_in_one_way;
use ciel_memo_file::memo::Memo;
use ciel_memo_file::refusal::MemoRefusal;
use ciel_run_load::read::{Unread, read};
use ciel_run_log::why::Why;
use ciel_words::words::Words;
use line_flow::kit::FlowKit;
use sky_base::text::{Bytes, Memory, Txt};
use std::alloc::Global;
use std::sync::Wait;

/// The kit of a line's memo, for the run and for what is written of it then.
#[derive(Drop)]
pub(crate) struct Recalled<R: Wait + Drop> {
    pub kit: MemoKit<FlowKit, R>,
    pub kept: MemoKit<FlowKit, R>,
}

/// The bytes of the file at this path, where there is one, of at most so many.
pub(crate) fn read_named<F: Files>(
    alloc: Global,
    path: &Option<Txt>,
    limit: u64,
    files: &mut F,
) -> Result<Option<Bytes>, Why>
    requires { limit < 2 ^ 64 - 1 }
    ensures some { IfOk result (λ read. is_some read ≡ is_some path.now) }
    ensures within { IfOk result (λ read. IfSome read (λ b. length b ≤ limit)) }
    ensures found { IfOk result (λ read. IfSome read (λ b. IfSome path.now
        (λ p. IfSome (F.content files.old p) (λ file. b ≡ file)))) }
    ensures none { IfErr result (NotRead (F.content files.old) path.now limit (HasRisen (F.faults files.old) (F.faults files.new))) }
    ensures asked { OnOk result (Tells (F.asked files.old) (F.asked files.new) (named path.now)) }
    ensures asks { IfErr result (λ why. AsksLast why (named path.now) (F.asked files.old) (F.asked files.new)) }
    ensures never_falls { F.faults files.old ≤ F.faults files.new }
    ensures kept { F.content files.new ≡ F.content files.old }
{
    let Some(path) = path else {
        return Ok(None);
    };
    let Ok(path) = path.share() else {
        return Err(Why::Memory);
    };
    match read(alloc, path, limit, files) {
        Ok(bytes) => Ok(Some(bytes)),
        Err(Unread::Failed { path }) => Err(Why::ReadFault { path }),
        Err(Unread::TooLong { path, limit }) => Err(Why::TooLongInput { path, limit }),
        Err(Unread::Memory) => Err(Why::Memory),
    }
}

/// The greatest number of bytes of a memo's file.
const MEMO_LIMIT: u64 = 67_108_864;

/// The memo that these bytes are the file of, at this path.
fn memo_in(alloc: Global, path: &Option<Txt>, bytes: &Bytes) -> Result<Memo, Why>
    ensures memo { IfOk result (λ m. IsMemo bytes.now m) }
    ensures bad { IfErr result (IfBadHere path.now (BadAt bytes.now)) }
{
    match Memo::read(alloc, bytes) {
        Ok(memo) => Ok(memo),
        Err(MemoRefusal::BadMemo { at }) => Err(bad_memo(path, at)),
        Err(MemoRefusal::Memory) => Err(Why::Memory),
    }
}

/// That the file at this path is no memo's.
fn bad_memo(path: &Option<Txt>, at: u64) -> Why
    ensures { IfBadHere path.now (λ place. place ≡ at) result }
{
    let Some(path) = path else {
        return Why::Memory;
    };
    match path.share() {
        Ok(path) => Why::BadMemo { path, at },
        Err(_) => Why::Memory,
    }
}

/// The kit of a memo, twice.
fn kits<R: Wait + Drop>(rt: R, alloc: Global, memo: Memo) -> Result<Recalled<R>, Memory>
    ensures entries { IfOk result (λ r. r.kit.entries ≡ memo) }
    ensures kept { IfOk result (λ r. r.kept ≡ r.kit) }
{
    let kit = MemoKit::open(rt, alloc, FlowKit, memo)?;
    let kept = kit.share()?;
    Ok(Recalled { kit, kept })
}

/// The memo of a line that reads none: one without entries, where it begins one.
fn memo_begun(alloc: Global, line: &Words) -> Option<Memo>
    ensures entries { IfSome result (λ m. m ≡ []) }
    ensures memo { is_some result ≡ is_some line.now.memo_new }
{
    match &line.memo_new {
        Some(_) => Some(Memo::new(alloc)),
        None => None,
    }
}

/// The memo that a line begins or reads, where it has one.
fn memo_of<F: Files>(alloc: Global, line: &Words, files: &mut F) -> Result<Option<Memo>, Why>
    requires line { LineIsSound line.now }
    ensures entries { IfOk result (λ m. IfSome m (BeginsWith (F.content files.old) line.now.memo)) }
    ensures memo { IfOk result (λ m. is_some m ≡ is_some (memo_path line.now)) }
    ensures none { IfErr result (NoMemoBy (F.content files.old) line.now.memo (HasRisen (F.faults files.old) (F.faults files.new))) }
    ensures asked { OnOk result (Tells (F.asked files.old) (F.asked files.new) (named line.now.memo)) }
    ensures asks { IfErr result (λ why. AsksLast why (named line.now.memo) (F.asked files.old) (F.asked files.new)) }
    ensures never_falls { F.faults files.old ≤ F.faults files.new }
    ensures content { F.content files.new ≡ F.content files.old }
{
    let read = match read_named(alloc, &line.memo, MEMO_LIMIT, files) {
        Ok(read) => read,
        Err(why) => return Err(why),
    };
    let Some(bytes) = read else {
        return Ok(memo_begun(alloc, line));
    };
    match memo_in(alloc, &line.memo, &bytes) {
        Ok(memo) => Ok(Some(memo)),
        Err(why) => Err(why),
    }
}

/// The kit of the memo that a line begins or reads, where it has one.
pub(crate) fn recall<F: Files, R: Wait + Drop>(
    rt: R,
    alloc: Global,
    line: &Words,
    files: &mut F,
) -> Result<Option<Recalled<R>>, Why>
    requires line { LineIsSound line.now }
    ensures given { IfOk result (λ o. (g : Gives) → GivesOf (F.content files.old) line.now g → g ≡ gives_with o) }
    ensures same { IfOk result (λ o. IfSome o (λ r. r.kept ≡ r.kit)) }
    ensures entries { IfOk result (λ o. IfSome o (λ r. BeginsWith (F.content files.old) line.now.memo r.kit.entries)) }
    ensures memo { IfOk result (λ o. is_some o ≡ is_some (memo_path line.now)) }
    ensures recalled { OnOk result (IsRecalled (F.content files.old) line.now.memo) }
    ensures none { IfErr result (NoMemoBy (F.content files.old) line.now.memo (HasRisen (F.faults files.old) (F.faults files.new))) }
    ensures asked { OnOk result (Tells (F.asked files.old) (F.asked files.new) (named line.now.memo)) }
    ensures asks { IfErr result (λ why. AsksLast why (named line.now.memo) (F.asked files.old) (F.asked files.new)) }
    ensures never_falls { F.faults files.old ≤ F.faults files.new }
    ensures content { F.content files.new ≡ F.content files.old }
{
    files_are_told_in_one_way();
    let memo = match memo_of(alloc, line, files) {
        Ok(memo) => memo,
        Err(why) => return Err(why),
    };
    let Some(memo) = memo else {
        return Ok(None);
    };
    match kits(rt, alloc, memo) {
        Ok(recalled) => Ok(Some(recalled)),
        Err(Memory) => Err(Why::Memory),
    }
}
