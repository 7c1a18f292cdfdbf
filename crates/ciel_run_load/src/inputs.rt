//! The inputs of a job: their names, and the bytes that stand at their paths.

ghost use Rattle.std.specs.Prelude.{◌≤◌, ◌≡◌, ◌∷◌, [], IfOk, IfErr, OnOk, map};
ghost use Rattle.ciel_io.specs.Faults.{HasRisen};
ghost use Rattle.ciel_run_load.specs.Line.{name_in, path_in};
ghost use Rattle.ciel_run_load.specs.Found.{input_limit};
ghost use Rattle.ciel_run_load.specs.Reading.{ReadSo, ReadAll, ReadOn, UnreadOf, UnreadSo, AsksEach, StopsSo};

use crate::read::{Unread, read};
use ciel_io::files::Files;
use sky_base::job::Inputs;
use sky_base::script::Texts;
use sky_base::text::{Bytes, Memory, Txt};
use std::alloc::Global;

/// The greatest number of bytes of an input.
pub const INPUT_LIMIT: u64 = 16_777_216;

/// The names of inputs, in order.
pub(crate) fn keys(alloc: Global, inputs: &[(Txt, Txt)]) -> Result<Texts, Memory>
    ensures { IfOk result (λ keys. keys ≡ map name_in inputs.now) }
{
    let mut keys = Vec::new(alloc);
    for input in inputs {
        let key = input.0.share()?;
        if keys.push(key).is_err() {
            return Err(Memory);
        }
    }
    Ok(Texts::of(keys))
}

/// One input.
fn input<F: Files>(alloc: Global, named: &(Txt, Txt), files: &mut F) -> Result<(Txt, Bytes), Unread>
    ensures read { IfOk result (λ i. ReadSo (F.content files.old) named.now i) }
    ensures unread { IfErr result (UnreadSo (F.content files.old) (path_in named.now) input_limit
        (HasRisen (F.faults files.old) (F.faults files.new))) }
    ensures asks { AsksEach result (path_in named.now ∷ []) (F.asked files.old) (F.asked files.new) }
    ensures never_falls { F.faults files.old ≤ F.faults files.new }
    ensures kept { F.content files.new ≡ F.content files.old }
{
    let Ok(key) = named.0.share() else {
        return Err(Unread::Memory);
    };
    let Ok(path) = named.1.share() else {
        return Err(Unread::Memory);
    };
    let bytes = read(alloc, path, INPUT_LIMIT, files)?;
    Ok((key, bytes))
}

// Reads inputs, one after the other, behind those that were read. There are at most 256 of them.
fn read_on<F: Files>(
    alloc: Global,
    inputs: &[(Txt, Txt)],
    files: &mut F,
    items: &mut Vec<(Txt, Bytes)>,
) -> Result<(), Unread>
    ensures read { OnOk result (ReadOn (F.content files.old) inputs.now items.old.items items.new.items) }
    ensures unread { IfErr result (UnreadOf (F.content files.old) inputs.now (HasRisen (F.faults files.old) (F.faults files.new))) }
    ensures asks { AsksEach result (map path_in inputs.now) (F.asked files.old) (F.asked files.new) }
    ensures order { IfErr result (StopsSo (F.content files.old) inputs.now (F.asked files.old) (F.asked files.new)) }
    ensures never_falls { F.faults files.old ≤ F.faults files.new }
    ensures kept { F.content files.new ≡ F.content files.old }
{
    let Some((first, more)) = inputs.split_first() else {
        return Ok(());
    };
    let input = match input(alloc, first, files) {
        Ok(input) => input,
        Err(why) => return Err(why),
    };
    if items.push(input).is_err() {
        return Err(Unread::Memory);
    }
    read_on(alloc, more, files, items)
}

/// The inputs, each with its bytes.
pub(crate) fn inputs<F: Files>(
    alloc: Global,
    inputs: &[(Txt, Txt)],
    files: &mut F,
) -> Result<Inputs, Unread>
    ensures read { IfOk result (ReadAll (F.content files.old) inputs.now) }
    ensures unread { IfErr result (UnreadOf (F.content files.old) inputs.now (HasRisen (F.faults files.old) (F.faults files.new))) }
    ensures asks { AsksEach result (map path_in inputs.now) (F.asked files.old) (F.asked files.new) }
    ensures order { IfErr result (StopsSo (F.content files.old) inputs.now (F.asked files.old) (F.asked files.new)) }
    ensures never_falls { F.faults files.old ≤ F.faults files.new }
    ensures kept { F.content files.new ≡ F.content files.old }
{
    let mut items = Vec::new(alloc);
    read_on(alloc, inputs, files, &mut items)?;
    Ok(Inputs::of(items))
}
