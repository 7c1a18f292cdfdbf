//! One entry that is read from a file: its inputs and outputs are parts of the file's bytes, none of which is copied. No room is made for a count
//! before what it counts is there. `end` is where the bytes end that a reader has.

ghost use Rattle.std.specs.Prelude.{IfErr, IfOk};
ghost use Rattle.sky_base.specs.Name.{bytes};
ghost use Rattle.sky_base.specs.View.{view};
ghost use Rattle.sky_frozen_bytes.specs.Bytes.{counted};
ghost use Rattle.sky_frozen_bytes.specs.Codes.{Counted, ListRead, NoList, NoneAs, ReadAs};
ghost use Rattle.ciel_name.specs.Spelled.{IsData, Refuses};
ghost use Rattle.ciel_memo_key.specs.Keys.{block};
ghost use Rattle.ciel_memo_file.specs.Entries.{entry_view};
ghost use Rattle.ciel_memo_file.specs.File.{IsBlock, IsSpelled, entry_bytes};
ghost use Rattle.ciel_memo_file.specs.Steps.{EndsWith};

use crate::entry::Entry;
use ciel_name::read::{read_text, read_value};
use ciel_name::reader::Reader;
use ciel_name::refusal::Decode;
use sky_base::text::Bytes;
use sky_base::value::{MOST_DEPTH, MOST_SIZE, Value};
use std::alloc::Global;

/// An entry: its executor, arguments, number of outputs, inputs and outputs.
pub fn read_entry(
    alloc: Global,
    file: &Bytes,
    end: usize,
    reader: &mut Reader,
) -> Result<Entry, Decode>
    requires { EndsWith file.now end reader.old }
    ensures entry { IfOk result (λ e. ReadAs entry_bytes IsSpelled reader.old (entry_view e) reader.new) }
    ensures refused { IfErr result (λ e. Refuses e (NoneAs entry_bytes IsSpelled reader.old)) }
{
    let executor = match read_text(alloc, reader) {
        Ok(executor) => executor,
        Err(refusal) => return Err(refusal),
    };
    let args = match read_args(alloc, reader) {
        Ok(args) => args,
        Err(refusal) => return Err(refusal),
    };
    let Some(outputs) = reader.number() else {
        return Err(Decode::NotValue);
    };
    let inputs = match read_inputs(alloc, file, end, reader) {
        Ok(inputs) => inputs,
        Err(refusal) => return Err(refusal),
    };
    let made = match read_blocks(alloc, file, end, reader, outputs) {
        Ok(made) => made,
        Err(refusal) => return Err(refusal),
    };
    Ok(Entry {
        executor,
        args,
        inputs,
        made,
    })
}

/// Arguments: a value within the limits of depth and size.
fn read_args(alloc: Global, reader: &mut Reader) -> Result<Value, Decode>
    ensures value { IfOk result (λ v. ReadAs bytes IsData reader.old (view v) reader.new) }
    ensures refused { IfErr result (λ e. Refuses e (NoneAs bytes IsData reader.old)) }
{
    match read_value(alloc, reader, MOST_DEPTH, MOST_SIZE) {
        Ok(value) => Ok(value),
        Err(refusal) => Err(refusal),
    }
}

/// Blocks behind their number.
fn read_inputs(
    alloc: Global,
    file: &Bytes,
    end: usize,
    reader: &mut Reader,
) -> Result<Vec<Bytes>, Decode>
    requires { EndsWith file.now end reader.old }
    ensures blocks { IfOk result (λ bs. ReadAs (counted block) (Counted IsBlock) reader.old bs.items reader.new) }
    ensures refused { IfErr result (λ e. Refuses e (NoneAs (counted block) (Counted IsBlock) reader.old)) }
{
    let Some(count) = reader.number() else {
        return Err(Decode::NotValue);
    };
    match read_blocks(alloc, file, end, reader, count) {
        Ok(blocks) => Ok(blocks),
        Err(refusal) => Err(refusal),
    }
}

/// So many blocks, one behind the other.
fn read_blocks(
    alloc: Global,
    file: &Bytes,
    end: usize,
    reader: &mut Reader,
    count: u32,
) -> Result<Vec<Bytes>, Decode>
    requires { EndsWith file.now end reader.old }
    ensures blocks { IfOk result (λ bs. ListRead block IsBlock count reader.old bs.items reader.new) }
    ensures refused { IfErr result (λ e. Refuses e (NoList block IsBlock count reader.old)) }
{
    let mut blocks = Vec::new(alloc);
    for _one in 0..count {
        let block = match read_block(file, end, reader) {
            Ok(block) => block,
            Err(refusal) => return Err(refusal),
        };
        let Ok(()) = blocks.push(block) else {
            return Err(Decode::Memory);
        };
    }
    Ok(blocks)
}

/// Bytes behind their number.
fn read_block(file: &Bytes, end: usize, reader: &mut Reader) -> Result<Bytes, Decode>
    requires { EndsWith file.now end reader.old }
    ensures block { IfOk result (λ b. ReadAs block IsBlock reader.old b reader.new) }
    ensures refused { IfErr result (λ e. Refuses e (NoneAs block IsBlock reader.old)) }
{
    let Some(count) = reader.number() else {
        return Err(Decode::NotValue);
    };
    let Some(held) = reader.bytes(count as usize) else {
        return Err(Decode::NotValue);
    };
    let to = end - reader.len();
    Ok(file.part(to - held.len(), to)?)
}
