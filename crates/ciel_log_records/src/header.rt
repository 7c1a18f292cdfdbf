//! The record that a log begins with.

ghost use Rattle.std.specs.Prelude.{◌≡◌, ◌++◌, ◌∷◌, IfOk};
ghost use Rattle.sha1.specs.Sha1.{sha1};
ghost use Rattle.sky_base.specs.Name.{big_endian};
ghost use Rattle.ciel_log_records.specs.Records.{counted, header_record, input_bytes, loss_bytes, namer_byte};

use crate::parts::put_long;
use ciel_name::name::mark;
use ciel_name::writer::Writer;
use sky_base::text::{Bytes, Memory, Txt};

/// Writes the header: `48`, the number of workers in four bytes, the seed in eight, the count of the losses and for each its two numbers
/// in four bytes, `01` where names have 20 bytes and `02` where they have 32, the mark of the script's bytes, the count of the inputs and
/// for each its key as text and the mark of its bytes.
#[tactic(auto, using(ciel_name::proofs::Numbers::appends))]
pub fn put_header(
    out: &mut Writer,
    workers: u32,
    seed: u64,
    losses: &[(u32, u32)],
    short: bool,
    script: &[u8],
    inputs: &[(Txt, Bytes)],
) -> Result<(), Memory>
    ensures { IfOk result (λ _. out.new ≡ out.old ++ header_record workers seed losses.now short script.now inputs.now) }
{
    out.byte(b'H')?;
    put_plan(out, workers, seed, losses)?;
    put_job(out, short, script, inputs)?;
    Ok(())
}

#[tactic(auto, using(ciel_name::proofs::Numbers::appends))]
fn put_plan(out: &mut Writer, workers: u32, seed: u64, losses: &[(u32, u32)]) -> Result<(), Memory>
    ensures { IfOk result (λ _. out.new ≡ out.old ++ (big_endian 4 workers ++ (big_endian 8 seed ++ counted loss_bytes losses.now))) }
{
    out.number(workers)?;
    put_long(out, seed)?;
    put_losses(out, losses)?;
    Ok(())
}

#[tactic(auto, using(ciel_name::proofs::Numbers::appends))]
fn put_job(
    out: &mut Writer,
    short: bool,
    script: &[u8],
    inputs: &[(Txt, Bytes)],
) -> Result<(), Memory>
    ensures { IfOk result (λ _. out.new ≡ out.old ++ (namer_byte short ∷ (sha1 script.now ++ counted input_bytes inputs.now))) }
{
    out.byte(namer_byte(short))?;
    out.raw(mark(script).as_slice())?;
    put_inputs(out, inputs)
}

fn namer_byte(short: bool) -> u8
    ensures { result ≡ namer_byte short }
{
    if short { 1 } else { 2 }
}

#[tactic(auto, using(ciel_name::proofs::Numbers::appends, crate::proofs::Counted::spelled))]
fn put_losses(out: &mut Writer, losses: &[(u32, u32)]) -> Result<(), Memory>
    ensures { IfOk result (λ _. out.new ≡ out.old ++ counted loss_bytes losses.now) }
{
    out.count(losses.len())?;
    for (after, worker) in losses {
        out.number(*after)?;
        out.number(*worker)?;
    }
    Ok(())
}

#[tactic(auto, using(ciel_name::proofs::Numbers::appends, crate::proofs::Counted::spelled))]
fn put_inputs(out: &mut Writer, inputs: &[(Txt, Bytes)]) -> Result<(), Memory>
    ensures { IfOk result (λ _. out.new ≡ out.old ++ counted input_bytes inputs.now) }
{
    out.count(inputs.len())?;
    for (key, bytes) in inputs {
        out.text(key)?;
        out.raw(mark(bytes.as_slice()).as_slice())?;
    }
    Ok(())
}
