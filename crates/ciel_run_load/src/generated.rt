//! The job that is generated: it counts generated words in eight parts, and comes from no file.

ghost use Rattle.std.specs.Prelude.{◌≡◌, [], ◌∷◌, IfOk, IfErr, codes, map};
ghost use Rattle.sky_base.specs.JobView.{job_view};
ghost use Rattle.ciel_run_load.specs.Generated.{generated_inputs, generator};
ghost use Rattle.ciel_run_load.specs.Line.{keys_of};
ghost use Rattle.ciel_run_load.specs.Loading.{IsOf, IsReadJob, RefusedSo};

use crate::lines::generate;
use crate::load::Loaded;
use crate::script::{NoScript, script};
use sky_base::job::{Inputs, Job};
use sky_base::script::Texts;
use sky_base::text::{Bytes, Memory, Txt};
use std::alloc::Global;

/// The script of the job.
const GENERATOR: &str =
    "parts = spawn_exec(\"split\", {\"in\": ref(\"lines\")}, 8);\ntallies = [];\nfor (p in parts) { tallies += spawn_exec(\"tally\", {\"in\": p}, 1)[0]; }\nreturn spawn_exec(\"sum\", {\"in\": tallies}, 1)[0];\n";

/// Its bytes.
fn source(alloc: Global) -> Result<Bytes, Memory>
    ensures { IfOk result (λ b. b ≡ generator) }
{
    let Ok(bytes) = Vec::from_slice(alloc, GENERATOR.as_bytes()) else {
        return Err(Memory);
    };
    Bytes::new(alloc, bytes)
}

/// The name of its input.
fn keys(alloc: Global) -> Result<Texts, Memory>
    ensures { IfOk result (λ keys. keys ≡ codes "lines" ∷ []) }
{
    let mut keys = Vec::new(alloc);
    let key = Txt::new(alloc, "lines")?;
    if keys.push(key).is_err() {
        return Err(Memory);
    }
    Ok(Texts::of(keys))
}

/// Its input, of so many lines.
fn inputs(alloc: Global, lines: u32) -> Result<Inputs, Memory>
    ensures { IfOk result (λ inputs. inputs ≡ generated_inputs lines) }
{
    let mut items = Vec::new(alloc);
    let key = Txt::new(alloc, "lines")?;
    let bytes = generate(alloc, lines)?;
    if items.push((key, bytes)).is_err() {
        return Err(Memory);
    }
    Ok(Inputs::of(items))
}

/// The generated job, of so many lines.
///
/// Answers `Memory` for want of memory.
pub fn generated_job(alloc: Global, lines: u32) -> Result<Loaded, NoScript>
    ensures source { IfOk result (λ l. l.source ≡ generator) }
    ensures read { IfOk result (λ l. IsReadJob (keys_of (generated_inputs lines)) generator (job_view l.job)) }
    ensures script { IfOk result (λ l. IsOf generator (generated_inputs lines) (job_view l.job)) }
    ensures refused { IfErr result (RefusedSo generator) }
{
    let Ok(keys) = keys(alloc) else {
        return Err(NoScript::Memory);
    };
    let script = match script(alloc, GENERATOR.as_bytes(), keys) {
        Ok(script) => script,
        Err(no) => return Err(no),
    };
    let Ok(inputs) = inputs(alloc, lines) else {
        return Err(NoScript::Memory);
    };
    let Ok(source) = source(alloc) else {
        return Err(NoScript::Memory);
    };
    Ok(Loaded {
        source,
        job: Job { script, inputs },
    })
}
