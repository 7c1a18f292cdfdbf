// The sequential interpreter: the rounds of the answer, each wave once all that it refers to is known.

ghost use Rattle.std.specs.Prelude.{◌≡◌, ◌≤◌, IfOk, length};
ghost use Rattle.sky_base.specs.JobView.{job_view};
ghost use Rattle.sky_base.specs.Val.{refs};
ghost use Rattle.sky_base.specs.View.{view};
ghost use Rattle.ciel_json.specs.Around.{json_around};
ghost use Rattle.sky_plain.specs.Stand.{Standing};
ghost use Rattle.sky_plain_body.specs.Ran.{Begins};
ghost use Rattle.sky_plain.specs.Whole.{OpensAll, GatheredSo, AnswersSo};

use crate::settle::{Settled, settle, unknown};
use sky_base::fault::Fault;
use sky_base::job::Job;
use sky_base::kit::Kit;
use sky_base::object::Desc1;
use sky_base::text::{Bytes, Memory, Txt};
use sky_base::value::{Pairs, Vals, Value};
use sky_base_known::objects::{Objects, number_of, slot};
use sky_base_known::rows::Rows;
use sky_base_scope::places::Places;
use sky_base_scope::program::Program;
use sky_base_waves::wave::{Turned, last_turn, turn};
use std::alloc::Global;

/// How a sequential run of a job ends.
#[derive(Drop)]
pub enum Answer {
    /// The bytes that the job means.
    Text(Bytes),
    /// The fault that the job means.
    Fault(Fault),
    /// So many descriptions are open, 4,096, and the last of them waits for a further one.
    TooDeepPlain { depth: u32 },
    /// So many distinct descriptions are held, 65,536, and one more is made.
    TooMany { held: u32 },
}

/// What a job means, or that its chains or its descriptions are too many for a sequential run.
pub fn plain<K: Kit>(alloc: Global, job: &Job, kit: &K) -> Result<Answer, Memory>
    ensures answer { IfOk result (λ a. AnswersSo (job_view job.now) (json_around (K.gives kit.now)) a) }
{
    let places = Places::new(alloc, &job.script)?;
    let program = Program::of(&job.script, &places);
    let mut rows = Rows::new(alloc);
    let mut objects = Objects::new(alloc);
    let fun = Txt::new(alloc, "")?;
    let caught = Pairs::new(alloc);
    let args = Vals::new(alloc);
    match rows.learn(Desc1::Call { fun, caught, args })? {
        Some(_) => rounds(alloc, job, &program, kit, &mut rows, &mut objects),
        None => unreachable!(),
    }
}

// Wave by wave from the reference to the main call on, up to the answer.
fn rounds<K: Kit>(
    alloc: Global,
    job: &Job,
    program: &Program,
    kit: &K,
    rows: &mut Rows,
    objects: &mut Objects,
) -> Result<Answer, Memory>
    requires script { program.now ≡ (job_view job.now).script }
    requires small { length objects.old ≤ 65536 }
    requires standing { Standing (job_view job.now) (json_around (K.gives kit.now)) rows.old objects.old }
    ensures answer { IfOk result (λ a. AnswersSo (job_view job.now) (json_around (K.gives kit.now)) a) }
{
    let mut value = Value::Ref(slot(0));
    let mut wave = 0u32;
    while wave <= 100 {
        match gather(alloc, job, program, kit, rows, objects, &value)? {
            Settled::Known => {}
            Settled::TooDeep => return Ok(Answer::TooDeepPlain { depth: 4096 }),
            Settled::Full => return Ok(Answer::TooMany { held: 65_536 }),
        }
        let _held = rows.len();
        match turn(alloc, &value, objects)? {
            Turned::Text(bytes) => return Ok(Answer::Text(bytes)),
            Turned::Fault(fault) => return Ok(Answer::Fault(fault)),
            Turned::Next(next) => value = next,
        }
        wave += 1;
    }
    let _last = rows.len();
    match last_turn(alloc, &value)? {
        Turned::Text(bytes) => Ok(Answer::Text(bytes)),
        Turned::Fault(fault) => Ok(Answer::Fault(fault)),
        Turned::Next(_) => unreachable!(),
    }
}

// Goes on until the object of each description that the value refers to is known.
fn gather<K: Kit>(
    alloc: Global,
    job: &Job,
    program: &Program,
    kit: &K,
    rows: &mut Rows,
    objects: &mut Objects,
    value: &Value,
) -> Result<Settled, Memory>
    requires script { program.now ≡ (job_view job.now).script }
    requires small { length objects.old ≤ 65536 }
    requires standing { Standing (job_view job.now) (json_around (K.gives kit.now)) rows.old objects.old }
    requires opens { OpensAll (job_view job.now) (json_around (K.gives kit.now)) rows.old (refs (view value.now)) }
    ensures grows { IfOk result (λ _. Begins rows.old rows.new) }
    ensures gathered { IfOk result (λ s. GatheredSo (job_view job.now) (json_around (K.gives kit.now)) (refs (view value.now)) rows.new
        objects.new s) }
{
    while let Some(name) = unknown(alloc, value, objects)? {
        let _held = rows.len();
        match settle(alloc, job, program, kit, rows, objects, number_of(&name))? {
            Settled::Known => {}
            Settled::TooDeep => return Ok(Settled::TooDeep),
            Settled::Full => return Ok(Settled::Full),
        }
    }
    Ok(Settled::Known)
}
