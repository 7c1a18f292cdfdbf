//! From a line to a job: the script that it names is read and is one, and then its inputs are read, each in its turn.

ghost use Rattle.std.specs.Prelude.{◌≡◌, ◌≤◌, IfOk, IfErr, OnOk, length};
ghost use Rattle.sky_base.specs.JobView.{job_view};
ghost use Rattle.ciel_io.specs.Faults.{HasRisen};
ghost use Rattle.ciel_io.specs.Tells.{Tells};
ghost use Rattle.ciel_run_load.specs.Line as of;
ghost use Rattle.ciel_run_load.specs.Line.{paths_of};
ghost use Rattle.ciel_run_load.specs.Loading.{unread, AllRead, IsLoaded, NotLoaded, AsksJob, StopsJob};

use crate::inputs::{inputs, keys};
use crate::read::{Unread, read};
use crate::script::{NoScript, SyntaxKind, script};
use ciel_io::files::Files;
use sky_base::job::Job;
use sky_base::text::{Bytes, Txt};
use std::alloc::Global;

/// The greatest number of bytes of a script.
pub const LIMIT: u64 = 1_048_576;

/// A job, with the bytes of its script.
#[derive(Drop)]
pub struct Loaded {
    pub source: Bytes,
    pub job: Job,
}

/// Why there is no job.
#[derive(Drop)]
pub enum NoJob {
    /// The bytes of the script are none.
    Syntax {
        kind: SyntaxKind,
        line: u32,
        col: u32,
    },
    /// The read of the file at this path failed.
    Failed {
        path: Txt,
    },
    /// The file at this path has more bytes than the limit.
    TooLong {
        path: Txt,
        limit: u64,
    },
    /// Want of memory.
    Memory,
}

/// Why there is no job, where a file wasn't read.
fn unread(why: Unread) -> NoJob
    ensures { result ≡ unread why }
{
    match why {
        Unread::Failed { path } => NoJob::Failed { path },
        Unread::TooLong { path, limit } => NoJob::TooLong { path, limit },
        Unread::Memory => NoJob::Memory,
    }
}

/// The job of the script at a path, over inputs that are each named by a name and a path. The script has at most 1,048,576 bytes and is to
/// be one before its inputs are read, each of at most 16,777,216 bytes.
///
/// Answers `Syntax` exactly where the bytes of the script are none, `Failed` only where the count of faults of the files rose, `TooLong`
/// exactly where a file has more bytes than its limit, and `Memory` for want of memory.
pub fn load<F: Files>(
    alloc: Global,
    path: &Txt,
    named: &[(Txt, Txt)],
    files: &mut F,
) -> Result<Loaded, NoJob>
    ensures job { IfOk result (λ l. IsLoaded (F.content files.old) (record { script = path.now; inputs = named.now }) l.source (job_view l.job)) }
    ensures refused { IfErr result (NotLoaded (F.content files.old) (record { script = path.now; inputs = named.now })
        (HasRisen (F.faults files.old) (F.faults files.new))) }
    ensures asked { OnOk result (Tells (F.asked files.old) (F.asked files.new) (paths_of (record { script = path.now; inputs = named.now }))) }
    ensures asks { IfErr result (λ why. AsksJob why (paths_of (record { script = path.now; inputs = named.now })) (F.asked files.old)
        (F.asked files.new)) }
    ensures read { OnOk result (AllRead (F.content files.old) (record { script = path.now; inputs = named.now })) }
    ensures never_falls { F.faults files.old ≤ F.faults files.new }
    ensures kept { F.content files.new ≡ F.content files.old }
    ensures order { IfErr result (StopsJob (F.content files.old) (record { script = path.now; inputs = named.now }) (F.asked files.old)
        (F.asked files.new)) }
{
    let Ok(keys) = keys(alloc, named) else {
        return Err(NoJob::Memory);
    };
    let Ok(path) = path.share() else {
        return Err(NoJob::Memory);
    };
    let source = match read(alloc, path, LIMIT, files) {
        Ok(source) => source,
        Err(why) => return Err(unread(why)),
    };
    let script = match script(alloc, source.as_slice(), keys) {
        Ok(script) => script,
        Err(NoScript::Syntax { kind, line, col }) => return Err(NoJob::Syntax { kind, line, col }),
        Err(NoScript::Memory) => return Err(NoJob::Memory),
    };
    match inputs(alloc, named, files) {
        Ok(inputs) => Ok(Loaded {
            source,
            job: Job { script, inputs },
        }),
        Err(why) => Err(unread(why)),
    }
}
