// The program `ciel`: makes the real files, the real output and the real log, calls the top call on
// the words of its command line, on a thread with a stack of its own, and ends with its status. What
// is read, run and written is under the contract of that call.
#![tactic(auto)]

ghost use Rattle.std.specs.Prelude.{◌≡◌, ◌≢◌, IfErr};
ghost use Rattle.ciel.specs.Refused.{IsUsageOrMemory};
ghost use Rattle.ciel_run_log.specs.Status.{status_of};
ghost use Rattle.ciel_run_log.specs.declared.why.Why.{Why};

use ciel_gate::open::Open;
use ciel_io::host::{HostErr, HostFiles, HostOut};
use ciel_io::host_keep::HostKeep;
use ciel_run::top::ciel_main;
use ciel_run_log::message::put_message;
use ciel_run_log::why::Why;
use sky_base::text::Txt;
use std::alloc::Global;
use std::process::ExitCode;
use std::rt::{Env, Files};
use std::sync::Wait;
use std::thread::{Builder, Promise, Threads};
use std::{env, io};

/// The bytes of stack that a run gets. The interpreter recurses over the tree of the script, through up to
/// 64 brackets in each of up to 64 bodies, which the stack that a process begins with may not hold.
const STACK: usize = 256 << 20;

/// The bytes of stack that are tried where no thread can have so many. The deepest script that was found
/// takes 44 MiB.
const LESS_STACK: usize = 64 << 20;

/// How many gates there are, as many as the most workers.
const GATES: usize = 64;

/// What the thread of a run promises of the status that it gives: nothing.
#[derive(Clone, Copy)]
struct Anything;

impl Promise<u8> for Anything {
    ghost use Rattle.std.specs.Prelude.{⊤};

    ghost kept_by = { λ _ _. ⊤ };
}

/// The words of the command line, without the program's name. Words that aren't UTF-8 are no line, and
/// there may be no memory for them.
fn words(rt: &(impl Env + Alloc<A = Global>)) -> Result<Vec<Txt>, Why>
    ensures { IfErr result IsUsageOrMemory }
{
    let alloc = rt.alloc();
    let mut words = Vec::new(alloc);
    for word in env::args(rt).map_err(why)?.skip(1) {
        let Ok(word) = Txt::from_string(word) else {
            return Err(Why::Memory);
        };
        if words.push(word).is_err() {
            return Err(Why::Memory);
        }
    }
    Ok(words)
}

/// Why the words can't be had.
fn why(e: io::Error) -> Why
    ensures { IsUsageOrMemory result }
{
    if e.kind() == io::ErrorKind::OutOfMemory {
        Why::Memory
    } else {
        Why::Usage
    }
}

/// Runs the program, and gives the status of the process.
fn run<R>(rt: R, mut out: HostOut, mut log: HostErr) -> u8
where
    R: Env + Files + Threads + Wait + Alloc<A = Global> + Copy + Send + Sync + Drop + 'static,
{
    let words = match words(&rt) {
        Ok(words) => words,
        Err(why) => return refused(&why, &mut log),
    };
    let alloc = rt.alloc();
    let Ok(mut gates) = Vec::from_elem(alloc, Open, GATES) else {
        return refused(&Why::Memory, &mut log);
    };
    let mut files = HostFiles::new(&rt);
    let mut keep = HostKeep::new(rt);
    ciel_main(
        rt, alloc, &words, &mut files, &mut out, &mut log, &mut gates, &mut keep,
    )
    .status
}

/// Puts the message on the log, and gives the status of the process.
fn refused(why: &Why, log: &mut HostErr) -> u8
    requires { why.now ≢ Why.Done }
    ensures { result ≡ status_of why.now }
{
    let _ = put_message(why, log);
    why.status()
}

/// Runs the program on a thread with a large stack, else on one with a smaller stack, else on its own.
fn main(rt: HostRuntime) -> ExitCode {
    let out = HostOut::new(rt.stdout());
    let log = HostErr::new(rt.stderr());
    let run = move || run(rt, out, log);
    ExitCode::from(
        match Builder::new()
            .stack_size(STACK)
            .spawn_with(&rt, Anything, run)
        {
            Ok(thread) => thread.join(&rt),
            Err(refused) => match Builder::new()
                .stack_size(LESS_STACK)
                .spawn_with(&rt, Anything, refused.value)
            {
                Ok(thread) => thread.join(&rt),
                Err(refused) => (refused.value)(),
            },
        },
    )
}
