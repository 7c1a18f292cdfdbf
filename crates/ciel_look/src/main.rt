// The program `look`: reads the log of a run from the real files, and writes what is asked of it on the real output, under the contract of
// `look`; the message and the status follow.
#![tactic(auto)]

use ciel_io::host::{HostErr, HostFiles, HostOut};
use ciel_look_run::ends::Why;
use ciel_look_run::look::look;
use ciel_look_run::message::put_message;
use sky_base::text::Txt;
use std::alloc::Global;
use std::process::ExitCode;
use std::rt::{Env, Files};
use std::{env, io};

/// The words of the command line, without the program's name. Words that aren't UTF-8 are no line, and there may be no memory for them.
fn words(rt: &(impl Env + Alloc<A = Global>)) -> Result<Vec<Txt>, Why> {
    let alloc = rt.alloc();
    let mut words = Vec::new(alloc);
    for word in env::args(rt).map_err(why)?.skip(1) {
        let Ok(word) = Txt::from_string(word) else {
            return Err(Why::Memory);
        };
        if words.push(word).is_err() {
            return Err(Why::Memory);
        }
    }
    Ok(words)
}

/// Why the words can't be had.
fn why(e: io::Error) -> Why {
    if e.kind() == io::ErrorKind::OutOfMemory {
        Why::Memory
    } else {
        Why::Usage
    }
}

/// Runs the program, and says why it ended.
fn run<R: Env + Files + Alloc<A = Global> + Drop>(rt: R, out: &mut HostOut) -> Why {
    let words = match words(&rt) {
        Ok(words) => words,
        Err(why) => return why,
    };
    let alloc = rt.alloc();
    let mut files = HostFiles::new(rt);
    look(alloc, &words, &mut files, out)
}

fn main(rt: HostRuntime) -> ExitCode {
    let mut out = HostOut::new(rt.stdout());
    let mut log = HostErr::new(rt.stderr());
    let why = run(rt, &mut out);
    let _ = put_message(&why, &mut log);
    ExitCode::from(why.status())
}
