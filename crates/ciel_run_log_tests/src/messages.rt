// The message of each end that isn't well, whether a script of today can end so or not.

ghost use Rattle.std.specs.Prelude.{◌≢◌};
ghost use Rattle.ciel_run_log.specs.declared.why.Why.{Why};

use ciel_io::mem_sink::SureSink;
use ciel_run_load::script::SyntaxKind;
use ciel_run_log::message::put_message;
use ciel_run_log::why::Why;
use sky_base::fault::{Fault, FaultKind};
use sky_base::text::Txt;
use std::alloc::Global;
use std::process::Abort;
use std::test::Fail;

fn says(rt: &impl Abort, alloc: Global, why: Why, want: &str) -> Result<(), Fail>
    requires { why ≢ Why.Done }
{
    let mut log = SureSink::new(alloc, 200)?;
    assert!(rt; put_message(&why, &mut log).is_ok());
    assert!(rt; log.bytes() == want.as_bytes(), "{want}");
    Ok(())
}

fn no_script(kind: SyntaxKind, line: u32, col: u32) -> Why
    ensures { result ≢ Why.Done }
{
    Why::Syntax { kind, line, col }
}

fn faulty(kind: FaultKind, line: u32, col: u32) -> Why
    ensures { result ≢ Why.Done }
{
    Why::Fault(Fault { kind, line, col })
}

#[test]
fn messages_of_places(rt: HostRuntime) -> Result<(), Fail> {
    let alloc = rt.alloc();
    says(
        &rt,
        alloc,
        no_script(SyntaxKind::NoSentence, 1, 11),
        "ciel: syntax NoSentence 1:11\n",
    )?;
    says(
        &rt,
        alloc,
        no_script(SyntaxKind::BadByte, 4_294_967_295, 0),
        "ciel: syntax BadByte 4294967295:0\n",
    )?;
    says(
        &rt,
        alloc,
        faulty(FaultKind::DivZero, 1, 24),
        "ciel: fault DivZero 1:24\n",
    )?;
    says(
        &rt,
        alloc,
        faulty(FaultKind::TooDeep, 0, 0),
        "ciel: fault TooDeep 0:0\n",
    )
}

#[test]
fn messages_of_counts(rt: HostRuntime) -> Result<(), Fail> {
    let alloc = rt.alloc();
    let held = 65_536;
    says(
        &rt,
        alloc,
        Why::TooMany { held, given: None },
        "ciel: too many descriptions: 65536\n",
    )?;
    says(
        &rt,
        alloc,
        Why::TooDeepPlain { depth: 4_096 },
        "ciel: plain run too deep 4096\n",
    )
}

#[test]
fn messages_of_files(rt: HostRuntime) -> Result<(), Fail> {
    let alloc = rt.alloc();
    let path = Txt::new(alloc, "a b.sky")?;
    says(
        &rt,
        alloc,
        Why::ReadFault { path },
        "ciel: read fault a b.sky\n",
    )?;
    let path = Txt::new(alloc, "s")?;
    let limit = 1_048_576;
    says(
        &rt,
        alloc,
        Why::TooLongInput { path, limit },
        "ciel: too long s 1048576\n",
    )?;
    let path = Txt::new(alloc, "l")?;
    says(&rt, alloc, Why::KeepFault { path }, "ciel: keep fault l\n")?;
    let path = Txt::new(alloc, "l")?;
    let held = 268_435_450;
    says(
        &rt,
        alloc,
        Why::LogFull { path, held },
        "ciel: log full l 268435450\n",
    )?;
    messages_of_logs(&rt, alloc)?;
    says(&rt, alloc, Why::WriteFault, "ciel: write fault\n")?;
    says(&rt, alloc, Why::Memory, "ciel: no memory\n")
}

fn messages_of_logs(rt: &impl Abort, alloc: Global) -> Result<(), Fail> {
    let path = Txt::new(alloc, "l")?;
    let at = 18_446_744_073_709_551_615;
    says(
        rt,
        alloc,
        Why::BadLog { path, at },
        "ciel: bad log l 18446744073709551615\n",
    )?;
    let path = Txt::new(alloc, "a b.log")?;
    says(
        rt,
        alloc,
        Why::OtherJob { path },
        "ciel: other job a b.log\n",
    )?;
    let path = Txt::new(alloc, "m")?;
    says(
        rt,
        alloc,
        Why::BadMemo { path, at: 2 },
        "ciel: bad memo m 2\n",
    )
}
