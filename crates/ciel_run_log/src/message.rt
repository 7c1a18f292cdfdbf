//! The message of a call that didn't write an answer: one line on the log, put in pieces and without
//! memory, so that a part of it is missing only where a put on the log failed.

ghost use Rattle.std.specs.Prelude.{◌≡◌, ◌≢◌, ◌≤◌, map, codes, OnOk, OnErr};
ghost use Rattle.std.specs.List.{concat, flat_map};
ghost use Rattle.ciel_io.specs.Faults.{HasRisen};
ghost use Rattle.ciel_io.specs.Tells.{Tells, TellsPart};
ghost use Rattle.ciel_run_log.specs.Message.{clash_text, counted, endless_text, fault_name, message_of, pathed, placed, spaced, syntax_name};

use crate::text::put_hex;
use crate::why::Why;
use ciel_io::pieces::put_all;
use ciel_io::sink::{Failed, Sink};
use ciel_run_load::script::SyntaxKind;
use itoa::Buffer;
use sky_base::fault::FaultKind;
use sky_base::name::Name;
use sky_base::text::Txt;

/// Puts the message of an end on the log: one line, with its line feed.
///
/// Answers `Failed` only where the count of faults of the log rose, and a prefix of the message was
/// written.
pub fn put_message<J: Sink>(why: &Why, log: &mut J) -> Result<(), Failed>
    requires { why.now ≢ Why.Done }
    ensures written { OnOk result (Tells (J.written log.old) (J.written log.new) (message_of why.now)) }
    ensures part { OnErr result (TellsPart (J.written log.old) (J.written log.new) (message_of why.now)) }
    ensures cause { OnErr result (HasRisen (J.faults log.old) (J.faults log.new)) }
    ensures never_falls { J.faults log.old ≤ J.faults log.new }
{
    match why {
        Why::Done => Ok(()),
        Why::Usage => log.put(
            b"ciel: usage: ciel SCRIPT [--workers N] [--seed N] [--lose K:W,K:W] [--trace] [--plain] [NAME=PATH]... [--names sha1|sha256] [--stream] [--steal T] [--log PATH] [--resume PATH] [--memo-new PATH] [--memo PATH] or ciel --generate N\n",
        ),
        Why::Syntax { kind, line, col } => put_place(
            log,
            "ciel: syntax ",
            syntax_name(*kind),
            *line,
            *col,
        ),
        Why::Fault(fault) => put_place(
            log,
            "ciel: fault ",
            fault_name(fault.kind),
            fault.line,
            fault.col,
        ),
        Why::Endless { names } => put_endless(log, names.as_slice()),
        Why::TooMany { held, .. } => put_count(log, "ciel: too many descriptions: ", *held),
        Why::AllLost => log.put(b"ciel: all workers lost\n"),
        Why::NameClash { kept, given } => put_clash(log, kept.as_slice(), given.as_slice()),
        Why::ReadFault { path } => put_all(log, &["ciel: read fault ", path.as_str(), "\n"]),
        Why::WriteFault => log.put(b"ciel: write fault\n"),
        Why::Memory => log.put(b"ciel: no memory\n"),
        Why::TooLongInput { path, limit } => put_path(log, "ciel: too long ", path, *limit),
        Why::TooDeepPlain { depth } => put_count(log, "ciel: plain run too deep ", *depth),
        Why::KeepFault { path } => put_all(log, &["ciel: keep fault ", path.as_str(), "\n"]),
        Why::BadLog { path, at } => put_path(log, "ciel: bad log ", path, *at),
        Why::OtherJob { path } => put_all(log, &["ciel: other job ", path.as_str(), "\n"]),
        Why::BadMemo { path, at } => put_path(log, "ciel: bad memo ", path, *at),
        Why::LogFull { path, held } => put_path(log, "ciel: log full ", path, *held),
    }
}

/// A line that ends with a place.
fn put_place<J: Sink>(
    log: &mut J,
    head: &str,
    name: &str,
    line: u32,
    col: u32,
) -> Result<(), Failed>
    ensures written { OnOk result (Tells (J.written log.old) (J.written log.new) (placed head.now name.now line col)) }
    ensures part { OnErr result (TellsPart (J.written log.old) (J.written log.new) (placed head.now name.now line col)) }
    ensures cause { OnErr result (HasRisen (J.faults log.old) (J.faults log.new)) }
    ensures never_falls { J.faults log.old ≤ J.faults log.new }
{
    let mut line_digits = Buffer::new();
    let mut col_digits = Buffer::new();
    let line = line_digits.format(line);
    let col = col_digits.format(col);
    put_all(log, &[head, name, " ", line, ":", col, "\n"])
}

/// A line that ends with a number.
fn put_count<J: Sink>(log: &mut J, head: &str, number: u32) -> Result<(), Failed>
    ensures written { OnOk result (Tells (J.written log.old) (J.written log.new) (counted head.now number)) }
    ensures part { OnErr result (TellsPart (J.written log.old) (J.written log.new) (counted head.now number)) }
    ensures cause { OnErr result (HasRisen (J.faults log.old) (J.faults log.new)) }
    ensures never_falls { J.faults log.old ≤ J.faults log.new }
{
    let mut digits = Buffer::new();
    let number = digits.format(number);
    put_all(log, &[head, number, "\n"])
}

/// A line that ends with a path and a number.
fn put_path<J: Sink>(log: &mut J, head: &str, path: &Txt, number: u64) -> Result<(), Failed>
    ensures written { OnOk result (Tells (J.written log.old) (J.written log.new) (pathed head.now path.now number)) }
    ensures part { OnErr result (TellsPart (J.written log.old) (J.written log.new) (pathed head.now path.now number)) }
    ensures cause { OnErr result (HasRisen (J.faults log.old) (J.faults log.new)) }
    ensures never_falls { J.faults log.old ≤ J.faults log.new }
{
    let mut digits = Buffer::new();
    let number = digits.format(number);
    put_all(log, &[head, path.as_str(), " ", number, "\n"])
}

/// The names of what waits for one another.
fn put_endless<J: Sink>(log: &mut J, names: &[Name]) -> Result<(), Failed>
    ensures written { OnOk result (Tells (J.written log.old) (J.written log.new) (endless_text names.now)) }
    ensures part { OnErr result (TellsPart (J.written log.old) (J.written log.new) (endless_text names.now)) }
    ensures cause { OnErr result (HasRisen (J.faults log.old) (J.faults log.new)) }
    ensures never_falls { J.faults log.old ≤ J.faults log.new }
{
    log.put(b"ciel: endless")?;
    put_names(log, names)?;
    log.put(b"\n")?;
    Ok(())
}

/// Names, each behind a space.
fn put_names<J: Sink>(log: &mut J, names: &[Name]) -> Result<(), Failed>
    ensures written { OnOk result (Tells (J.written log.old) (J.written log.new) (flat_map spaced names.now)) }
    ensures part { OnErr result (TellsPart (J.written log.old) (J.written log.new) (flat_map spaced names.now)) }
    ensures cause { OnErr result (HasRisen (J.faults log.old) (J.faults log.new)) }
    ensures never_falls { J.faults log.old ≤ J.faults log.new }
{
    for name in names {
        put_name(log, name)?;
    }
    Ok(())
}

/// A name behind a space.
fn put_name<J: Sink>(log: &mut J, name: &Name) -> Result<(), Failed>
    ensures written { OnOk result (Tells (J.written log.old) (J.written log.new) (spaced name.now)) }
    ensures part { OnErr result (TellsPart (J.written log.old) (J.written log.new) (spaced name.now)) }
    ensures cause { OnErr result (HasRisen (J.faults log.old) (J.faults log.new)) }
    ensures never_falls { J.faults log.old ≤ J.faults log.new }
{
    log.put(b" ")?;
    put_hex(log, name.bytes())?;
    Ok(())
}

/// The canonical bytes of two descriptions with one name.
fn put_clash<J: Sink>(log: &mut J, kept: &[u8], given: &[u8]) -> Result<(), Failed>
    ensures written { OnOk result (Tells (J.written log.old) (J.written log.new) (clash_text kept.now given.now)) }
    ensures part { OnErr result (TellsPart (J.written log.old) (J.written log.new) (clash_text kept.now given.now)) }
    ensures cause { OnErr result (HasRisen (J.faults log.old) (J.faults log.new)) }
    ensures never_falls { J.faults log.old ≤ J.faults log.new }
{
    log.put(b"ciel: name clash ")?;
    put_hex(log, kept)?;
    log.put(b" ")?;
    put_hex(log, given)?;
    log.put(b"\n")?;
    Ok(())
}

/// The name of a kind of fault.
fn fault_name(kind: FaultKind) -> &'static str
    ensures { result.now ≡ fault_name kind }
{
    match kind {
        FaultKind::Unknown => "Unknown",
        FaultKind::BadKind => "BadKind",
        FaultKind::Overflow => "Overflow",
        FaultKind::DivZero => "DivZero",
        FaultKind::NoIndex => "NoIndex",
        FaultKind::NoKey => "NoKey",
        FaultKind::TooLarge => "TooLarge",
        FaultKind::TooDeep => "TooDeep",
        FaultKind::TooLong => "TooLong",
        FaultKind::NotData => "NotData",
        FaultKind::NotText => "NotText",
        FaultKind::BadCount => "BadCount",
        FaultKind::BadExec => "BadExec",
        FaultKind::BadLine => "BadLine",
        FaultKind::WrongCount => "WrongCount",
    }
}

/// The name of a kind of refusal.
fn syntax_name(kind: SyntaxKind) -> &'static str
    ensures { result.now ≡ syntax_name kind }
{
    match kind {
        SyntaxKind::BadByte => "BadByte",
        SyntaxKind::OpenText => "OpenText",
        SyntaxKind::BadEscape => "BadEscape",
        SyntaxKind::BigNumber => "BigNumber",
        SyntaxKind::TooNested => "TooNested",
        SyntaxKind::NoSentence => "NoSentence",
        SyntaxKind::SameName => "SameName",
    }
}
