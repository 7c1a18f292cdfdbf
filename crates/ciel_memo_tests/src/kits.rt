// A kit over an entry that isn't what the inner kit gives, and what it keeps.

use crate::made::{Answer, NINE, ask, file, memo};
use ciel_memo::kit::MemoKit;
use ciel_memo_file::memo::Memo;
use line_flow::kit::FlowKit;
use line_kit::kit::LineKit;
use sky_base::fault::FaultKind;
use sky_base::kit::Kit;
use sky_base::text::Txt;
use std::alloc::Global;
use std::process::Abort;
use std::sync::Wait;
use std::test::Fail;

/// The kit gives these bytes.
fn gives(rt: &impl Abort, answer: Answer, want: &[u8]) {
    match answer {
        Ok(bytes) => assert!(rt; bytes.as_slice() == want, "other bytes"),
        Err(kind) => assert!(rt; false, "{kind:?}"),
    }
}

/// The kit gives this fault.
fn faults(rt: &impl Abort, answer: Answer, want: FaultKind) {
    match answer {
        Ok(_) => assert!(rt; false, "no {want:?}"),
        Err(kind) => assert_eq!(rt; kind, want),
    }
}

#[test]
fn an_entry_answers(rt: HostRuntime) -> Result<(), Fail> {
    let alloc = rt.alloc();
    let held = memo(alloc, &file(alloc, &[&NINE])?)?;
    let kit = MemoKit::open(rt, alloc, FlowKit, held)?;
    gives(&rt, ask(alloc, &kit, "count", "")?, b"9\n");
    gives(&rt, ask(alloc, &kit, "count", "a")?, b"1\n");
    gives(&rt, ask(alloc, &kit, "cat", "")?, b"");
    Ok(())
}

#[test]
fn an_unknown_executor_stays_unknown(rt: HostRuntime) -> Result<(), Fail> {
    let alloc = rt.alloc();
    let mut entry = NINE;
    entry[7] = b'x';
    let kit = MemoKit::open(rt, alloc, LineKit, memo(alloc, &file(alloc, &[&entry])?)?)?;
    faults(&rt, ask(alloc, &kit, "couxt", "")?, FaultKind::BadExec);
    assert!(rt; !kit.known(&Txt::new(alloc, "couxt")?));
    assert!(rt; kit.known(&Txt::new(alloc, "count")?));
    Ok(())
}

/// The text of a kit without a memo that was asked these questions, each in turn.
fn text_of<R: Wait + Drop + Copy>(
    rt: R,
    alloc: Global,
    questions: &[(&str, &str)],
) -> Result<Vec<u8>, Fail> {
    let kit = MemoKit::open(rt, alloc, FlowKit, Memo::new(alloc))?;
    for (executor, input) in questions {
        let _ = ask(alloc, &kit, executor, input)?;
    }
    let text = kit.text(alloc)?;
    Ok(Vec::from_slice(alloc, text.as_slice())?)
}

#[test]
fn what_is_kept_is_read_again(rt: HostRuntime) -> Result<(), Fail> {
    let alloc = rt.alloc();
    let text = text_of(rt, alloc, &[("count", ""), ("cat", "a\nb"), ("count", "")])?;
    let kit = MemoKit::open(rt, alloc, FlowKit, memo(alloc, &text)?)?;
    gives(&rt, ask(alloc, &kit, "count", "")?, b"0\n");
    gives(&rt, ask(alloc, &kit, "cat", "a\nb")?, b"a\nb\n");
    assert!(rt; kit.text(alloc)?.as_slice() == text.as_slice());
    assert_eq!(rt; text.len(), 2 + 59 + 62);
    Ok(())
}

#[test]
fn faults_and_long_results_are_not_kept(rt: HostRuntime) -> Result<(), Fail> {
    let alloc = rt.alloc();
    assert_eq!(rt; text_of(rt, alloc, &[("sum", "a"), ("none", "")])?.len(), 2);
    let long = String::from_utf8(vec![in alloc; b'a'; 600_000]?)?;
    assert_eq!(rt;
        text_of(rt, alloc, &[("cat", &long), ("count", &long)])?.len(),
        2 + 600_059
    );
    Ok(())
}

#[test]
fn entries_read_stand_in_front(rt: HostRuntime) -> Result<(), Fail> {
    let alloc = rt.alloc();
    let read = file(alloc, &[&NINE])?;
    let kit = MemoKit::open(rt, alloc, FlowKit, memo(alloc, &read)?)?;
    gives(&rt, ask(alloc, &kit, "count", "")?, b"9\n");
    gives(&rt, ask(alloc, &kit, "count", "a")?, b"1\n");
    let text = kit.text(alloc)?;
    assert_eq!(rt; text.as_slice().len(), 61 + 60);
    assert!(rt; text.as_slice().starts_with(&read));
    Ok(())
}
