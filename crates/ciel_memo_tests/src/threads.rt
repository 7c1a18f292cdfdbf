// Two threads that push to one kit.

use crate::made::memo;
use ciel_memo::kit::MemoKit;
use ciel_memo_file::memo::Memo;
use line_flow::kit::FlowKit;
use sky_base::kit::Kit;
use sky_base::name::Name;
use sky_base::text::{Bytes, Memory, Txt};
use sky_base::value::{Pairs, Value};
use std::alloc::Global;
use std::test::Fail;
use std::thread;

/// The arguments with one input alone.
fn args(alloc: Global) -> Result<Value, Memory> {
    let mut pairs = Pairs::new(alloc);
    pairs.insert(Txt::new(alloc, "in")?, Value::Ref(Name::short([0; 20])))?;
    Ok(Value::Dict(pairs))
}

/// Whether the kit counts the lines of this input.
fn counts<K: Kit>(alloc: Global, kit: &K, input: &[u8]) -> Result<bool, Memory> {
    let Ok(bytes) = Vec::from_slice(alloc, input) else {
        return Err(Memory);
    };
    let inputs = [Bytes::new(alloc, bytes)?];
    let args = args(alloc)?;
    let answer = kit.run(alloc, &Txt::new(alloc, "count")?, &args, &inputs, 1)?;
    Ok(answer.is_ok())
}

/// Whether it does so for an input of this thread's own, and for one that both have.
fn asks<K: Kit>(alloc: Global, kit: &K, own: &[u8]) -> Result<bool, Memory> {
    let first = counts(alloc, kit, own)?;
    let second = counts(alloc, kit, b"both")?;
    Ok(first && second)
}

#[test]
fn two_threads_keep_what_they_made(rt: HostRuntime) -> Result<(), Fail> {
    let alloc = rt.alloc();
    let kit = MemoKit::open(rt, alloc, FlowKit, Memo::new(alloc))?;
    let other = kit.share()?;
    let (a, b) = thread::join(
        &rt,
        || asks(alloc, &kit, b"a"),
        || asks(alloc, &other, b"b"),
    );
    assert_eq!(rt; a, Ok(true));
    assert_eq!(rt; b, Ok(true));
    let text = kit.text(alloc)?;
    assert_eq!(rt; text.as_slice().len(), 2 + 60 + 60 + 63);
    assert!(rt; other.text(alloc)?.as_slice() == text.as_slice());
    let _whole = memo(alloc, text.as_slice())?;
    Ok(())
}
