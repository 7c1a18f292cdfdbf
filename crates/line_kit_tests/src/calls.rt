// Arguments and inputs of executors that are short to write.

use sky_base::fault::FaultKind;
use sky_base::kit::Kit;
use sky_base::name::Name;
use sky_base::text::{Bytes, Txt};
use sky_base::value::{Pairs, Vals, Value};
use std::alloc::Global;
use std::test::Fail;

/// The value at a key.
#[derive(Clone, Copy)]
pub enum Arg {
    /// A reference.
    One,
    /// A list of so many references.
    Many(u8),
    /// A list of a reference and null.
    Mixed,
    Text(&'static str),
    Number(i64),
}

/// The keys and values of the arguments.
pub type Args<'a> = &'a [(&'a str, Arg)];

/// The arguments with one input alone.
pub const ONE: Args<'static> = &[("in", Arg::One)];

/// The arguments with two inputs alone.
pub const TWO: Args<'static> = &[("in", Arg::Many(2))];

fn reference(place: u8) -> Value {
    let mut bytes = [0u8; 20];
    bytes[19] = place;
    Value::Ref(Name::short(bytes))
}

fn value(alloc: Global, arg: Arg) -> Result<Value, Fail> {
    let mut items = Vals::new(alloc);
    match arg {
        Arg::One => return Ok(reference(0)),
        Arg::Text(text) => return Ok(Value::Text(Txt::new(alloc, text)?)),
        Arg::Number(number) => return Ok(Value::Int(number)),
        Arg::Many(count) => for place in 0..count {
            items.push(reference(place))?;
        },
        Arg::Mixed => {
            items.push(reference(0))?;
            items.push(Value::Null)?;
        }
    }
    Ok(Value::List(items))
}

/// The arguments.
pub fn dictionary(alloc: Global, args: Args) -> Result<Value, Fail> {
    let mut pairs = Pairs::new(alloc);
    for (key, arg) in args {
        pairs.insert(Txt::new(alloc, key)?, value(alloc, *arg)?)?;
    }
    Ok(Value::Dict(pairs))
}

/// The bytes of each input.
pub fn bytes_of(alloc: Global, inputs: &[&str]) -> Result<Vec<Bytes>, Fail> {
    let mut all = Vec::new(alloc);
    for input in inputs {
        let bytes = Bytes::new(alloc, Vec::from_slice(alloc, input.as_bytes())?)?;
        if all.push(bytes).is_err() {
            return Err(Fail::from("memory"));
        }
    }
    Ok(all)
}

/// Whether `cat` of a kit gives a line of so many bytes eight times. Otherwise it says that they are too many.
pub fn eight_times<K: Kit>(alloc: Global, kit: &K, bytes: usize) -> Result<bool, Fail> {
    let mut line = vec![in alloc; b'a'; bytes]?;
    if let Some(last) = line.last_mut() {
        *last = b'\n';
    }
    let input = Bytes::new(alloc, line)?;
    let mut inputs = Vec::new(alloc);
    for _ in 0..8 {
        if inputs.push(input.share()?).is_err() {
            return Err(Fail::from("memory"));
        }
    }
    let args = dictionary(alloc, &[("in", Arg::Many(8))])?;
    match kit.run(alloc, &Txt::new(alloc, "cat")?, &args, inputs.as_slice(), 1)? {
        Ok(_) => Ok(true),
        Err(FaultKind::TooLarge) => Ok(false),
        Err(_) => Err(Fail::from("another fault")),
    }
}
