// The texts of some values and the values of some texts, from outside the definitions.

use ciel_json::read::{ToValue, to_value};
use ciel_json::write::{ToText, to_text};
use sky_base::name::Name;
use sky_base::text::Txt;
use sky_base::value::{Pairs, Vals, Value};
use std::alloc::{AllocError, Global};
use std::process::Abort;
use std::test::Fail;

fn text(alloc: Global, text: &str) -> Result<Value, Fail> {
    Ok(Value::Text(Txt::new(alloc, text)?))
}

fn two(alloc: Global, one: Value, other: Value) -> Result<Value, Fail> {
    let mut values = Vals::new(alloc);
    values.push(one)?;
    values.push(other)?;
    Ok(Value::List(values))
}

fn keyed(alloc: Global, rows: [(&'static str, i64); 3]) -> Result<Value, Fail> {
    let mut pairs = Pairs::new(alloc);
    for (key, number) in rows {
        pairs.insert(Txt::new(alloc, key)?, Value::Int(number))?;
    }
    Ok(Value::Dict(pairs))
}

fn writes(rt: &impl Abort, alloc: Global, value: Value, want: Result<&str, ToText>) {
    assert!(rt; !value.is_too_deep() && !value.is_too_large());
    match (to_text(alloc, &value), want) {
        (Ok(text), Ok(want)) => assert!(rt; text.as_slice() == want.as_bytes(), "{want}"),
        (Err(refusal), Err(want)) => assert!(rt; refusal == want),
        _ => assert!(rt; false, "another answer"),
    }
}

#[test]
fn lists_and_dictionaries(rt: HostRuntime) -> Result<(), Fail> {
    let alloc = rt.alloc();
    writes(
        &rt,
        alloc,
        two(alloc, Value::Null, Value::Bool(true))?,
        Ok("[null,true]"),
    );
    writes(&rt, alloc, Value::List(Vals::new(alloc)), Ok("[]"));
    writes(&rt, alloc, Value::Dict(Pairs::new(alloc)), Ok("{}"));
    let keyed = keyed(alloc, [("b", 2), ("a", 1), ("c", 3)])?;
    writes(&rt, alloc, keyed, Ok("{\"a\":1,\"b\":2,\"c\":3}"));
    let name = Value::Ref(Name::short([0; 20]));
    writes(
        &rt,
        alloc,
        two(alloc, Value::Null, name)?,
        Err(ToText::NotText),
    );
    Ok(())
}

#[test]
fn numbers_and_texts(rt: HostRuntime) -> Result<(), Fail> {
    let alloc = rt.alloc();
    writes(&rt, alloc, Value::Int(i64::MIN), Ok("-9223372036854775808"));
    let escaped = Ok("\"x\\n\\\"\\\\/\\u0001\u{e9}\"");
    writes(&rt, alloc, text(alloc, "x\n\"\\/\u{1}\u{e9}")?, escaped);
    let fun = Value::Fun {
        name: Txt::new(alloc, "f")?,
        caught: Pairs::new(alloc),
    };
    writes(&rt, alloc, fun, Err(ToText::NotText));
    Ok(())
}

// What bytes are read as, written out again.
fn reads(rt: &impl Abort, alloc: Global, bytes: &[u8], want: &str) {
    match to_value(alloc, bytes) {
        Ok(value) => writes(rt, alloc, value, Ok(want)),
        Err(_) => assert!(rt; false, "{want}"),
    }
}

fn refuses(rt: &impl Abort, alloc: Global, bytes: &[u8], want: ToValue) {
    match to_value(alloc, bytes) {
        Ok(_) => assert!(rt; false, "a value"),
        Err(refusal) => assert!(rt; refusal == want),
    }
}

// So many bytes, then some in the middle, then so many others.
fn around(
    alloc: Global,
    opening: u8,
    middle: &[u8],
    closing: u8,
    times: usize,
) -> Result<Vec<u8>, AllocError> {
    let mut bytes = Vec::new(alloc);
    for _ in 0..times {
        bytes.push(opening)?;
    }
    bytes.extend_from_slice(middle)?;
    for _ in 0..times {
        bytes.push(closing)?;
    }
    Ok(bytes)
}

#[test]
fn texts_are_read_as_values(rt: HostRuntime) {
    let alloc = rt.alloc();
    reads(&rt, alloc, b"[1, \"a\"]", "[1,\"a\"]");
    reads(
        &rt,
        alloc,
        b" {\"b\": [null, true], \"a\": {}}\n",
        "{\"a\":{},\"b\":[null,true]}",
    );
    reads(&rt, alloc, b"-9223372036854775808", "-9223372036854775808");
    reads(&rt, alloc, b"9223372036854775807", "9223372036854775807");
    reads(&rt, alloc, b"\"\\u0041\\n\"", "\"A\\n\"");
}

#[test]
fn what_is_no_data_is_refused(rt: HostRuntime) {
    let alloc = rt.alloc();
    let texts = [
        "",
        "1.5",
        "1e2",
        "9223372036854775808",
        "-9223372036854775809",
        "01",
        "nul",
        "1 2",
        "[1,]",
        "\"\\ud800\"",
    ];
    for text in texts {
        refuses(&rt, alloc, text.as_bytes(), ToValue::NotData);
    }
    refuses(&rt, alloc, &[255], ToValue::NotData);
}

#[test]
fn brackets_and_depths_have_limits(rt: HostRuntime) -> Result<(), Fail> {
    let alloc = rt.alloc();
    refuses(&rt, alloc, &[b'['; 100], ToValue::NotData);
    refuses(&rt, alloc, &[b'['; 101], ToValue::TooDeep);
    let empty = around(alloc, b'[', b"", b']', 100)?;
    assert!(rt; to_value(alloc, empty.as_slice()).is_ok());
    let one = around(alloc, b'[', b"1", b']', 100)?;
    refuses(&rt, alloc, one.as_slice(), ToValue::TooDeep);
    let open = around(alloc, b'[', b"", b'[', 60)?;
    refuses(&rt, alloc, open.as_slice(), ToValue::TooDeep);
    let text = quoted(alloc, open.as_slice())?;
    assert!(rt; to_value(alloc, text.as_slice()).is_ok());
    Ok(())
}

#[test]
fn bytes_and_sizes_have_limits(rt: HostRuntime) -> Result<(), Fail> {
    let alloc = rt.alloc();
    let blanks = around(alloc, b' ', b"", b' ', 4_194_304)?;
    refuses(&rt, alloc, blanks.as_slice(), ToValue::NotData);
    let more = around(alloc, b' ', b"1", b' ', 4_194_304)?;
    refuses(&rt, alloc, more.as_slice(), ToValue::TooLarge);
    let greatest = around(alloc, b'a', b"b", b'a', 131_071)?;
    assert!(rt; to_value(alloc, quoted(alloc, greatest.as_slice())?.as_slice()).is_ok());
    let larger = around(alloc, b'a', b"", b'a', 131_072)?;
    refuses(
        &rt,
        alloc,
        quoted(alloc, larger.as_slice())?.as_slice(),
        ToValue::TooLarge,
    );
    Ok(())
}

fn quoted(alloc: Global, text: &[u8]) -> Result<Vec<u8>, AllocError> {
    let mut bytes = Vec::new(alloc);
    bytes.push(b'"')?;
    bytes.extend_from_slice(text)?;
    bytes.push(b'"')?;
    Ok(bytes)
}
