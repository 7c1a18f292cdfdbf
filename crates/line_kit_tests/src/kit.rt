// A call of the kit with arguments and inputs that are short to write.

use crate::calls::{Arg, Args, bytes_of, dictionary};
use line_kit::kit::LineKit;
use sky_base::fault::FaultKind;
use sky_base::kit::Kit;
use sky_base::text::{Bytes, Txt};
use sky_base::value::Value;
use std::alloc::Global;
use std::process::Abort;
use std::test::Fail;

/// What the kit answers for any arguments.
pub fn answer(
    alloc: Global,
    executor: &str,
    args: &Value,
    inputs: &[&str],
    outputs: u32,
) -> Result<Result<Vec<Bytes>, FaultKind>, Fail> {
    let executor = Txt::new(alloc, executor)?;
    let inputs = bytes_of(alloc, inputs)?;
    Ok(LineKit.run(alloc, &executor, args, inputs.as_slice(), outputs)?)
}

/// The executor gives these outputs.
pub fn gives(
    rt: &impl Abort,
    alloc: Global,
    executor: &str,
    args: Args,
    inputs: &[&str],
    want: &[&str],
) -> Result<(), Fail> {
    let args = dictionary(alloc, args)?;
    match answer(alloc, executor, &args, inputs, u32::try_from(want.len())?)? {
        Ok(outputs) => {
            assert_eq!(rt; outputs.len(), want.len(), "outputs of {executor}");
            for (output, want) in outputs.iter().zip(want) {
                assert!(rt;
                    output.as_slice() == want.as_bytes(),
                    "{executor}: not {want}"
                );
            }
        }
        Err(kind) => assert!(rt; false, "{executor}: {kind:?}"),
    }
    Ok(())
}

/// The executor gives this fault.
pub fn faults(
    rt: &impl Abort,
    alloc: Global,
    executor: &str,
    args: Args,
    inputs: &[&str],
    outputs: u32,
    want: FaultKind,
) -> Result<(), Fail> {
    let args = dictionary(alloc, args)?;
    match answer(alloc, executor, &args, inputs, outputs)? {
        Ok(_) => assert!(rt; false, "{executor}: no {want:?}"),
        Err(kind) => assert_eq!(rt; kind, want, "of {executor}"),
    }
    Ok(())
}
