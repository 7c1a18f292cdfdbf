// What rows of a table are made of: places, and two calls with their names. Crates of tests share it.

use ciel_name::name::{Namer, Sha1Namer};
use ciel_name::object::canon;
use sky_base::at::At;
use sky_base::object::{Desc1, Named};
use sky_base::text::{Memory, Txt};
use sky_base::value::{Pairs, Vals, Value};
use std::alloc::Global;

/// A place, of which the table asks only the worker.
#[derive(Drop)]
pub struct Spot {
    pub worker: u32,
}

impl At for Spot {
    ghost at = { λ s. s.worker };

    fn worker(&self) -> u32 {
        self.worker
    }
}

/// The main call and the call of `f` of 3, each with its name.
#[derive(Drop)]
pub struct Two {
    pub main: Named,
    pub square: Named,
}

/// The description with its name.
pub fn named(alloc: Global, desc: Desc1) -> Result<Named, Memory> {
    let name = Sha1Namer.name(canon(alloc, &desc)?.as_slice());
    Ok(Named { name, desc })
}

fn call(alloc: Global, fun: &str, args: Vals) -> Result<Named, Memory> {
    let fun = Txt::new(alloc, fun)?;
    named(
        alloc,
        Desc1::Call {
            fun,
            caught: Pairs::new(alloc),
            args,
        },
    )
}

fn three(alloc: Global) -> Result<Vals, Memory> {
    let mut args = Vals::new(alloc);
    args.push(Value::Int(3))?;
    Ok(args)
}

/// The two.
pub fn make_two(alloc: Global) -> Result<Two, Memory> {
    let main = call(alloc, "", Vals::new(alloc))?;
    let square = call(alloc, "f", three(alloc)?)?;
    Ok(Two { main, square })
}
