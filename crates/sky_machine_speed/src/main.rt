// A counting loop of 1,000,000 visits by the step machine, for `bench/machine` to time. It ends with status 0 where the
// value of the loop is the right one.
#![tactic(auto)]

use ciel_name::name::Sha1Namer;
use sky_base::script::{Script, Texts};
use sky_base::text::Txt;
use sky_base::value::{Pairs, Vals, Value};
use sky_base_scope::state::State;
use sky_machine_entries::control::End;
use sky_machine_loop::run::Stop;
use sky_machine_loop::start::run_call;
use sky_machine_numbers::code::number_script;
use sky_machine_parts::made::Ground;
use sky_parse::script::parse;
use sky_text::lex::{lex, line_col};
use std::alloc::Global;
use std::process::ExitCode;
use std::rt::Env;

/// Each turn visits five nodes.
static LOOP: &str = "i = 0; while (i < 199990) { i += 1; } return i;";

fn script(alloc: Global, text: &str) -> Option<Script> {
    let bytes = text.as_bytes();
    if bytes.len() > 10_000 {
        return None;
    }
    let Ok(tokens) = lex(alloc, bytes) else {
        return None;
    };
    let end = line_col(bytes, bytes.len() as u32);
    match parse(alloc, tokens.as_slice(), end, Texts::of(Vec::new(alloc))) {
        Ok(script) => Some(script),
        Err(_) => None,
    }
}

fn number(stop: &Stop) -> i64 {
    match stop {
        Stop::Ended(End::Returned(Value::Int(z))) => *z,
        _ => -1,
    }
}

// The number that the main call returns, with no form under way and no description made; else a number below 0.
fn run_ground(ground: &Ground<Sha1Namer>) -> i64 {
    let alloc = ground.alloc;
    let mut state = State::new(alloc, 0);
    let (mut made, mut entries) = (Vec::new(alloc), Vec::new(alloc));
    let Ok(main) = Txt::new(alloc, "") else {
        return -3;
    };
    let (caught, args) = (Pairs::new(alloc), Vals::new(alloc));
    match run_call(
        ground,
        &mut state,
        &mut made,
        &mut entries,
        &main,
        &caught,
        &args,
    ) {
        Ok(stop) if entries.is_empty() && made.is_empty() => number(&stop),
        Ok(_) => -6,
        Err(_) => -4,
    }
}

fn ran(alloc: Global) -> i64 {
    let Some(script) = script(alloc, LOOP) else {
        return -2;
    };
    let Ok(tables) = number_script(alloc, &script) else {
        return -5;
    };
    let numbered = tables.over(&script);
    let namer = Sha1Namer;
    let ground = Ground {
        alloc,
        code: &numbered.code,
        namer: &namer,
    };
    run_ground(&ground)
}

fn main(rt: HostRuntime) -> ExitCode {
    if ran(rt.alloc()) == 199_990 {
        ExitCode::from(0)
    } else {
        ExitCode::from(1)
    }
}
