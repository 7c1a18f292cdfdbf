//! The command that the words are taken apart by.

ghost use Rattle.std.specs.Prelude.{◌≡◌, IfOk, false};
ghost use Rattle.clap.specs.Simple.{app_of};
ghost use Rattle.clap.specs.Walk.{rule_of};
ghost use Rattle.ciel_words.specs.Command.{command, option_rule, flag_rule, words_rule};

use clap::{Arg, ArgAction, Command};
use std::alloc::{AllocError, Global};

// An option with a value.
fn option<'a>(alloc: Global, name: &'a str) -> Arg<'a>
    ensures rule { rule_of result ≡ option_rule name.entry.now }
    ensures local { result.global ≡ false }
{
    Arg::new(alloc, name).long(name).action(ArgAction::Set)
}

// An option without a value.
fn flag<'a>(alloc: Global, name: &'a str) -> Arg<'a>
    ensures rule { rule_of result ≡ flag_rule name.entry.now }
    ensures local { result.global ≡ false }
{
    Arg::new(alloc, name).long(name).action(ArgAction::SetTrue)
}

// The positional words.
fn words<'a>(alloc: Global) -> Arg<'a>
    ensures rule { rule_of result ≡ words_rule }
    ensures local { result.global ≡ false }
{
    Arg::new(alloc, "words").action(ArgAction::Append)
}

/// The command: ten options with a value, three without, and positional words; no help and no version.
pub(crate) fn command<'a>(alloc: Global) -> Result<Command<'a>, AllocError>
    ensures { IfOk result (λ c. app_of c ≡ command) }
{
    Command::new(alloc, "ciel")
        .no_binary_name(true)
        .disable_help_flag(true)
        .disable_version_flag(true)
        .arg(option(alloc, "workers"))?
        .arg(option(alloc, "seed"))?
        .arg(option(alloc, "lose"))?
        .arg(option(alloc, "names"))?
        .arg(option(alloc, "log"))?
        .arg(option(alloc, "resume"))?
        .arg(option(alloc, "steal"))?
        .arg(option(alloc, "memo-new"))?
        .arg(option(alloc, "memo"))?
        .arg(option(alloc, "generate"))?
        .arg(flag(alloc, "trace"))?
        .arg(flag(alloc, "plain"))?
        .arg(flag(alloc, "stream"))?
        .arg(words(alloc))
}
