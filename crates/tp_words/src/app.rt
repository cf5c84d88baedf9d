// The command line, as `clap` reads it.
ghost use Rattle.std.specs.Prelude.{◌≡◌, IfOk, false};
ghost use Rattle.clap.specs.Words.{app_of, rule_of};
ghost use Rattle.tp_words.specs.Options.{the_app, required_word, valued_option, plain_flag};

use clap::{Arg, ArgAction, Command};
use std::alloc::Global;
use tp_value::NoMemory;

// A word that must be there.
fn required_word<'a>(alloc: Global, name: &'a str) -> Arg<'a>
    ensures rule { rule_of result ≡ required_word name.entry.now }
    ensures own { result.global ≡ false }
{
    Arg::new(alloc, name).required(true)
}

// An option with a value.
fn valued_option<'a>(alloc: Global, name: &'a str) -> Arg<'a>
    ensures rule { rule_of result ≡ valued_option name.entry.now }
    ensures own { result.global ≡ false }
{
    Arg::new(alloc, name).long(name)
}

// An option without a value.
fn plain_flag<'a>(alloc: Global, name: &'a str) -> Arg<'a>
    ensures rule { rule_of result ≡ plain_flag name.entry.now }
    ensures own { result.global ≡ false }
{
    Arg::new(alloc, name).long(name).action(ArgAction::SetTrue)
}

/// The command line.
pub fn the_app<'a>(alloc: Global) -> Result<Command<'a>, NoMemory>
    ensures { IfOk result (λ c. app_of c ≡ the_app) }
{
    let app = Command::new(alloc, "tempura")
        .no_binary_name(true)
        .disable_help_flag(true)
        .disable_version_flag(true)
        .arg(required_word(alloc, "mode"))?
        .arg(required_word(alloc, "file"))?
        .arg(valued_option(alloc, "inputs"))?
        .arg(valued_option(alloc, "with"))?
        .arg(valued_option(alloc, "states"))?
        .arg(valued_option(alloc, "reductions"))?
        .arg(valued_option(alloc, "order"))?
        .arg(plain_flag(alloc, "trace"))?;
    Ok(app)
}
