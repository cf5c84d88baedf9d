//! Runs a program of interval temporal logic.
#![tactic(auto)]

ghost use Rattle.std.specs.Prelude.{◌≡◌, ◌<◌, ◌⊎◌, drop, map, string_bytes, IfErr, IfOk};
ghost use Rattle.std.specs.Process.{exit_status};
ghost use Rattle.tp_call.specs.Code.{code_of};

use std::alloc::Global;
use std::env::Env;
use std::marker::Brand;
use std::process::ExitCode;
use std::sync::ledger::{Blank, Ledger};
use std::{env, io};
use tp_call::{Status, tempura};
use tp_io::{Files, RealFiles, RealSink, RuntimeFiles, RuntimeWriter, Sink};
use tp_step::Steps;
use tp_value::{NoMemory, Text};

// The words could not be had, for another cause than memory.
const NO_WORDS: u8 = 20;

const NO_MEMORY: u8 = 16;

// Texts of the same bytes.
fn texts_of(alloc: Global, given: &[String]) -> Result<Vec<Text>, NoMemory>
    ensures texts { IfOk result (λ texts. texts.items ≡ map string_bytes given.now) }
{
    let mut texts = Vec::new(alloc);
    for word in given {
        texts.push(Text::from_slice(alloc, word.as_bytes())?)?;
    }
    Ok(texts)
}

// The words but the first, which is the program's name, in order.
fn without_name(alloc: Global, args: &[String]) -> Result<Vec<Text>, NoMemory>
    ensures words { IfOk result (λ words. words.items ≡ drop 1 (map string_bytes args.now)) }
{
    match args {
        [_, given @ ..] => texts_of(alloc, given),
        [] => Ok(Vec::new(alloc)),
    }
}

// The words after the program's name; at `Err` the exit status. What the system's words are, the library doesn't tell.
fn given_words<R: Env + AllocGlobal>(rt: &R) -> Result<Vec<Text>, u8>
    ensures { IfErr result (λ code. (code ≡ 16) ⊎ (code ≡ 20)) }
{
    let given = env::args(rt).map_err(|e| match e.kind() {
        io::ErrorKind::OutOfMemory => NO_MEMORY,
        _ => NO_WORDS,
    })?;
    let mut args = Vec::new(rt.alloc());
    for arg in given {
        args.push(arg).map_err(|_| NO_MEMORY)?;
    }
    without_name(rt.alloc(), args.as_slice()).map_err(|_| NO_MEMORY)
}

fn exit_of(status: &Status) -> ExitCode
    ensures { exit_status result ≡ code_of status.now }
{
    ExitCode::from(status.code())
}

// The call, with a count of tries of its own. Its ledger has to be a parameter: the toolchain lets a caller choose what a ledger is named
// only at a call of which no type rests on that.
fn call<L: Ledger, F: Files, K: Sink>(
    alloc: Global,
    words: &[Text],
    files: &mut F,
    out: &mut K,
    blank: Blank,
) -> Status
    requires some { 0 < L.parts }
    requires name { blank.name ≡ L.name }
    requires parts { blank.parts ≡ L.parts }
{
    let mut steps = Steps::<L>::new(blank);
    tempura(alloc, words, files, out, &mut steps)
}

fn main(rt: HostRuntime) -> ExitCode {
    let words = match given_words(&rt) {
        Ok(words) => words,
        Err(code) => return ExitCode::from(code),
    };
    let mut files = RealFiles::new(RuntimeFiles::new(&rt));
    let mut out = RealSink::new(RuntimeWriter::new(io::writer(&rt)));
    let status = call::<Brand, _, _>(
        rt.alloc(),
        words.as_slice(),
        &mut files,
        &mut out,
        Blank::new(1),
    );
    exit_of(&status)
}
