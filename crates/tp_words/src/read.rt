// From words to a command.
ghost use Rattle.std.specs.Prelude.{◌≡◌, ◌≢◌, IfOk, IfErr, Some, None, true, false, map, option_map, string_bytes, codes};
ghost use Rattle.std.specs.List.{list_all};
ghost use Rattle.std.specs.Int.{IsInRange};
ghost use Rattle.std.specs.Str.{is_utf8};
ghost use Rattle.clap.specs.Words.{first_of, found_of, kind_of, rows_of};
ghost use Rattle.clap.specs.declared.error.kind.ErrorKind.TheVariants.{OutOfMemory};
ghost use Rattle.tp_words.specs.Command.{wanted_by};
ghost use Rattle.tp_words.specs.Options.{greatest_limit, limit_set, has_other};
ghost use Rattle.tp_words.specs.Subject.{HasSize};
ghost use Rattle.tp_words.specs.Words.{is_text, wanted_in, wanted_of_texts, wanted_of};
ghost use Rattle.tp_words.specs.declared.command.WordsRefusal.TheVariants as refusal;

use crate::app::the_app;
use crate::beside::beside_given;
use crate::command::{Command, WordsRefusal};
use crate::limit::{USUAL_REDUCTIONS, USUAL_STATES, limit_set};
use crate::naming::{has_other, mode_named};
use crate::order::order_set;
use clap::error::ErrorKind;
use clap::{ArgMatches, Error};
use std::alloc::Global;
use tp_value::Text;

// Whether the value is there and is this text.
fn is_text(text: &str, value: Option<&str>) -> bool
    ensures { result ≡ is_text text.now (option_map (λ t. t.now) value.entry) }
{
    match value {
        Some(value) => value == text,
        None => false,
    }
}

// A text of its own, where there is one.
fn owned(alloc: Global, text: Option<&str>) -> Result<Option<String>, WordsRefusal>
    ensures copied { IfOk result (λ s. option_map string_bytes s
        ≡ option_map (λ t. t.now) text.entry) }
    ensures memory { IfErr result (λ e. e ≡ refusal.NoMemory) }
{
    match text {
        Some(text) => Ok(Some(String::from_str(alloc, text)?)),
        None => Ok(None),
    }
}

// The value that the words give by this name.
fn given<'a>(matches: &ArgMatches<'a>, name: &str) -> Option<&'a str>
    ensures { option_map (λ t. t.now) result
        ≡ first_of name.now (rows_of (found_of matches.now)) }
{
    matches.get_str(name)
}

// The limit that the words set by this name, and else the usual one.
fn limit_given(matches: &ArgMatches<'_>, name: &str, usual: u64) -> Option<u64>
    ensures { result ≡ limit_set usual (first_of name.now (rows_of (found_of matches.now))) }
{
    limit_set(usual, given(matches, name))
}

// The command that the matches of the words ask for.
#[tactic(auto, unfolding(crate::specs::Words::wanted_in))]
fn command_in(alloc: Global, matches: &ArgMatches<'_>) -> Result<Command, WordsRefusal>
    ensures accepted { IfOk result (λ c.
        wanted_in (rows_of (found_of matches.now)) ≡ Some (wanted_by c)) }
    ensures refused { IfErr result (λ e. e ≡ refusal.Refused
        → wanted_in (rows_of (found_of matches.now)) ≡ None) }
{
    let Some(name) = given(matches, "mode") else {
        return Err(WordsRefusal::Refused);
    };
    let Some(file) = given(matches, "file") else {
        return Err(WordsRefusal::Refused);
    };
    let Some(mode) = mode_named(name, file) else {
        return Err(WordsRefusal::Refused);
    };
    let Some(states) = limit_given(matches, "states", USUAL_STATES) else {
        return Err(WordsRefusal::Refused);
    };
    let Some(reductions) = limit_given(matches, "reductions", USUAL_REDUCTIONS) else {
        return Err(WordsRefusal::Refused);
    };
    let Some(order) = order_set(given(matches, "order")) else {
        return Err(WordsRefusal::Refused);
    };
    if !has_other(mode, given(matches, "with")) {
        return Err(WordsRefusal::Refused);
    }
    let inputs = owned(alloc, given(matches, "inputs"))?;
    let other = owned(alloc, given(matches, "with"))?;
    let file = String::from_str(alloc, file)?;
    Ok(Command {
        mode,
        file,
        inputs,
        other,
        states,
        reductions,
        order,
        beside: beside_given(is_text("true", given(matches, "trace"))),
    })
}

// Why there is no command: a fault of the command line refuses the words.
fn refusal_for(error: &Error) -> WordsRefusal
    ensures { result ≡ refusal.Refused → kind_of error.now ≢ OutOfMemory }
{
    if let ErrorKind::OutOfMemory = error.kind() {
        WordsRefusal::NoMemory
    } else {
        WordsRefusal::Refused
    }
}

// The command that these texts ask for.
fn command_of<'a>(alloc: Global, texts: &'a [&'a str]) -> Result<Command, WordsRefusal>
    ensures accepted { IfOk result (λ c.
        wanted_of_texts (map (λ t. t.now) texts.entry.now) ≡ Some (wanted_by c)) }
    ensures refused { IfErr result (λ e. e ≡ refusal.Refused
        → wanted_of_texts (map (λ t. t.now) texts.entry.now) ≡ None) }
{
    let app = the_app(alloc)?;
    match app.try_get_matches_from(texts) {
        Ok(matches) => command_in(alloc, &matches),
        Err(error) => Err(refusal_for(&error)),
    }
}

// The words as texts, where each is UTF-8.
fn texts_of<'a>(alloc: Global, words: &'a [Text]) -> Result<Vec<&'a str>, WordsRefusal>
    ensures words { IfOk result (λ texts. map (λ t. t.now) texts.items ≡ words.now) }
    ensures utf8 { IfOk result (λ _. list_all is_utf8 words.now ≡ true) }
    ensures refused { IfErr result (λ e. e ≡ refusal.Refused
        → list_all is_utf8 words.now ≡ false) }
{
    let mut texts = Vec::new(alloc);
    for word in words {
        match str::from_utf8(word.as_slice()) {
            Ok(text) => texts.push(text)?,
            Err(_) => return Err(WordsRefusal::Refused),
        }
    }
    Ok(texts)
}

/// Reads the words after the program's name.
pub fn read_words(alloc: Global, words: &[Text]) -> Result<Command, WordsRefusal>
    ensures accepted { IfOk result (λ c. wanted_of words.now ≡ Some (wanted_by c)) }
    ensures refused { IfErr result (λ e. e ≡ refusal.Refused → wanted_of words.now ≡ None) }
    ensures states { IfOk result (λ c. IsInRange 1 greatest_limit c.states) }
    ensures reductions { IfOk result (λ c. IsInRange 1 greatest_limit c.reductions) }
    ensures other { IfOk result (λ c.
        has_other c.mode (option_map string_bytes c.other) ≡ true) }
    ensures size { IfOk result (λ c. HasSize c.mode) }
{
    let texts = texts_of(alloc, words)?;
    command_of(alloc, texts.as_slice())
}
