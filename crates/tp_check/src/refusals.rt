// Why phrases are refused that aren't taken where they stand, and how many operands a form takes.
ghost use Rattle.std.specs.Prelude.{◌≡◌, IfOk};
ghost use Rattle.tp_tree.specs.Read.{phrase_trees, kind_tree};
ghost use Rattle.tp_tree.specs.Tree.{form as form_kind, call as call_kind};
ghost use Rattle.tp_scope.specs.Scope.{VisibleNames};
ghost use Rattle.tp_scope.specs.Seen.{names_seen};
ghost use Rattle.tp_scope.specs.Phrases.{takes as form_takes};
ghost use Rattle.tp_check.specs.Positions.{refusal_of};

use crate::refusal::CheckRefusal;
use std::alloc::Global;
use tp_scope::{Binders, Visible};
use tp_tree::{Form, Phrase, PhraseKind, Phrases};
use tp_value::{NoMemory, Text};

fn takes(form: Form, count: usize) -> bool
    ensures { result ≡ form_takes form count }
{
    match form {
        Form::List => count == 2,
        Form::Input => count == 2,
        Form::Display => count > 0,
        Form::Always
        | Form::Keep
        | Form::Fin
        | Form::Halt
        | Form::Stable
        | Form::Sometimes
        | Form::Len => count == 1,
    }
}

/// Why a form at this place is refused that isn't taken, where `other` stands after a wrong number of operands.
pub fn miscounted_or(at: u32, form: Form, operands: &Phrases, other: CheckRefusal) -> CheckRefusal
    ensures { (names : VisibleNames)
        → result ≡ refusal_of names at (form_kind form (phrase_trees operands.now)) other }
{
    if takes(form, operands.items.len()) {
        other
    } else {
        CheckRefusal::WrongCount { at }
    }
}

// Why a call is refused that isn't taken, where `other` stands after an unknown name and a wrong number of operands.
fn uncalled_or(
    at: u32,
    name: &Text,
    operands: &Phrases,
    names: &Visible,
    other: CheckRefusal,
) -> Result<CheckRefusal, NoMemory>
    ensures { IfOk result (λ e.
        e ≡ refusal_of (names_seen names.now) at (call_kind name.now (phrase_trees operands.now))
        other) }
{
    match names.directory.find(name)? {
        None => Ok(CheckRefusal::Unknown { at }),
        Some(callee) => {
            if callee.takes(operands) {
                Ok(other)
            } else {
                Ok(CheckRefusal::WrongCount { at })
            }
        }
    }
}

/// Why a phrase is refused that isn't taken in its position, where `other` is that position's own refusal: an unknown name, a wrong number of
/// operands, or a name that is bound twice comes before it.
pub fn refusal(
    alloc: Global,
    phrase: &Phrase,
    names: &Visible,
    other: CheckRefusal,
) -> Result<CheckRefusal, NoMemory>
    ensures { IfOk result (λ e.
        e ≡ refusal_of (names_seen names.now) phrase.now.at (kind_tree phrase.now.kind) other) }
{
    let at = phrase.at;
    match &phrase.kind {
        PhraseKind::Call(name, operands) => uncalled_or(at, name, operands, names, other),
        PhraseKind::Form(form, operands) => Ok(miscounted_or(at, *form, operands, other)),
        PhraseKind::Exists(bound, _) => match Binders::of(alloc, bound)? {
            Some(_) => Ok(other),
            None => Ok(CheckRefusal::Twice { at }),
        },
        PhraseKind::Number(_)
        | PhraseKind::Truth(_)
        | PhraseKind::Name(_)
        | PhraseKind::List(_)
        | PhraseKind::Size(_)
        | PhraseKind::Index(_, _)
        | PhraseKind::Minus(_)
        | PhraseKind::Next(_)
        | PhraseKind::Not(_)
        | PhraseKind::Binary(_, _, _)
        | PhraseKind::And(_)
        | PhraseKind::If(_, _, _)
        | PhraseKind::While(_, _)
        | PhraseKind::Repeat(_, _)
        | PhraseKind::For(_, _, _)
        | PhraseKind::Forall(_, _, _)
        | PhraseKind::Bare(_) => Ok(other),
    }
}
