// Which phrases are states and places.
ghost use Rattle.std.specs.Prelude.{◌≡◌, IfOk};
ghost use Rattle.tp_tree.specs.Read.{phrase_tree, phrase_trees};
ghost use Rattle.tp_scope.specs.Seen.{may_call};
ghost use Rattle.tp_scope.specs.Phrases.{is_state_operator as state_operator, is_state_phrase, are_state_phrases, is_place_phrase};

use crate::directory::Directory;
use tp_tree::{Op, Phrase, PhraseKind, Phrases};
use tp_value::{NoMemory, Text};

fn is_state_operator(op: Op) -> bool
    ensures { result ≡ state_operator op }
{
    match op {
        Op::Chop => false,
        Op::Proj => false,
        Op::Gets => false,
        Op::Arrow => false,
        Op::Becomes => false,
        Op::Or
        | Op::Equal
        | Op::Differs
        | Op::Less
        | Op::LessEqual
        | Op::Greater
        | Op::GreaterEqual
        | Op::Plus
        | Op::Minus
        | Op::Times
        | Op::Div
        | Op::Mod => true,
    }
}

/// The definitions that may be called from a state phrase.
#[derive(Clone, Copy)]
pub enum Callable<'a> {
    Every,
    StatesOf(&'a Directory<'a>),
}

// Whether the definition of this name may be called.
fn is_callable(name: &Text, callable: Callable) -> Result<bool, NoMemory>
    ensures { IfOk result (λ b. b ≡ may_call callable.entry name.now) }
{
    match callable {
        Callable::Every => Ok(true),
        Callable::StatesOf(directory) => match directory.find(name)? {
            Some(callee) => Ok(callee.signature.is_state),
            None => Ok(false),
        },
    }
}

/// Whether a phrase says something of one state, and calls only what may be called.
#[cycle(state)]
pub fn is_state(phrase: &Phrase, callable: Callable) -> Result<bool, NoMemory>
    ensures { IfOk result (λ b.
        b ≡ is_state_phrase (may_call callable.entry) (phrase_tree phrase.now)) }
{
    match &phrase.kind {
        PhraseKind::Number(_) | PhraseKind::Truth(_) | PhraseKind::Name(_) => Ok(true),
        PhraseKind::Size(part) | PhraseKind::Minus(part) | PhraseKind::Not(part) => {
            is_state(part, callable)
        }
        PhraseKind::List(parts) | PhraseKind::And(parts) => are_states(parts, callable),
        PhraseKind::Call(name, parts) => {
            Ok(is_callable(name, callable)? && are_states(parts, callable)?)
        }
        PhraseKind::Index(whole, at) => {
            Ok(is_state(whole, callable)? && is_state(at, callable)?)
        }
        PhraseKind::Binary(op, left, right) => Ok(
            is_state_operator(*op) && is_state(left, callable)? && is_state(right, callable)?,
        ),
        PhraseKind::If(condition, first, Some(second)) => Ok(
            is_state(condition, callable)?
                && is_state(first, callable)?
                && is_state(second, callable)?,
        ),
        PhraseKind::Next(_)
        | PhraseKind::If(_, _, None)
        | PhraseKind::While(_, _)
        | PhraseKind::Repeat(_, _)
        | PhraseKind::For(_, _, _)
        | PhraseKind::Forall(_, _, _)
        | PhraseKind::Exists(_, _)
        | PhraseKind::Bare(_)
        | PhraseKind::Form(_, _) => Ok(false),
    }
}

#[cycle(state)]
fn are_states(phrases: &Phrases, callable: Callable) -> Result<bool, NoMemory>
    ensures { IfOk result (λ b.
        b ≡ are_state_phrases (may_call callable.entry) (phrase_trees phrases.now)) }
{
    for phrase in &phrases.items {
        if !is_state(phrase, callable)? {
            return Ok(false);
        }
    }
    Ok(true)
}

/// Whether a phrase is a name followed by any number of indices.
pub fn is_place(phrase: &Phrase) -> bool
    ensures { result ≡ is_place_phrase (phrase_tree phrase.now) }
{
    match &phrase.kind {
        PhraseKind::Name(_) => true,
        PhraseKind::Index(whole, _) => is_place(whole),
        PhraseKind::Number(_) | PhraseKind::Truth(_) | PhraseKind::List(_) | PhraseKind::Size(_) =>
            { false }
        PhraseKind::Minus(_) | PhraseKind::Next(_) | PhraseKind::Not(_) => false,
        PhraseKind::Binary(_, _, _) | PhraseKind::And(_) | PhraseKind::If(_, _, _) => false,
        PhraseKind::While(_, _) | PhraseKind::Repeat(_, _) | PhraseKind::For(_, _, _) => false,
        PhraseKind::Forall(_, _, _) | PhraseKind::Exists(_, _) => false,
        PhraseKind::Bare(_) | PhraseKind::Form(_, _) | PhraseKind::Call(_, _) => false,
    }
}
