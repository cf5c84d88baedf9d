// The names of the variables of a source.
ghost use Rattle.std.specs.Prelude.{◌≡◌, OnOk};
ghost use Rattle.tp_tree.specs.Read.{phrase_tree, phrase_trees};
ghost use Rattle.tp_tree.specs.Tree.{name as name_kind, exists as exists_kind, form as form_kind};
ghost use Rattle.tp_scope.specs.Seen.{names_bound};
ghost use Rattle.tp_scope.specs.Names.{names_with, names_in, names_in_kind, names_in_all};

use crate::binders::Binders;
use crate::scope::{Scope, find_binder};
use std::alloc::Global;
use tp_tree::{Form, Phrase, PhraseKind, Phrases};
use tp_value::{Globals, NoMemory, Text, Texts};

// Adds the name where it isn't bound.
fn add_name(name: &Text, scope: &Scope, globals: &mut Globals) -> Result<(), NoMemory>
    ensures { OnOk result (globals.new
        ≡ names_with globals.old (names_in_kind (names_bound scope.now) (name_kind name.now))) }
{
    if find_binder(scope, name)?.is_none() {
        globals.add(name)?;
    }
    Ok(())
}

/// Adds the names of variables in a phrase that stands in this scope, in the order of the text.
#[cycle(names)]
pub fn add_names(
    alloc: Global,
    phrase: &Phrase,
    scope: &Scope,
    globals: &mut Globals,
) -> Result<(), NoMemory>
    ensures { OnOk result (globals.new
        ≡ names_with globals.old (names_in (names_bound scope.now) (phrase_tree phrase.now))) }
{
    match &phrase.kind {
        PhraseKind::Name(name) => add_name(name, scope, globals),
        PhraseKind::Size(part)
        | PhraseKind::Minus(part)
        | PhraseKind::Next(part)
        | PhraseKind::Not(part) => add_names(alloc, part, scope, globals),
        PhraseKind::Index(first, second)
        | PhraseKind::Binary(_, first, second)
        | PhraseKind::While(first, second)
        | PhraseKind::Repeat(first, second) => {
            add_names(alloc, first, scope, globals)?;
            add_names(alloc, second, scope, globals)
        }
        PhraseKind::If(condition, first, None) => {
            add_names(alloc, condition, scope, globals)?;
            add_names(alloc, first, scope, globals)
        }
        PhraseKind::If(condition, first, Some(second)) => {
            add_names(alloc, condition, scope, globals)?;
            add_names(alloc, first, scope, globals)?;
            add_names(alloc, second, scope, globals)
        }
        PhraseKind::For(name, bound, body) | PhraseKind::Forall(name, bound, body) => {
            add_names(alloc, bound, scope, globals)?;
            let binders = Binders::one(alloc, name)?;
            add_names(alloc, body, &Scope::Inner(&binders, &*scope), globals)
        }
        PhraseKind::Exists(names, body) => add_names_within(alloc, body, names, scope, globals),
        PhraseKind::Form(form, operands) => add_of_form(alloc, *form, operands, scope, globals),
        PhraseKind::List(parts) | PhraseKind::And(parts) | PhraseKind::Call(_, parts) => {
            add_all(alloc, parts, scope, globals)
        }
        PhraseKind::Number(_) | PhraseKind::Truth(_) | PhraseKind::Bare(_) => Ok(()),
    }
}

// Of an `exists` with these names.
#[cycle(names)]
fn add_names_within(
    alloc: Global,
    body: &Phrase,
    names: &Texts,
    scope: &Scope,
    globals: &mut Globals,
) -> Result<(), NoMemory>
    ensures { OnOk result (globals.new
        ≡ names_with globals.old
        (names_in_kind (names_bound scope.now) (exists_kind names.now (phrase_tree body.now)))) }
{
    match Binders::of(alloc, names)? {
        Some(binders) => add_names(alloc, body, &Scope::Inner(&binders, &*scope), globals),
        None => Ok(()),
    }
}

// Of a form with these operands. The port of an `input` is no variable.
#[cycle(names)]
fn add_of_form(
    alloc: Global,
    form: Form,
    operands: &Phrases,
    scope: &Scope,
    globals: &mut Globals,
) -> Result<(), NoMemory>
    ensures { OnOk result (globals.new
        ≡ names_with globals.old
        (names_in_kind (names_bound scope.now) (form_kind form (phrase_trees operands.now)))) }
{
    match form {
        Form::Input => match operands.items.first() {
            Some(place) => add_names(alloc, place, scope, globals),
            None => Ok(()),
        },
        Form::Always
        | Form::Keep
        | Form::Fin
        | Form::Halt
        | Form::Stable
        | Form::Sometimes
        | Form::Len
        | Form::List
        | Form::Display => add_all(alloc, operands, scope, globals),
    }
}

// Of each of the phrases.
#[cycle(names)]
fn add_all(
    alloc: Global,
    phrases: &Phrases,
    scope: &Scope,
    globals: &mut Globals,
) -> Result<(), NoMemory>
    ensures { OnOk result (globals.new
        ≡ names_with globals.old
        (names_in_all (names_bound scope.now) (phrase_trees phrases.now))) }
{
    for phrase in &phrases.items {
        add_names(alloc, phrase, scope, globals)?;
    }
    Ok(())
}
