// Which definitions are state definitions.
ghost use Rattle.std.specs.Prelude.{◌≡◌, ◌<◌, ◌++◌, ◌∷◌, ◌↔◌, ℕ, [], false, Some, map, length, slice_get, IfOk, OnOk};
ghost use Rattle.std.specs.List.{All, Contains};
ghost use Rattle.tp_tree.specs.Read.{definition_tree, phrase_tree, phrase_trees};
ghost use Rattle.tp_scope.specs.Phrases.{calls_in, calls_in_all};
ghost use Rattle.tp_scope.specs.Names.{AreStates};
ghost use Rattle.tp_scope.specs.Callers.{own_states, numbers_among, number_lists, IsListedToo, AreCallers};
ghost use Rattle.tp_scope.specs.Seen.{names_of_definitions};

use crate::binders::Binders;
use crate::phrases::{Callable, is_state};
use std::alloc::Global;
use tp_tree::{Definitions, Phrase, PhraseKind, Phrases};
use tp_value::{NoMemory, Text};

// Adds the number of the called definition, if there is one of this name.
fn add_call(name: &Text, numbers: &Binders, called: &mut Vec<usize>) -> Result<(), NoMemory>
    ensures { OnOk result (called.new.items
        ≡ called.old.items ++ numbers_among numbers.now (name.now ∷ [])) }
{
    if let Some(number) = numbers.number(name) {
        called.push(number)?;
    }
    Ok(())
}

// Adds the numbers of the definitions that are called in a phrase.
#[cycle(calls)]
fn add_calls(phrase: &Phrase, numbers: &Binders, called: &mut Vec<usize>) -> Result<(), NoMemory>
    ensures { OnOk result (called.new.items
        ≡ called.old.items ++ numbers_among numbers.now (calls_in (phrase_tree phrase.now))) }
{
    match &phrase.kind {
        PhraseKind::Size(part)
        | PhraseKind::Minus(part)
        | PhraseKind::Next(part)
        | PhraseKind::Not(part)
        | PhraseKind::Exists(_, part) => add_calls(part, numbers, called),
        PhraseKind::Index(first, second)
        | PhraseKind::Binary(_, first, second)
        | PhraseKind::If(first, second, None)
        | PhraseKind::While(first, second)
        | PhraseKind::Repeat(first, second)
        | PhraseKind::For(_, first, second)
        | PhraseKind::Forall(_, first, second) => {
            add_calls(first, numbers, called)?;
            add_calls(second, numbers, called)
        }
        PhraseKind::If(condition, first, Some(second)) => {
            add_calls(condition, numbers, called)?;
            add_calls(first, numbers, called)?;
            add_calls(second, numbers, called)
        }
        PhraseKind::List(parts) | PhraseKind::And(parts) | PhraseKind::Form(_, parts) => {
            add_calls_in_all(parts, numbers, called)
        }
        PhraseKind::Call(name, parts) => {
            add_call(name, numbers, called)?;
            add_calls_in_all(parts, numbers, called)
        }
        PhraseKind::Number(_) | PhraseKind::Truth(_) | PhraseKind::Name(_) | PhraseKind::Bare(_) =>
            Ok(()),
    }
}

// In each of the phrases.
#[cycle(calls)]
fn add_calls_in_all(
    phrases: &Phrases,
    numbers: &Binders,
    called: &mut Vec<usize>,
) -> Result<(), NoMemory>
    ensures { OnOk result (called.new.items
        ≡ called.old.items
        ++ numbers_among numbers.now (calls_in_all (phrase_trees phrases.now))) }
{
    for phrase in &phrases.items {
        add_calls(phrase, numbers, called)?;
    }
    Ok(())
}

// Adds the caller to the callers of each of the called definitions.
fn add_caller(
    caller: usize,
    called: &[usize],
    callers: &mut Vec<Vec<usize>>,
) -> Result<(), NoMemory>
    requires { All (λ j. j < length callers.old.items) called.now }
    ensures each { OnOk result (length callers.new.items ≡ length callers.old.items) }
    ensures listed { OnOk result (IsListedToo
        (number_lists callers.old.items) called.now caller (number_lists callers.new.items)) }
{
    for number in called {
        let list = &mut callers[*number];
        list.push(caller)?;
    }
    Ok(())
}

// For each definition the numbers of those that call it.
fn find_callers(
    alloc: Global,
    definitions: &Definitions,
    numbers: &Binders,
) -> Result<Vec<Vec<usize>>, NoMemory>
    requires { numbers.now ≡ names_of_definitions definitions.now }
    ensures { IfOk result (λ callers. AreCallers
        (map definition_tree definitions.now.items.items) (number_lists callers.items)) }
{
    let mut callers = Vec::new(alloc);
    for _definition in &definitions.items {
        callers.push(Vec::new(alloc))?;
    }
    for (i, definition) in definitions.items.iter().enumerate() {
        let mut called = Vec::new(alloc);
        add_calls(&definition.body, numbers, &mut called)?;
        add_caller(i, &called, &mut callers)?;
    }
    Ok(callers)
}

// Whether each body says something of one state, whatever it calls.
fn find_own_states(alloc: Global, definitions: &Definitions) -> Result<Vec<bool>, NoMemory>
    ensures { IfOk result (λ states. states.items
        ≡ own_states (map definition_tree definitions.now.items.items)) }
{
    let mut states = Vec::new(alloc);
    for definition in &definitions.items {
        states.push(is_state(&definition.body, Callable::Every)?)?;
    }
    Ok(states)
}

// The numbers of those that aren't state definitions.
fn find_others(alloc: Global, states: &[bool]) -> Result<Vec<usize>, NoMemory>
    ensures { IfOk result (λ others. (i : ℕ)
        → Contains others.items i ↔ (slice_get states.now i ≡ Some false)) }
{
    let mut others = Vec::new(alloc);
    for (i, state) in states.iter().enumerate() {
        if !*state {
            others.push(i)?;
        }
    }
    Ok(others)
}

/// Says of each definition whether it is a state definition. `numbers` are their names, each at its number.
pub fn find_states(
    alloc: Global,
    definitions: &Definitions,
    numbers: &Binders,
) -> Result<Vec<bool>, NoMemory>
    requires { numbers.now ≡ names_of_definitions definitions.now }
    ensures { IfOk result (λ states.
        AreStates (map definition_tree definitions.now.items.items) states.items) }
{
    let callers = find_callers(alloc, definitions, numbers)?;
    let mut states = find_own_states(alloc, definitions)?;
    let mut work = find_others(alloc, &states)?;
    // A definition that calls one of the work isn't a state definition either.
    while let Some(called) = work.pop() {
        for caller in &callers[called] {
            if states[*caller] {
                states[*caller] = false;
                work.push(*caller)?;
            }
        }
    }
    Ok(states)
}
