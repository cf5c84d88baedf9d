// Stores that keep what is known of states.
ghost use Rattle.std.specs.Prelude.{◌≡◌, ◌++◌, ◌∷◌, [], IfOk, IfErr, OnErr, MatchOption, true, false};
ghost use Rattle.std.specs.List.{list_any};
ghost use Rattle.tp_meaning.specs.Interval.{kinds_of};
ghost use Rattle.tp_store.specs.Known.{addition, adds, AreOfVariables, IsVariableOf};
ghost use Rattle.tp_store.specs.Stock.{contents_in};
ghost use Rattle.tp_store.specs.Answers.{IsRefusal};
ghost use Rattle.tp_store.specs.Changes.{AddsFacts, IsSoundStore};
ghost use Rattle.tp_verdict.specs.Trace.{clash_somewhere};
ghost use Rattle.tp_verdict.specs.VerdictLaws.{AreOfKinds, StatesAreOfKinds};
ghost use Rattle.tp_monitor.specs.Standing.{StandFor, EachStandsFor};

use std::alloc::Global;
use tp_store::{AddRefusal, Store};
use tp_value::{Fact, Facts, Globals, NoMemory, Shape, Value};

// Adds the fact.
fn add_fact(store: &mut Store, fact: &Fact) -> Result<Facts, AddRefusal>
    requires { IsVariableOf store.old.variables fact.now.path.var }
    ensures news { IfOk result (λ news.
        addition store.old.facts (fact.now ∷ []) ≡ adds news) }
    ensures refused { IfErr result (IsRefusal (addition store.old.facts (fact.now ∷ []))) }
    ensures added { IfOk result (λ news.
        AddsFacts (contents_in store.old) news (contents_in store.new)) }
    ensures err { OnErr result (contents_in store.new ≡ contents_in store.old) }
    ensures sound { IsSoundStore (contents_in store.new) }
{
    match fact.shape {
        Shape::Num(n) => store.add(&fact.path, &Value::Num(n)),
        Shape::Truth(b) => store.add(&fact.path, &Value::Truth(b)),
        Shape::Items(length) => store.add_length(&fact.path, length),
    }
}

// Adds the facts. No where one clashes with those before it.
fn add_all(store: &mut Store, facts: &[Fact]) -> Result<bool, NoMemory>
    requires sound { IsSoundStore (contents_in store.old) }
    requires variables { AreOfVariables store.old.variables facts.now }
    ensures clash { IfOk result (λ fits. fits ≡ false
        → clash_somewhere (store.old.facts ++ facts.now) ≡ true) }
    ensures facts { IfOk result (λ fits. fits ≡ true
        → StandFor store.new.facts (store.old.facts ++ facts.now)) }
    ensures variables { IfOk result (λ fits. store.new.variables ≡ store.old.variables) }
    ensures sound { IfOk result (λ fits. IsSoundStore (contents_in store.new)) }
{
    for fact in facts {
        match add_fact(store, fact) {
            Ok(_) => {}
            Err(AddRefusal::Clash { .. }) => return Ok(false),
            Err(AddRefusal::NoMemory) => return Err(NoMemory),
        }
    }
    Ok(true)
}

/// Facts that stand for these, or none where some two of these clash.
pub fn once_each(
    alloc: Global,
    globals: &Globals,
    facts: &[Fact],
) -> Result<Option<Facts>, NoMemory>
    requires { AreOfKinds (kinds_of globals.now) facts.now }
    ensures { IfOk result (λ once. MatchOption once (clash_somewhere facts.now ≡ true)
        (λ once. StandFor once facts.now)) }
{
    let mut store = Store::new(alloc, globals)?;
    if !add_all(&mut store, facts)? {
        return Ok(None);
    }
    let mut once = Facts {
        items: Vec::new(alloc),
    };
    store.facts(store.count(), &mut once)?;
    Ok(Some(once))
}

// A store of the facts, or none where some two of them clash.
fn state_store(
    alloc: Global,
    globals: &Globals,
    own: &[Fact],
    lasting: &[Fact],
) -> Result<Option<Store>, NoMemory>
    requires own { AreOfKinds (kinds_of globals.now) own.now }
    requires lasting { AreOfKinds (kinds_of globals.now) lasting.now }
    ensures { IfOk result (λ store.
        MatchOption store (clash_somewhere (own.now ++ lasting.now) ≡ true)
        (λ store. StandFor store.facts (own.now ++ lasting.now))) }
{
    let mut store = Store::new(alloc, globals)?;
    if !add_all(&mut store, own)? {
        return Ok(None);
    }
    if !add_all(&mut store, lasting)? {
        return Ok(None);
    }
    Ok(Some(store))
}

/// For each state a store of its facts and of those of static variables, or none where some two of them clash in some state.
pub fn state_stores(
    alloc: Global,
    globals: &Globals,
    states: &[Facts],
    lasting: &[Fact],
) -> Result<Option<Vec<Store>>, NoMemory>
    requires states { StatesAreOfKinds (kinds_of globals.now) states.now }
    requires lasting { AreOfKinds (kinds_of globals.now) lasting.now }
    ensures { IfOk result (λ stores. MatchOption stores
        (list_any (λ own. clash_somewhere (own ++ lasting.now)) states.now ≡ true)
        (λ stores. EachStandsFor stores.items states.now lasting.now)) }
{
    let mut stores = Vec::new(alloc);
    for state in states {
        match state_store(alloc, globals, state.items.as_slice(), lasting)? {
            Some(store) => stores.push(store)?,
            None => return Ok(None),
        }
    }
    Ok(Some(stores))
}
