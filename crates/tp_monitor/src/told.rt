// The facts that a trace tells of variables.
ghost use Rattle.std.specs.Prelude.{◌≡◌, ◌++◌, IfOk, OnOk};
ghost use Rattle.std.specs.List.{flat_map};
ghost use Rattle.tp_value.specs.Globals.{variable_of};
ghost use Rattle.tp_store.specs.Known.{lasting_facts};
ghost use Rattle.tp_monitor.specs.Told.{fact_of, facts_among, told_by_trace};

use std::alloc::Global;
use tp_show::{NamedFact, TraceState};
use tp_value::{Fact, Facts, Globals, NoMemory, Path};

// Appends the fact, as one of the variable with its name; where none has the name, nothing.
fn append_fact(globals: &Globals, fact: &NamedFact, out: &mut Vec<Fact>) -> Result<(), NoMemory>
    ensures { OnOk result (out.new.items
        ≡ out.old.items ++ fact_of (variable_of globals.now fact.now.name) fact.now) }
{
    match globals.find(&fact.name) {
        Some(var) => {
            let at = fact.at.copy()?;
            out.push(Fact {
                path: Path { var, at },
                shape: fact.shape,
            })?;
            Ok(())
        }
        None => Ok(()),
    }
}

// Appends those of the facts that are of variables.
fn append_told(globals: &Globals, facts: &[NamedFact], out: &mut Vec<Fact>) -> Result<(), NoMemory>
    ensures { OnOk result (out.new.items ≡ out.old.items ++ facts_among globals.now facts.now) }
{
    for fact in facts {
        append_fact(globals, fact, out)?;
    }
    Ok(())
}

/// What is told of the variables in each state.
pub fn told_states(
    alloc: Global,
    globals: &Globals,
    states: &[TraceState],
) -> Result<Vec<Facts>, NoMemory>
    ensures { IfOk result (λ told. told.items ≡ told_by_trace globals.now states.now) }
{
    let mut told = Vec::new(alloc);
    for state in states {
        let mut items = Vec::new(alloc);
        append_told(globals, state.facts.as_slice(), &mut items)?;
        told.push(Facts { items })?;
    }
    Ok(told)
}

// Appends those of the facts that are of static variables.
fn append_lasting(facts: &[Fact], out: &mut Vec<Fact>) -> Result<(), NoMemory>
    ensures { OnOk result (out.new.items ≡ out.old.items ++ lasting_facts facts.now) }
{
    for fact in facts {
        if fact.path.var.lasting {
            let copy = fact.copy()?;
            out.push(copy)?;
        }
    }
    Ok(())
}

/// The facts of static variables that are told in any of the states.
pub fn lasting_of_all(alloc: Global, told: &[Facts]) -> Result<Vec<Fact>, NoMemory>
    ensures { IfOk result (λ facts. facts.items ≡ flat_map lasting_facts told.now) }
{
    let mut lasting = Vec::new(alloc);
    for state in told {
        append_lasting(state.items.as_slice(), &mut lasting)?;
    }
    Ok(lasting)
}
