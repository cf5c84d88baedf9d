// The facts that the parts of a state's line give.
ghost use Rattle.std.specs.Prelude.{◌≡◌, ◌++◌, map, IfOk, IfErr, OnOk, Some};
ghost use Rattle.tp_value.specs.Globals.{variable_of, with_name};
ghost use Rattle.tp_store.specs.Known.{addition, adds, global_variable, IsVariableOf};
ghost use Rattle.tp_store.specs.Stock.{contents_in};
ghost use Rattle.tp_store.specs.Answers.{IsRefusal};
ghost use Rattle.tp_store.specs.Changes.{IsSoundStore, AddsFacts, HaveSameShapes};
ghost use Rattle.tp_show.specs.Trace.{fact_named, part_facts, parts_facts, have_clash};
ghost use Rattle.tp_show.specs.TraceReading.{trace_part_of, trace_parts_of};
ghost use Rattle.tp_show.specs.TraceFiling.{part_name, variable_facts};

use crate::named_fact::NamedFact;
use crate::trace_part::ReadPart;
use std::alloc::Global;
use tp_store::{AddRefusal, Store, value_facts};
use tp_value::{Fact, Facts, Globals, Indices, NoMemory, Path, Shape, Text, VarId};

/// The variable that facts of one name are taken to be of.
const SOME_VARIABLE: VarId = VarId {
    number: 0,
    lasting: false,
};

impl ReadPart {
    fn name(&self) -> &Text
        ensures { result.now ≡ part_name (trace_part_of self.now) }
    {
        match self {
            ReadPart::Given(path, _) => &path.name,
            ReadPart::Measured(path, _) => &path.name,
        }
    }
}

// The fact, told of a variable by its name.
fn named_fact(name: &Text, at: &Indices, shape: Shape) -> Result<NamedFact, NoMemory>
    ensures { IfOk result (λ fact. fact
        ≡ record { name = name.now; at = at.now; shape = shape }) }
{
    let name = name.copy()?;
    let at = at.copy()?;
    Ok(NamedFact { name, at, shape })
}

// Appends the facts, told by this name.
fn append_named(name: &Text, facts: &[Fact], out: &mut Vec<NamedFact>) -> Result<(), NoMemory>
    ensures { OnOk result (out.new.items ≡ out.old.items ++ map (fact_named name.now) facts.now) }
{
    for fact in facts {
        let told = named_fact(name, &fact.path.at, fact.shape)?;
        out.push(told)?;
    }
    Ok(())
}

// Appends the facts of the part.
fn append_part_facts(
    alloc: Global,
    part: &ReadPart,
    out: &mut Vec<NamedFact>,
) -> Result<(), NoMemory>
    ensures { OnOk result (out.new.items ≡ out.old.items ++ part_facts (trace_part_of part.now)) }
{
    match part {
        ReadPart::Given(path, value) => {
            let at = path.at.copy()?;
            let place = Path {
                var: SOME_VARIABLE,
                at,
            };
            let facts = value_facts(alloc, &place, value)?;
            append_named(&path.name, facts.as_slice(), out)
        }
        ReadPart::Measured(path, length) => {
            let told = named_fact(&path.name, &path.at, Shape::Items(*length))?;
            out.push(told)?;
            Ok(())
        }
    }
}

/// The facts of the parts, in order.
pub fn all_facts(alloc: Global, parts: &[ReadPart]) -> Result<Vec<NamedFact>, NoMemory>
    ensures { IfOk result (λ facts. facts.items ≡ parts_facts (trace_parts_of parts.now)) }
{
    let mut facts = Vec::new(alloc);
    for part in parts {
        append_part_facts(alloc, part, &mut facts)?;
    }
    Ok(facts)
}

// The variable of the name, which the store has then.
fn variable_for(globals: &mut Globals, store: &mut Store, name: &Text) -> Result<VarId, NoMemory>
    requires { store.old.variables ≡ map global_variable globals.old }
    ensures variable { IfOk result (λ x. variable_of globals.new name.now ≡ Some x) }
    ensures names { OnOk result (globals.new ≡ with_name globals.old name.now) }
    ensures variables { OnOk result (store.new.variables ≡ map global_variable globals.new) }
    ensures facts { OnOk result (HaveSameShapes store.new.facts store.old.facts) }
    ensures sound { OnOk result (IsSoundStore (contents_in store.new)) }
{
    let var = globals.add(name)?;
    if var.number == store.count() {
        store.fresh(name, var.lasting)?;
    }
    Ok(var)
}

// Adds the facts of the part, as facts of this variable.
fn add_part(store: &mut Store, var: VarId, part: &ReadPart) -> Result<Facts, AddRefusal>
    requires { IsVariableOf store.old.variables var }
    ensures news { IfOk result (λ news.
        addition store.old.facts (variable_facts var (trace_part_of part.now)) ≡ adds news) }
    ensures refused { IfErr result
        (IsRefusal (addition store.old.facts (variable_facts var (trace_part_of part.now)))) }
    ensures added { IfOk result (λ news.
        AddsFacts (contents_in store.old) news (contents_in store.new)) }
    ensures sound { OnOk result (IsSoundStore (contents_in store.new)) }
{
    match part {
        ReadPart::Given(path, value) => {
            let at = path.at.copy()?;
            store.add(&Path { var, at }, value)
        }
        ReadPart::Measured(path, length) => {
            let at = path.at.copy()?;
            store.add_length(&Path { var, at }, *length)
        }
    }
}

/// Whether some two facts of the parts clash.
pub fn facts_clash(alloc: Global, parts: &[ReadPart]) -> Result<bool, NoMemory>
    ensures { IfOk result (λ clash. clash ≡ have_clash (parts_facts (trace_parts_of parts.now))) }
{
    let mut globals = Globals::new(alloc)?;
    let mut store = Store::new(alloc, &globals)?;
    for part in parts {
        let var = variable_for(&mut globals, &mut store, part.name())?;
        match add_part(&mut store, var, part) {
            Ok(_) => {}
            Err(AddRefusal::Clash { .. }) => return Ok(true),
            Err(AddRefusal::NoMemory) => return Err(NoMemory),
        }
    }
    Ok(false)
}
