// Values that variables have as a whole.
ghost use Rattle.std.specs.Prelude.{◌≡◌, ◌≢◌, ◌++◌, true, false, Some, IfOk, OnOk};
ghost use Rattle.std.specs.Option.{option_copied, option_map};
ghost use Rattle.tp_value.specs.Limits.{is_within_list_limit};
ghost use Rattle.tp_value.specs.Read.{tree};
ghost use Rattle.tp_value.specs.Shape.{item_at, shape_at_path};
ghost use Rattle.tp_store.specs.Answers.{full_of};
ghost use Rattle.tp_store.specs.Known.{facts_below};
ghost use Rattle.tp_store.specs.Wholes.{facts_of_value, full_inside, whole_facts, whole_value};

use crate::add::append_facts;
use crate::clash::same_shape;
use crate::full::Known;
use indexmap::IndexMap;
use std::alloc::Global;
use std::rc::Rc;
use tp_value::{
    Fact, Indices, NoMemory, Path, Shape, Value, VarId, is_within_list_limit, item, shape_at,
};

/// The value that the variable has as a whole, of values of variables of this kind.
pub fn whole_of(wholes: &IndexMap<u64, Rc<Value>>, lasting: bool, var: VarId) -> Option<&Rc<Value>>
    ensures { option_copied result ≡ whole_value lasting wholes.now.entries var }
{
    if wholes.is_empty() || var.lasting != lasting {
        return None;
    }
    wholes.get(&var.number)
}

/// The shape of what stands at these indices of a value, or none where there is no such element.
pub fn shape_inside(value: &Value, at: &[u32]) -> Option<Shape>
    requires { is_within_list_limit (tree value.now) ≡ true }
    ensures { result ≡ shape_at_path at.now (tree value.now) }
{
    shape_at(value, at)
}

/// Whether what stands at these indices of a value has this shape.
pub fn has_shape(value: &Value, at: &[u32], shape: Shape) -> bool
    requires { is_within_list_limit (tree value.now) ≡ true }
    ensures same { result ≡ true → shape_at_path at.now (tree value.now) ≡ Some shape }
    ensures other { result ≡ false → shape_at_path at.now (tree value.now) ≢ Some shape }
{
    match shape_inside(value, at) {
        Some(kept) => same_shape(kept, shape),
        None => false,
    }
}

// What stands at these indices of a value.
fn item_inside<'a>(value: &'a Value, at: &[u32]) -> Option<&'a Value>
    ensures { option_map (λ v. tree v.now) result ≡ item_at at.now (tree value.now) }
{
    let mut here = value;
    for index in at {
        here = item(here, *index)?;
    }
    Some(here)
}

/// What is known of what stands at these indices of a whole value.
pub fn full_inside(alloc: Global, value: &Value, at: &[u32]) -> Result<Known, NoMemory>
    ensures { IfOk result (λ known. full_of known ≡ full_inside (tree value.now) at.now) }
{
    match item_inside(value, at) {
        None => Ok(Known::Absent),
        Some(inner) => {
            if !is_within_list_limit(inner) {
                return Ok(Known::TooLong);
            }
            let inner = inner.copy(alloc)?;
            Ok(Known::Value(inner))
        }
    }
}

// Appends the facts of the whole value of a variable.
fn append_value(
    alloc: Global,
    var: VarId,
    value: &Value,
    facts: &mut Vec<Fact>,
) -> Result<(), NoMemory>
    ensures { OnOk result
        (facts.new.items ≡ facts.old.items ++ facts_of_value var (tree value.now)) }
{
    let at = Indices {
        items: Vec::new(alloc),
    };
    append_facts(&Path { var, at }, value, facts)
}

/// The facts of the whole value of a variable.
pub fn value_of_variable(alloc: Global, var: VarId, value: &Value) -> Result<Vec<Fact>, NoMemory>
    ensures { IfOk result (λ facts. facts.items ≡ facts_of_value var (tree value.now)) }
{
    let mut facts = Vec::new(alloc);
    append_value(alloc, var, value, &mut facts)?;
    Ok(facts)
}

/// Appends the facts of the values of variables with lesser numbers, of variables of this kind.
pub fn copy_wholes(
    alloc: Global,
    lasting: bool,
    wholes: &IndexMap<u64, Rc<Value>>,
    below: u64,
    facts: &mut Vec<Fact>,
) -> Result<(), NoMemory>
    ensures { OnOk result (facts.new.items
        ≡ facts.old.items ++ facts_below below (whole_facts lasting wholes.now.entries)) }
{
    for i in 0..wholes.len() {
        if let Some((number, value)) = wholes.get_index(i) {
            if *number < below {
                let var = VarId {
                    number: *number,
                    lasting,
                };
                append_value(alloc, var, value, facts)?;
            }
        }
    }
    Ok(())
}
