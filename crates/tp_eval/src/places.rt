// Places: names followed by indices, as far as they are evaluated.
ghost use Rattle.std.specs.Prelude.{◌≡◌, [], slice_get};
ghost use Rattle.std.specs.Option.{option_map};
ghost use Rattle.tp_value.specs.Tree.{num};
ghost use Rattle.tp_value.specs.Read.{tree};
ghost use Rattle.tp_value.specs.Shape.{item_at};
ghost use Rattle.tp_kernel.specs.Read.{binding_of, bindings_of};
ghost use Rattle.tp_store.specs.Facts.{kept_shape};
ghost use Rattle.tp_store.specs.Answers.{full_of};
ghost use Rattle.tp_eval.specs.Evaluate.{at_path, inside, bound_place, bind_place, element_in, farther, index_in, of_full, value_at, size_at, length_of};
ghost use Rattle.tp_eval.specs.Places.{place_in};
ghost use Rattle.tp_eval.specs.Answers.{AnswersEvaluation, as_it_is};

use crate::halt::EvalHalt;
use std::alloc::Global;
use std::rc::Rc;
use tp_kernel::{Binding, Env, FaultKind, LimitKind};
use tp_store::{Known, Store};
use tp_value::{INDEX_LIMIT, Indices, Number, PATH_LIMIT, Path, Shape, Value, VarId, item};

/// What a name followed by indices is: a path, or an element of a known value at these indices.
#[derive(Drop)]
pub enum PlaceFound {
    At(Path),
    Inside(Rc<Value>, Indices),
}

/// The variable itself.
pub fn whole(alloc: Global, var: VarId) -> PlaceFound
    ensures { place_in result ≡ at_path (record { var = var; at = [] }) }
{
    let at = Indices::new(alloc);
    PlaceFound::At(Path { var, at })
}

fn place_of_binding(alloc: Global, binding: &Binding) -> Result<PlaceFound, EvalHalt>
    ensures { AnswersEvaluation place_in result (bound_place (Some (binding_of binding.now))) }
{
    match binding {
        Binding::Place(path) => Ok(PlaceFound::At(path.copy()?)),
        Binding::Known(value) => Ok(PlaceFound::Inside(value.clone()?, Indices::new(alloc))),
    }
}

/// What the bound name with this number is.
pub fn named(alloc: Global, env: &Env, number: u32) -> Result<PlaceFound, EvalHalt>
    ensures { AnswersEvaluation place_in result
        (bound_place (slice_get (bindings_of env.now) number)) }
{
    match env.items.get(number as usize) {
        Some(binding) => place_of_binding(alloc, binding),
        None => Err(EvalHalt::Faults(FaultKind::NoElement)),
    }
}

/// An index of a place: a number that is at least 0 and within the limit.
pub fn index_of(value: Value) -> Result<u32, EvalHalt>
    ensures { AnswersEvaluation as_it_is result (index_in (tree value)) }
{
    match value {
        Value::Num(n) => index_from(n),
        Value::Truth(_) => Err(EvalHalt::Faults(FaultKind::WrongKind)),
        Value::List(_) => Err(EvalHalt::Faults(FaultKind::WrongKind)),
    }
}

/// The index that a number is.
pub fn index_from(n: Number) -> Result<u32, EvalHalt>
    ensures { AnswersEvaluation as_it_is result (index_in (num n)) }
{
    if n < 0 {
        return Err(EvalHalt::Faults(FaultKind::NoElement));
    }
    if n > Number::from(INDEX_LIMIT) {
        return Err(EvalHalt::Passes(LimitKind::List));
    }
    Ok(n as u32)
}

/// The path with one index more.
pub fn farther_path(mut path: Path, index: u32) -> Result<Path, EvalHalt>
    ensures { AnswersEvaluation at_path result (farther (at_path path) index) }
{
    if path.at.items.len() >= PATH_LIMIT {
        return Err(EvalHalt::Passes(LimitKind::List));
    }
    path.at.items.push(index)?;
    Ok(path)
}

/// The place with one index more.
pub fn farther(place: PlaceFound, index: u32) -> Result<PlaceFound, EvalHalt>
    ensures { AnswersEvaluation place_in result (farther (place_in place) index) }
{
    match place {
        PlaceFound::At(path) => {
            let path = farther_path(path, index)?;
            Ok(PlaceFound::At(path))
        }
        PlaceFound::Inside(value, mut at) => {
            at.items.push(index)?;
            Ok(PlaceFound::Inside(value, at))
        }
    }
}

// The element of a value at these indices.
fn element<'a>(value: &'a Value, at: &[u32]) -> Option<&'a Value>
    ensures { option_map (λ v. tree v.now) result ≡ item_at at.now (tree value.now) }
{
    let mut here = value;
    for index in at {
        match item(here, *index) {
            Some(inner) => here = inner,
            None => return None,
        }
    }
    Some(here)
}

/// An equal value to the element at these indices.
pub fn copy_element(alloc: Global, value: &Value, at: &[u32]) -> Result<Value, EvalHalt>
    ensures { AnswersEvaluation tree result (element_in (item_at at.now (tree value.now))) }
{
    match element(value, at) {
        Some(inner) => Ok(inner.copy(alloc)?),
        None => Err(EvalHalt::Faults(FaultKind::NoElement)),
    }
}

/// What a parameter is bound to that is given this place.
pub fn bind_place(alloc: Global, place: PlaceFound) -> Result<Binding, EvalHalt>
    ensures { AnswersEvaluation binding_of result (bind_place (place_in place)) }
{
    match place {
        PlaceFound::At(path) => Ok(Binding::Place(path)),
        PlaceFound::Inside(value, at) => {
            if at.items.is_empty() {
                return Ok(Binding::Known(value));
            }
            let element = copy_element(alloc, &value, at.items.as_slice())?;
            Ok(Binding::Known(Rc::new(alloc, element)?))
        }
    }
}

fn whole_value(known: Known) -> Result<Value, EvalHalt>
    ensures { AnswersEvaluation tree result (of_full (full_of known)) }
{
    match known {
        Known::Absent => Err(EvalHalt::Faults(FaultKind::NoElement)),
        Known::Open(path) => Err(EvalHalt::Waits(path)),
        Known::TooLong => Err(EvalHalt::Passes(LimitKind::List)),
        Known::Value(value) => Ok(value),
    }
}

/// The value of a place.
pub fn value_at(alloc: Global, place: &PlaceFound, store: &Store) -> Result<Value, EvalHalt>
    ensures { AnswersEvaluation tree result (value_at store.now.facts (place_in place.now)) }
{
    match place {
        PlaceFound::At(path) => {
            let known = store.full(path)?;
            whole_value(known)
        }
        PlaceFound::Inside(value, at) => copy_element(alloc, value, at.items.as_slice()),
    }
}

fn length_at(path: &Path, store: &Store) -> Result<Value, EvalHalt>
    ensures { AnswersEvaluation tree result (size_at store.now.facts (at_path path.now)) }
{
    match store.shape(path) {
        Some(Shape::Items(count)) => Ok(Value::Num(Number::from(count))),
        Some(Shape::Num(_)) => Err(EvalHalt::Faults(FaultKind::WrongKind)),
        Some(Shape::Truth(_)) => Err(EvalHalt::Faults(FaultKind::WrongKind)),
        None => unkept_length(path, store),
    }
}

// Where no shape is kept for the path, its length is open, or there is no such element.
fn unkept_length(path: &Path, store: &Store) -> Result<Value, EvalHalt>
    requires { kept_shape store.now.facts path.now ≡ None }
    ensures { AnswersEvaluation tree result (size_at store.now.facts (at_path path.now)) }
{
    if store.excludes(path) {
        return Err(EvalHalt::Faults(FaultKind::NoElement));
    }
    Err(EvalHalt::Waits(path.copy()?))
}

/// The length of a list, where the value is one.
pub fn length_of(value: &Value) -> Result<Value, EvalHalt>
    ensures { AnswersEvaluation tree result (length_of (tree value.now)) }
{
    match value {
        Value::Num(_) => Err(EvalHalt::Faults(FaultKind::WrongKind)),
        Value::Truth(_) => Err(EvalHalt::Faults(FaultKind::WrongKind)),
        Value::List(all) => Ok(Value::Num(all.items.len() as Number)),
    }
}

fn element_length(value: &Value, at: &[u32]) -> Result<Value, EvalHalt>
    ensures { AnswersEvaluation tree result (size_at [] (inside (tree value.now) at.now)) }
{
    match element(value, at) {
        Some(inner) => length_of(inner),
        None => Err(EvalHalt::Faults(FaultKind::NoElement)),
    }
}

/// The size of a place, for which its shape is enough.
pub fn size_at(place: &PlaceFound, store: &Store) -> Result<Value, EvalHalt>
    ensures { AnswersEvaluation tree result (size_at store.now.facts (place_in place.now)) }
{
    match place {
        PlaceFound::At(path) => length_at(path, store),
        PlaceFound::Inside(value, at) => element_length(value, at.items.as_slice()),
    }
}
