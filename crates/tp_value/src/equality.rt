// Copies of values, their shapes at paths, and their equality.
ghost use Rattle.std.specs.Prelude.{◌≡◌, ◌↔◌, IfOk, IsTrue};
ghost use Rattle.tp_value.specs.Read.{tree};
ghost use Rattle.tp_value.specs.Tree.{SameTreeIsEquality};
ghost use Rattle.tp_value.specs.Shape.{shape_of, item_of, shape_at_path};
ghost use Rattle.tp_value.specs.ShortLists.{HasShortLists};
ghost use Rattle.std.specs.Option.{option_map};

use crate::NoMemory;
use crate::value::{Items, Shape, Value};
use std::alloc::Global;

impl Value {
    /// An equal value.
    pub fn copy(&self, alloc: Global) -> Result<Value, NoMemory>
        ensures { IfOk result (λ v. tree v ≡ tree self.now) }
    {
        match self {
            Value::Num(n) => Ok(Value::Num(*n)),
            Value::Truth(b) => Ok(Value::Truth(*b)),
            Value::List(items) => {
                let mut out = Vec::new(alloc);
                for x in &items.items {
                    let y = x.copy(alloc)?;
                    out.push(y)?;
                }
                Ok(Value::List(Items { items: out }))
            }
        }
    }
}

// The shape of a whole value.
fn whole_shape(value: &Value) -> Shape
    requires { HasShortLists (tree value.now) }
    ensures { result ≡ shape_of (tree value.now) }
{
    match value {
        Value::Num(n) => Shape::Num(*n),
        Value::Truth(b) => Shape::Truth(*b),
        Value::List(all) => Shape::Items(all.items.len() as u32),
    }
}

/// The item of a list at an index; none behind its last one, and none of a number or a truth value.
pub fn item(value: &Value, at: u32) -> Option<&Value>
    ensures { option_map (λ v. tree v.now) result ≡ item_of (tree value.now) at }
{
    match value {
        Value::List(all) => {
            let place = at as usize;
            if place < all.items.len() {
                Some(&all.items[place])
            } else {
                None
            }
        }
        Value::Num(_) | Value::Truth(_) => None,
    }
}

/// The shape at a path of indices from the outermost list inwards, or none where there is no such element. Each list of the
/// value has fewer than 2^32 items.
pub fn shape_at(value: &Value, at: &[u32]) -> Option<Shape>
    requires { HasShortLists (tree value.now) }
    ensures { result ≡ shape_at_path at.now (tree value.now) }
{
    let mut here = value;
    for index in at {
        match item(here, *index) {
            Some(inner) => here = inner,
            None => return None,
        }
    }
    Some(whole_shape(here))
}

/// Whether two values are equal: of one kind, with the same number or truth value, or with equal items in order.
#[tactic(auto, using(crate::specs::Equations::tree_list, crate::specs::Equations::tree_num, crate::specs::Equations::tree_truth))]
pub fn same(a: &Value, b: &Value) -> bool
    ensures { IsTrue result ↔ tree a.now ≡ tree b.now }
{
    match a {
        Value::Num(m) => match b {
            Value::Num(n) => *m == *n,
            Value::Truth(_) | Value::List(_) => false,
        },
        Value::Truth(x) => match b {
            Value::Truth(y) => *x == *y,
            Value::Num(_) | Value::List(_) => false,
        },
        Value::List(xs) => match b {
            Value::List(ys) => {
                if xs.items.len() != ys.items.len() {
                    return false;
                }
                for i in 0..xs.items.len() {
                    if !same(&xs.items[i], &ys.items[i]) {
                        return false;
                    }
                }
                true
            }
            Value::Num(_) | Value::Truth(_) => false,
        },
    }
}

/// `same_tree` of the specifications tells equal trees.
pub fn same_tree_is_equality()
    ensures { SameTreeIsEquality }
{}
