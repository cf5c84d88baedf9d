// The operators on values.
ghost use Rattle.std.specs.Prelude.{◌≡◌, ◌++◌, map};
ghost use Rattle.tp_value.specs.Tree.{num, list, of_items, same_tree};
ghost use Rattle.tp_value.specs.Read.{tree};
ghost use Rattle.tp_value.specs.Number.{floor_div, floor_mod};
ghost use Rattle.tp_kernel.specs.Read.{operator_of};
ghost use Rattle.tp_eval.specs.Reached.{within_lists};
ghost use Rattle.tp_eval.specs.Evaluate.{operate_outcome, sum_in, on_divisor_outcome, item_between};
ghost use Rattle.tp_eval.specs.Answers.{AnswersEvaluation};
ghost use Rattle.tp_store.specs.Operand.{operand_tree};

use crate::halt::EvalHalt;
use crate::kinds::{items_of, limited, number_of, within};
use std::alloc::Global;
use tp_kernel::{FaultKind, Op2};
use tp_store::{Operand, owned, seen};
use tp_value::{Items, Number, Value, difference, product, quotient, remainder, same, sum};

// The first list with the second after it.
fn append(first: Items, second: Items) -> Result<Value, EvalHalt>
    ensures { AnswersEvaluation tree result
        (within_lists
        (list (of_items (map tree first.items.items ++ map tree second.items.items)))) }
{
    let mut items = first.items;
    let mut rest = second.items;
    items.append(&mut rest)?;
    limited(Value::List(Items { items }))
}

// The sum of two numbers, or a list after a list.
fn sum_of(a: Value, b: Value) -> Result<Value, EvalHalt>
    ensures { AnswersEvaluation tree result (sum_in (tree a) (tree b)) }
{
    match a {
        Value::Num(m) => {
            let n = number_of(b)?;
            within(sum(m, n))
        }
        Value::Truth(_) => Err(EvalHalt::Faults(FaultKind::WrongKind)),
        Value::List(first) => {
            let second = items_of(b)?;
            append(first, second)
        }
    }
}

// The quotient, rounded down.
fn divide(m: Number, n: Number) -> Result<Value, EvalHalt>
    ensures { AnswersEvaluation tree result (on_divisor_outcome floor_div m n) }
{
    if n == 0 {
        return Err(EvalHalt::Faults(FaultKind::ZeroDivisor));
    }
    within(quotient(m, n))
}

// What the quotient leaves of the dividend.
fn reduce(m: Number, n: Number) -> Result<Value, EvalHalt>
    ensures { AnswersEvaluation tree result (on_divisor_outcome floor_mod m n) }
{
    if n == 0 {
        return Err(EvalHalt::Faults(FaultKind::ZeroDivisor));
    }
    within(remainder(m, n))
}

fn on_numbers(op: Op2, m: Number, n: Number) -> Result<Value, EvalHalt>
    ensures { AnswersEvaluation tree result (operate_outcome (operator_of op) (num m) (num n)) }
{
    match op {
        Op2::Equal => Ok(Value::Truth(m == n)),
        Op2::Differs => Ok(Value::Truth(m != n)),
        Op2::Less => Ok(Value::Truth(m < n)),
        Op2::LessEqual => Ok(Value::Truth(m <= n)),
        Op2::Greater => Ok(Value::Truth(m > n)),
        Op2::GreaterEqual => Ok(Value::Truth(m >= n)),
        Op2::Plus => within(sum(m, n)),
        Op2::Minus => within(difference(m, n)),
        Op2::Times => within(product(m, n)),
        Op2::Div => divide(m, n),
        Op2::Mod => reduce(m, n),
    }
}

fn are_same(a: &Operand, b: &Operand) -> bool
    ensures { result ≡ same_tree (operand_tree a.now) (operand_tree b.now) }
{
    same(seen(a), seen(b))
}

/// What an operator makes of two values.
pub fn operate(alloc: Global, op: Op2, a: Operand, b: Operand) -> Result<Value, EvalHalt>
    ensures { AnswersEvaluation tree result
        (operate_outcome (operator_of op) (operand_tree a) (operand_tree b)) }
{
    match op {
        Op2::Equal => Ok(Value::Truth(are_same(&a, &b))),
        Op2::Differs => Ok(Value::Truth(!are_same(&a, &b))),
        Op2::Plus => {
            let first = owned(alloc, a)?;
            let second = owned(alloc, b)?;
            sum_of(first, second)
        }
        _ => {
            let first = owned(alloc, a)?;
            let second = owned(alloc, b)?;
            let m = number_of(first)?;
            let n = number_of(second)?;
            on_numbers(op, m, n)
        }
    }
}

/// The item of a list at an index from 0.
pub fn item_of(whole: Value, index: Value) -> Result<Value, EvalHalt>
    ensures { AnswersEvaluation tree result (item_between (tree whole) (tree index)) }
{
    let mut items = items_of(whole)?.items;
    let n = number_of(index)?;
    match usize::try_from(n) {
        Ok(place) if place < items.len() => Ok(items.swap_remove(place)),
        _ => Err(EvalHalt::Faults(FaultKind::NoElement)),
    }
}
