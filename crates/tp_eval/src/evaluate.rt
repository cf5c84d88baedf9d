// The evaluation of expressions, level by level.
ghost use Rattle.std.specs.Prelude.{◌≡◌, map, neg_ℤ, not, slice_get};
ghost use Rattle.tp_value.specs.Tree.{truth};
ghost use Rattle.tp_value.specs.Read.{tree};
ghost use Rattle.tp_kernel.specs.Read.{expr_tree, expr_trees, operator_of, binding_of, bindings_of, definition_of, definitions_of};
ghost use Rattle.tp_eval.specs.Reached.{with_reached, within_numbers, within_lists};
ghost use Rattle.tp_eval.specs.Evaluate.{is_place, each, all_true, one_true, operation_outcome, chosen, element_of, size_of, index_in, negative_in, negated_in, read_at, argument, arguments};
ghost use Rattle.tp_eval.specs.Answers.{AnswersEvaluation, AnswersReached, as_it_is, operand_in, place_at, call_in};
ghost use Rattle.tp_eval.specs.Places.{place_in};
ghost use Rattle.tp_store.specs.Operand.{operand_tree};

use crate::count::count_call;
use crate::halt::EvalHalt;
use crate::kinds::{limited, number_of, truth_of, within};
use crate::lookup::Lookup;
use crate::operand::{bind_value, bound_value, kept_value};
use crate::operate::{item_of, operate};
use crate::places::{
    PlaceFound, bind_place, farther, index_from, index_of, length_of, named, size_at, value_at,
    whole,
};
use std::alloc::Global;
use tp_kernel::{Binding, Def, Env, Expr, Exprs, FaultKind, LimitKind, Op2, is_upper};
use tp_store::Operand;
use tp_value::{Items, Number, Texts, Value, is_number, negated};

/// Whether the expression is a name followed by indices.
pub fn is_place(expr: &Expr) -> bool
    ensures { result ≡ is_place (expr_tree expr.now) }
{
    match expr {
        Expr::Bound(_) => true,
        Expr::Global(_) => true,
        Expr::Index(whole, _) => is_place(whole),
        Expr::Number(_)
        | Expr::Truth(_)
        | Expr::Known(_)
        | Expr::List(_)
        | Expr::Size(_)
        | Expr::Minus(_)
        | Expr::Not(_)
        | Expr::Both(_)
        | Expr::Either(..)
        | Expr::Op(..)
        | Expr::If(..)
        | Expr::Call(..) => false,
    }
}

// A number, where it is within the limit.
fn constant(n: Number) -> Result<Value, EvalHalt>
    ensures { AnswersEvaluation tree result (within_numbers n) }
{
    if is_number(n) {
        Ok(Value::Num(n))
    } else {
        Err(EvalHalt::Passes(LimitKind::Number))
    }
}

// A known value, where it is within the limit on lists.
fn known(alloc: Global, value: &Value) -> Result<Value, EvalHalt>
    ensures { AnswersEvaluation tree result (within_lists (tree value.now)) }
{
    let copy = value.copy(alloc)?;
    limited(copy)
}

// The number with the other sign.
fn negative(value: Value) -> Result<Value, EvalHalt>
    ensures { AnswersEvaluation tree result (negative_in (tree value)) }
{
    let n = number_of(value)?;
    within(negated(n))
}

// The other truth value.
fn contrary(value: Value) -> Result<Value, EvalHalt>
    ensures { AnswersEvaluation tree result (negated_in (tree value)) }
{
    let b = truth_of(value)?;
    Ok(Value::Truth(!b))
}

// The value of an expression that is looked at or handed on: that of a bound name isn't copied, nor is a list that the store keeps.
#[cycle(evaluate)]
fn operand(levels: u32, expr: &Expr, lookup: &Lookup, calls: &mut u32) -> Result<Operand, EvalHalt>
    ensures { AnswersReached operand_tree result calls.new
        (operand_in lookup.now levels (expr_tree expr.now) calls.old) }
{
    if levels > 0 {
        if let Some(value) = bound_value(expr, lookup.env) {
            return Ok(Operand::Shared(value.clone()?));
        }
        if let Some(value) = kept_value(lookup.alloc, expr, lookup.env, lookup.store) {
            return Ok(Operand::Shared(value.clone()?));
        }
    }
    let value = evaluate(levels, expr, lookup, calls)?;
    Ok(Operand::Own(value))
}

// The values of expressions from left to right.
#[cycle(evaluate)]
fn each(
    levels: u32,
    exprs: &Exprs,
    lookup: &Lookup,
    calls: &mut u32,
) -> Result<Vec<Value>, EvalHalt>
    ensures { AnswersReached (λ values. map tree values.items) result calls.new
        (each (operand_in lookup.now levels) (expr_trees exprs.now) calls.old) }
{
    let mut values = Vec::new(lookup.alloc);
    for expr in &exprs.items {
        let value = evaluate(levels, expr, lookup, calls)?;
        values.push(value)?;
    }
    Ok(values)
}

// Whether all are true; those after the first false one are not looked at.
#[cycle(evaluate)]
fn all_true(levels: u32, exprs: &Exprs, lookup: &Lookup, calls: &mut u32) -> Result<Value, EvalHalt>
    ensures { AnswersReached tree result calls.new
        (all_true (operand_in lookup.now levels) (expr_trees exprs.now) calls.old) }
{
    for expr in &exprs.items {
        let value = evaluate(levels, expr, lookup, calls)?;
        let b = truth_of(value)?;
        if !b {
            return Ok(Value::Truth(false));
        }
    }
    Ok(Value::Truth(true))
}

// Whether one is true; where the first is, the second is not looked at.
#[cycle(evaluate)]
fn one_true(
    levels: u32,
    first: &Expr,
    second: &Expr,
    lookup: &Lookup,
    calls: &mut u32,
) -> Result<Value, EvalHalt>
    ensures { AnswersReached tree result calls.new
        (one_true (operand_in lookup.now levels) (expr_tree first.now) (expr_tree second.now)
        calls.old) }
{
    let value = evaluate(levels, first, lookup, calls)?;
    let b = truth_of(value)?;
    if b {
        return Ok(Value::Truth(true));
    }
    let other = evaluate(levels, second, lookup, calls)?;
    let c = truth_of(other)?;
    Ok(Value::Truth(c))
}

// What an operator makes of two operands.
#[cycle(evaluate)]
fn operated(
    levels: u32,
    op: Op2,
    first: &Expr,
    second: &Expr,
    lookup: &Lookup,
    calls: &mut u32,
) -> Result<Value, EvalHalt>
    ensures { AnswersReached tree result calls.new
        (operation_outcome (operand_in lookup.now levels) (operator_of op) (expr_tree first.now)
        (expr_tree second.now) calls.old) }
{
    let a = operand(levels, first, lookup, calls)?;
    let b = operand(levels, second, lookup, calls)?;
    operate(lookup.alloc, op, a, b)
}

// The branch that the condition chooses.
#[cycle(evaluate)]
fn chosen(
    levels: u32,
    condition: &Expr,
    first: &Expr,
    second: &Expr,
    lookup: &Lookup,
    calls: &mut u32,
) -> Result<Value, EvalHalt>
    ensures { AnswersReached tree result calls.new
        (chosen (operand_in lookup.now levels) (expr_tree condition.now) (expr_tree first.now)
        (expr_tree second.now) calls.old) }
{
    let value = evaluate(levels, condition, lookup, calls)?;
    let b = truth_of(value)?;
    if b {
        evaluate(levels, first, lookup, calls)
    } else {
        evaluate(levels, second, lookup, calls)
    }
}

// The element of a value that is no place.
#[cycle(evaluate)]
fn element_of(
    levels: u32,
    whole: &Expr,
    index: &Expr,
    lookup: &Lookup,
    calls: &mut u32,
) -> Result<Value, EvalHalt>
    ensures { AnswersReached tree result calls.new
        (element_of (operand_in lookup.now levels) (expr_tree whole.now) (expr_tree index.now)
        calls.old) }
{
    let value = evaluate(levels, whole, lookup, calls)?;
    let at = evaluate(levels, index, lookup, calls)?;
    item_of(value, at)
}

// The size of a place or of another value.
#[cycle(evaluate)]
fn size_of(levels: u32, expr: &Expr, lookup: &Lookup, calls: &mut u32) -> Result<Value, EvalHalt>
    ensures { AnswersReached tree result calls.new
        (size_of (operand_in lookup.now levels) (place_at lookup.now levels)
        lookup.now.store.now.facts (bindings_of lookup.now.env.now) (is_place (expr_tree expr.now))
        (expr_tree expr.now) calls.old) }
{
    if is_place(expr) {
        let place = find_place(levels, expr, lookup, calls)?;
        size_at(&place, lookup.store)
    } else {
        let value = evaluate(levels, expr, lookup, calls)?;
        length_of(&value)
    }
}

// What a parameter is bound to: a place where it is upper-case, a value else.
#[cycle(evaluate)]
fn argument(
    levels: u32,
    upper: bool,
    expr: &Expr,
    lookup: &Lookup,
    calls: &mut u32,
) -> Result<Binding, EvalHalt>
    ensures { AnswersReached binding_of result calls.new
        (argument (operand_in lookup.now levels) (place_at lookup.now levels) upper
        (expr_tree expr.now) calls.old) }
{
    if upper {
        let place = find_place(levels, expr, lookup, calls)?;
        bind_place(lookup.alloc, place)
    } else {
        let value = operand(levels, expr, lookup, calls)?;
        Ok(bind_value(lookup.alloc, value)?)
    }
}

// What the parameters are bound to, from left to right.
#[cycle(evaluate)]
fn arguments(
    levels: u32,
    exprs: &Exprs,
    parameters: &Texts,
    lookup: &Lookup,
    calls: &mut u32,
) -> Result<Env, EvalHalt>
    ensures { AnswersReached bindings_of result calls.new
        (arguments (operand_in lookup.now levels) (place_at lookup.now levels) (expr_trees exprs.now)
        parameters.now calls.old) }
{
    let mut items = Vec::new(lookup.alloc);
    for (expr, name) in exprs.items.iter().zip(&parameters.items) {
        let binding = argument(levels, is_upper(name), expr, lookup, calls)?;
        items.push(binding)?;
    }
    if exprs.items.len() != parameters.items.len() {
        return Err(EvalHalt::Faults(FaultKind::NoElement));
    }
    Ok(Env { items })
}

// The call of a definition: it is counted first, and the definition's expression sees its own parameters alone.
#[cycle(evaluate)]
fn called(
    levels: u32,
    def: &Def,
    exprs: &Exprs,
    lookup: &Lookup,
    calls: &mut u32,
) -> Result<Value, EvalHalt>
    ensures { AnswersReached tree result calls.new
        (call_in lookup.now levels (Some (definition_of def.now)) (expr_trees exprs.now) calls.old) }
{
    count_call(calls)?;
    let env = arguments(levels, exprs, &def.parameters, lookup, calls)?;
    let inside = Lookup {
        env: &env,
        ..*lookup
    };
    match &def.expr {
        Some(body) => evaluate(levels, body, &inside, calls),
        None => Err(EvalHalt::Faults(FaultKind::NoElement)),
    }
}

// The call of the definition with this number.
#[cycle(evaluate)]
fn call(
    levels: u32,
    number: u32,
    exprs: &Exprs,
    lookup: &Lookup,
    calls: &mut u32,
) -> Result<Value, EvalHalt>
    ensures { AnswersReached tree result calls.new
        (call_in lookup.now levels (slice_get (definitions_of lookup.now.defs.now) number)
        (expr_trees exprs.now) calls.old) }
{
    match lookup.defs.items.get(number as usize) {
        Some(def) => called(levels, def, exprs, lookup, calls),
        None => Err(EvalHalt::Faults(FaultKind::NoElement)),
    }
}

// The index that an expression gives. One that is written as a number, as most are, needs no whole evaluation.
#[cycle(evaluate)]
fn index_at(levels: u32, expr: &Expr, lookup: &Lookup, calls: &mut u32) -> Result<u32, EvalHalt>
    ensures { AnswersReached as_it_is result calls.new
        (with_reached (operand_in lookup.now levels (expr_tree expr.now) calls.old) index_in) }
{
    match expr {
        Expr::Number(n) if levels > 0 && is_number(*n) => index_from(*n),
        _ => {
            let at = evaluate(levels, expr, lookup, calls)?;
            index_of(at)
        }
    }
}

// What a name followed by indices is, where so many levels are left. Each index is looked at before the next is evaluated.
#[cycle(evaluate)]
pub fn find_place(
    levels: u32,
    expr: &Expr,
    lookup: &Lookup,
    calls: &mut u32,
) -> Result<PlaceFound, EvalHalt>
    ensures { AnswersReached place_in result calls.new
        (place_at lookup.now levels (expr_tree expr.now) calls.old) }
{
    if levels == 0 {
        return Err(EvalHalt::Passes(LimitKind::Calls));
    }
    match expr {
        Expr::Bound(number) => named(lookup.alloc, lookup.env, *number),
        Expr::Global(var) => Ok(whole(lookup.alloc, *var)),
        Expr::Index(inner, index) => {
            let place = find_place(levels - 1, inner, lookup, calls)?;
            let k = index_at(levels - 1, index, lookup, calls)?;
            farther(place, k)
        }
        Expr::Number(_)
        | Expr::Truth(_)
        | Expr::Known(_)
        | Expr::List(_)
        | Expr::Size(_)
        | Expr::Minus(_)
        | Expr::Not(_)
        | Expr::Both(_)
        | Expr::Either(..)
        | Expr::Op(..)
        | Expr::If(..)
        | Expr::Call(..) => Err(EvalHalt::Faults(FaultKind::NoElement)),
    }
}

// The value of a name followed by indices.
#[cycle(evaluate)]
fn read(levels: u32, expr: &Expr, lookup: &Lookup, calls: &mut u32) -> Result<Value, EvalHalt>
    ensures { AnswersReached tree result calls.new
        (read_at lookup.now.store.now.facts (place_at lookup.now levels (expr_tree expr.now))
        calls.old) }
{
    let place = find_place(levels, expr, lookup, calls)?;
    value_at(lookup.alloc, &place, lookup.store)
}

/// The value of an expression, where so many levels are left, and so many calls were made before.
#[cycle(evaluate)]
pub fn evaluate(
    levels: u32,
    expr: &Expr,
    lookup: &Lookup,
    calls: &mut u32,
) -> Result<Value, EvalHalt>
    ensures { AnswersReached tree result calls.new
        (operand_in lookup.now levels (expr_tree expr.now) calls.old) }
{
    if levels == 0 {
        return Err(EvalHalt::Passes(LimitKind::Calls));
    }
    let inner = levels - 1;
    match expr {
        Expr::Number(n) => constant(*n),
        Expr::Truth(b) => Ok(Value::Truth(*b)),
        Expr::Known(value) => known(lookup.alloc, value),
        Expr::Bound(_) => read(levels, expr, lookup, calls),
        Expr::Global(_) => read(levels, expr, lookup, calls),
        Expr::List(items) => {
            let items = each(inner, items, lookup, calls)?;
            limited(Value::List(Items { items }))
        }
        Expr::Size(e) => size_of(inner, e, lookup, calls),
        Expr::Index(e, i) => {
            if is_place(e) {
                read(levels, expr, lookup, calls)
            } else {
                element_of(inner, e, i, lookup, calls)
            }
        }
        Expr::Minus(e) => {
            let value = evaluate(inner, e, lookup, calls)?;
            negative(value)
        }
        Expr::Not(e) => {
            let value = evaluate(inner, e, lookup, calls)?;
            contrary(value)
        }
        Expr::Both(items) => all_true(inner, items, lookup, calls),
        Expr::Either(a, b) => one_true(inner, a, b, lookup, calls),
        Expr::Op(op, a, b) => operated(inner, *op, a, b, lookup, calls),
        Expr::If(b, x, y) => chosen(inner, b, x, y, lookup, calls),
        Expr::Call(number, arguments) => call(inner, *number, arguments, lookup, calls),
    }
}
