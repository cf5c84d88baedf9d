// What becomes of an equation.
ghost use Rattle.std.specs.Prelude.{◌≡◌, IfOk, IsTrue, Bool, List, None, MatchOption, true};
ghost use Rattle.tp_value.specs.Limits.{is_within_list_limit};
ghost use Rattle.tp_meaning.specs.Syntax.{known, Definition, BindingTree};
ghost use Rattle.tp_value.specs.Read.{tree};
ghost use Rattle.tp_value.specs.Tree.{num};
ghost use Rattle.tp_kernel.specs.Read.{expr_tree, definitions_of, bindings_of};
ghost use Rattle.tp_value.specs.declared.path.Fact.{Fact};
ghost use Rattle.tp_meaning.specs.Inputs.{input_at};
ghost use Rattle.tp_inputs.specs.Read.{inputs_of};
ghost use Rattle.tp_eval.specs.Outcome as found;
ghost use Rattle.tp_eval.specs.Answers.{outcome_tree};
ghost use Rattle.tp_scene.specs.Step as row;
ghost use Rattle.tp_store.specs.Known.{Variable, IsVariableOf};
ghost use Rattle.tp_decide.specs.Decided.{IfOkDecidesIn, decided_outcome};
ghost use Rattle.tp_decide.specs.Found.{option_target, side_found};
ghost use Rattle.tp_decide.specs.Equated.{sets_length, AreOneValue, AreEqual, AreValuePaths, Awaits};
ghost use Rattle.tp_decide.specs.Fits.{ArePathsOfVariables, IsTargetOf, SetsVariables, ExprFitsStore};

use crate::decision::{Decision, nothing};
use crate::setting::Setting;
use crate::sharing::equate_places;
use crate::sides::{EquationSide, Target, path_of, side_of, side_with};
use std::alloc::Global;
use std::rc::Rc;
use tp_eval::{Outcome, is_place};
use tp_kernel::{Env, Expr, FaultKind, LimitKind};
use tp_scene::{Cell, Clash};
use tp_store::{Operand, Store};
use tp_value::{
    LENGTH_LIMIT, NoMemory, Number, Path, Text, Value, is_within_list_limit, same,
    same_tree_is_equality,
};

// The length of the list at the path is to be this value.
fn measure(path: Path, value: Value) -> Decision
    ensures outcome { (facts : List Fact) (n : row.Numbers)
        → decided_outcome facts n result ≡ row.set facts (row.length_at path) (tree value) }
    ensures variables { (xs : List Variable) → IsVariableOf xs path.var → SetsVariables xs result }
{
    match value {
        Value::Num(n) => measure_number(path, n),
        Value::Truth(_) => Decision::Clashes(Clash::NoValue(FaultKind::WrongKind)),
        Value::List(_) => Decision::Clashes(Clash::NoValue(FaultKind::WrongKind)),
    }
}

fn measure_number(path: Path, n: Number) -> Decision
    ensures outcome { (facts : List Fact) (numbers : row.Numbers)
        → decided_outcome facts numbers result ≡ row.set facts (row.length_at path) (num n) }
    ensures variables { (xs : List Variable) → IsVariableOf xs path.var → SetsVariables xs result }
{
    if n < 0 {
        Decision::Clashes(Clash::False)
    } else if n > Number::from(LENGTH_LIMIT) {
        Decision::Passes(LimitKind::List)
    } else {
        Decision::Measures(path, n as u32)
    }
}

// The other side has this value.
fn meet(target: Option<Target>, found: Outcome, value: Value) -> Decision
    ensures outcome { (facts : List Fact) (n : row.Numbers) (placed : Bool)
        → decided_outcome facts n result
        ≡ row.meets facts
        (record { placed = placed; target = option_target target; found = outcome_tree found })
        (tree value) }
    ensures variables { (xs : List Variable) → IsTargetOf xs target → SetsVariables xs result }
{
    match target {
        Some(Target::Value(path)) => Decision::Sets(path, Operand::Own(value)),
        Some(Target::Length(path)) => measure(path, value),
        None => compare(found, value),
    }
}

fn compare(found: Outcome, value: Value) -> Decision
    ensures outcome { (facts : List Fact) (n : row.Numbers) (placed : Bool)
        → decided_outcome facts n result
        ≡ row.meets facts (record { placed = placed; target = None; found = outcome_tree found })
        (tree value) }
    ensures variables { (xs : List Variable) → SetsVariables xs result }
{
    match found {
        Outcome::Value(other) => {
            same_tree_is_equality();
            if same(&other, &value) {
                nothing()
            } else {
                Decision::Clashes(Clash::False)
            }
        }
        Outcome::Wait(path) => Decision::Waits(Cell::Part(path), None),
        Outcome::Fault(kind) => Decision::Clashes(Clash::NoValue(kind)),
        Outcome::Over(kind) => Decision::Passes(kind),
    }
}

// Both sides wait, for `left` and for `right`.
fn wait_for_both(is_left_placed: bool, is_right_placed: bool, left: Path, right: Path) -> Decision
    ensures outcome { (facts : List Fact) (n : row.Numbers)
        → decided_outcome facts n result
        ≡ row.both_wait facts is_left_placed is_right_placed left right }
    ensures variables { (xs : List Variable) → SetsVariables xs result }
{
    if is_right_placed && !is_left_placed {
        Decision::Waits(Cell::Part(left), Some(Cell::Part(right)))
    } else {
        Decision::Waits(Cell::Part(right), Some(Cell::Part(left)))
    }
}

// One side waits, and the other, which can set this, passes a limit.
fn pass_or_wait(passing: &Option<Target>, waiting: Path, limit: LimitKind) -> Decision
    ensures outcome { (facts : List Fact) (n : row.Numbers)
        → decided_outcome facts n result
        ≡ row.passes_or_waits facts (option_target passing.now) waiting limit }
    ensures variables { (xs : List Variable) → SetsVariables xs result }
{
    match passing {
        Some(Target::Value(_)) => Decision::Waits(Cell::Part(waiting), None),
        Some(Target::Length(_)) => Decision::Passes(limit),
        None => Decision::Passes(limit),
    }
}

// The right side passes a limit.
fn pass_on_right(left: Outcome, target: &Option<Target>, limit: LimitKind) -> Decision
    ensures outcome { (facts : List Fact) (n : row.Numbers) (l : row.SideOf) (placed : Bool)
        → l.found ≡ outcome_tree left
        → decided_outcome facts n result
        ≡ row.equate_values facts l
        (record { placed = placed; target = option_target target.now; found = found.over limit }) }
    ensures variables { (xs : List Variable) → SetsVariables xs result }
{
    match left {
        Outcome::Fault(kind) => Decision::Clashes(Clash::NoValue(kind)),
        Outcome::Wait(path) => pass_or_wait(target, path, limit),
        Outcome::Value(_) => Decision::Passes(limit),
        Outcome::Over(_) => Decision::Passes(limit),
    }
}

// The right side has this value.
fn value_on_right(target: Option<Target>, left: Outcome, value: Value) -> Decision
    ensures outcome { (facts : List Fact) (n : row.Numbers) (placed : Bool) (r : row.SideOf)
        → r.found ≡ found.value (tree value)
        → decided_outcome facts n result
        ≡ row.equate_values facts
        (record { placed = placed; target = option_target target; found = outcome_tree left }) r }
    ensures variables { (xs : List Variable) → IsTargetOf xs target → SetsVariables xs result }
{
    match left {
        Outcome::Fault(kind) => Decision::Clashes(Clash::NoValue(kind)),
        Outcome::Over(kind) => Decision::Passes(kind),
        Outcome::Value(other) => meet(target, Outcome::Value(other), value),
        Outcome::Wait(path) => meet(target, Outcome::Wait(path), value),
    }
}

// What becomes of the equation of two sides by what is found of them.
fn equate_values(left: EquationSide, right: EquationSide) -> Decision
    ensures outcome { (facts : List Fact) (n : row.Numbers)
        → decided_outcome facts n result
        ≡ row.equate_values facts (side_found left) (side_found right) }
    ensures variables { (xs : List Variable) → IsTargetOf xs left.target
        → IsTargetOf xs right.target → SetsVariables xs result }
{
    let EquationSide {
        placed: is_left_placed,
        target: left_target,
        found: left_found,
    } = left;
    let EquationSide {
        placed: is_right_placed,
        target: right_target,
        found: right_found,
    } = right;
    match right_found {
        Outcome::Fault(kind) => Decision::Clashes(Clash::NoValue(kind)),
        Outcome::Over(kind) => pass_on_right(left_found, &right_target, kind),
        Outcome::Value(value) => value_on_right(left_target, left_found, value),
        Outcome::Wait(path) => match left_found {
            Outcome::Fault(kind) => Decision::Clashes(Clash::NoValue(kind)),
            Outcome::Over(kind) => pass_or_wait(&left_target, path, kind),
            Outcome::Value(value) => meet(right_target, Outcome::Wait(path), value),
            Outcome::Wait(other) => wait_for_both(is_left_placed, is_right_placed, other, path),
        },
    }
}

// Whether the side can set a length.
fn sets_length(target: &Option<Target>) -> bool
    ensures { result ≡ sets_length (option_target target.now) }
{
    match target {
        Some(Target::Length(_)) => true,
        Some(Target::Value(_)) => false,
        None => false,
    }
}

fn are_one_value(first: &Outcome, second: &Outcome) -> bool
    ensures { IsTrue result → AreOneValue (outcome_tree first.now) (outcome_tree second.now) }
{
    match first {
        Outcome::Value(left) => match second {
            Outcome::Value(right) => same(left, right),
            Outcome::Wait(_) => false,
            Outcome::Fault(_) => false,
            Outcome::Over(_) => false,
        },
        Outcome::Wait(_) => false,
        Outcome::Fault(_) => false,
        Outcome::Over(_) => false,
    }
}

// Whether both sides are known already by the same value, so that there is nothing to set.
fn are_equal(left: &EquationSide, right: &EquationSide) -> bool
    ensures { IsTrue result → AreEqual (side_found left.now) (side_found right.now) }
{
    if sets_length(&left.target) {
        return false;
    }
    are_one_value(&left.found, &right.found)
}

// The paths of two places that are both found; none where one isn't.
fn both_paths(
    alloc: Global,
    left: &Expr,
    right: &Expr,
    env: &Env,
    store: &Store,
    setting: &Setting,
) -> Result<Option<(Path, Path)>, NoMemory>
    requires fits_left { ExprFitsStore (definitions_of setting.now.defs.now) store.now.variables
        (expr_tree left.now) (bindings_of env.now) }
    requires fits_right { ExprFitsStore (definitions_of setting.now.defs.now) store.now.variables
        (expr_tree right.now) (bindings_of env.now) }
    ensures paths { let defs = definitions_of setting.now.defs.now in
        IfOk result
        (AreValuePaths
        (row.target_of defs store.now.facts (expr_tree left.now)
        (bindings_of env.now))
        (row.target_of defs store.now.facts (expr_tree right.now)
        (bindings_of env.now))) }
    ensures variables { IfOk result (ArePathsOfVariables store.now.variables) }
{
    if !is_place(left) || !is_place(right) {
        return Ok(None);
    }
    let Some(left) = path_of(alloc, left, env, store, setting.defs)? else {
        return Ok(None);
    };
    let Some(right) = path_of(alloc, right, env, store, setting.defs)? else {
        return Ok(None);
    };
    Ok(Some((left, right)))
}

// The value that the expression is, where it may be read.
fn readable_value(expr: &Expr) -> Option<&Rc<Value>>
    ensures { MatchOption result (Unit {0}) (λ v.
        (expr_tree expr.now ≡ known (tree v.now.value))
        × (is_within_list_limit (tree v.now.value) ≡ true)) }
{
    let Expr::Known(value) = expr else {
        return None;
    };
    if is_within_list_limit(value) {
        Some(value)
    } else {
        None
    }
}

// The path of the side, where it can be set and waits.
fn waiting_path(side: &EquationSide) -> Option<&Path>
    ensures outcome { MatchOption result (Unit {0}) (λ p. Awaits (side_found side.now) p.now) }
    ensures variables { (xs : List Variable) → IsTargetOf xs side.now.target
        → MatchOption result (Unit {0}) (λ p. IsVariableOf xs p.now.var) }
{
    let Outcome::Wait(_) = side.found else {
        return None;
    };
    let Some(Target::Value(path)) = &side.target else {
        return None;
    };
    Some(path)
}

// A value that is known as a whole is handed on to a place that waits for it, and not copied.
fn hand_on(left: &EquationSide, right: &Expr) -> Result<Option<Decision>, NoMemory>
    ensures outcome { IfOk result (λ given. MatchOption given (Unit {0}) (λ d.
        (facts : List Fact) (n : row.Numbers) (defs : List Definition) (env : List BindingTree)
        → decided_outcome facts n d
        ≡ row.equate_values facts (side_found left.now)
        (row.side_of defs facts (expr_tree right.now) env))) }
    ensures variables { IfOk result (λ given. MatchOption given (Unit {0}) (λ d.
        (xs : List Variable) → IsTargetOf xs left.now.target → SetsVariables xs d)) }
{
    let Some(path) = waiting_path(left) else {
        return Ok(None);
    };
    let Some(value) = readable_value(right) else {
        return Ok(None);
    };
    let path = path.copy()?;
    let value = value.clone()?;
    Ok(Some(Decision::Sets(path, Operand::Shared(value))))
}

/// What becomes of the equation of the two. That of two places goes by their shapes; where one of them isn't found, both sides are evaluated
/// anew, as other expressions are.
pub fn decide_equation(
    alloc: Global,
    left: &Expr,
    right: &Expr,
    env: &Env,
    store: &Store,
    setting: &Setting,
) -> Result<Decision, NoMemory>
    requires fits_left { ExprFitsStore (definitions_of setting.now.defs.now) store.now.variables
        (expr_tree left.now) (bindings_of env.now) }
    requires fits_right { ExprFitsStore (definitions_of setting.now.defs.now) store.now.variables
        (expr_tree right.now) (bindings_of env.now) }
    ensures outcome { IfOkDecidesIn store.now.facts result (row.equate store.now.facts
        (row.side_of (definitions_of setting.now.defs.now) store.now.facts (expr_tree left.now)
        (bindings_of env.now))
        (row.side_of (definitions_of setting.now.defs.now) store.now.facts (expr_tree right.now)
        (bindings_of env.now))) }
    ensures variables { IfOk result (SetsVariables store.now.variables) }
{
    if let Some((left, right)) = both_paths(alloc, left, right, env, store, setting)? {
        return equate_places(alloc, left, right, store);
    }
    let left = side_of(alloc, left, env, store, setting.defs)?;
    if let Some(decision) = hand_on(&left, right)? {
        return Ok(decision);
    }
    let right = side_of(alloc, right, env, store, setting.defs)?;
    if are_equal(&left, &right) {
        same_tree_is_equality();
        store.count(); // whose facts don't clash
        return Ok(nothing());
    }
    Ok(equate_values(left, right))
}

/// What becomes of the equation with the value that the inputs have for the port.
pub fn decide_input(
    alloc: Global,
    expr: &Expr,
    port: &Text,
    env: &Env,
    store: &Store,
    setting: &Setting,
) -> Result<Decision, NoMemory>
    requires fits { ExprFitsStore (definitions_of setting.now.defs.now) store.now.variables
        (expr_tree expr.now) (bindings_of env.now) }
    ensures outcome { IfOkDecidesIn store.now.facts result (λ n.
        row.from_port store.now.facts
        (input_at (inputs_of setting.now.inputs.now) setting.now.state port.now) port.now
        (row.side_of (definitions_of setting.now.defs.now) store.now.facts (expr_tree expr.now)
        (bindings_of env.now))) }
    ensures variables { IfOk result (SetsVariables store.now.variables) }
{
    match setting.inputs.at(setting.state, port) {
        Some(value) => {
            let left = side_of(alloc, expr, env, store, setting.defs)?;
            let right = side_with(alloc, value)?;
            Ok(equate_values(left, right))
        }
        None => {
            let port = port.copy()?;
            Ok(Decision::Misses(port))
        }
    }
}
