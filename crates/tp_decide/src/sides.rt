// The sides of equations: what they can set, and what is found there.
ghost use Rattle.std.specs.Prelude.{◌≡◌, IfOk, List, None, Some, MatchOption, true};
ghost use Rattle.std.specs.Option.{option_map};
ghost use Rattle.tp_value.specs.Read.{tree};
ghost use Rattle.tp_value.specs.declared.path.Path.{Path};
ghost use Rattle.tp_meaning.specs.Syntax.{size};
ghost use Rattle.tp_kernel.specs.Read.{expr_tree, definitions_of, bindings_of};
ghost use Rattle.tp_eval.specs.Answers.{outcome_tree};
ghost use Rattle.tp_eval.specs.Evaluate.{is_place as is_place_tree};
ghost use Rattle.tp_scene.specs.Step as row;
ghost use Rattle.tp_store.specs.Known.{Variable, IsVariableOf};
ghost use Rattle.tp_decide.specs.Found.{option_target, side_found, PathIn, IsNoSize};
ghost use Rattle.tp_decide.specs.Equated.{outcome_at};
ghost use Rattle.tp_decide.specs.Fits.{IsPathOf, IsTargetOf, ExprFitsStore};

use std::alloc::Global;
use tp_eval::{Outcome, PlaceOutcome, eval, is_place, place};
use tp_kernel::{Defs, Env, Expr, FaultKind, LimitKind};
use tp_store::{Known, Store};
use tp_value::{NoMemory, Path, Value};

/// What a side can set: the value at a path, or the length of the list there.
#[derive(Drop)]
pub enum Target {
    Value(Path),
    Length(Path),
}

/// A side of an equation: whether it is a place or the size of one, what it can set, and what is found.
#[derive(Drop)]
pub struct EquationSide {
    pub placed: bool,
    pub target: Option<Target>,
    pub found: Outcome,
}

/// The path of an expression, where it is a place with one.
pub fn path_of(
    alloc: Global,
    expr: &Expr,
    env: &Env,
    store: &Store,
    defs: &Defs,
) -> Result<Option<Path>, NoMemory>
    requires fits { ExprFitsStore (definitions_of defs.now) store.now.variables (expr_tree expr.now)
        (bindings_of env.now) }
    ensures outcome { IfOk result (λ o.
        (f : Path → row.Target)
        → PathIn o f
        (row.target_if (definitions_of defs.now) store.now.facts
        (is_place_tree (expr_tree expr.now)) f (expr_tree expr.now) (bindings_of env.now))) }
    ensures variables { IfOk result (IsPathOf store.now.variables) }
{
    if !is_place(expr) {
        return Ok(None);
    }
    let found = place(alloc, expr, env, store, defs)?;
    match found {
        PlaceOutcome::Place(path) => Ok(Some(path)),
        PlaceOutcome::Other(_) => Ok(None),
    }
}

// What a size is taken of.
fn measured(expr: &Expr) -> Option<&Expr>
    ensures { MatchOption result (IsNoSize (expr_tree expr.now)) (λ inner.
        expr_tree expr.now ≡ size (expr_tree inner.now)) }
{
    match expr {
        Expr::Size(inner) => Some(inner),
        _ => None,
    }
}

// The length of the list at the path, where there is one.
fn length_target(path: Option<Path>) -> Option<Target>
    ensures outcome { option_target result ≡ option_map row.length_at path }
    ensures variables { (xs : List Variable) → IsPathOf xs path → IsTargetOf xs result }
{
    match path {
        Some(path) => Some(Target::Length(path)),
        None => None,
    }
}

// Whether the expression is a place or the size of one.
fn is_placed(expr: &Expr) -> bool
    ensures { result ≡ row.is_placed (expr_tree expr.now) }
{
    match expr {
        Expr::Size(inner) => is_place(inner),
        _ => is_place(expr),
    }
}

// What is found at a path.
fn found_at(path: &Path, store: &Store) -> Result<Outcome, NoMemory>
    ensures { IfOk result (λ o. outcome_tree o ≡ outcome_at store.now.facts path.now) }
{
    match store.full(path)? {
        Known::Absent => Ok(Outcome::Fault(FaultKind::NoElement)),
        Known::Open(path) => Ok(Outcome::Wait(path)),
        Known::TooLong => Ok(Outcome::Over(LimitKind::List)),
        Known::Value(value) => Ok(Outcome::Value(value)),
    }
}

// The side that is the place with this path.
fn side_at(path: Path, store: &Store) -> Result<EquationSide, NoMemory>
    requires { IsVariableOf store.now.variables path.var }
    ensures outcome { IfOk result (λ s.
        side_found s
        ≡ record {
          placed = true;
          target = Some (row.value_at path);
          found = outcome_at store.now.facts path;
        }) }
    ensures variables { IfOk result (λ s. IsTargetOf store.now.variables s.target) }
{
    let found = found_at(&path, store)?;
    Ok(EquationSide {
        placed: true,
        target: Some(Target::Value(path)),
        found,
    })
}

/// The side that the expression is. A place is evaluated once, for what it can set and for what is found there.
pub fn side_of(
    alloc: Global,
    expr: &Expr,
    env: &Env,
    store: &Store,
    defs: &Defs,
) -> Result<EquationSide, NoMemory>
    requires fits { ExprFitsStore (definitions_of defs.now) store.now.variables (expr_tree expr.now)
        (bindings_of env.now) }
    ensures outcome { IfOk result (λ s.
        side_found s
        ≡ row.side_of (definitions_of defs.now) store.now.facts (expr_tree expr.now)
        (bindings_of env.now)) }
    ensures variables { IfOk result (λ s. IsTargetOf store.now.variables s.target) }
{
    if is_place(expr) {
        match place(alloc, expr, env, store, defs)? {
            PlaceOutcome::Place(path) => {
                return side_at(path, store);
            }
            PlaceOutcome::Other(found) => {
                return Ok(EquationSide {
                    placed: true,
                    target: None,
                    found,
                });
            }
        }
    }
    let target = match measured(expr) {
        Some(inner) => {
            let path = path_of(alloc, inner, env, store, defs)?;
            length_target(path)
        }
        None => None,
    };
    let found = eval(alloc, expr, env, store, defs)?;
    Ok(EquationSide {
        placed: is_placed(expr),
        target,
        found,
    })
}

/// A side that has this value, which was found before.
pub fn side_with(alloc: Global, value: &Value) -> Result<EquationSide, NoMemory>
    ensures outcome { IfOk result (λ s. side_found s ≡ row.side_with (tree value.now)) }
    ensures variables { IfOk result (λ s. s.target ≡ None) }
{
    let value = value.copy(alloc)?;
    Ok(EquationSide {
        placed: false,
        target: None,
        found: Outcome::Value(value),
    })
}
