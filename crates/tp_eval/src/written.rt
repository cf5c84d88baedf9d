// Places that are written out.
ghost use Rattle.std.specs.Prelude.{◌≡◌, ℕ, Some, suc, IfOk};
ghost use Rattle.tp_value.specs.declared.path.Path.{Path as PathSeen};
ghost use Rattle.tp_kernel.specs.Read.{expr_tree, bindings_of};
ghost use Rattle.tp_eval.specs.Reached.{reaches};
ghost use Rattle.tp_eval.specs.Evaluate.{at_path};
ghost use Rattle.tp_eval.specs.Answers.{place_at};
ghost use Rattle.tp_eval.specs.Operand.{named_path};

use crate::halt::EvalHalt;
use crate::lookup::Lookup;
use crate::operand::{Name, place_named};
use crate::places::{farther_path, index_from};
use std::alloc::Global;
use tp_kernel::{Env, Expr};
use tp_value::{Indices, NoMemory, Path, is_number};

// The place that an expression is by its name alone.
fn named_path(alloc: Global, expr: &Expr, env: &Env) -> Result<Option<Path>, NoMemory>
    ensures { IfOk result (λ named.
        named ≡ named_path (expr_tree expr.now) (bindings_of env.now)) }
{
    match place_named(expr, env) {
        Some(Name::Bound(path)) => Ok(Some(path.copy()?)),
        Some(Name::Whole(var)) => {
            let at = Indices::new(alloc);
            Ok(Some(Path { var, at }))
        }
        None => Ok(None),
    }
}

/// The path of a place that is a name and one index, which is written as a number: most items are named so, and they need no evaluation.
/// None says nothing of other places.
pub fn written_item(lookup: &Lookup, expr: &Expr) -> Result<Option<Path>, NoMemory>
    ensures { IfOk result (λ o.
        (p : PathSeen) (levels calls : ℕ) → o ≡ Some p
        → place_at lookup.now (suc (suc levels)) (expr_tree expr.now) calls
        ≡ reaches (at_path p) calls) }
{
    let Expr::Index(inner, index) = expr else {
        return Ok(None);
    };
    let Expr::Number(n) = **index else {
        return Ok(None);
    };
    if !is_number(n) {
        return Ok(None);
    }
    let Ok(k) = index_from(n) else {
        return Ok(None);
    };
    let Some(path) = named_path(lookup.alloc, inner, lookup.env)? else {
        return Ok(None);
    };
    match farther_path(path, k) {
        Ok(path) => Ok(Some(path)),
        Err(EvalHalt::NoMemory) => Err(NoMemory),
        Err(EvalHalt::Waits(_) | EvalHalt::Faults(_) | EvalHalt::Passes(_)) => Ok(None),
    }
}
