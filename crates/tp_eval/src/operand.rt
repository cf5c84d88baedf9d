// Values that names have.
ghost use Rattle.std.specs.Prelude.{◌≡◌, Some, IfOk, slice_get};
ghost use Rattle.std.specs.Option.{option_copied, option_map, option_and_then};
ghost use Rattle.tp_value.specs.Read.{tree};
ghost use Rattle.tp_meaning.specs.Syntax.{known_binding};
ghost use Rattle.tp_kernel.specs.Read.{expr_tree, binding_of, bindings_of};
ghost use Rattle.std.specs.declared.rc.Rc.{Rc};
ghost use Rattle.std.specs.declared.alloc.Global.{Global};
ghost use Rattle.tp_value.specs.declared.value.Value.{Value as ValueSeen};
ghost use Rattle.tp_store.specs.Operand.{operand_tree};
ghost use Rattle.tp_eval.specs.Operand.{known_value, bound_value, bound_path, path_named, named_path, IsNamedValue};

use std::alloc::Global;
use std::rc::Rc;
use tp_kernel::{Binding, Env, Expr};
use tp_store::{Operand, Store, held};
use tp_value::{Indices, NoMemory, Path, Value, VarId};

fn known_value(binding: &Binding) -> Option<&Rc<Value>>
    ensures { option_map (λ v. tree v.now.value) result ≡ known_value (binding_of binding.now) }
{
    match binding {
        Binding::Place(_) => None,
        Binding::Known(value) => Some(value),
    }
}

// The value of the binding with this number.
fn known_at(env: &Env, number: u32) -> Option<&Rc<Value>>
    ensures { option_map (λ v. tree v.now.value) result
        ≡ option_and_then known_value (slice_get (bindings_of env.now) number) }
{
    match env.items.get(number as usize) {
        Some(binding) => known_value(binding),
        None => None,
    }
}

/// The value that an expression is bound to, where it is a bound name that stands for a known one.
pub fn bound_value<'a>(expr: &Expr, env: &'a Env) -> Option<&'a Rc<Value>>
    ensures { option_map (λ v. tree v.now.value) result
        ≡ bound_value (expr_tree expr.now) (bindings_of env.now) }
{
    let Expr::Bound(number) = expr else {
        return None;
    };
    known_at(env, *number)
}

/// The place that a name stands for: that of a binding, or a variable as a whole.
pub enum Name<'a> {
    Bound(&'a Path),
    Whole(VarId),
}

// The place that the binding with this number is.
fn place_bound(env: &Env, number: u32) -> Option<&Path>
    ensures { option_map (λ p. p.now) result
        ≡ option_and_then bound_path (slice_get (bindings_of env.now) number) }
{
    match env.items.get(number as usize) {
        Some(Binding::Place(path)) => Some(path),
        Some(Binding::Known(_)) | None => None,
    }
}

/// The place that an expression is by its name alone.
pub fn place_named<'a>(expr: &Expr, env: &'a Env) -> Option<Name<'a>>
    ensures { option_map path_named result ≡ named_path (expr_tree expr.now) (bindings_of env.now) }
{
    if let Expr::Global(var) = expr {
        return Some(Name::Whole(*var));
    }
    let Expr::Bound(number) = expr else {
        return None;
    };
    let path = place_bound(env, *number)?;
    Some(Name::Bound(path))
}

/// The value of a name that stands for a whole variable, where the store keeps it.
pub fn kept_value<'a>(
    alloc: Global,
    expr: &Expr,
    env: &Env,
    store: &'a Store,
) -> Option<&'a Rc<Value>>
    ensures { (v : Rc ValueSeen Global) → option_copied result ≡ Some v
        → IsNamedValue store.now.facts (named_path (expr_tree expr.now) (bindings_of env.now))
        (tree v.value) }
{
    match place_named(expr, env) {
        Some(Name::Bound(path)) => store.kept_value(path),
        Some(Name::Whole(var)) => {
            let at = Indices::new(alloc);
            store.kept_value(&Path { var, at })
        }
        None => None,
    }
}

/// What a parameter is bound to that is given this value.
pub fn bind_value(alloc: Global, operand: Operand) -> Result<Binding, NoMemory>
    ensures { IfOk result (λ b. binding_of b ≡ known_binding (operand_tree operand)) }
{
    let value = held(alloc, operand)?;
    Ok(Binding::Known(value))
}
