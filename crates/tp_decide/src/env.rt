// Formulas under the bindings of their names.
ghost use Rattle.std.specs.Prelude.{◌≡◌, ◌++◌, ◌∷◌, [], map, IfOk};
ghost use Rattle.tp_value.specs.Tree.{num};
ghost use Rattle.tp_meaning.specs.Syntax.{known_binding};
ghost use Rattle.tp_kernel.specs.Read.{formula_tree, binding_of, bindings_of};
ghost use Rattle.tp_decide.specs.ReadBound.{formula_of, env_of};

use crate::bound_formula::BoundFormula;
use std::alloc::Global;
use std::rc::Rc;
use tp_kernel::{Binding, Env, Formula};
use tp_value::{NoMemory, Number, Value};

/// The formula under the same bindings, which are shared.
pub fn under(what: Rc<Formula>, env: &Rc<Env>) -> Result<BoundFormula, NoMemory>
    ensures formula { IfOk result (λ a. formula_of a ≡ formula_tree what.value) }
    ensures bindings { IfOk result (λ a. env_of a ≡ bindings_of env.now.value) }
{
    let env = env.clone()?;
    Ok(BoundFormula { what, env })
}

/// The same of a formula that is shared as well.
pub fn shared_under(what: &Rc<Formula>, env: &Rc<Env>) -> Result<BoundFormula, NoMemory>
    ensures formula { IfOk result (λ a. formula_of a ≡ formula_tree what.now.value) }
    ensures bindings { IfOk result (λ a. env_of a ≡ bindings_of env.now.value) }
{
    let what = what.clone()?;
    under(what, env)
}

fn copy_binding(binding: &Binding) -> Result<Binding, NoMemory>
    ensures { IfOk result (λ b. binding_of b ≡ binding_of binding.now) }
{
    match binding {
        Binding::Place(path) => {
            let path = path.copy()?;
            Ok(Binding::Place(path))
        }
        Binding::Known(value) => {
            let value = value.clone()?;
            Ok(Binding::Known(value))
        }
    }
}

/// The same bindings.
pub fn copy_bindings(alloc: Global, env: &Env) -> Result<Vec<Binding>, NoMemory>
    ensures { IfOk result (λ bs. map binding_of bs.items ≡ bindings_of env.now) }
{
    let mut copies = Vec::new(alloc);
    for binding in &env.items {
        let copy = copy_binding(binding)?;
        copies.push(copy)?;
    }
    Ok(copies)
}

/// The bindings, and one more, which is the innermost.
pub fn bind_last(alloc: Global, env: &Env, binding: Binding) -> Result<Rc<Env>, NoMemory>
    ensures { IfOk result (λ e.
        bindings_of e.value ≡ bindings_of env.now ++ binding_of binding ∷ []) }
{
    let mut items = copy_bindings(alloc, env)?;
    items.push(binding)?;
    let env = Rc::new(alloc, Env { items })?;
    Ok(env)
}

/// The bindings, and a number that is known.
pub fn bind_number(alloc: Global, env: &Env, n: Number) -> Result<Rc<Env>, NoMemory>
    ensures { IfOk result (λ e.
        bindings_of e.value ≡ bindings_of env.now ++ known_binding (num n) ∷ []) }
{
    let value = Rc::new(alloc, Value::Num(n))?;
    bind_last(alloc, env, Binding::Known(value))
}
