// Variables that are hidden by `exists`.
ghost use Rattle.std.specs.Prelude.{◌≡◌, ◌∷◌, [], IfOk};
ghost use Rattle.tp_kernel.specs.Read.{formula_tree};
ghost use Rattle.tp_check.specs.Positions.{exists_of};

use std::alloc::Global;
use std::rc::Rc;
use tp_kernel::{Formula, is_lower};
use tp_value::{NoMemory, Text, Texts};

// A variable of this name, which lasts where the name is lower-case, over the formula.
fn exists_one(alloc: Global, name: &Text, body: Formula) -> Result<Formula, NoMemory>
    ensures { IfOk result (λ w.
        formula_tree w ≡ exists_of (name.now ∷ []) (formula_tree body)) }
{
    Ok(Formula::Exists {
        name: name.copy()?,
        lasting: is_lower(name),
        body: Rc::new(alloc, body)?,
    })
}

/// A variable of its own for each of these names over the formula; the first is the outermost.
pub fn exists_each(alloc: Global, names: &Texts, body: Formula) -> Result<Formula, NoMemory>
    ensures { IfOk result (λ w. formula_tree w ≡ exists_of names.now (formula_tree body)) }
{
    let mut whole = body;
    for name in names.items.iter().rev() {
        whole = exists_one(alloc, name, whole)?;
    }
    Ok(whole)
}
