// Equations of two places, which go by the shape that one of them has.
ghost use Rattle.std.specs.Prelude.{◌≡◌, ℕ, pos, length, List, ◌∷◌, [], Some, IfOk, IsTrue, if◌then◌else◌};
ghost use Rattle.tp_value.specs.declared.path.Fact.{Fact};
ghost use Rattle.tp_meaning.specs.Syntax.{equation, index, numeral};
ghost use Rattle.tp_kernel.specs.Read.{expr_tree, formula_tree, bindings_of};
ghost use Rattle.tp_store.specs.Facts.{fact, kept_shape};
ghost use Rattle.tp_store.specs.FactMap.{IsNumberOrTruth};
ghost use Rattle.tp_store.specs.Known.{Variable, IsVariableOf, addition};
ghost use Rattle.tp_scene.specs.Step as row;
ghost use Rattle.tp_decide.specs.Decided.{decided_outcome, news_entries};
ghost use Rattle.tp_decide.specs.Fits.{SetsVariables};

use crate::decision::{Decision, Leaf, due, nothing};
use std::alloc::Global;
use std::rc::Rc;
use tp_kernel::{Binding, Env, Expr, FaultKind, Formula};
use tp_scene::{Cell, Clash};
use tp_store::{Operand, Store};
use tp_value::{NoMemory, Number, Path, Shape, Value};

// The item with that index of one place equals that of the other.
fn item_equation(
    alloc: Global,
    left: &Rc<Expr>,
    right: &Rc<Expr>,
    i: u32,
) -> Result<Rc<Formula>, NoMemory>
    ensures { IfOk result (λ w.
        formula_tree w.value
        ≡ equation (index (expr_tree left.now.value) (numeral (pos i)))
        (index (expr_tree right.now.value) (numeral (pos i)))) }
{
    let number = Rc::new(alloc, Expr::Number(Number::from(i)))?;
    let left = Rc::new(alloc, Expr::Index(left.clone()?, number.clone()?))?;
    let right = Rc::new(alloc, Expr::Index(right.clone()?, number))?;
    let equation = Rc::new(alloc, Formula::Eq(left, right))?;
    Ok(equation)
}

// So many items of the places that are bound first and second are equal, from the first item on.
fn item_equations(alloc: Global, count: u32, env: &Rc<Env>) -> Result<Vec<Leaf>, NoMemory>
    ensures entries { IfOk result (λ news.
        (number : ℕ → ℕ)
        → news_entries news.items number 0
        ≡ row.all_do (row.item_equations count 0) (bindings_of env.now.value) number 0) }
    ensures count { IfOk result (λ news.
        length news.items ≡ row.count_of (row.item_equations count 0)) }
{
    let left = Rc::new(alloc, Expr::Bound(0))?;
    let right = Rc::new(alloc, Expr::Bound(1))?;
    let mut news = Vec::with_capacity(alloc, count as usize)?;
    for i in 0..count {
        let equation = item_equation(alloc, &left, &right, i)?;
        let leaf = due(equation, env)?;
        news.push(leaf)?;
    }
    Ok(news)
}

// What the two places are bound to, for all items.
fn both_places(alloc: Global, left: Path, right: Path) -> Result<Rc<Env>, NoMemory>
    ensures { IfOk result (λ e. bindings_of e.value ≡ row.both_places left right) }
{
    let mut items = Vec::new(alloc);
    items.push(Binding::Place(left))?;
    items.push(Binding::Place(right))?;
    let env = Rc::new(alloc, Env { items })?;
    Ok(env)
}

// The left place or the right one.
fn either(left: Path, right: Path, is_left: bool) -> Path
    ensures { result ≡ (if is_left then left else right) }
{
    if is_left { left } else { right }
}

// One of the places has this shape: the other one, which is the left one or the right, gets it too, and their items are equal. Only for
// a list are the paths needed twice.
fn share(
    alloc: Global,
    shape: Shape,
    left: Path,
    right: Path,
    to_left: bool,
) -> Result<Decision, NoMemory>
    ensures outcome { let to = if to_left then left else right in
        IfOk result (λ d.
        (facts : List Fact) (n : row.Numbers)
        → decided_outcome facts n d
        ≡ row.shares left right shape n (addition facts (fact to shape ∷ []))) }
    ensures variables { IfOk result (λ d.
        (xs : List Variable) → IsVariableOf xs left.var → IsVariableOf xs right.var
        → SetsVariables xs d) }
{
    match shape {
        Shape::Num(n) => {
            let value = Operand::Own(Value::Num(n));
            Ok(Decision::Sets(either(left, right, to_left), value))
        }
        Shape::Truth(b) => {
            let value = Operand::Own(Value::Truth(b));
            Ok(Decision::Sets(either(left, right, to_left), value))
        }
        Shape::Items(length) => {
            let to = if to_left { left.copy()? } else { right.copy()? };
            let env = both_places(alloc, left, right)?;
            let news = item_equations(alloc, length, &env)?;
            Ok(Decision::Shares { to, length, news })
        }
    }
}

// Whether the place is known by this shape already, and the shape is that of a number or a truth.
fn has_plain_shape(store: &Store, path: &Path, shape: Shape) -> bool
    ensures plain { IsTrue result → IsNumberOrTruth (Some shape) }
    ensures kept { IsTrue result → kept_shape store.now.facts path.now ≡ Some shape }
{
    match shape {
        Shape::Num(_) | Shape::Truth(_) => store.shape(path) == Some(shape),
        Shape::Items(_) => false,
    }
}

// What becomes of the equation of two places, of which the right one has this shape. Where both are the same number or truth, there is
// nothing to set.
fn equate_with_right(
    alloc: Global,
    shape: Shape,
    left: Path,
    right: Path,
    store: &Store,
) -> Result<Decision, NoMemory>
    requires { kept_shape store.now.facts right ≡ Some shape }
    ensures outcome { IfOk result (λ d.
        (n : row.Numbers)
        → decided_outcome store.now.facts n d
        ≡ row.equate_places store.now.facts left right n) }
    ensures variables { IfOk result (λ d.
        (xs : List Variable) → IsVariableOf xs left.var → IsVariableOf xs right.var
        → SetsVariables xs d) }
{
    if has_plain_shape(store, &left, shape) {
        store.count(); // whose facts don't clash
        return Ok(nothing());
    }
    if store.excludes(&left) {
        return Ok(Decision::Clashes(Clash::NoValue(FaultKind::NoElement)));
    }
    share(alloc, shape, left, right, true)
}

/// What becomes of the equation of the places with these paths.
pub fn equate_places(
    alloc: Global,
    left: Path,
    right: Path,
    store: &Store,
) -> Result<Decision, NoMemory>
    ensures outcome { IfOk result (λ d.
        (n : row.Numbers)
        → decided_outcome store.now.facts n d
        ≡ row.equate_places store.now.facts left right n) }
    ensures variables { IfOk result (λ d.
        (xs : List Variable) → IsVariableOf xs left.var → IsVariableOf xs right.var
        → SetsVariables xs d) }
{
    // what has a shape isn't excluded
    if let Some(shape) = store.shape(&right) {
        return equate_with_right(alloc, shape, left, right, store);
    }
    if store.excludes(&right) || store.excludes(&left) {
        return Ok(Decision::Clashes(Clash::NoValue(FaultKind::NoElement)));
    }
    if let Some(shape) = store.shape(&left) {
        return share(alloc, shape, left, right, false);
    }
    Ok(Decision::Waits(Cell::Part(right), Some(Cell::Part(left))))
}
