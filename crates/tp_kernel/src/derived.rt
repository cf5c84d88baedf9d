// The formulas of the derived operators. The clauses `formula` say which formula it is, and the clauses `meaning` on which
// intervals it holds, with which shows.
ghost use Rattle.std.specs.Prelude.{◌≡◌, ◌≤◌, IfOk, [], ◌∷◌};
ghost use Rattle.tp_kernel.specs.Read.{expr_tree, formula_tree};
ghost use Rattle.tp_meaning.specs.Syntax.{conjunction, formulas_of};
ghost use Rattle.tp_meaning.specs.Derived.{skip_of, halt_of, keep_of, fin_of, gets_of, stable_of, becomes_of, repeat_of, list_of_length, next_equals_of};
ghost use Rattle.tp_meaning.specs.Direct.{Means, Skip, Halt, Keep, Fin, Gets, Stable, Becomes, Repeat, ListOf, NextEquals};

use crate::formula::{Expr, Formula, Formulas};
use std::alloc::Global;
use std::rc::Rc;
use tp_value::NoMemory;

// The conjunction of the two.
fn both(alloc: Global, first: Rc<Formula>, second: Rc<Formula>) -> Result<Formula, NoMemory>
    ensures { IfOk result (λ f.
        formula_tree f
        ≡ conjunction (formulas_of (formula_tree first.value ∷ formula_tree second.value ∷ []))) }
{
    let items = vec![in alloc; first, second]?;
    Ok(Formula::And(Formulas { items }))
}

/// `skip`: the length is 1; nothing is shown.
pub fn skip(alloc: Global) -> Result<Formula, NoMemory>
    ensures formula { IfOk result (λ f. formula_tree f ≡ skip_of) }
    ensures meaning { IfOk result (λ f. Means (formula_tree f) Skip) }
{
    let empty = Rc::new(alloc, Formula::Empty)?;
    Ok(Formula::Next(empty))
}

/// `halt(b)`: b is true in the last state and false in each earlier one; nothing is shown.
pub fn halt(alloc: Global, b: Rc<Expr>) -> Result<Formula, NoMemory>
    ensures formula { IfOk result (λ f. formula_tree f ≡ halt_of (expr_tree b.value)) }
    ensures meaning { IfOk result (λ f. Means (formula_tree f) (Halt (expr_tree b.value))) }
{
    let empty = Rc::new(alloc, Formula::Empty)?;
    let more = Rc::new(alloc, Formula::More)?;
    let choice = Rc::new(alloc, Formula::If(b, empty, more))?;
    Ok(Formula::Always(choice))
}

/// `keep(w)`: w holds on each suffix of length 1 or more, and what is shown on longer ones comes first.
pub fn keep(alloc: Global, w: Rc<Formula>) -> Result<Formula, NoMemory>
    ensures formula { IfOk result (λ f. formula_tree f ≡ keep_of (formula_tree w.value)) }
    ensures meaning { IfOk result (λ f. Means (formula_tree f) (Keep (formula_tree w.value))) }
{
    let step = Rc::new(alloc, Formula::IfMore(w))?;
    Ok(Formula::Always(step))
}

/// `fin(w)`: w holds on the last state, as a suffix of length 0.
pub fn fin(alloc: Global, w: Rc<Formula>) -> Result<Formula, NoMemory>
    ensures formula { IfOk result (λ f. formula_tree f ≡ fin_of (formula_tree w.value)) }
    ensures meaning { IfOk result (λ f. Means (formula_tree f) (Fin (formula_tree w.value))) }
{
    let end = Rc::new(alloc, Formula::IfEmpty(w))?;
    Ok(Formula::Always(end))
}

/// `a gets e`: in each state but the first a's value is e's in the state before; nothing is shown.
pub fn gets(alloc: Global, a: Rc<Expr>, e: Rc<Expr>) -> Result<Formula, NoMemory>
    ensures formula { IfOk result (λ f.
        formula_tree f ≡ gets_of (expr_tree a.value) (expr_tree e.value)) }
    ensures meaning { IfOk result (λ f.
        Means (formula_tree f) (Gets (expr_tree a.value) (expr_tree e.value))) }
{
    let next = Rc::new(alloc, Formula::NextEq(1, a, e))?;
    let step = Rc::new(alloc, Formula::IfMore(next))?;
    Ok(Formula::Always(step))
}

/// `stable(a)`: a has one value in each state and the next; nothing is shown.
pub fn stable(alloc: Global, a: Rc<Expr>) -> Result<Formula, NoMemory>
    ensures formula { IfOk result (λ f. formula_tree f ≡ stable_of (expr_tree a.value)) }
    ensures meaning { IfOk result (λ f. Means (formula_tree f) (Stable (expr_tree a.value))) }
{
    let again = a.clone()?;
    gets(alloc, a, again)
}

/// `a := e`: the length is 1, and a's value in the last state is e's in the first; nothing is shown.
pub fn becomes(alloc: Global, a: Rc<Expr>, e: Rc<Expr>) -> Result<Formula, NoMemory>
    ensures formula { IfOk result (λ f.
        formula_tree f ≡ becomes_of (expr_tree a.value) (expr_tree e.value)) }
    ensures meaning { IfOk result (λ f.
        Means (formula_tree f) (Becomes (expr_tree a.value) (expr_tree e.value))) }
{
    let skip = skip(alloc)?;
    let one = Rc::new(alloc, skip)?;
    let next = Rc::new(alloc, Formula::NextEq(1, a, e))?;
    both(alloc, one, next)
}

/// `repeat w until b`: w holds up to some state, and from there along strictly rising cuts to the end; b is false at each cut but
/// the last, and true there.
pub fn repeat(alloc: Global, w: Rc<Formula>, b: Rc<Expr>) -> Result<Formula, NoMemory>
    ensures formula { IfOk result (λ f.
        formula_tree f ≡ repeat_of (formula_tree w.value) (expr_tree b.value)) }
    ensures meaning { IfOk result (λ f.
        Means (formula_tree f) (Repeat (formula_tree w.value) (expr_tree b.value))) }
{
    let again = w.clone()?;
    let goes_on = Rc::new(alloc, Expr::Not(b))?;
    let rest = Rc::new(alloc, Formula::While(goes_on, again))?;
    Ok(Formula::Chop(w, rest))
}

/// `list(l, e)`: in the first state l's value is a list of as many items as e's value says; nothing is shown.
pub fn list(alloc: Global, l: Rc<Expr>, e: Rc<Expr>) -> Result<Formula, NoMemory>
    ensures formula { IfOk result (λ f.
        formula_tree f ≡ list_of_length (expr_tree l.value) (expr_tree e.value)) }
    ensures meaning { IfOk result (λ f.
        Means (formula_tree f) (ListOf (expr_tree l.value) (expr_tree e.value))) }
{
    let size = Rc::new(alloc, Expr::Size(l))?;
    Ok(Formula::Eq(size, e))
}

/// `next .. next t = e` with k of `next`, one at least: the length is k at least, and t's value k states after the first is e's in
/// the first; nothing is shown.
pub fn next_equals(alloc: Global, k: u32, t: Rc<Expr>, e: Rc<Expr>) -> Result<Formula, NoMemory>
    requires { 1 ≤ k }
    ensures formula { IfOk result (λ f.
        formula_tree f ≡ next_equals_of k (expr_tree t.value) (expr_tree e.value)) }
    ensures meaning { IfOk result (λ f.
        Means (formula_tree f) (NextEquals k (expr_tree t.value) (expr_tree e.value))) }
{
    let more = Rc::new(alloc, Formula::More)?;
    let next = Rc::new(alloc, Formula::NextEq(k, t, e))?;
    both(alloc, more, next)
}
