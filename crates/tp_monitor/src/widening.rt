// The formulas that can be run, as wider ones.
ghost use Rattle.std.specs.Prelude.{◌≡◌, IfOk, Some};
ghost use Rattle.std.specs.Option.{option_map, option_and_then};
ghost use Rattle.tp_meaning.specs.Syntax.{conjunction, while};
ghost use Rattle.tp_kernel.specs.Read.{expr_tree, formula_tree, formula_trees};
ghost use Rattle.tp_verdict.specs.Wide as wide;
ghost use Rattle.tp_verdict.specs.Widened.{widened};
ghost use Rattle.tp_verdict.specs.Read.{wide_tree};
ghost use Rattle.tp_monitor.specs.Seen.{box_seen, made_over};

use std::alloc::Global;
use std::rc::Rc;
use tp_kernel::{Expr, Formula, Formulas};
use tp_value::NoMemory;
use tp_verdict::{WideFormula, WideFormulas};

// To stand in another one.
#[cycle(widen)]
fn widen_box(alloc: Global, formula: &Formula) -> Result<Option<Box<WideFormula>>, NoMemory>
    ensures { IfOk result (λ w. option_map box_seen w ≡ widened (formula_tree formula.now)) }
{
    let Some(w) = widen(alloc, formula)? else {
        return Ok(None);
    };
    Ok(Some(Box::new(alloc, w)?))
}

// What a formula is made of another one by.
#[derive(Clone, Copy)]
enum Over {
    Next,
    IfMore,
    IfEmpty,
    Always,
}

impl Over {
    fn make(self, part: Box<WideFormula>) -> WideFormula
        ensures { wide_tree result ≡ made_over self (box_seen part) }
    {
        match self {
            Over::Next => WideFormula::Next(part),
            Over::IfMore => WideFormula::IfMore(part),
            Over::IfEmpty => WideFormula::IfEmpty(part),
            Over::Always => WideFormula::Always(part),
        }
    }
}

// What is made of this formula.
#[cycle(widen)]
fn widen_over(alloc: Global, over: Over, formula: &Formula) -> Result<Option<WideFormula>, NoMemory>
    ensures { IfOk result (λ w. option_map wide_tree w
        ≡ option_and_then (λ v. Some (made_over over v)) (widened (formula_tree formula.now))) }
{
    let Some(w) = widen_box(alloc, formula)? else {
        return Ok(None);
    };
    Ok(Some(over.make(w)))
}

#[cycle(widen)]
fn widen_all(alloc: Global, formulas: &Formulas) -> Result<Option<WideFormula>, NoMemory>
    ensures { IfOk result (λ w.
        option_map wide_tree w ≡ widened (conjunction (formula_trees formulas.now))) }
{
    let mut items = Vec::new(alloc);
    for formula in &formulas.items {
        let found = widen(alloc, formula)?;
        let Some(w) = found else {
            return Ok(None);
        };
        items.push(w)?;
    }
    Ok(Some(WideFormula::And(WideFormulas { items })))
}

#[cycle(widen)]
fn widen_while(
    alloc: Global,
    body: &Formula,
    condition: &Rc<Expr>,
) -> Result<Option<WideFormula>, NoMemory>
    ensures { IfOk result (λ w. option_map wide_tree w
        ≡ widened (while (expr_tree condition.now.value) (formula_tree body.now))) }
{
    let Some(w) = widen_box(alloc, body)? else {
        return Ok(None);
    };
    Ok(Some(WideFormula::While(condition.clone()?, w)))
}

// By the second formula within, where the first is widened.
#[cycle(widen)]
fn widen_if(
    alloc: Global,
    second: &Formula,
    first: Box<WideFormula>,
    condition: &Rc<Expr>,
) -> Result<Option<WideFormula>, NoMemory>
    ensures { IfOk result (λ w. option_map wide_tree w
        ≡ option_and_then
        (λ v. Some (wide.branch (expr_tree condition.now.value) (box_seen first) v))
        (widened (formula_tree second.now))) }
{
    let Some(second) = widen_box(alloc, second)? else {
        return Ok(None);
    };
    Ok(Some(WideFormula::If(condition.clone()?, first, second)))
}

#[cycle(widen)]
fn widen_chop(
    alloc: Global,
    second: &Formula,
    first: Box<WideFormula>,
) -> Result<Option<WideFormula>, NoMemory>
    ensures { IfOk result (λ w. option_map wide_tree w
        ≡ option_and_then (λ v. Some (wide.chop (box_seen first) v))
        (widened (formula_tree second.now))) }
{
    let Some(second) = widen_box(alloc, second)? else {
        return Ok(None);
    };
    Ok(Some(WideFormula::Chop(first, second)))
}

/// The same formula as a wider one, or nothing where it isn't one.
#[cycle(widen)]
pub fn widen(alloc: Global, formula: &Formula) -> Result<Option<WideFormula>, NoMemory>
    ensures { IfOk result (λ w. option_map wide_tree w ≡ widened (formula_tree formula.now)) }
{
    match formula {
        Formula::True => Ok(Some(WideFormula::True)),
        Formula::Test(e) => Ok(Some(WideFormula::Test(e.clone()?))),
        Formula::Eq(l, r) => Ok(Some(WideFormula::Eq(l.clone()?, r.clone()?))),
        Formula::NextEq(k, l, r) => Ok(Some(WideFormula::NextEq(*k, l.clone()?, r.clone()?))),
        Formula::Empty => Ok(Some(WideFormula::Empty)),
        Formula::More => Ok(Some(WideFormula::More)),
        Formula::Len(e) => Ok(Some(WideFormula::Len(e.clone()?))),
        Formula::Assign(l, r) => Ok(Some(WideFormula::Assign(l.clone()?, r.clone()?))),
        Formula::Next(f) => widen_over(alloc, Over::Next, f),
        Formula::IfMore(f) => widen_over(alloc, Over::IfMore, f),
        Formula::IfEmpty(f) => widen_over(alloc, Over::IfEmpty, f),
        Formula::Always(f) => widen_over(alloc, Over::Always, f),
        Formula::And(fs) => widen_all(alloc, fs),
        Formula::While(b, f) => widen_while(alloc, f, b),
        Formula::If(b, f, g) => {
            let Some(first) = widen_box(alloc, f)? else {
                return Ok(None);
            };
            widen_if(alloc, g, first, b)
        }
        Formula::Chop(f, g) => {
            let Some(first) = widen_box(alloc, f)? else {
                return Ok(None);
            };
            widen_chop(alloc, g, first)
        }
        Formula::WeakNext(_) | Formula::Proj(_, _) => Ok(None),
        Formula::For { .. } | Formula::Forall { .. } | Formula::Exists { .. } => Ok(None),
        Formula::Call(_, _) | Formula::Input(_, _) | Formula::Display(_) => Ok(None),
    }
}
