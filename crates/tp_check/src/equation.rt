// Equations.
ghost use Rattle.std.specs.Prelude.{◌≡◌, ◌+◌, ℕ, ◌⊎◌, IfOk, Ok};
ghost use Rattle.tp_tree.specs.Read.{phrase_tree};
ghost use Rattle.tp_kernel.specs.Read.{expr_tree, formula_tree};
ghost use Rattle.tp_scope.specs.Seen.{names_seen};
ghost use Rattle.tp_check.specs.Answers.{AnswersCheck};
ghost use Rattle.tp_scope.specs.Phrases.{nexts_of, behind_nexts};
ghost use Rattle.tp_check.specs.Positions.{equation_of, equation_in};

use crate::expression::shared_expression;
use crate::refusal::CheckRefusal;
use std::alloc::Global;
use std::rc::Rc;
use tp_kernel::{Expr, Formula, next_equals};
use tp_scope::Visible;
use tp_tree::{Phrase, PhraseKind};
use tp_value::NoMemory;

// The count and one more.
fn one_more(count: u32) -> Result<u32, NoMemory>
    ensures { IfOk result (λ n. n ≡ count + 1) }
{
    match count.checked_add(1) {
        Some(next) => Ok(next),
        None => Err(NoMemory),
    }
}

// How many `next` stand in front of a phrase, and the phrase behind them.
fn without_nexts(phrase: &Phrase) -> Result<(u32, &Phrase), NoMemory>
    ensures count { IfOk result (λ r. r.0 ≡ nexts_of (phrase_tree phrase.now)) }
    ensures behind { IfOk result (λ r.
        phrase_tree r.1.now ≡ behind_nexts (phrase_tree phrase.now)) }
{
    let mut count = 0;
    let mut behind = phrase;
    while let PhraseKind::Next(operand) = &behind.kind {
        count = one_more(count)?;
        behind = operand;
    }
    Ok((count, behind))
}

fn equation_formula(
    alloc: Global,
    left_nexts: u32,
    right_nexts: u32,
    left: Rc<Expr>,
    right: Rc<Expr>,
) -> Result<Formula, NoMemory>
    requires { (left_nexts ≡ 0) ⊎ (right_nexts ≡ 0) }
    ensures { IfOk result (λ w.
        (at : ℕ)
        → equation_of left_nexts right_nexts at (Ok (expr_tree left.value))
        (Ok (expr_tree right.value))
        ≡ Ok (formula_tree w)) }
{
    if left_nexts > 0 {
        next_equals(alloc, left_nexts, left, right)
    } else if right_nexts > 0 {
        next_equals(alloc, right_nexts, right, left)
    } else {
        Ok(Formula::Eq(left, right))
    }
}

/// `left = right`
pub fn equation(
    alloc: Global,
    left: &Phrase,
    right: &Phrase,
    names: &Visible,
) -> Result<Formula, CheckRefusal>
    ensures { AnswersCheck formula_tree
        (equation_in (names_seen names.now) (phrase_tree left.now) (phrase_tree right.now)) result }
{
    let (left_nexts, left_side) = without_nexts(left)?;
    let (right_nexts, right_side) = without_nexts(right)?;
    let left_expr = shared_expression(alloc, left_side, names)?;
    if left_nexts > 0 && right_nexts > 0 {
        return Err(CheckRefusal::NotExpression { at: right.at });
    }
    let right_expr = shared_expression(alloc, right_side, names)?;
    let formula = equation_formula(alloc, left_nexts, right_nexts, left_expr, right_expr)?;
    Ok(formula)
}
