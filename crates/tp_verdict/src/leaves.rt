// The tables of the kinds whose verdict is by the values of expressions in the states.
ghost use Rattle.std.specs.Prelude.{◌≡◌, ◌<◌, ◌+◌, ◌-◌, ℕ, IfOk, length, map};
ghost use Rattle.tp_value.specs.Tree.{truth};
ghost use Rattle.tp_kernel.specs.Read.{expr_tree};
ghost use Rattle.tp_eval.specs.Answers.{outcome_tree};
ghost use Rattle.tp_verdict.specs.Wide.{test, equation, next_equation, len, assign};
ghost use Rattle.tp_verdict.specs.Verdict.{value_verdict};
ghost use Rattle.tp_verdict.specs.Trace.{verdict};
ghost use Rattle.tp_verdict.specs.Code.{verdict_of};
ghost use Rattle.tp_verdict.specs.Stored.{verdict_listed, HaveVerdicts};
ghost use Rattle.tp_verdict.specs.Ruled.{paired};
ghost use Rattle.tp_verdict.specs.Found.{found_in};

use crate::judging::paired;
use crate::kinds::{outcomes, value_verdicts};
use crate::rule::Rule;
use crate::table::Table;
use crate::tables::ruled_table;
use crate::verdict::Verdict;
use std::alloc::Global;
use tp_eval::Outcome;
use tp_kernel::Expr;
use tp_store::Store;
use tp_value::{NoMemory, Value};

/// In each state, whether an expression with these outcomes has this truth value.
#[tactic(auto, using(tp_value::specs::Equations::tree_truth))]
pub fn truth_verdicts(
    alloc: Global,
    outcomes: &[Outcome],
    holds: bool,
) -> Result<Vec<Verdict>, NoMemory>
    ensures { IfOk result (λ verdicts. map verdict_of verdicts.items
        ≡ map (λ o. value_verdict (outcome_tree o) (truth holds)) outcomes.now) }
{
    let value = Value::Truth(holds);
    value_verdicts(alloc, outcomes, &value)
}

/// An expression as a test, which is to be true in the start.
pub fn test_table(alloc: Global, expr: &Expr, states: &[Store]) -> Result<Table, NoMemory>
    ensures many { IfOk result (λ table. length table.rows.items ≡ length states.now) }
    ensures verdicts { IfOk result (λ table.
        HaveVerdicts (verdict (found_in states.now) (test (expr_tree expr.now)))
        table.rows.items) }
{
    let found = outcomes(alloc, expr, states)?;
    let verdicts = truth_verdicts(alloc, found.as_slice(), true)?;
    ruled_table(alloc, &Rule::AtStart(0, verdicts.as_slice()), states.len())
}

// In each state, whether the outcome of the first, so many states ahead, is equal to that of the second.
fn equality_verdicts(
    alloc: Global,
    firsts: &[Outcome],
    seconds: &[Outcome],
    ahead: u32,
) -> Result<Vec<Verdict>, NoMemory>
    ensures { IfOk result (λ verdicts. (i : ℕ) → i < length seconds.now
        → verdict_listed verdicts.items i ≡ paired firsts.now seconds.now i (i + ahead)) }
{
    let mut verdicts = Vec::new(alloc);
    'states: for i in 0..seconds.len() {
        let verdict = paired(firsts, seconds, i, i + ahead as usize);
        verdicts.push(verdict)?;
    }
    Ok(verdicts)
}

/// An equation in the start.
pub fn equation_table(
    alloc: Global,
    first: &Expr,
    second: &Expr,
    states: &[Store],
) -> Result<Table, NoMemory>
    ensures many { IfOk result (λ table. length table.rows.items ≡ length states.now) }
    ensures verdicts { IfOk result (λ table.
        HaveVerdicts (verdict (found_in states.now)
        (equation (expr_tree first.now) (expr_tree second.now))) table.rows.items) }
{
    next_equation_table(alloc, 0, first, second, states)
}

/// An equation of a later state with the start.
pub fn next_equation_table(
    alloc: Global,
    ahead: u32,
    first: &Expr,
    second: &Expr,
    states: &[Store],
) -> Result<Table, NoMemory>
    ensures many { IfOk result (λ table. length table.rows.items ≡ length states.now) }
    ensures verdicts { IfOk result (λ table.
        HaveVerdicts (verdict (found_in states.now)
        (next_equation ahead (expr_tree first.now) (expr_tree second.now))) table.rows.items) }
{
    let firsts = outcomes(alloc, first, states)?;
    let seconds = outcomes(alloc, second, states)?;
    let verdicts = equality_verdicts(alloc, firsts.as_slice(), seconds.as_slice(), ahead)?;
    let rule = Rule::AtStart(ahead as usize, verdicts.as_slice());
    ruled_table(alloc, &rule, states.len())
}

/// The length, as an expression in the start.
pub fn len_table(alloc: Global, expr: &Expr, states: &[Store]) -> Result<Table, NoMemory>
    ensures many { IfOk result (λ table. length table.rows.items ≡ length states.now) }
    ensures verdicts { IfOk result (λ table.
        HaveVerdicts (verdict (found_in states.now) (len (expr_tree expr.now)))
        table.rows.items) }
{
    let found = outcomes(alloc, expr, states)?;
    ruled_table(alloc, &Rule::Counted(found.as_slice()), states.len())
}

/// An equation of the end with the start.
pub fn assign_table(
    alloc: Global,
    target: &Expr,
    source: &Expr,
    states: &[Store],
) -> Result<Table, NoMemory>
    ensures many { IfOk result (λ table. length table.rows.items ≡ length states.now) }
    ensures verdicts { IfOk result (λ table.
        HaveVerdicts (verdict (found_in states.now)
        (assign (expr_tree target.now) (expr_tree source.now))) table.rows.items) }
{
    let ends = outcomes(alloc, target, states)?;
    let starts = outcomes(alloc, source, states)?;
    let rule = Rule::Paired(ends.as_slice(), starts.as_slice());
    ruled_table(alloc, &rule, states.len())
}
