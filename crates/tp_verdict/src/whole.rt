// The table of a wider formula over states.
ghost use Rattle.std.specs.Prelude.{◌≡◌, ◌<◌, ◌-◌, IfOk, length};
ghost use Rattle.tp_verdict.specs.Trace.{verdict, all_verdicts};
ghost use Rattle.tp_verdict.specs.Code.{verdict_of};
ghost use Rattle.tp_verdict.specs.Stored.{HaveVerdicts};
ghost use Rattle.tp_verdict.specs.Found.{found_in};
ghost use Rattle.tp_verdict.specs.Read.{wide_tree, wide_trees};

use crate::conditions::{branch_table, while_table};
use crate::kinds::{
    always_table, both_table, empty_table, if_empty_table, if_more_table, more_table, next_table,
    not_table, or_table, true_table,
};
use crate::leaves::{assign_table, equation_table, len_table, next_equation_table, test_table};
use crate::table::Table;
use crate::tables::{chopped_table, suffix_table};
use crate::verdict::Verdict;
use crate::wide_formula::{WideFormula, WideFormulas};
use std::alloc::Global;
use tp_store::Store;
use tp_value::NoMemory;

// The table of the conjunction of formulas.
#[cycle(table_of)]
fn table_of_all(alloc: Global, formulas: &WideFormulas, states: &[Store]) -> Result<Table, NoMemory>
    ensures many { IfOk result (λ table. length table.rows.items ≡ length states.now) }
    ensures verdicts { IfOk result (λ table.
        HaveVerdicts (all_verdicts (found_in states.now) (wide_trees formulas.now))
        table.rows.items) }
{
    let mut all = true_table(alloc, states.len())?;
    for formula in &formulas.items {
        let one = table_of(alloc, formula, states)?;
        let more = both_table(alloc, &all, &one)?;
        all = more;
    }
    Ok(all)
}

/// The verdicts of the formula on the parts of the states.
#[cycle(table_of)]
pub fn table_of(alloc: Global, formula: &WideFormula, states: &[Store]) -> Result<Table, NoMemory>
    ensures many { IfOk result (λ table. length table.rows.items ≡ length states.now) }
    ensures verdicts { IfOk result (λ table.
        HaveVerdicts (verdict (found_in states.now) (wide_tree formula.now)) table.rows.items) }
{
    match formula {
        WideFormula::True => true_table(alloc, states.len()),
        WideFormula::Test(e) => test_table(alloc, e, states),
        WideFormula::Eq(a, b) => equation_table(alloc, a, b, states),
        WideFormula::NextEq(k, a, b) => next_equation_table(alloc, *k, a, b, states),
        WideFormula::Empty => empty_table(alloc, states.len()),
        WideFormula::More => more_table(alloc, states.len()),
        WideFormula::Next(w) => next_table(alloc, &table_of(alloc, w, states)?),
        WideFormula::IfMore(w) => if_more_table(alloc, &table_of(alloc, w, states)?),
        WideFormula::IfEmpty(w) => if_empty_table(alloc, &table_of(alloc, w, states)?),
        WideFormula::Always(w) => always_table(alloc, &table_of(alloc, w, states)?),
        WideFormula::And(ws) => table_of_all(alloc, ws, states),
        WideFormula::If(b, w, v) => {
            let first = table_of(alloc, w, states)?;
            branch_table(alloc, b, states, &first, &table_of(alloc, v, states)?)
        }
        WideFormula::Len(e) => len_table(alloc, e, states),
        WideFormula::Assign(t, e) => assign_table(alloc, t, e, states),
        WideFormula::Chop(w, v) => {
            let first = table_of(alloc, w, states)?;
            chopped_table(alloc, &first, &table_of(alloc, v, states)?)
        }
        WideFormula::While(b, w) => while_table(alloc, b, states, &table_of(alloc, w, states)?),
        WideFormula::Or(w, v) => {
            let first = table_of(alloc, w, states)?;
            or_table(alloc, &first, &table_of(alloc, v, states)?)
        }
        WideFormula::Not(w) => not_table(alloc, &table_of(alloc, w, states)?),
        WideFormula::Sometimes(w) => suffix_table(alloc, &table_of(alloc, w, states)?),
        // One table of the formula serves it and the loop of it.
        WideFormula::Repeat(w, b) => {
            let body = table_of(alloc, w, states)?;
            let again = while_table(alloc, b, states, &body)?;
            chopped_table(alloc, &body, &again)
        }
    }
}

/// Whether the formula holds from the first of the states to the last, by what the states know.
pub fn verdict_on(
    alloc: Global,
    formula: &WideFormula,
    states: &[Store],
) -> Result<Verdict, NoMemory>
    requires { 0 < length states.now }
    ensures { IfOk result (λ answer. verdict_of answer
        ≡ verdict (found_in states.now) (wide_tree formula.now) 0 (length states.now - 1)) }
{
    let table = table_of(alloc, formula, states)?;
    Ok(table.at(0, states.len() - 1))
}
