// The tables of the kinds with a condition in the states.
ghost use Rattle.std.specs.Prelude.{◌≡◌, IfOk, length};
ghost use Rattle.tp_kernel.specs.Read.{expr_tree};
ghost use Rattle.tp_verdict.specs.Wide.{WideTree, branch, while};
ghost use Rattle.tp_verdict.specs.Trace.{verdict};
ghost use Rattle.tp_verdict.specs.Stored.{HaveVerdicts};
ghost use Rattle.tp_verdict.specs.Found.{found_in};

use crate::kinds::outcomes;
use crate::leaves::truth_verdicts;
use crate::rule::Rule;
use crate::table::Table;
use crate::tables::{looped_table, ruled_table};
use std::alloc::Global;
use tp_kernel::Expr;
use tp_store::Store;
use tp_value::NoMemory;

/// A choice by a condition in the start.
pub fn branch_table(
    alloc: Global,
    condition: &Expr,
    states: &[Store],
    first: &Table,
    second: &Table,
) -> Result<Table, NoMemory>
    requires first { length first.now.rows.items ≡ length states.now }
    requires second { length second.now.rows.items ≡ length states.now }
    ensures many { IfOk result (λ table. length table.rows.items ≡ length states.now) }
    ensures verdicts { IfOk result (λ table. (w v : WideTree)
        → HaveVerdicts (verdict (found_in states.now) w) first.now.rows.items
        → HaveVerdicts (verdict (found_in states.now) v) second.now.rows.items
        → HaveVerdicts (verdict (found_in states.now) (branch (expr_tree condition.now) w v))
        table.rows.items) }
{
    let found = outcomes(alloc, condition, states)?;
    let when = truth_verdicts(alloc, found.as_slice(), true)?;
    let unless = truth_verdicts(alloc, found.as_slice(), false)?;
    let rule = Rule::Branch(when.as_slice(), unless.as_slice(), first, second);
    ruled_table(alloc, &rule, states.len())
}

/// A loop.
pub fn while_table(
    alloc: Global,
    condition: &Expr,
    states: &[Store],
    body: &Table,
) -> Result<Table, NoMemory>
    requires { length body.now.rows.items ≡ length states.now }
    ensures many { IfOk result (λ table. length table.rows.items ≡ length states.now) }
    ensures verdicts { IfOk result (λ table. (w : WideTree)
        → HaveVerdicts (verdict (found_in states.now) w) body.now.rows.items
        → HaveVerdicts (verdict (found_in states.now) (while (expr_tree condition.now) w))
        table.rows.items) }
{
    let found = outcomes(alloc, condition, states)?;
    let is_true = truth_verdicts(alloc, found.as_slice(), true)?;
    let is_false = truth_verdicts(alloc, found.as_slice(), false)?;
    looped_table(alloc, is_true.as_slice(), is_false.as_slice(), body)
}
