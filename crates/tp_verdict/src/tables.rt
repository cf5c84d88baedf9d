// How tables are made.
ghost use Rattle.std.specs.Prelude.{◌≡◌, ◌≤◌, ◌<◌, ◌-◌, ℕ, suc, IfOk, length};
ghost use Rattle.tp_verdict.specs.Verdict as told;
ghost use Rattle.tp_verdict.specs.Verdict.{no, both_of, one_of, some_from};
ghost use Rattle.tp_verdict.specs.Trace.{looped};
ghost use Rattle.tp_verdict.specs.Code.{verdict_of};
ghost use Rattle.tp_verdict.specs.Stored.{verdict_at, width_of, words_for, stored, verdict_listed, HaveWidth, HaveVerdicts, joined_from};
ghost use Rattle.tp_verdict.specs.Ruled.{ruled, RuleFits};

use crate::judging::{judge, listed};
use crate::rule::Rule;
use crate::table::Table;
use crate::verdict::Verdict;
use crate::verdict_row::VerdictRow;
use std::alloc::Global;
use tp_value::NoMemory;

// A row of no, for n states.
fn empty_row(alloc: Global, n: usize) -> Result<VerdictRow, NoMemory>
    ensures width { IfOk result (λ row. width_of row ≡ words_for n) }
    ensures verdicts { IfOk result (λ row. (j : ℕ) → verdict_at row j ≡ no) }
{
    VerdictRow::new(alloc, n / 64 + 1)
}

// The verdicts on the parts from one state on.
fn ruled_row(alloc: Global, rule: &Rule, n: usize, i: usize) -> Result<VerdictRow, NoMemory>
    requires { RuleFits n rule.now }
    ensures width { IfOk result (λ row. width_of row ≡ words_for n) }
    ensures before { IfOk result (λ row. (j : ℕ) → j < i → verdict_at row j ≡ no) }
    ensures parts { IfOk result (λ row. (j : ℕ) → i ≤ j → j < n
        → verdict_at row j ≡ ruled rule.now i j) }
{
    let mut row = empty_row(alloc, n)?;
    'ends: for j in i..n {
        let verdict = judge(rule, n, i, j);
        row.add(j, verdict);
    }
    Ok(row)
}

/// The verdicts that the rule gives on the parts of n states.
pub fn ruled_table(alloc: Global, rule: &Rule, n: usize) -> Result<Table, NoMemory>
    requires { RuleFits n rule.now }
    ensures many { IfOk result (λ table. length table.rows.items ≡ n) }
    ensures verdicts { IfOk result (λ table. HaveVerdicts (ruled rule.now) table.rows.items) }
{
    let mut rows = Vec::new(alloc);
    'starts: for i in 0..n {
        let row = ruled_row(alloc, rule, n, i)?;
        rows.push(row)?;
    }
    Ok(Table { rows })
}

// Joins the row of a state, where there is one, under this verdict.
fn join_stored(row: &mut VerdictRow, verdict: Verdict, rows: &[VerdictRow], k: usize)
    requires wide { HaveWidth (length rows.now) rows.now }
    requires width { width_of row.old ≡ words_for (length rows.now) }
    ensures width { width_of row.new ≡ words_for (length rows.now) }
    ensures verdicts { (j : ℕ) → verdict_at row.new j
        ≡ one_of (both_of (verdict_of verdict) (stored rows.now k j)) (verdict_at row.old j) }
{
    if k < rows.len() {
        row.join(verdict, &rows[k]);
    }
}

// From the last cut down to the first, the row of the cut is joined under the verdict up to it.
fn joined_row(
    alloc: Global,
    first: &Table,
    i: usize,
    rows: &[VerdictRow],
    from: usize,
) -> Result<VerdictRow, NoMemory>
    requires many { length first.now.rows.items ≡ length rows.now }
    requires wide { HaveWidth (length rows.now) rows.now }
    requires from { from ≤ length rows.now }
    ensures width { IfOk result (λ row. width_of row ≡ words_for (length rows.now)) }
    ensures verdicts { IfOk result (λ row. (j : ℕ) → verdict_at row j
        ≡ joined_from (length rows.now - from) from (stored first.now.rows.items i) rows.now j) }
{
    let mut row = empty_row(alloc, rows.len())?;
    let mut k = rows.len();
    'cuts: while from < k {
        k -= 1;
        let verdict = first.at(i, k);
        join_stored(&mut row, verdict, rows, k);
    }
    Ok(row)
}

/// The verdicts on chops: some cut is the end of a part of the first, and the start of one of the second.
pub fn chopped_table(alloc: Global, first: &Table, second: &Table) -> Result<Table, NoMemory>
    requires { length first.now.rows.items ≡ length second.now.rows.items }
    ensures many { IfOk result (λ table.
        length table.rows.items ≡ length second.now.rows.items) }
    ensures verdicts { IfOk result (λ table. (f g : ℕ → ℕ → told.Verdict)
        → HaveVerdicts f first.now.rows.items → HaveVerdicts g second.now.rows.items
        → HaveVerdicts (λ i j. some_from (suc j - i) i (λ k. both_of (f i k) (g k j)))
        table.rows.items) }
{
    let mut rows = Vec::new(alloc);
    'starts: for i in 0..second.rows.len() {
        let row = joined_row(alloc, first, i, second.rows.as_slice(), i)?;
        rows.push(row)?;
    }
    Ok(Table { rows })
}

// Rows of no, for n states.
fn empty_rows(alloc: Global, n: usize) -> Result<Vec<VerdictRow>, NoMemory>
    ensures many { IfOk result (λ rows. length rows.items ≡ n) }
    ensures width { IfOk result (λ rows. HaveWidth n rows.items) }
{
    let mut rows = Vec::new(alloc);
    'starts: while rows.len() < n {
        let row = empty_row(alloc, n)?;
        rows.push(row)?;
    }
    Ok(rows)
}

/// The verdicts on some suffix.
pub fn suffix_table(alloc: Global, body: &Table) -> Result<Table, NoMemory>
    ensures many { IfOk result (λ table. length table.rows.items ≡ length body.now.rows.items) }
    ensures verdicts { IfOk result (λ table. (f : ℕ → ℕ → told.Verdict)
        → HaveVerdicts f body.now.rows.items
        → HaveVerdicts (λ i j. some_from (suc j - i) i (λ k. f k j)) table.rows.items) }
{
    let n = body.rows.len();
    let mut rows = empty_rows(alloc, n)?;
    let mut i = n;
    'starts: while 0 < i {
        i -= 1;
        // Its own verdicts, and those of the row behind it.
        let mut row = empty_row(alloc, rows.len())?;
        join_stored(&mut row, Verdict::Yes, rows.as_slice(), i + 1);
        join_stored(&mut row, Verdict::Yes, body.rows.as_slice(), i);
        rows[i] = row;
    }
    Ok(Table { rows })
}

// The row of a state in a loop, by the rows behind it: where the condition is true, some turn leads to a later state.
fn looped_row(
    alloc: Global,
    conditions: (Verdict, Verdict),
    body: &Table,
    rows: &[VerdictRow],
    i: usize,
) -> Result<VerdictRow, NoMemory>
    requires many { length body.now.rows.items ≡ length rows.now }
    requires wide { HaveWidth (length rows.now) rows.now }
    requires start { i < length rows.now }
    ensures width { IfOk result (λ row. width_of row ≡ words_for (length rows.now)) }
    ensures here { IfOk result (λ row. verdict_at row i
        ≡ one_of (verdict_of conditions.1) (both_of (verdict_of conditions.0)
        (joined_from (length rows.now - suc i) (suc i) (stored body.now.rows.items i)
        rows.now i))) }
    ensures others { IfOk result (λ row. (j : ℕ) → (j ≡ i → ⊥) → verdict_at row j
        ≡ both_of (verdict_of conditions.0)
        (joined_from (length rows.now - suc i) (suc i) (stored body.now.rows.items i) rows.now j)) }
{
    let turns = joined_row(alloc, body, i, rows, i + 1)?;
    let mut row = empty_row(alloc, rows.len())?;
    row.join(conditions.0, &turns);
    row.add(i, conditions.1);
    Ok(row)
}

/// The verdicts on loops, where it is told in which states the condition is true and in which it is false.
pub fn looped_table(
    alloc: Global,
    is_true: &[Verdict],
    is_false: &[Verdict],
    body: &Table,
) -> Result<Table, NoMemory>
    ensures many { IfOk result (λ table. length table.rows.items ≡ length body.now.rows.items) }
    ensures verdicts { IfOk result (λ table. (f : ℕ → ℕ → told.Verdict)
        → HaveVerdicts f body.now.rows.items
        → HaveVerdicts (λ i j.
        looped (verdict_listed is_true.now) (verdict_listed is_false.now) f (j - i) i j)
        table.rows.items) }
{
    let n = body.rows.len();
    let mut rows = empty_rows(alloc, n)?;
    let mut i = n;
    'starts: while 0 < i {
        i -= 1;
        let conditions = (listed(is_true, i), listed(is_false, i));
        let row = looped_row(alloc, conditions, body, rows.as_slice(), i)?;
        rows[i] = row;
    }
    Ok(Table { rows })
}
