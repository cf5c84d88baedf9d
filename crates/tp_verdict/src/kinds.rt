// The verdicts of expressions in the states, and the tables of kinds.
ghost use Rattle.std.specs.Prelude.{◌≡◌, ℕ, IfOk, [], length, map};
ghost use Rattle.tp_value.specs.Tree.{Tree};
ghost use Rattle.tp_value.specs.Read.{tree};
ghost use Rattle.tp_meaning.specs.Syntax.{ExprTree};
ghost use Rattle.tp_kernel.specs.Read.{expr_tree};
ghost use Rattle.tp_eval.specs.Outcome as found;
ghost use Rattle.tp_eval.specs.Answers.{outcome_tree};
ghost use Rattle.tp_verdict.specs.Wide.{WideTree, trivial, empty, more, next, if_more, if_empty, always, disjunction, negation};
ghost use Rattle.tp_verdict.specs.Verdict.{value_verdict, both_of};
ghost use Rattle.tp_verdict.specs.Verdict as told;
ghost use Rattle.tp_verdict.specs.Trace.{verdict};
ghost use Rattle.tp_verdict.specs.Code.{verdict_of};
ghost use Rattle.tp_verdict.specs.Stored.{HaveVerdicts};

use crate::judging::has_value;
use crate::rule::Rule;
use crate::table::Table;
use crate::tables::{ruled_table, suffix_table};
use crate::verdict::Verdict;
use std::alloc::Global;
use tp_eval::{Outcome, eval};
use tp_kernel::{Defs, Env, Expr};
use tp_store::Store;
use tp_value::{NoMemory, Value};

/// The outcome of the expression in each state, with no definitions and no bindings.
pub fn outcomes(alloc: Global, expr: &Expr, states: &[Store]) -> Result<Vec<Outcome>, NoMemory>
    ensures { IfOk result (λ all. map outcome_tree all.items
        ≡ map (λ state. found.outcome state.facts [] (expr_tree expr.now) []) states.now) }
{
    let env = Env {
        items: Vec::new(alloc),
    };
    let defs = Defs {
        items: Vec::new(alloc),
    };
    let mut all = Vec::new(alloc);
    'states: for state in states {
        let outcome = eval(alloc, expr, &env, state, &defs)?;
        all.push(outcome)?;
    }
    Ok(all)
}

/// In each state, whether an expression with these outcomes has the value.
pub fn value_verdicts(
    alloc: Global,
    outcomes: &[Outcome],
    value: &Value,
) -> Result<Vec<Verdict>, NoMemory>
    ensures { IfOk result (λ verdicts. map verdict_of verdicts.items
        ≡ map (λ o. value_verdict (outcome_tree o) (tree value.now)) outcomes.now) }
{
    let mut verdicts = Vec::new(alloc);
    'states: for outcome in outcomes {
        verdicts.push(has_value(outcome, value))?;
    }
    Ok(verdicts)
}

/// `true`.
pub fn true_table(alloc: Global, n: usize) -> Result<Table, NoMemory>
    ensures many { IfOk result (λ table. length table.rows.items ≡ n) }
    ensures verdicts { IfOk result (λ table. (found : ℕ → ExprTree → found.Outcome)
        → HaveVerdicts (verdict found trivial) table.rows.items) }
{
    ruled_table(alloc, &Rule::Fixed(Verdict::Yes), n)
}

/// `empty`.
pub fn empty_table(alloc: Global, n: usize) -> Result<Table, NoMemory>
    ensures many { IfOk result (λ table. length table.rows.items ≡ n) }
    ensures verdicts { IfOk result (λ table. (found : ℕ → ExprTree → found.Outcome)
        → HaveVerdicts (verdict found empty) table.rows.items) }
{
    let rule = Rule::ByLength(Verdict::Yes, Verdict::No);
    ruled_table(alloc, &rule, n)
}

/// `more`.
pub fn more_table(alloc: Global, n: usize) -> Result<Table, NoMemory>
    ensures many { IfOk result (λ table. length table.rows.items ≡ n) }
    ensures verdicts { IfOk result (λ table. (found : ℕ → ExprTree → found.Outcome)
        → HaveVerdicts (verdict found more) table.rows.items) }
{
    let rule = Rule::ByLength(Verdict::No, Verdict::Yes);
    ruled_table(alloc, &rule, n)
}

/// `next w`, by the table of `w`.
pub fn next_table(alloc: Global, body: &Table) -> Result<Table, NoMemory>
    ensures many { IfOk result (λ table. length table.rows.items ≡ length body.now.rows.items) }
    ensures verdicts { IfOk result (λ table. (found : ℕ → ExprTree → found.Outcome) (w : WideTree)
        → HaveVerdicts (verdict found w) body.now.rows.items
        → HaveVerdicts (verdict found (next w)) table.rows.items) }
{
    ruled_table(alloc, &Rule::Next(body), body.rows.len())
}

/// The formula `w`, where the part has more than one state.
pub fn if_more_table(alloc: Global, body: &Table) -> Result<Table, NoMemory>
    ensures many { IfOk result (λ table. length table.rows.items ≡ length body.now.rows.items) }
    ensures verdicts { IfOk result (λ table. (found : ℕ → ExprTree → found.Outcome) (w : WideTree)
        → HaveVerdicts (verdict found w) body.now.rows.items
        → HaveVerdicts (verdict found (if_more w)) table.rows.items) }
{
    ruled_table(alloc, &Rule::IfMore(body), body.rows.len())
}

/// The formula `w`, where the part has one state.
pub fn if_empty_table(alloc: Global, body: &Table) -> Result<Table, NoMemory>
    ensures many { IfOk result (λ table. length table.rows.items ≡ length body.now.rows.items) }
    ensures verdicts { IfOk result (λ table. (found : ℕ → ExprTree → found.Outcome) (w : WideTree)
        → HaveVerdicts (verdict found w) body.now.rows.items
        → HaveVerdicts (verdict found (if_empty w)) table.rows.items) }
{
    ruled_table(alloc, &Rule::IfEmpty(body), body.rows.len())
}

/// `w or v`.
pub fn or_table(alloc: Global, first: &Table, second: &Table) -> Result<Table, NoMemory>
    requires { length second.now.rows.items ≡ length first.now.rows.items }
    ensures many { IfOk result (λ table. length table.rows.items ≡ length first.now.rows.items) }
    ensures verdicts { IfOk result (λ table. (found : ℕ → ExprTree → found.Outcome)
        (w v : WideTree) → HaveVerdicts (verdict found w) first.now.rows.items
        → HaveVerdicts (verdict found v) second.now.rows.items
        → HaveVerdicts (verdict found (disjunction w v)) table.rows.items) }
{
    ruled_table(alloc, &Rule::Either(first, second), first.rows.len())
}

/// Both of two.
pub fn both_table(alloc: Global, first: &Table, second: &Table) -> Result<Table, NoMemory>
    requires { length second.now.rows.items ≡ length first.now.rows.items }
    ensures many { IfOk result (λ table. length table.rows.items ≡ length first.now.rows.items) }
    ensures verdicts { IfOk result (λ table. (f g : ℕ → ℕ → told.Verdict)
        → HaveVerdicts f first.now.rows.items → HaveVerdicts g second.now.rows.items
        → HaveVerdicts (λ i j. both_of (f i j) (g i j)) table.rows.items) }
{
    ruled_table(alloc, &Rule::Both(first, second), first.rows.len())
}

/// `not w`.
pub fn not_table(alloc: Global, body: &Table) -> Result<Table, NoMemory>
    ensures many { IfOk result (λ table. length table.rows.items ≡ length body.now.rows.items) }
    ensures verdicts { IfOk result (λ table. (found : ℕ → ExprTree → found.Outcome) (w : WideTree)
        → HaveVerdicts (verdict found w) body.now.rows.items
        → HaveVerdicts (verdict found (negation w)) table.rows.items) }
{
    ruled_table(alloc, &Rule::Opposite(body), body.rows.len())
}

/// `always(w)`: not on some suffix not `w`.
pub fn always_table(alloc: Global, body: &Table) -> Result<Table, NoMemory>
    ensures many { IfOk result (λ table. length table.rows.items ≡ length body.now.rows.items) }
    ensures verdicts { IfOk result (λ table. (found : ℕ → ExprTree → found.Outcome) (w : WideTree)
        → HaveVerdicts (verdict found w) body.now.rows.items
        → HaveVerdicts (verdict found (always w)) table.rows.items) }
{
    let without = not_table(alloc, body)?;
    let somewhere = suffix_table(alloc, &without)?;
    not_table(alloc, &somewhere)
}
