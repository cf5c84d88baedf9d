// Verdicts of expressions, and by rules.
ghost use Rattle.std.specs.Prelude.{◌≡◌, ◌≤◌, ◌<◌, ◌+◌, ◌-◌, ℕ, pos, length};
ghost use Rattle.tp_value.specs.Read.{tree};
ghost use Rattle.tp_value.specs.Tree.{num};
ghost use Rattle.tp_eval.specs.Answers.{outcome_tree};
ghost use Rattle.tp_verdict.specs.Verdict.{of_truth, value_verdict, no_with_fault, equality_verdict};
ghost use Rattle.tp_verdict.specs.Code.{verdict_of};
ghost use Rattle.tp_verdict.specs.Stored.{verdict_listed};
ghost use Rattle.tp_verdict.specs.Ruled.{length_verdict, paired, ruled, RuleFits};

use crate::rule::Rule;
use crate::verdict::{Verdict, both, either, opposite};
use tp_eval::Outcome;
use tp_value::{Value, same};

fn truth(holds: bool) -> Verdict
    ensures { verdict_of result ≡ of_truth holds }
{
    if holds { Verdict::Yes } else { Verdict::No }
}

/// Whether an expression with this outcome has this value.
pub fn has_value(outcome: &Outcome, value: &Value) -> Verdict
    ensures { verdict_of result ≡ value_verdict (outcome_tree outcome.now) (tree value.now) }
{
    match outcome {
        Outcome::Value(found) => truth(same(found, value)),
        Outcome::Wait(_) | Outcome::Over(_) => Verdict::Open,
        Outcome::Fault(_) => Verdict::No,
    }
}

fn unless_fault(outcome: &Outcome) -> Verdict
    ensures { verdict_of result ≡ no_with_fault (outcome_tree outcome.now) }
{
    match outcome {
        Outcome::Value(_) | Outcome::Wait(_) | Outcome::Over(_) => Verdict::Open,
        Outcome::Fault(_) => Verdict::No,
    }
}

/// Whether expressions with these outcomes have one value.
pub fn are_equal(first: &Outcome, second: &Outcome) -> Verdict
    ensures { verdict_of result
        ≡ equality_verdict (outcome_tree first.now) (outcome_tree second.now) }
{
    match first {
        Outcome::Value(value) => has_value(second, value),
        Outcome::Wait(_) | Outcome::Over(_) => unless_fault(second),
        Outcome::Fault(_) => Verdict::No,
    }
}

/// The verdict with this number, no where there is none.
pub fn listed(verdicts: &[Verdict], i: usize) -> Verdict
    ensures { verdict_of result ≡ verdict_listed verdicts.now i }
{
    match verdicts.get(i) {
        Some(verdict) => *verdict,
        None => Verdict::No,
    }
}

// Whether an expression with this outcome is the number.
#[tactic(auto, using(tp_value::specs::Equations::tree_num))]
fn is_length(outcome: &Outcome, n: usize) -> Verdict
    ensures { verdict_of result ≡ value_verdict (outcome_tree outcome.now) (num (pos n)) }
{
    has_value(outcome, &Value::Num(n as i128))
}

// Whether the outcome with this number is the length.
fn counted(outcomes: &[Outcome], i: usize, n: usize) -> Verdict
    ensures { verdict_of result ≡ length_verdict outcomes.now i n }
{
    match outcomes.get(i) {
        Some(outcome) => is_length(outcome, n),
        None => Verdict::No,
    }
}

/// Whether the outcome with the number j of the first is equal to that with the number i of the second.
pub fn paired(ends: &[Outcome], starts: &[Outcome], i: usize, j: usize) -> Verdict
    ensures { verdict_of result ≡ paired ends.now starts.now i j }
{
    match ends.get(j) {
        Some(end) => match starts.get(i) {
            Some(start) => are_equal(end, start),
            None => Verdict::No,
        },
        None => Verdict::No,
    }
}

/// The verdict that the rule gives on a part of n states.
pub fn judge(rule: &Rule, n: usize, i: usize, j: usize) -> Verdict
    requires fits { RuleFits n rule.now }
    requires part { i ≤ j }
    requires end { j < n }
    ensures { verdict_of result ≡ ruled rule.now i j }
{
    match rule {
        Rule::Fixed(verdict) => *verdict,
        Rule::ByLength(none, some) => { if i == j { *none } else { *some } }
        Rule::AtStart(ahead, verdicts) => {
            if *ahead <= j - i {
                listed(verdicts, i)
            } else {
                Verdict::No
            }
        }
        Rule::Counted(outcomes) => counted(outcomes, i, j - i),
        Rule::Paired(ends, starts) => paired(ends, starts, i, j),
        Rule::Next(table) => {
            if i < j {
                table.at(i + 1, j)
            } else {
                Verdict::No
            }
        }
        Rule::IfMore(table) => { if i < j { table.at(i, j) } else { Verdict::Yes } }
        Rule::IfEmpty(table) => { if i < j { Verdict::Yes } else { table.at(i, j) } }
        Rule::Both(first, second) => both(first.at(i, j), second.at(i, j)),
        Rule::Either(first, second) => either(first.at(i, j), second.at(i, j)),
        Rule::Opposite(table) => opposite(table.at(i, j)),
        Rule::Branch(when, unless, first, second) => {
            let chosen = both(listed(when, i), first.at(i, j));
            let other = both(listed(unless, i), second.at(i, j));
            either(chosen, other)
        }
    }
}
