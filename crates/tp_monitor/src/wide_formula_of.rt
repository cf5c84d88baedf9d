// Phrases as wider formulas.
ghost use Rattle.std.specs.Prelude.{◌≡◌, ◌≢◌};
ghost use Rattle.tp_tree.specs.Read.{phrase_tree, phrase_trees, kind_tree};
ghost use Rattle.tp_tree.specs.Tree.{negation as negation_kind, binary as binary_kind, form as form_kind, phrase_then, no_phrase};
ghost use Rattle.tp_scope.specs.Phrases.{phrase_count};
ghost use Rattle.tp_scope.specs.Seen.{names_seen};
ghost use Rattle.tp_check.specs.Outcome.{both};
ghost use Rattle.tp_check.specs.Answers.{AnswersCheck};
ghost use Rattle.tp_check.specs.Positions.{expr_of};
ghost use Rattle.tp_verdict.specs.Read.{wide_tree};
ghost use Rattle.tp_monitor.specs.WideOf.{run_widely, repeated_until, wide_of, wide_of_kind, wide_in};
ghost use Rattle.tp_monitor.specs.Seen.{box_seen, wides_seen, widely_guarded};

use crate::widening::widen;
use std::alloc::Global;
use std::rc::Rc;
use tp_check::{CheckRefusal, is_state_here, miscounted_or, shared_expression, shared_formula};
use tp_kernel::Expr;
use tp_scope::{Visible, is_place};
use tp_tree::{Form, Op, Phrase, PhraseKind, Phrases};
use tp_verdict::{WideFormula, WideFormulas};

// What stands under a condition is done once, or as long as the condition holds.
#[derive(Clone, Copy)]
enum WideGuard {
    If,
    While,
}

// The formula that a phrase is where it is run, as a wider one.
fn run_as_wide(alloc: Global, phrase: &Phrase, names: &Visible) -> Result<WideFormula, CheckRefusal>
    ensures { AnswersCheck wide_tree
        (run_widely (names_seen names.now) phrase.now.at (kind_tree phrase.now.kind)) result }
{
    let formula = shared_formula(alloc, phrase, names)?;
    match widen(alloc, &formula)? {
        Some(wide) => Ok(wide),
        None => Err(CheckRefusal::NotExecutable { at: phrase.at }),
    }
}

// Two phrases with an operator between them that composes no wider formulas, of which the phrase is the whole.
fn binary_as_run(
    alloc: Global,
    phrase: &Phrase,
    op: Op,
    left: &Phrase,
    right: &Phrase,
    names: &Visible,
) -> Result<WideFormula, CheckRefusal>
    requires whole { kind_tree phrase.now.kind
        ≡ binary_kind op (phrase_tree left.now) (phrase_tree right.now) }
    requires chop { op ≢ Op.Chop }
    requires or { op ≢ Op.Or }
    ensures { AnswersCheck wide_tree
        (wide_of_kind (names_seen names.now) phrase.now.at
        (binary_kind op (phrase_tree left.now) (phrase_tree right.now)))
        result }
{
    if let Op::Proj = op {
        return Err(CheckRefusal::NotExecutable { at: phrase.at });
    }
    run_as_wide(alloc, phrase, names)
}

// A form with another number of operands than one, of which the phrase is the whole.
fn form_of_other_count(
    alloc: Global,
    phrase: &Phrase,
    form: Form,
    operands: &Phrases,
    names: &Visible,
) -> Result<WideFormula, CheckRefusal>
    requires whole { kind_tree phrase.now.kind ≡ form_kind form (phrase_trees operands.now) }
    requires others { phrase_count (phrase_trees operands.now) ≢ 1 }
    ensures { AnswersCheck wide_tree
        (wide_of_kind (names_seen names.now) phrase.now.at
        (form_kind form (phrase_trees operands.now)))
        result }
{
    if let Form::Input | Form::Display = form {
        let other = CheckRefusal::NotExecutable { at: phrase.at };
        return Err(miscounted_or(phrase.at, form, operands, other));
    }
    run_as_wide(alloc, phrase, names)
}

/// The wider formula that a phrase is, where these names can be read.
#[cycle(wide_formula_of)]
pub fn wide_formula_of(
    alloc: Global,
    phrase: &Phrase,
    names: &Visible,
) -> Result<WideFormula, CheckRefusal>
    ensures { AnswersCheck wide_tree
        (wide_of (names_seen names.now) (phrase_tree phrase.now)) result }
{
    match &phrase.kind {
        PhraseKind::And(operands) => Ok(WideFormula::And(wides(alloc, operands, names)?)),
        PhraseKind::Not(operand) => wide_not(alloc, operand, phrase, names),
        PhraseKind::Binary(Op::Chop, left, right) => {
            let left = wide_box(alloc, left, names)?;
            Ok(WideFormula::Chop(left, wide_box(alloc, right, names)?))
        }
        PhraseKind::Binary(Op::Or, left, right) => {
            if is_state_here(left, names)? && is_state_here(right, names)? {
                return run_as_wide(alloc, phrase, names);
            }
            let left = wide_box(alloc, left, names)?;
            Ok(WideFormula::Or(left, wide_box(alloc, right, names)?))
        }
        PhraseKind::Binary(op, left, right) => {
            binary_as_run(alloc, phrase, *op, left, right, names)
        }
        PhraseKind::Next(later) => Ok(WideFormula::Next(wide_box(alloc, later, names)?)),
        PhraseKind::Form(form, operands) => wide_form(alloc, operands, phrase, *form, names),
        PhraseKind::If(condition, body, None) => guarded(
            alloc,
            WideGuard::If,
            body,
            condition,
            names,
        ),
        PhraseKind::If(condition, first, Some(second)) => {
            let condition = shared_expression(alloc, condition, names)?;
            let first = wide_box(alloc, first, names)?;
            Ok(WideFormula::If(condition, first, wide_box(alloc, second, names)?))
        }
        PhraseKind::While(condition, body) => guarded(
            alloc,
            WideGuard::While,
            body,
            condition,
            names,
        ),
        PhraseKind::Repeat(body, condition) => wide_repeat(alloc, body, condition, names),
        PhraseKind::For(_, _, _) | PhraseKind::Forall(_, _, _) | PhraseKind::Exists(_, _) => {
            Err(CheckRefusal::NotExecutable { at: phrase.at })
        }
        PhraseKind::Number(_) | PhraseKind::Truth(_) | PhraseKind::Name(_) | PhraseKind::List(_) =>
            { run_as_wide(alloc, phrase, names) }
        PhraseKind::Size(_) | PhraseKind::Index(_, _) | PhraseKind::Minus(_) => {
            run_as_wide(alloc, phrase, names)
        }
        PhraseKind::Bare(_) | PhraseKind::Call(_, _) => run_as_wide(alloc, phrase, names),
    }
}

// To stand in another one.
#[cycle(wide_formula_of)]
fn wide_box(
    alloc: Global,
    phrase: &Phrase,
    names: &Visible,
) -> Result<Box<WideFormula>, CheckRefusal>
    ensures { AnswersCheck box_seen
        (wide_of (names_seen names.now) (phrase_tree phrase.now)) result }
{
    let formula = wide_formula_of(alloc, phrase, names)?;
    Ok(Box::new(alloc, formula)?)
}

// The wider formulas that the phrases are.
#[cycle(wide_formula_of)]
fn wides(alloc: Global, phrases: &Phrases, names: &Visible) -> Result<WideFormulas, CheckRefusal>
    ensures { AnswersCheck wides_seen
        (wide_in (names_seen names.now) (phrase_trees phrases.now)) result }
{
    let mut items = Vec::new(alloc);
    for phrase in &phrases.items {
        items.push(wide_formula_of(alloc, phrase, names)?)?;
    }
    Ok(WideFormulas { items })
}

// The body under this condition.
#[cycle(wide_formula_of)]
fn guarded(
    alloc: Global,
    guard: WideGuard,
    body: &Phrase,
    condition: &Phrase,
    names: &Visible,
) -> Result<WideFormula, CheckRefusal>
    ensures { AnswersCheck wide_tree
        (both (widely_guarded guard)
        (expr_of (names_seen names.now) (phrase_tree condition.now))
        (wide_of (names_seen names.now) (phrase_tree body.now)))
        result }
{
    let condition = shared_expression(alloc, condition, names)?;
    let body = wide_box(alloc, body, names)?;
    match guard {
        WideGuard::If => Ok(WideFormula::If(condition, body, Box::new(alloc, WideFormula::True)?)),
        WideGuard::While => Ok(WideFormula::While(condition, body)),
    }
}

// `repeat body until condition`
#[cycle(wide_formula_of)]
fn wide_repeat(
    alloc: Global,
    body: &Phrase,
    condition: &Phrase,
    names: &Visible,
) -> Result<WideFormula, CheckRefusal>
    ensures { AnswersCheck wide_tree
        (both repeated_until
        (wide_of (names_seen names.now) (phrase_tree body.now))
        (expr_of (names_seen names.now) (phrase_tree condition.now)))
        result }
{
    let body = wide_box(alloc, body, names)?;
    let condition = shared_expression(alloc, condition, names)?;
    Ok(WideFormula::Repeat(body, Rc::new(alloc, Expr::Not(condition))?))
}

// The negation of an operand, of which the phrase is the whole.
#[cycle(wide_formula_of)]
fn wide_not(
    alloc: Global,
    operand: &Phrase,
    phrase: &Phrase,
    names: &Visible,
) -> Result<WideFormula, CheckRefusal>
    requires { kind_tree phrase.now.kind ≡ negation_kind (phrase_tree operand.now) }
    ensures { AnswersCheck wide_tree
        (wide_of_kind (names_seen names.now) phrase.now.at
        (negation_kind (phrase_tree operand.now)))
        result }
{
    if is_place(operand) || is_state_here(operand, names)? {
        run_as_wide(alloc, phrase, names)
    } else {
        Ok(WideFormula::Not(wide_box(alloc, operand, names)?))
    }
}

// A form with this operand, of which the phrase is the whole.
#[cycle(wide_formula_of)]
fn wide_form_of_one(
    alloc: Global,
    operand: &Phrase,
    phrase: &Phrase,
    form: Form,
    names: &Visible,
) -> Result<WideFormula, CheckRefusal>
    requires { kind_tree phrase.now.kind
        ≡ form_kind form (phrase_then (phrase_tree operand.now) no_phrase) }
    ensures { AnswersCheck wide_tree
        (wide_of_kind (names_seen names.now) phrase.now.at
        (form_kind form (phrase_then (phrase_tree operand.now) no_phrase)))
        result }
{
    match form {
        Form::Always => Ok(WideFormula::Always(wide_box(alloc, operand, names)?)),
        Form::Sometimes => Ok(WideFormula::Sometimes(wide_box(alloc, operand, names)?)),
        Form::Keep => {
            let body = wide_box(alloc, operand, names)?;
            Ok(WideFormula::Always(Box::new(alloc, WideFormula::IfMore(body))?))
        }
        Form::Fin => {
            let body = wide_box(alloc, operand, names)?;
            Ok(WideFormula::Always(Box::new(alloc, WideFormula::IfEmpty(body))?))
        }
        Form::Halt | Form::Stable | Form::Len | Form::List => run_as_wide(alloc, phrase, names),
        Form::Input => Err(CheckRefusal::WrongCount { at: phrase.at }),
        Form::Display => Err(CheckRefusal::NotExecutable { at: phrase.at }),
    }
}

// A form with these operands, of which the phrase is the whole.
#[cycle(wide_formula_of)]
fn wide_form(
    alloc: Global,
    operands: &Phrases,
    phrase: &Phrase,
    form: Form,
    names: &Visible,
) -> Result<WideFormula, CheckRefusal>
    requires { kind_tree phrase.now.kind ≡ form_kind form (phrase_trees operands.now) }
    ensures { AnswersCheck wide_tree
        (wide_of_kind (names_seen names.now) phrase.now.at
        (form_kind form (phrase_trees operands.now)))
        result }
{
    match operands.items.as_slice() {
        [operand] => wide_form_of_one(alloc, operand, phrase, form, names),
        _ => form_of_other_count(alloc, phrase, form, operands, names),
    }
}
