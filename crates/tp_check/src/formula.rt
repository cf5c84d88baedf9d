// Formulas.
ghost use Rattle.std.specs.Prelude.{◌≡◌, ◌≢◌, IfOk};
ghost use Rattle.tp_tree.specs.Read.{phrase_tree, phrase_trees};
ghost use Rattle.tp_tree.specs.Tree.{form as form_kind, exists as exists_kind, no_phrase, phrase_then};
ghost use Rattle.tp_meaning.specs.Derived.{repeat_of};
ghost use Rattle.tp_kernel.specs.Read.{formula_tree};
ghost use Rattle.tp_scope.specs.Scope.{with_binder, with_binders};
ghost use Rattle.tp_check.specs.Outcome.{both};
ghost use Rattle.tp_check.specs.Answers.{AnswersCheck};
ghost use Rattle.tp_scope.specs.Seen.{names_seen};
ghost use Rattle.tp_check.specs.Building.{formula_seen, formulas_seen, guarded_by, counted_by};
ghost use Rattle.tp_check.specs.Positions.{bare_of, expr_of, formula_of, formula_of_kind, formulas_in};

use crate::calls::call;
use crate::expression::{expressions, place, port, shared_expression};
use crate::hiding::exists_each;
use crate::loops::{Counting, Guard};
use crate::refusal::CheckRefusal;
use crate::state::{binary, negation, state};
use std::alloc::Global;
use std::rc::Rc;
use tp_kernel::{Formula, Formulas, fin, halt, keep, list, repeat, skip, stable};
use tp_scope::{Binders, Scope, Visible};
use tp_tree::{Bare, Form, Op, Phrase, PhraseKind, Phrases};
use tp_value::{NoMemory, Text, Texts};

fn bare(alloc: Global, word: Bare) -> Result<Formula, NoMemory>
    ensures { IfOk result (λ w. formula_tree w ≡ bare_of word) }
{
    match word {
        Bare::Empty => Ok(Formula::Empty),
        Bare::More => Ok(Formula::More),
        Bare::Skip => skip(alloc),
    }
}

/// The formula that a phrase is, where these names can be read.
#[cycle(formula)]
pub fn formula(alloc: Global, phrase: &Phrase, names: &Visible) -> Result<Formula, CheckRefusal>
    ensures { AnswersCheck formula_tree
        (formula_of (names_seen names.now) (phrase_tree phrase.now)) result }
{
    match &phrase.kind {
        PhraseKind::And(operands) => Ok(Formula::And(formulas(alloc, operands, names)?)),
        PhraseKind::Truth(true) => Ok(Formula::True),
        PhraseKind::Not(operand) => negation(alloc, phrase, operand, names),
        PhraseKind::Binary(Op::Chop, left, right) => {
            let left = shared_formula(alloc, left, names)?;
            Ok(Formula::Chop(left, shared_formula(alloc, right, names)?))
        }
        PhraseKind::Binary(Op::Proj, left, right) => {
            let left = shared_formula(alloc, left, names)?;
            Ok(Formula::Proj(left, shared_formula(alloc, right, names)?))
        }
        PhraseKind::Binary(op, left, right) => binary(alloc, phrase, *op, left, right, names),
        PhraseKind::Bare(word) => Ok(bare(alloc, *word)?),
        PhraseKind::Next(later) => Ok(Formula::Next(shared_formula(alloc, later, names)?)),
        PhraseKind::Form(form, operands) => form_formula(alloc, phrase.at, *form, operands, names),
        PhraseKind::If(condition, first, None) => guarded(
            alloc,
            Guard::If,
            first,
            condition,
            names,
        ),
        PhraseKind::If(condition, first, Some(second)) => {
            let condition = shared_expression(alloc, condition, names)?;
            let first = shared_formula(alloc, first, names)?;
            Ok(Formula::If(condition, first, shared_formula(alloc, second, names)?))
        }
        PhraseKind::While(condition, body) => guarded(alloc, Guard::While, body, condition, names),
        PhraseKind::Repeat(body, condition) => repeat_loop(alloc, body, condition, names),
        PhraseKind::For(name, to, body) => over_numbers(
            alloc,
            Counting::For,
            body,
            name,
            to,
            names,
        ),
        PhraseKind::Forall(name, to, body) => over_numbers(
            alloc,
            Counting::Forall,
            body,
            name,
            to,
            names,
        ),
        PhraseKind::Exists(bound, body) => hidden(alloc, phrase.at, body, bound, names),
        PhraseKind::Call(name, operands) => call(alloc, phrase.at, name, operands, names),
        PhraseKind::Truth(false)
        | PhraseKind::Number(_)
        | PhraseKind::Name(_)
        | PhraseKind::List(_)
        | PhraseKind::Size(_)
        | PhraseKind::Index(_, _)
        | PhraseKind::Minus(_) => state(alloc, phrase, names),
    }
}

/// The same formula, to be shared.
#[cycle(formula)]
pub fn shared_formula(
    alloc: Global,
    phrase: &Phrase,
    names: &Visible,
) -> Result<Rc<Formula>, CheckRefusal>
    ensures { AnswersCheck formula_seen
        (formula_of (names_seen names.now) (phrase_tree phrase.now)) result }
{
    let formula = formula(alloc, phrase, names)?;
    Ok(Rc::new(alloc, formula)?)
}

// The formulas that the phrases are.
#[cycle(formula)]
fn formulas(alloc: Global, phrases: &Phrases, names: &Visible) -> Result<Formulas, CheckRefusal>
    ensures { AnswersCheck formulas_seen
        (formulas_in (names_seen names.now) (phrase_trees phrases.now)) result }
{
    let mut items = Vec::new(alloc);
    for phrase in &phrases.items {
        items.push(shared_formula(alloc, phrase, names)?)?;
    }
    Ok(Formulas { items })
}

// The body under this condition.
#[cycle(formula)]
fn guarded(
    alloc: Global,
    guard: Guard,
    body: &Phrase,
    condition: &Phrase,
    names: &Visible,
) -> Result<Formula, CheckRefusal>
    ensures { AnswersCheck formula_tree
        (both (guarded_by guard)
        (expr_of (names_seen names.now) (phrase_tree condition.now))
        (formula_of (names_seen names.now) (phrase_tree body.now)))
        result }
{
    let condition = shared_expression(alloc, condition, names)?;
    let body = shared_formula(alloc, body, names)?;
    Ok(guard.make(alloc, condition, body)?)
}

// `repeat body until condition`
#[cycle(formula)]
fn repeat_loop(
    alloc: Global,
    body: &Phrase,
    condition: &Phrase,
    names: &Visible,
) -> Result<Formula, CheckRefusal>
    ensures { AnswersCheck formula_tree
        (both repeat_of
        (formula_of (names_seen names.now) (phrase_tree body.now))
        (expr_of (names_seen names.now) (phrase_tree condition.now)))
        result }
{
    let body = shared_formula(alloc, body, names)?;
    let condition = shared_expression(alloc, condition, names)?;
    Ok(repeat(alloc, body, condition)?)
}

// The body, in which the name is bound, for each number below the bound.
#[cycle(formula)]
fn over_numbers(
    alloc: Global,
    counting: Counting,
    body: &Phrase,
    name: &Text,
    to: &Phrase,
    names: &Visible,
) -> Result<Formula, CheckRefusal>
    ensures { AnswersCheck formula_tree
        (both (counted_by counting name.now)
        (expr_of (names_seen names.now) (phrase_tree to.now))
        (formula_of (with_binder name.now (names_seen names.now)) (phrase_tree body.now)))
        result }
{
    let to = shared_expression(alloc, to, names)?;
    let binders = Binders::one(alloc, name)?;
    let body = formula_within(alloc, body, &binders, names)?;
    Ok(counting.make(alloc, name, to, body)?)
}

// The formula of a phrase that stands where these names are bound.
#[cycle(formula)]
fn formula_within(
    alloc: Global,
    body: &Phrase,
    binders: &Binders,
    names: &Visible,
) -> Result<Formula, CheckRefusal>
    ensures { AnswersCheck formula_tree
        (formula_of (with_binders binders.now (names_seen names.now)) (phrase_tree body.now))
        result }
{
    let scope = Scope::Inner(binders, names.scope);
    let directory = names.directory;
    let globals = names.globals;
    formula(
        alloc,
        body,
        &Visible {
            directory,
            globals,
            scope: &scope,
        },
    )
}

// `exists bound : body` at this place.
#[cycle(formula)]
fn hidden(
    alloc: Global,
    at: u32,
    body: &Phrase,
    bound: &Texts,
    names: &Visible,
) -> Result<Formula, CheckRefusal>
    ensures { AnswersCheck formula_tree
        (formula_of_kind (names_seen names.now) at (exists_kind bound.now (phrase_tree body.now)))
        result }
{
    let Some(binders) = Binders::of(alloc, bound)? else {
        return Err(CheckRefusal::Twice { at });
    };
    let body = formula_within(alloc, body, &binders, names)?;
    Ok(exists_each(alloc, bound, body)?)
}

// The formula of a form at this place with these operands.
#[cycle(formula)]
fn form_formula(
    alloc: Global,
    at: u32,
    form: Form,
    operands: &Phrases,
    names: &Visible,
) -> Result<Formula, CheckRefusal>
    ensures { AnswersCheck formula_tree
        (formula_of_kind (names_seen names.now) at (form_kind form (phrase_trees operands.now)))
        result }
{
    if let Form::Display = form {
        return display(alloc, at, operands, names);
    }
    match operands.items.as_slice() {
        [operand] => form_of_one(alloc, at, form, operand, names),
        [first, second] => form_of_two(alloc, at, form, first, second, names),
        _ => Err(CheckRefusal::WrongCount { at }),
    }
}

// `display` at this place of these operands, of which it takes any number but none.
fn display(
    alloc: Global,
    at: u32,
    operands: &Phrases,
    names: &Visible,
) -> Result<Formula, CheckRefusal>
    ensures { AnswersCheck formula_tree
        (formula_of_kind (names_seen names.now) at
        (form_kind Form.Display (phrase_trees operands.now)))
        result }
{
    if operands.items.is_empty() {
        return Err(CheckRefusal::WrongCount { at });
    }
    Ok(Formula::Display(expressions(alloc, operands, names)?))
}

// Of one operand. `display` takes any number, so it isn't taken here.
#[cycle(formula)]
fn form_of_one(
    alloc: Global,
    at: u32,
    form: Form,
    operand: &Phrase,
    names: &Visible,
) -> Result<Formula, CheckRefusal>
    requires { form ≢ Form.Display }
    ensures { AnswersCheck formula_tree
        (formula_of_kind (names_seen names.now) at
        (form_kind form (phrase_then (phrase_tree operand.now) no_phrase)))
        result }
{
    match form {
        Form::Always => Ok(Formula::Always(shared_formula(alloc, operand, names)?)),
        Form::Keep => Ok(keep(alloc, shared_formula(alloc, operand, names)?)?),
        Form::Fin => Ok(fin(alloc, shared_formula(alloc, operand, names)?)?),
        Form::Halt => Ok(halt(alloc, shared_expression(alloc, operand, names)?)?),
        Form::Stable => Ok(stable(alloc, place(alloc, operand, names)?)?),
        Form::Len => Ok(Formula::Len(shared_expression(alloc, operand, names)?)),
        Form::Sometimes => Err(CheckRefusal::NotExecutable { at }),
        Form::List | Form::Input | Form::Display => Err(CheckRefusal::WrongCount { at }),
    }
}

// Of two operands, in the same way.
fn form_of_two(
    alloc: Global,
    at: u32,
    form: Form,
    first: &Phrase,
    second: &Phrase,
    names: &Visible,
) -> Result<Formula, CheckRefusal>
    requires { form ≢ Form.Display }
    ensures { AnswersCheck formula_tree
        (formula_of_kind (names_seen names.now) at
        (form_kind form
        (phrase_then (phrase_tree first.now) (phrase_then (phrase_tree second.now) no_phrase))))
        result }
{
    match form {
        Form::List => {
            let whole = place(alloc, first, names)?;
            let count = shared_expression(alloc, second, names)?;
            Ok(list(alloc, whole, count)?)
        }
        Form::Input => {
            let place = place(alloc, first, names)?;
            let port = port(alloc, second, names)?;
            Ok(Formula::Input(place, port))
        }
        Form::Always
        | Form::Keep
        | Form::Fin
        | Form::Halt
        | Form::Stable
        | Form::Sometimes
        | Form::Len
        | Form::Display => Err(CheckRefusal::WrongCount { at }),
    }
}
