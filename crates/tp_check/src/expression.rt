// Expressions.
ghost use Rattle.std.specs.Prelude.{◌≡◌, length};
ghost use Rattle.tp_tree.specs.Read.{phrase_tree, phrase_trees};
ghost use Rattle.tp_kernel.specs.Read.{expr_tree};
ghost use Rattle.tp_tree.specs.Tree.{name as name_kind, call as call_kind};
ghost use Rattle.tp_meaning.specs.Value.{is_upper};
ghost use Rattle.tp_scope.specs.Phrases.{phrase_count};
ghost use Rattle.tp_scope.specs.Seen.{names_seen};
ghost use Rattle.tp_check.specs.Building.{expr_seen, exprs_seen};
ghost use Rattle.tp_check.specs.Answers.{AnswersCheck};
ghost use Rattle.tp_check.specs.Positions.{expr_of, expr_of_kind, exprs_in, place_phrase, port_phrase, argument_in, arguments_in};

use crate::operation::operation_for;
use crate::refusal::CheckRefusal;
use crate::refusals::refusal;
use std::alloc::Global;
use std::rc::Rc;
use tp_kernel::{Expr, Exprs, is_lower, is_upper};
use tp_scope::{Visible, find_binder, is_place};
use tp_tree::{Phrase, PhraseKind, Phrases};
use tp_value::{Text, Texts};

// What the name, which stands at this place, stands for.
fn named(at: u32, name: &Text, names: &Visible) -> Result<Expr, CheckRefusal>
    ensures { AnswersCheck expr_tree
        (expr_of_kind (names_seen names.now) at (name_kind name.now)) result }
{
    if let Some(number) = find_binder(names.scope, name)? {
        return Ok(Expr::Bound(number));
    }
    match names.globals.find(name) {
        Some(variable) => Ok(Expr::Global(variable)),
        None => Err(CheckRefusal::NotExecutable { at }),
    }
}

/// The expression that a phrase is, where these names can be read.
#[cycle(expression)]
pub fn expression(alloc: Global, phrase: &Phrase, names: &Visible) -> Result<Expr, CheckRefusal>
    ensures { AnswersCheck expr_tree
        (expr_of (names_seen names.now) (phrase_tree phrase.now)) result }
{
    let at = phrase.at;
    match &phrase.kind {
        PhraseKind::Number(n) => Ok(Expr::Number(*n)),
        PhraseKind::Truth(b) => Ok(Expr::Truth(*b)),
        PhraseKind::Name(name) => named(at, name, names),
        PhraseKind::List(items) => Ok(Expr::List(expressions(alloc, items, names)?)),
        PhraseKind::Size(list) => Ok(Expr::Size(shared_expression(alloc, list, names)?)),
        PhraseKind::Index(whole, at) => {
            let whole = shared_expression(alloc, whole, names)?;
            let at = shared_expression(alloc, at, names)?;
            Ok(Expr::Index(whole, at))
        }
        PhraseKind::Minus(number) => Ok(Expr::Minus(shared_expression(alloc, number, names)?)),
        PhraseKind::Not(truth) => Ok(Expr::Not(shared_expression(alloc, truth, names)?)),
        PhraseKind::Binary(op, left, right) => {
            let Some(operation) = operation_for(*op) else {
                return Err(CheckRefusal::NotExpression { at });
            };
            let left = shared_expression(alloc, left, names)?;
            let right = shared_expression(alloc, right, names)?;
            Ok(operation.make(left, right))
        }
        PhraseKind::And(operands) => Ok(Expr::Both(expressions(alloc, operands, names)?)),
        PhraseKind::If(condition, first, Some(second)) => {
            let condition = shared_expression(alloc, condition, names)?;
            let first = shared_expression(alloc, first, names)?;
            let second = shared_expression(alloc, second, names)?;
            Ok(Expr::If(condition, first, second))
        }
        PhraseKind::Call(name, operands) => call(alloc, at, name, operands, names),
        PhraseKind::Next(_)
        | PhraseKind::If(_, _, None)
        | PhraseKind::While(_, _)
        | PhraseKind::Repeat(_, _)
        | PhraseKind::For(_, _, _)
        | PhraseKind::Forall(_, _, _)
        | PhraseKind::Exists(_, _)
        | PhraseKind::Bare(_)
        | PhraseKind::Form(_, _) => {
            let other = CheckRefusal::NotExpression { at };
            Err(refusal(alloc, phrase, names, other)?)
        }
    }
}

/// The same expression, to be shared.
#[cycle(expression)]
pub fn shared_expression(
    alloc: Global,
    phrase: &Phrase,
    names: &Visible,
) -> Result<Rc<Expr>, CheckRefusal>
    ensures { AnswersCheck expr_seen
        (expr_of (names_seen names.now) (phrase_tree phrase.now)) result }
{
    let expr = expression(alloc, phrase, names)?;
    Ok(Rc::new(alloc, expr)?)
}

/// The expressions that the phrases are.
#[cycle(expression)]
pub fn expressions(alloc: Global, phrases: &Phrases, names: &Visible) -> Result<Exprs, CheckRefusal>
    ensures { AnswersCheck exprs_seen
        (exprs_in (names_seen names.now) (phrase_trees phrases.now)) result }
{
    let mut items = Vec::new(alloc);
    for phrase in &phrases.items {
        items.push(expression(alloc, phrase, names)?)?;
    }
    Ok(Exprs { items })
}

/// The place that a phrase is, where these names can be read.
pub fn place(alloc: Global, phrase: &Phrase, names: &Visible) -> Result<Rc<Expr>, CheckRefusal>
    ensures { AnswersCheck expr_seen
        (place_phrase (names_seen names.now) (phrase_tree phrase.now)) result }
{
    if is_place(phrase) {
        return shared_expression(alloc, phrase, names);
    }
    let other = CheckRefusal::NotPlace { at: phrase.at };
    Err(refusal(alloc, phrase, names, other)?)
}

/// The port that a phrase is: a lower-case name. It is no variable, so it isn't looked up.
pub fn port(alloc: Global, phrase: &Phrase, names: &Visible) -> Result<Text, CheckRefusal>
    ensures { AnswersCheck (λ name. name)
        (port_phrase (names_seen names.now) (phrase_tree phrase.now)) result }
{
    let other = CheckRefusal::NotPort { at: phrase.at };
    let PhraseKind::Name(name) = &phrase.kind else {
        return Err(refusal(alloc, phrase, names, other)?);
    };
    if !is_lower(name) {
        return Err(other);
    }
    Ok(name.copy()?)
}

// A call at this place: it calls a state definition.
#[cycle(expression)]
fn call(
    alloc: Global,
    at: u32,
    name: &Text,
    operands: &Phrases,
    names: &Visible,
) -> Result<Expr, CheckRefusal>
    ensures { AnswersCheck expr_tree
        (expr_of_kind (names_seen names.now) at (call_kind name.now (phrase_trees operands.now)))
        result }
{
    let Some(callee) = names.directory.find(name)? else {
        return Err(CheckRefusal::Unknown { at });
    };
    if !callee.takes(operands) {
        return Err(CheckRefusal::WrongCount { at });
    }
    if !callee.signature.is_state {
        return Err(CheckRefusal::NotExpression { at });
    }
    let arguments = arguments(alloc, operands, callee.signature.parameters, names)?;
    Ok(Expr::Call(callee.number, arguments))
}

/// The operands of a call, as many as the parameters: a place for each upper-case one, an expression for each lower-case one.
#[cycle(expression)]
pub fn arguments(
    alloc: Global,
    operands: &Phrases,
    parameters: &Texts,
    names: &Visible,
) -> Result<Exprs, CheckRefusal>
    requires { phrase_count (phrase_trees operands.now) ≡ length parameters.now }
    ensures { AnswersCheck exprs_seen
        (arguments_in (names_seen names.now) (phrase_trees operands.now) parameters.now) result }
{
    let mut items = Vec::new(alloc);
    for (operand, parameter) in operands.items.iter().zip(&parameters.items) {
        items.push(argument(alloc, operand, parameter, names)?)?;
    }
    Ok(Exprs { items })
}

// The operand for a parameter.
#[cycle(expression)]
fn argument(
    alloc: Global,
    operand: &Phrase,
    parameter: &Text,
    names: &Visible,
) -> Result<Expr, CheckRefusal>
    ensures { AnswersCheck expr_tree
        (argument_in (is_upper parameter.now) (names_seen names.now) (phrase_tree operand.now))
        result }
{
    if is_upper(parameter) && !is_place(operand) {
        let other = CheckRefusal::NotPlace { at: operand.at };
        return Err(refusal(alloc, operand, names, other)?);
    }
    expression(alloc, operand, names)
}
