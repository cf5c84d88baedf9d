// Formulas that say something of the first state, and those that set a place.
ghost use Rattle.std.specs.Prelude.{◌≡◌, true, false, IfOk};
ghost use Rattle.tp_tree.specs.Read.{phrase_tree, kind_tree};
ghost use Rattle.tp_tree.specs.Tree.{negation as negation_kind, binary as binary_kind};
ghost use Rattle.tp_kernel.specs.Read.{formula_tree};
ghost use Rattle.tp_scope.specs.Seen.{names_seen};
ghost use Rattle.tp_check.specs.Outcome.{mapped};
ghost use Rattle.tp_check.specs.Answers.{AnswersCheck};
ghost use Rattle.tp_check.specs.Positions.{expr_of, place_is, is_state_in, state_in, negation_in, binary_in};

use crate::equation::equation;
use crate::expression::{place, shared_expression};
use crate::refusal::CheckRefusal;
use std::alloc::Global;
use std::rc::Rc;
use tp_kernel::{Expr, Formula, becomes, gets};
use tp_scope::{Callable, Visible, is_place, is_state};
use tp_tree::{Op, Phrase};
use tp_value::NoMemory;

// The phrase has this truth value.
fn has_value(
    alloc: Global,
    phrase: &Phrase,
    value: bool,
    names: &Visible,
) -> Result<Formula, CheckRefusal>
    ensures { AnswersCheck formula_tree
        (mapped (place_is value) (expr_of (names_seen names.now) (phrase_tree phrase.now))) result }
{
    let expr = shared_expression(alloc, phrase, names)?;
    let value = Rc::new(alloc, Expr::Truth(value))?;
    Ok(Formula::Eq(expr, value))
}

/// Whether a phrase says something of one state, and calls state definitions alone.
pub fn is_state_here(phrase: &Phrase, names: &Visible) -> Result<bool, NoMemory>
    ensures { IfOk result (λ b.
        b ≡ is_state_in (names_seen names.now) (phrase_tree phrase.now)) }
{
    is_state(phrase, Callable::StatesOf(names.directory))
}

/// A phrase that is an expression: a place is true, anything else is tested.
pub fn state(alloc: Global, phrase: &Phrase, names: &Visible) -> Result<Formula, CheckRefusal>
    ensures { AnswersCheck formula_tree
        (state_in (names_seen names.now) phrase.now.at (kind_tree phrase.now.kind)) result }
{
    if is_place(phrase) {
        return has_value(alloc, phrase, true, names);
    }
    let expr = shared_expression(alloc, phrase, names)?;
    Ok(Formula::Test(expr))
}

/// The negation of an operand, of which the phrase is the whole: a place is false, and no other operand is run but a state.
pub fn negation(
    alloc: Global,
    phrase: &Phrase,
    operand: &Phrase,
    names: &Visible,
) -> Result<Formula, CheckRefusal>
    requires { kind_tree phrase.now.kind ≡ negation_kind (phrase_tree operand.now) }
    ensures { AnswersCheck formula_tree
        (negation_in (names_seen names.now) phrase.now.at (phrase_tree operand.now)) result }
{
    if is_place(operand) {
        has_value(alloc, operand, false, names)
    } else if is_state_here(operand, names)? {
        state(alloc, phrase, names)
    } else {
        Err(CheckRefusal::NotExecutable { at: phrase.at })
    }
}

/// Two phrases with an operator between them that composes no formulas; the phrase is the whole.
pub fn binary(
    alloc: Global,
    phrase: &Phrase,
    op: Op,
    left: &Phrase,
    right: &Phrase,
    names: &Visible,
) -> Result<Formula, CheckRefusal>
    requires { kind_tree phrase.now.kind
        ≡ binary_kind op (phrase_tree left.now) (phrase_tree right.now) }
    ensures { AnswersCheck formula_tree
        (binary_in (names_seen names.now) phrase.now.at op
        (phrase_tree left.now) (phrase_tree right.now))
        result }
{
    match op {
        Op::Equal => equation(alloc, left, right, names),
        Op::Gets => {
            let place = place(alloc, left, names)?;
            let expr = shared_expression(alloc, right, names)?;
            Ok(gets(alloc, place, expr)?)
        }
        Op::Arrow => {
            let place = place(alloc, left, names)?;
            let expr = shared_expression(alloc, right, names)?;
            Ok(Formula::Assign(place, expr))
        }
        Op::Becomes => {
            let place = place(alloc, left, names)?;
            let expr = shared_expression(alloc, right, names)?;
            Ok(becomes(alloc, place, expr)?)
        }
        Op::Or => {
            if is_state_here(left, names)? && is_state_here(right, names)? {
                state(alloc, phrase, names)
            } else {
                Err(CheckRefusal::NotExecutable { at: phrase.at })
            }
        }
        Op::Differs
        | Op::Less
        | Op::LessEqual
        | Op::Greater
        | Op::GreaterEqual
        | Op::Plus
        | Op::Minus
        | Op::Times
        | Op::Div
        | Op::Mod
        | Op::Chop
        | Op::Proj => state(alloc, phrase, names),
    }
}
