// How expressions are spelled.
ghost use Rattle.std.specs.Prelude.{◌≡◌, ◌++◌, [], OnOk, codes};
ghost use Rattle.std.specs.Fmt.{signed_decimal};
ghost use Rattle.tp_tree.specs.Levels.{any_level};
ghost use Rattle.tp_tree.specs.Spelling.{op_spelling, truth_spelling};
ghost use Rattle.tp_kernel.specs.Read.{expr_tree, expr_trees, operator_of};
ghost use Rattle.tp_residual.specs.Parts as spec;
ghost use Rattle.tp_residual.specs.Parts.{all_exprs_spelling, called_with, exprs_spelling, operand_expr};
ghost use Rattle.tp_residual.specs.Phrases.{Vocabulary, phrase_operator, definition_name};
ghost use Rattle.tp_residual.specs.Read.{vocabulary_of};

use crate::words::{Words, append_bound, append_definition_name, append_variable};
use itoa::Buffer;
use tp_kernel::{Expr, Exprs, Op2};
use tp_tree::Op;
use tp_tree::level::{
    AND, ANY, CHOP, INDEX, NOT, OR, PREFIX, SUM, left_level, op_level, op_spelling, right_level,
};
use tp_value::{NoMemory, Number, Text, write_value};

// The operator of phrases that stands for this one.
fn operator(op: Op2) -> Op
    ensures { result ≡ phrase_operator (operator_of op) }
{
    match op {
        Op2::Equal => Op::Equal,
        Op2::Differs => Op::Differs,
        Op2::Less => Op::Less,
        Op2::LessEqual => Op::LessEqual,
        Op2::Greater => Op::Greater,
        Op2::GreaterEqual => Op::GreaterEqual,
        Op2::Plus => Op::Plus,
        Op2::Minus => Op::Minus,
        Op2::Times => Op::Times,
        Op2::Div => Op::Div,
        Op2::Mod => Op::Mod,
    }
}

/// The level of an expression.
#[cycle(expr_levels)]
pub fn expr_level(expr: &Expr) -> u8
    ensures { (v : Vocabulary) → result ≡ spec.expr_level v (expr_tree expr.now) }
{
    match expr {
        Expr::Number(_) | Expr::Truth(_) | Expr::Known(_) | Expr::Bound(_) | Expr::Global(_) => 0,
        Expr::List(_) | Expr::Size(_) | Expr::Call(_, _) => 0,
        Expr::Index(_, _) => INDEX,
        Expr::Minus(_) => PREFIX,
        Expr::Not(_) => NOT,
        Expr::Both(operands) => exprs_level(operands),
        Expr::Either(_, _) => OR,
        Expr::Op(op, _, _) => op_level(operator(*op)),
        Expr::If(_, _, _) => ANY,
    }
}

// The level of these as the operands of a conjunction.
#[cycle(expr_levels)]
fn exprs_level(operands: &Exprs) -> u8
    ensures { (v : Vocabulary) → result ≡ spec.exprs_level v (expr_trees operands.now) }
{
    match operands.items.as_slice() {
        [] => 0,
        [operand] => expr_level(operand),
        _ => AND,
    }
}

/// Appends a number in decimal.
pub fn append_number(out: &mut Text, n: Number) -> Result<(), NoMemory>
    ensures { OnOk result (out.new ≡ out.old ++ signed_decimal n) }
{
    let mut buffer = Buffer::new();
    out.append(buffer.format(n).as_bytes())
}

fn append_truth(out: &mut Text, truth: bool) -> Result<(), NoMemory>
    ensures { OnOk result (out.new ≡ out.old ++ truth_spelling truth) }
{
    out.append(if truth {
        b"true".as_slice()
    } else {
        b"false".as_slice()
    })
}

/// Appends the operator with a space on each side.
pub fn append_operator(out: &mut Text, op: Op) -> Result<(), NoMemory>
    ensures { OnOk result (out.new ≡ out.old ++ (codes " " ++ op_spelling op ++ codes " ")) }
{
    out.append(b" ")?;
    out.append(op_spelling(op))?;
    out.append(b" ")
}

/// Appends the expression, with no parentheses round the whole.
#[cycle(exprs)]
pub fn append_expr(out: &mut Text, words: &Words, expr: &Expr) -> Result<(), NoMemory>
    ensures { OnOk result (out.new
        ≡ out.old ++ spec.expr_spelling (vocabulary_of words.now) (expr_tree expr.now)) }
{
    match expr {
        Expr::Number(n) => append_number(out, *n),
        Expr::Truth(truth) => append_truth(out, *truth),
        Expr::Known(value) => write_value(value, out),
        Expr::Bound(number) => {
            append_bound(out, words.store, words.bound, u64::from(*number))?;
            Ok(())
        }
        Expr::Global(var) => append_variable(out, words.store, *var),
        Expr::List(items) => {
            out.append(b"<")?;
            append_exprs(out, words, items, b", ", SUM)?;
            out.append(b">")
        }
        Expr::Size(list) => {
            append_after(out, words, b"|", list, SUM)?;
            out.append(b"|")
        }
        Expr::Index(whole, at) => {
            append_operand(out, words, whole, INDEX)?;
            append_after(out, words, b"[", at, ANY)?;
            out.append(b"]")
        }
        Expr::Minus(operand) => append_after(out, words, b"-", operand, PREFIX),
        Expr::Not(operand) => append_after(out, words, b"not ", operand, NOT),
        Expr::Both(operands) => append_all(out, words, operands),
        Expr::Either(left, right) => {
            append_operand(out, words, left, left_level(Op::Or))?;
            append_operator(out, Op::Or)?;
            append_operand(out, words, right, right_level(Op::Or))
        }
        Expr::Op(op, left, right) => {
            let op = operator(*op);
            append_operand(out, words, left, left_level(op))?;
            append_operator(out, op)?;
            append_operand(out, words, right, right_level(op))
        }
        Expr::If(condition, first, second) => {
            append_after(out, words, b"if ", condition, ANY)?;
            append_after(out, words, b" then ", first, CHOP)?;
            append_after(out, words, b" else ", second, ANY)
        }
        Expr::Call(number, operands) => append_call(out, words, *number, operands),
    }
}

/// Appends the text and then the expression, bare where its level is at most this, else in parentheses.
#[cycle(exprs)]
pub fn append_after(
    out: &mut Text,
    words: &Words,
    before: &[u8],
    expr: &Expr,
    most: u8,
) -> Result<(), NoMemory>
    ensures { OnOk result
        (out.new
        ≡ out.old
        ++ (before.now ++ operand_expr (vocabulary_of words.now) most (expr_tree expr.now))) }
{
    out.append(before)?;
    append_operand(out, words, expr, most)
}

#[cycle(exprs)]
pub fn append_operand(out: &mut Text, words: &Words, expr: &Expr, most: u8) -> Result<(), NoMemory>
    ensures { OnOk result (out.new
        ≡ out.old ++ operand_expr (vocabulary_of words.now) most (expr_tree expr.now)) }
{
    if expr_level(expr) <= most {
        append_expr(out, words, expr)
    } else {
        out.append(b"(")?;
        append_expr(out, words, expr)?;
        out.append(b")")
    }
}

// Appends the conjunction of the operands.
#[cycle(exprs)]
fn append_all(out: &mut Text, words: &Words, operands: &Exprs) -> Result<(), NoMemory>
    ensures { OnOk result (out.new
        ≡ out.old ++ all_exprs_spelling (vocabulary_of words.now) (expr_trees operands.now)) }
{
    match operands.items.as_slice() {
        [] => out.append(b"true"),
        [operand] => append_expr(out, words, operand),
        _ => append_exprs(out, words, operands, b" and ", NOT),
    }
}

/// Appends the operands with the separator between each two.
#[cycle(exprs)]
pub fn append_exprs(
    out: &mut Text,
    words: &Words,
    operands: &Exprs,
    separator: &[u8],
    most: u8,
) -> Result<(), NoMemory>
    ensures { OnOk result
        (out.new
        ≡ out.old
        ++ exprs_spelling (vocabulary_of words.now) [] separator.now most
        (expr_trees operands.now)) }
{
    let mut opening = b"".as_slice();
    for operand in &operands.items {
        append_after(out, words, opening, operand, most)?;
        opening = separator;
    }
    Ok(())
}

/// Appends a call of the definition with this number.
#[cycle(exprs)]
pub fn append_call(
    out: &mut Text,
    words: &Words,
    number: u32,
    operands: &Exprs,
) -> Result<(), NoMemory>
    ensures { let v = vocabulary_of words.now in OnOk result
        (out.new
        ≡ out.old
        ++ called_with (definition_name v.definitions number)
        (exprs_spelling v [] (codes ", ") any_level (expr_trees operands.now))) }
{
    append_definition_name(out, words.defs, number)?;
    out.append(b"(")?;
    append_exprs(out, words, operands, b", ", ANY)?;
    out.append(b")")
}

/// Appends the operator between its operands.
pub fn append_between(
    out: &mut Text,
    words: &Words,
    op: Op,
    left: &Expr,
    right: &Expr,
) -> Result<(), NoMemory>
    ensures { let v = vocabulary_of words.now in OnOk result
        (out.new
        ≡ out.old
        ++ spec.operation_spelling op
        (spec.expr_level v (expr_tree left.now)) (spec.expr_spelling v (expr_tree left.now))
        (spec.expr_level v (expr_tree right.now)) (spec.expr_spelling v (expr_tree right.now))) }
{
    append_operand(out, words, left, left_level(op))?;
    append_operator(out, op)?;
    append_operand(out, words, right, right_level(op))
}
