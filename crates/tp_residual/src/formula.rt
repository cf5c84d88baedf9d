// How formulas are spelled.
ghost use Rattle.std.specs.Prelude.{◌≡◌, ◌++◌, [], OnOk, codes};
ghost use Rattle.tp_kernel.specs.Read.{expr_tree, expr_trees, formula_tree, formula_trees};
ghost use Rattle.tp_meaning.specs.Syntax as syntax;
ghost use Rattle.tp_tree.specs.Levels.{any_level};
ghost use Rattle.tp_residual.specs.Parts as spec;
ghost use Rattle.tp_residual.specs.Parts.{all_formulas_spelling, called_with, counted_spelling, formula_spelling, formulas_spelling, nexts_spelling, operand_formula};
ghost use Rattle.tp_residual.specs.Phrases.{Vocabulary, from_spelling, naming};
ghost use Rattle.tp_residual.specs.Chain.{naming_all, within_spelling};
ghost use Rattle.tp_residual.specs.Read.{vocabulary_of};

use crate::chain::{append_chain, append_hidden};
use crate::expr::{
    append_after, append_between, append_call, append_expr, append_exprs, append_number,
    append_operand, append_operator, expr_level,
};
use crate::words::{Bound, Words};
use tp_kernel::{Expr, Exprs, Formula, Formulas};
use tp_tree::Op;
use tp_tree::level::{AND, ANY, CHOP, NOT, PREFIX, PROJ, RELATION, SUM, left_level, right_level};
use tp_value::{NoMemory, Number, Text, Texts};

/// The level of a formula.
#[cycle(formula_levels)]
pub fn formula_level(formula: &Formula) -> u8
    ensures { (v : Vocabulary) → result ≡ spec.formula_level v (formula_tree formula.now) }
{
    match formula {
        Formula::True | Formula::Empty | Formula::More | Formula::Always(_) => 0,
        Formula::IfMore(_) | Formula::IfEmpty(_) | Formula::Len(_) => 0,
        Formula::Call(_, _) | Formula::Input(_, _) | Formula::Display(_) => 0,
        Formula::Test(expr) => expr_level(expr),
        Formula::Eq(_, _) | Formula::NextEq(_, _, _) | Formula::Assign(_, _) => RELATION,
        Formula::WeakNext(_) => 0,
        Formula::Next(_) => PREFIX,
        Formula::And(operands) => formulas_level(operands),
        Formula::Chop(_, _) => CHOP,
        Formula::Proj(_, _) => PROJ,
        Formula::If(_, _, _) | Formula::While(_, _) | Formula::For { .. } => ANY,
        Formula::Forall { .. } | Formula::Exists { .. } => ANY,
    }
}

// The level of these as the operands of a conjunction.
#[cycle(formula_levels)]
fn formulas_level(operands: &Formulas) -> u8
    ensures { (v : Vocabulary) → result ≡ spec.formulas_level v (formula_trees operands.now) }
{
    match operands.items.as_slice() {
        [] => 0,
        [operand] => formula_level(operand),
        _ => AND,
    }
}

// Appends `next ` so many times.
fn append_nexts(out: &mut Text, count: u32) -> Result<(), NoMemory>
    ensures { OnOk result (out.new ≡ out.old ++ nexts_spelling count) }
{
    for _ in 0..count {
        out.append(b"next ")?;
    }
    Ok(())
}

// Appends the number from which a loop counts, where that isn't 0.
fn append_from(out: &mut Text, from: Number) -> Result<(), NoMemory>
    ensures { OnOk result (out.new ≡ out.old ++ from_spelling from) }
{
    if from == 0 {
        return Ok(());
    }
    out.append(b" from ")?;
    append_number(out, from)
}

// Appends the word of a loop, its variable, and from what number to below which.
fn append_counted(
    out: &mut Text,
    words: &Words,
    word: &[u8],
    name: &Text,
    from: Number,
    to: &Expr,
) -> Result<(), NoMemory>
    ensures { OnOk result
        (out.new
        ≡ out.old
        ++ counted_spelling (vocabulary_of words.now) word.now name.now from
        (expr_tree to.now)) }
{
    out.append(word)?;
    out.append(name.as_slice())?;
    append_from(out, from)?;
    append_after(out, words, b" < ", to, ANY)
}

// Appends a form of one operand.
fn append_form(out: &mut Text, words: &Words, word: &[u8], operand: &Expr) -> Result<(), NoMemory>
    ensures { OnOk result
        (out.new
        ≡ out.old
        ++ called_with word.now
        (spec.expr_spelling (vocabulary_of words.now) (expr_tree operand.now))) }
{
    out.append(word)?;
    out.append(b"(")?;
    append_expr(out, words, operand)?;
    out.append(b")")
}

fn append_next_equation(
    out: &mut Text,
    words: &Words,
    count: u32,
    left: &Expr,
    right: &Expr,
) -> Result<(), NoMemory>
    ensures { OnOk result
        (out.new
        ≡ out.old
        ++ formula_spelling (vocabulary_of words.now)
        (syntax.next_equation count (expr_tree left.now) (expr_tree right.now))) }
{
    if count == 0 {
        return append_between(out, words, Op::Equal, left, right);
    }
    append_nexts(out, count)?;
    append_operand(out, words, left, PREFIX)?;
    append_after(out, words, b" = ", right, SUM)
}

fn append_input(out: &mut Text, words: &Words, place: &Expr, port: &Text) -> Result<(), NoMemory>
    ensures { OnOk result
        (out.new
        ≡ out.old
        ++ formula_spelling (vocabulary_of words.now)
        (syntax.input (expr_tree place.now) port.now)) }
{
    out.append(b"input(")?;
    append_expr(out, words, place)?;
    out.append(b", ")?;
    out.append(port.as_slice())?;
    out.append(b")")
}

fn append_display(out: &mut Text, words: &Words, values: &Exprs) -> Result<(), NoMemory>
    ensures { OnOk result
        (out.new
        ≡ out.old
        ++ formula_spelling (vocabulary_of words.now) (syntax.display (expr_trees values.now))) }
{
    out.append(b"display(")?;
    append_exprs(out, words, values, b", ", ANY)?;
    out.append(b")")
}

/// Appends the formula, with no parentheses round the whole.
#[cycle(formulas)]
pub fn append_formula(out: &mut Text, words: &Words, formula: &Formula) -> Result<(), NoMemory>
    ensures { OnOk result (out.new
        ≡ out.old ++ formula_spelling (vocabulary_of words.now) (formula_tree formula.now)) }
{
    match formula {
        Formula::True => out.append(b"true"),
        Formula::Test(expr) => append_expr(out, words, expr),
        Formula::Eq(left, right) => append_between(out, words, Op::Equal, left, right),
        Formula::NextEq(count, left, right) => {
            append_next_equation(out, words, *count, left, right)
        }
        Formula::Empty => out.append(b"empty"),
        Formula::More => out.append(b"more"),
        Formula::Next(w) => append_within(out, words, b"next ", w, PREFIX),
        Formula::WeakNext(w) => append_within(out, words, b"weak next ", w, PREFIX),
        Formula::IfMore(w) => append_called(out, words, b"ifmore(", w),
        Formula::IfEmpty(w) => append_called(out, words, b"ifempty(", w),
        Formula::Always(w) => append_always(out, words, w),
        Formula::And(operands) => append_all(out, words, operands),
        Formula::If(condition, first, second) => {
            append_after(out, words, b"if ", condition, ANY)?;
            append_within(out, words, b" then ", first, CHOP)?;
            append_within(out, words, b" else ", second, ANY)
        }
        Formula::Len(length) => append_form(out, words, b"len", length),
        Formula::Assign(left, right) => append_between(out, words, Op::Arrow, left, right),
        Formula::Chop(left, right) => {
            append_part(out, words, left, left_level(Op::Chop))?;
            append_operator(out, Op::Chop)?;
            append_part(out, words, right, right_level(Op::Chop))
        }
        Formula::While(condition, body) => {
            append_after(out, words, b"while ", condition, ANY)?;
            append_within(out, words, b" do ", body, ANY)
        }
        Formula::For {
            name,
            from,
            to,
            body,
        } => {
            append_counted(out, words, b"for ", name, *from, to)?;
            append_body(out, words, b" do ", name, body)
        }
        Formula::Forall {
            name,
            from,
            to,
            body,
        } => {
            append_counted(out, words, b"forall ", name, *from, to)?;
            append_body(out, words, b" : ", name, body)
        }
        Formula::Proj(piece, outer) => {
            append_part(out, words, piece, left_level(Op::Proj))?;
            append_operator(out, Op::Proj)?;
            append_part(out, words, outer, right_level(Op::Proj))
        }
        Formula::Exists { name, body, .. } => {
            let mut names = Texts {
                items: Vec::new(words.alloc),
            };
            append_hidden(out, name, &mut names)?;
            let within = append_chain(out, body, &mut names)?;
            append_hiding(out, words, &names, within)
        }
        Formula::Call(number, operands) => append_call(out, words, *number, operands),
        Formula::Input(place, port) => append_input(out, words, place, port),
        Formula::Display(values) => append_display(out, words, values),
    }
}

// Appends the text and then the formula, bare where its level is at most this, else in parentheses.
#[cycle(formulas)]
fn append_within(
    out: &mut Text,
    words: &Words,
    before: &[u8],
    formula: &Formula,
    most: u8,
) -> Result<(), NoMemory>
    ensures { OnOk result
        (out.new
        ≡ out.old
        ++ (before.now
        ++ operand_formula (vocabulary_of words.now) most (formula_tree formula.now))) }
{
    out.append(before)?;
    append_part(out, words, formula, most)
}

// Appends the formula, bare where its level is at most this, else in parentheses.
#[cycle(formulas)]
fn append_part(out: &mut Text, words: &Words, formula: &Formula, most: u8) -> Result<(), NoMemory>
    ensures { OnOk result
        (out.new
        ≡ out.old ++ operand_formula (vocabulary_of words.now) most (formula_tree formula.now)) }
{
    if formula_level(formula) <= most {
        append_formula(out, words, formula)
    } else {
        out.append(b"(")?;
        append_formula(out, words, formula)?;
        out.append(b")")
    }
}

// Appends the word with its opening parenthesis, the formula, and the closing parenthesis.
#[cycle(formulas)]
fn append_called(
    out: &mut Text,
    words: &Words,
    opening: &[u8],
    formula: &Formula,
) -> Result<(), NoMemory>
    ensures { OnOk result
        (out.new
        ≡ out.old
        ++ (opening.now
        ++ formula_spelling (vocabulary_of words.now) (formula_tree formula.now) ++ codes ")")) }
{
    out.append(opening)?;
    append_formula(out, words, formula)?;
    out.append(b")")
}

// Appends `keep`, `fin` or `always` of a formula that holds in each state.
#[cycle(formulas)]
fn append_always(out: &mut Text, words: &Words, formula: &Formula) -> Result<(), NoMemory>
    ensures { OnOk result
        (out.new
        ≡ out.old
        ++ formula_spelling (vocabulary_of words.now)
        (syntax.always (formula_tree formula.now))) }
{
    if let Formula::IfMore(w) = formula {
        return append_called(out, words, b"keep(", w);
    }
    if let Formula::IfEmpty(w) = formula {
        return append_called(out, words, b"fin(", w);
    }
    append_called(out, words, b"always(", formula)
}

// Appends the text and then the body of a phrase that binds the name.
#[cycle(formulas)]
fn append_body(
    out: &mut Text,
    words: &Words,
    before: &[u8],
    name: &Text,
    body: &Formula,
) -> Result<(), NoMemory>
    ensures { let v = naming (vocabulary_of words.now) name.now in OnOk result
        (out.new
        ≡ out.old ++ (before.now ++ operand_formula v any_level (formula_tree body.now))) }
{
    let bound = Bound::Inside {
        name,
        outer: words.bound,
    };
    let inner = Words {
        alloc: words.alloc,
        store: words.store,
        defs: words.defs,
        bound: &bound,
    };
    append_within(out, &inner, before, body, ANY)
}

// Appends what these names are hidden in.
#[cycle(formulas)]
fn append_hiding(
    out: &mut Text,
    words: &Words,
    names: &Texts,
    body: &Formula,
) -> Result<(), NoMemory>
    ensures { let v = naming_all (vocabulary_of words.now) names.now in OnOk result
        (out.new ≡ out.old ++ within_spelling v (formula_tree body.now)) }
{
    let bound = Bound::Chain {
        names,
        outer: words.bound,
    };
    let inner = Words {
        alloc: words.alloc,
        store: words.store,
        defs: words.defs,
        bound: &bound,
    };
    append_part(out, &inner, body, ANY)
}

// Appends the conjunction of the operands.
#[cycle(formulas)]
fn append_all(out: &mut Text, words: &Words, operands: &Formulas) -> Result<(), NoMemory>
    ensures { OnOk result (out.new
        ≡ out.old ++ all_formulas_spelling (vocabulary_of words.now) (formula_trees operands.now)) }
{
    match operands.items.as_slice() {
        [] => out.append(b"true"),
        [operand] => append_formula(out, words, operand),
        _ => append_operands(out, words, operands),
    }
}

// Appends the operands with ` and ` between each two.
#[cycle(formulas)]
fn append_operands(out: &mut Text, words: &Words, operands: &Formulas) -> Result<(), NoMemory>
    ensures { OnOk result (out.new
        ≡ out.old ++ formulas_spelling (vocabulary_of words.now) [] (formula_trees operands.now)) }
{
    let mut opening = b"".as_slice();
    for operand in &operands.items {
        append_within(out, words, opening, operand, NOT)?;
        opening = b" and ".as_slice();
    }
    Ok(())
}
