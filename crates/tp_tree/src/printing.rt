// The canonical spelling of a source.
ghost use Rattle.std.specs.Prelude.{◌≡◌, ◌++◌, [], OnOk, OnErr, codes};
ghost use Rattle.std.specs.Fmt.{signed_decimal};
ghost use Rattle.tp_tree.specs.Read.{definition_tree, phrase_tree, phrase_trees, source_tree};
ghost use Rattle.tp_tree.specs.Spelling as spec;
ghost use Rattle.tp_tree.specs.SpellingParts as parts;

use crate::level::{
    ANY, CHOP, INDEX, NOT, PREFIX, SUM, bare_spelling, form_spelling, left_level, level,
    op_spelling, right_level,
};
use crate::{Definition, Op, Phrase, PhraseKind, Phrases, Source};
use itoa::Buffer;
use tp_value::{NoMemory, Number, Text, Texts};

fn append_number(out: &mut Text, n: Number) -> Result<(), NoMemory>
    ensures { OnOk result (out.new ≡ out.old ++ signed_decimal n) }
{
    let mut buffer = Buffer::new();
    out.append(buffer.format(n).as_bytes())
}

fn append_truth(out: &mut Text, truth: bool) -> Result<(), NoMemory>
    ensures { OnOk result (out.new ≡ out.old ++ spec.truth_spelling truth) }
{
    out.append(if truth {
        b"true".as_slice()
    } else {
        b"false".as_slice()
    })
}

// Appends the names with a comma and a space between each two.
fn append_names(out: &mut Text, names: &Texts) -> Result<(), NoMemory>
    ensures { OnOk result (out.new ≡ out.old ++ spec.names_spelling [] names.now) }
{
    let mut opening = b"".as_slice();
    for name in &names.items {
        out.append(opening)?;
        out.append(name.as_slice())?;
        opening = b", ".as_slice();
    }
    Ok(())
}

// Appends the operator with a space on each side.
fn append_operator(out: &mut Text, op: Op) -> Result<(), NoMemory>
    ensures { OnOk result
        (out.new ≡ out.old ++ (codes " " ++ spec.op_spelling op ++ codes " ")) }
{
    out.append(b" ")?;
    out.append(op_spelling(op))?;
    out.append(b" ")
}

// Appends the phrase, with no parentheses round the whole.
#[cycle(spelling)]
fn append_phrase(out: &mut Text, phrase: &Phrase) -> Result<(), NoMemory>
    ensures { OnOk result (out.new ≡ out.old ++ spec.phrase_spelling (phrase_tree phrase.now)) }
{
    match &phrase.kind {
        PhraseKind::Number(n) => append_number(out, *n),
        PhraseKind::Truth(truth) => append_truth(out, *truth),
        PhraseKind::Name(name) => out.append(name.as_slice()),
        PhraseKind::List(items) => {
            out.append(b"<")?;
            append_operands(out, items, b", ", SUM)?;
            out.append(b">")
        }
        PhraseKind::Size(list) => {
            append_after(out, b"|", list, SUM)?;
            out.append(b"|")
        }
        PhraseKind::Index(whole, at) => {
            append_operand(out, whole, INDEX)?;
            append_after(out, b"[", at, ANY)?;
            out.append(b"]")
        }
        PhraseKind::Minus(operand) => append_after(out, b"-", operand, PREFIX),
        PhraseKind::Next(operand) => append_after(out, b"next ", operand, PREFIX),
        PhraseKind::Not(operand) => append_after(out, b"not ", operand, NOT),
        PhraseKind::Binary(op, left, right) => {
            append_operand(out, left, left_level(*op))?;
            append_operator(out, *op)?;
            append_operand(out, right, right_level(*op))
        }
        PhraseKind::And(operands) => append_operands(out, operands, b" and ", NOT),
        PhraseKind::If(condition, first, None) => {
            append_after(out, b"if ", condition, ANY)?;
            append_after(out, b" then ", first, CHOP)
        }
        PhraseKind::If(condition, first, Some(second)) => {
            append_after(out, b"if ", condition, ANY)?;
            append_after(out, b" then ", first, CHOP)?;
            append_after(out, b" else ", second, ANY)
        }
        PhraseKind::While(condition, body) => {
            append_after(out, b"while ", condition, ANY)?;
            append_after(out, b" do ", body, ANY)
        }
        PhraseKind::Repeat(body, condition) => {
            append_after(out, b"repeat ", body, ANY)?;
            append_after(out, b" until ", condition, ANY)
        }
        PhraseKind::For(name, bound, body) => {
            append_counter(out, b"for ", name, bound)?;
            append_after(out, b" do ", body, ANY)
        }
        PhraseKind::Forall(name, bound, body) => {
            append_counter(out, b"forall ", name, bound)?;
            append_after(out, b" : ", body, ANY)
        }
        PhraseKind::Exists(names, body) => {
            out.append(b"exists ")?;
            append_names(out, names)?;
            append_after(out, b" : ", body, ANY)
        }
        PhraseKind::Bare(bare) => out.append(bare_spelling(*bare)),
        PhraseKind::Form(form, operands) => { append_called(out, form_spelling(*form), operands) }
        PhraseKind::Call(name, operands) => append_called(out, name.as_slice(), operands),
    }
}

// Appends the words and then the phrase, bare where its level is at most this, else in parentheses.
#[cycle(spelling)]
fn append_after(out: &mut Text, words: &[u8], phrase: &Phrase, most: u8) -> Result<(), NoMemory>
    ensures { OnOk result (out.new
        ≡ out.old ++ (words.now ++ spec.operand_spelling most (phrase_tree phrase.now))) }
{
    out.append(words)?;
    append_operand(out, phrase, most)
}

#[cycle(spelling)]
fn append_operand(out: &mut Text, phrase: &Phrase, most: u8) -> Result<(), NoMemory>
    ensures { OnOk result (out.new
        ≡ out.old ++ spec.operand_spelling most (phrase_tree phrase.now)) }
{
    if level(&phrase.kind) <= most {
        append_phrase(out, phrase)
    } else {
        out.append(b"(")?;
        append_phrase(out, phrase)?;
        out.append(b")")
    }
}

// Appends the operands with the separator between each two.
#[cycle(spelling)]
fn append_operands(
    out: &mut Text,
    operands: &Phrases,
    separator: &[u8],
    most: u8,
) -> Result<(), NoMemory>
    ensures { OnOk result (out.new
        ≡ out.old ++ spec.operands_spelling [] separator.now most (phrase_trees operands.now)) }
{
    let mut opening = b"".as_slice();
    for operand in &operands.items {
        append_after(out, opening, operand, most)?;
        opening = separator;
    }
    Ok(())
}

// Appends the word and the operands in parentheses.
#[cycle(spelling)]
fn append_called(out: &mut Text, word: &[u8], operands: &Phrases) -> Result<(), NoMemory>
    ensures { OnOk result (out.new
        ≡ out.old ++ parts.called_spelling word.now (phrase_trees operands.now)) }
{
    out.append(word)?;
    out.append(b"(")?;
    append_operands(out, operands, b", ", ANY)?;
    out.append(b")")
}

// Appends the word of a loop, its variable and its bound.
#[cycle(spelling)]
fn append_counter(out: &mut Text, word: &[u8], name: &Text, bound: &Phrase) -> Result<(), NoMemory>
    ensures { OnOk result (out.new
        ≡ out.old ++ parts.counter_spelling word.now name.now (phrase_tree bound.now)) }
{
    out.append(word)?;
    out.append(name.as_slice())?;
    append_after(out, b" < ", bound, ANY)
}

// Appends the line of a definition.
fn append_definition(out: &mut Text, definition: &Definition) -> Result<(), NoMemory>
    ensures { OnOk result
        (out.new ≡ out.old ++ spec.definition_spelling (definition_tree definition.now)) }
{
    out.append(b"define ")?;
    out.append(definition.name.as_slice())?;
    out.append(b"(")?;
    append_names(out, &definition.parameters)?;
    out.append(b") = ")?;
    append_phrase(out, &definition.body)?;
    out.append(b".\n")
}

fn append_source(out: &mut Text, source: &Source) -> Result<(), NoMemory>
    ensures { OnOk result (out.new ≡ out.old ++ spec.source_spelling (source_tree source.now)) }
{
    for definition in &source.definitions.items {
        append_definition(out, definition)?;
    }
    out.append(b"run ")?;
    append_phrase(out, &source.main)?;
    out.append(b".\n")
}

/// Appends the canonical spelling of the source: a line for each definition, and one for the phrase that runs, with parentheses only
/// where the levels of operators want them. On a refusal the text is unchanged.
pub fn print(source: &Source, out: &mut Text) -> Result<(), NoMemory>
    ensures ok { OnOk result (out.new ≡ out.old ++ spec.source_spelling (source_tree source.now)) }
    ensures err { OnErr result (out.new ≡ out.old) }
{
    let mut text = out.copy()?;
    append_source(&mut text, source)?;
    *out = text;
    Ok(())
}
