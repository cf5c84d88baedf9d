// Phrases with their heights, and how they are made of their operands.
ghost use Rattle.std.specs.Prelude.{◌≡◌, ◌+◌, ◌<◌, max, IfOk, IfErr, map};
ghost use Rattle.tp_parse.specs.Grammar as spec;
ghost use Rattle.tp_parse.specs.Grammar.{found};
ghost use Rattle.tp_parse.specs.Seen as views;
ghost use Rattle.tp_parse.specs.Seen.{seen, all_seen, IsLow};
ghost use Rattle.tp_parse.specs.declared.stop.Refusal.TheVariants.{NoMemory};
ghost use Rattle.tp_tree.specs.Read.{phrase_tree, kind_tree};
ghost use Rattle.tp_tree.specs.Tree.{phrases_of};

use crate::head::{Atom, Listed, Pair};
use crate::mark::Prefix;
use crate::operands::Operands;
use crate::stop::Refusal;
use std::alloc::Global;
use tp_tree::{Op, Phrase, PhraseKind, Phrases};
use tp_value::Texts;

/// A phrase that was read, and its height with its parentheses.
#[derive(Drop)]
pub struct Measured {
    pub phrase: Phrase,
    pub height: u32,
}

/// What is made of one operand.
#[derive(Drop)]
pub enum OneOperand {
    Size,
    Exists(Texts),
    Prefix(Prefix),
}

/// What is made of two operands.
#[derive(Drop)]
pub enum TwoOperands {
    Choice,
    Pair(Pair),
    Infix(Op),
    Index,
}

/// Two operands in memory of their own, and the height of a phrase round them.
#[derive(Drop)]
struct Boxed {
    first: Box<Phrase>,
    second: Box<Phrase>,
    height: u32,
}

/// The phrase in memory of its own.
fn in_box(alloc: Global, operand: Measured) -> Result<Box<Phrase>, Refusal>
    ensures made { IfOk result (λ own. own.value ≡ operand.phrase) }
    ensures memory { IfErr result (λ refusal. refusal ≡ NoMemory) }
{
    Ok(Box::new(alloc, operand.phrase)?)
}

fn box_both(alloc: Global, first: Measured, second: Measured) -> Result<Boxed, Refusal>
    requires { IsLow first.height × IsLow second.height }
    ensures first { IfOk result (λ both. both.first.value ≡ first.phrase) }
    ensures second { IfOk result (λ both. both.second.value ≡ second.phrase) }
    ensures height { IfOk result (λ both. both.height ≡ max first.height second.height + 1) }
    ensures memory { IfErr result (λ refusal. refusal ≡ NoMemory) }
{
    let height = first.height.max(second.height) + 1;
    let first = in_box(alloc, first)?;
    let second = in_box(alloc, second)?;
    Ok(Boxed {
        first,
        second,
        height,
    })
}

fn make(at: u32, kind: PhraseKind, height: u32) -> Measured
    ensures { result ≡ record { phrase = record { at = at; kind = kind }; height = height } }
{
    Measured {
        phrase: Phrase { at, kind },
        height,
    }
}

fn atom_kind(alloc: Global, atom: Atom) -> PhraseKind
    ensures { kind_tree result ≡ spec.atom_kind atom }
{
    match atom {
        Atom::Number(value) => PhraseKind::Number(value),
        Atom::Truth(value) => PhraseKind::Truth(value),
        Atom::Name(name) => PhraseKind::Name(name),
        Atom::Bare(word) => PhraseKind::Bare(word),
        Atom::EmptyList => PhraseKind::List(Phrases {
            items: Vec::new(alloc),
        }),
    }
}

pub fn of_atom(alloc: Global, at: u32, atom: Atom) -> Measured
    ensures { seen result ≡ spec.of_atom at atom }
{
    make(at, atom_kind(alloc, atom), 1)
}

fn listed_kind(listed: Listed, items: Vec<Phrase>) -> PhraseKind
    ensures { kind_tree result
        ≡ spec.listed_kind listed (phrases_of (map phrase_tree items.items)) }
{
    let phrases = Phrases { items };
    match listed {
        Listed::List => PhraseKind::List(phrases),
        Listed::Form(form) => PhraseKind::Form(form, phrases),
        Listed::Call(name) => PhraseKind::Call(name, phrases),
    }
}

pub fn of_operands(at: u32, listed: Listed, operands: Operands) -> Measured
    requires { IsLow operands.height }
    ensures { seen result ≡ spec.of_operands at listed (all_seen operands) }
{
    let height = operands.height + 1;
    make(at, listed_kind(listed, operands.items), height)
}

/// The phrase in parentheses.
pub fn raised(operand: Measured) -> Measured
    requires { IsLow operand.height }
    ensures { seen result ≡ found (seen operand).tree (operand.height + 1) }
{
    Measured {
        phrase: operand.phrase,
        height: operand.height + 1,
    }
}

fn prefixed_kind(prefix: Prefix, operand: Box<Phrase>) -> PhraseKind
    ensures { kind_tree result ≡ spec.prefixed_kind prefix (phrase_tree operand.value) }
{
    match prefix {
        Prefix::Not => PhraseKind::Not(operand),
        Prefix::Minus => PhraseKind::Minus(operand),
        Prefix::Next => PhraseKind::Next(operand),
    }
}

fn one_kind(kind: OneOperand, operand: Box<Phrase>) -> PhraseKind
    ensures { kind_tree result ≡ views.one_kind kind (phrase_tree operand.value) }
{
    match kind {
        OneOperand::Size => PhraseKind::Size(operand),
        OneOperand::Exists(names) => PhraseKind::Exists(names, operand),
        OneOperand::Prefix(prefix) => prefixed_kind(prefix, operand),
    }
}

pub fn of_one(
    alloc: Global,
    at: u32,
    kind: OneOperand,
    operand: Measured,
) -> Result<Measured, Refusal>
    requires { IsLow operand.height }
    ensures made { IfOk result (λ r. seen r ≡ views.of_one at kind (seen operand)) }
    ensures memory { IfErr result (λ refusal. refusal ≡ NoMemory) }
{
    let height = operand.height + 1;
    let operand = in_box(alloc, operand)?;
    Ok(make(at, one_kind(kind, operand), height))
}

fn pair_kind(pair: Pair, first: Box<Phrase>, second: Box<Phrase>) -> PhraseKind
    ensures { kind_tree result
        ≡ spec.pair_kind pair (phrase_tree first.value) (phrase_tree second.value) }
{
    match pair {
        Pair::While => PhraseKind::While(first, second),
        Pair::Repeat => PhraseKind::Repeat(first, second),
        Pair::For(name) => PhraseKind::For(name, first, second),
        Pair::Forall(name) => PhraseKind::Forall(name, first, second),
    }
}

fn two_kind(kind: TwoOperands, first: Box<Phrase>, second: Box<Phrase>) -> PhraseKind
    ensures { kind_tree result
        ≡ views.two_kind kind (phrase_tree first.value) (phrase_tree second.value) }
{
    match kind {
        TwoOperands::Choice => PhraseKind::If(first, second, None),
        TwoOperands::Pair(pair) => pair_kind(pair, first, second),
        TwoOperands::Infix(op) => PhraseKind::Binary(op, first, second),
        TwoOperands::Index => PhraseKind::Index(first, second),
    }
}

pub fn of_two(
    alloc: Global,
    at: u32,
    kind: TwoOperands,
    first: Measured,
    second: Measured,
) -> Result<Measured, Refusal>
    requires { IsLow first.height × IsLow second.height }
    ensures made { IfOk result (λ r. seen r ≡ views.of_two at kind (seen first) (seen second)) }
    ensures memory { IfErr result (λ refusal. refusal ≡ NoMemory) }
{
    let both = box_both(alloc, first, second)?;
    Ok(make(at, two_kind(kind, both.first, both.second), both.height))
}

pub fn of_choice_else(
    alloc: Global,
    at: u32,
    condition: Measured,
    first: Measured,
    second: Measured,
) -> Result<Measured, Refusal>
    requires { IsLow condition.height × IsLow first.height × IsLow second.height }
    ensures made { IfOk result (λ r. seen r
        ≡ spec.of_choice_else at (seen condition) (seen first) (seen second)) }
    ensures memory { IfErr result (λ refusal. refusal ≡ NoMemory) }
{
    let height = condition.height.max(first.height).max(second.height) + 1;
    let both = box_both(alloc, condition, first)?;
    let second = in_box(alloc, second)?;
    Ok(make(
        at,
        PhraseKind::If(both.first, both.second, Some(second)),
        height,
    ))
}

pub fn of_chain(at: u32, operands: Operands) -> Measured
    requires { IsLow operands.height }
    ensures { seen result ≡ spec.of_chain at (all_seen operands) }
{
    let height = operands.height + 1;
    let kind = PhraseKind::And(Phrases {
        items: operands.items,
    });
    make(at, kind, height)
}
