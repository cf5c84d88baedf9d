//! Levels of phrases, and how operators and words are spelled.
ghost use Rattle.std.specs.Prelude.{◌≡◌, ◌<◌, ◌≤◌};
ghost use Rattle.tp_tree.specs.Levels as spec;
ghost use Rattle.tp_tree.specs.Levels.{chop_level};
ghost use Rattle.tp_tree.specs.Read.{kind_tree};
ghost use Rattle.tp_tree.specs.Spelling as spelling;

use crate::{Bare, Form, Grouping, Op, PhraseKind};

pub const INDEX: u8 = 1;

pub const PREFIX: u8 = 2;

pub const PRODUCT: u8 = 3;

pub const SUM: u8 = 4;

pub const RELATION: u8 = 5;

pub const NOT: u8 = 6;

pub const AND: u8 = 7;

pub const OR: u8 = 8;

pub const PROJ: u8 = 9;

pub const CHOP: u8 = 10;

pub const ANY: u8 = 11;

/// The level of a phrase with this operator.
pub fn op_level(op: Op) -> u8
    ensures value { result ≡ spec.op_level op }
    ensures some { 0 < result }
    ensures low { result ≤ chop_level }
{
    match op {
        Op::Chop => CHOP,
        Op::Proj => PROJ,
        Op::Or => OR,
        Op::Equal
        | Op::Differs
        | Op::Less
        | Op::LessEqual
        | Op::Greater
        | Op::GreaterEqual
        | Op::Gets
        | Op::Arrow
        | Op::Becomes => RELATION,
        Op::Plus | Op::Minus => SUM,
        Op::Times | Op::Div | Op::Mod => PRODUCT,
    }
}

/// How operators of its level group.
pub fn grouping(op: Op) -> Grouping
    ensures { result ≡ spec.grouping op }
{
    match op {
        Op::Chop | Op::Proj => Grouping::Right,
        Op::Equal
        | Op::Differs
        | Op::Less
        | Op::LessEqual
        | Op::Greater
        | Op::GreaterEqual
        | Op::Gets
        | Op::Arrow
        | Op::Becomes => Grouping::Single,
        Op::Or | Op::Plus | Op::Minus | Op::Times | Op::Div | Op::Mod => Grouping::Left,
    }
}

/// The highest level that the left operand has without parentheses.
pub fn left_level(op: Op) -> u8
    ensures value { result ≡ spec.left_level op }
    ensures low { result ≤ chop_level }
{
    match grouping(op) {
        Grouping::Left => op_level(op),
        Grouping::Single | Grouping::Right => op_level(op) - 1,
    }
}

/// And the right operand.
pub fn right_level(op: Op) -> u8
    ensures value { result ≡ spec.right_level op }
    ensures low { result ≤ chop_level }
{
    match grouping(op) {
        Grouping::Right => op_level(op),
        Grouping::Left | Grouping::Single => op_level(op) - 1,
    }
}

/// The level of a phrase.
pub fn level(kind: &PhraseKind) -> u8
    ensures { result ≡ spec.kind_level (kind_tree kind.now) }
{
    match kind {
        PhraseKind::Number(_)
        | PhraseKind::Truth(_)
        | PhraseKind::Name(_)
        | PhraseKind::List(_)
        | PhraseKind::Size(_)
        | PhraseKind::Bare(_)
        | PhraseKind::Form(_, _)
        | PhraseKind::Call(_, _) => 0,
        PhraseKind::Index(_, _) => INDEX,
        PhraseKind::Minus(_) | PhraseKind::Next(_) => PREFIX,
        PhraseKind::Not(_) => NOT,
        PhraseKind::Binary(op, _, _) => op_level(*op),
        PhraseKind::And(_) => AND,
        PhraseKind::If(_, _, _)
        | PhraseKind::While(_, _)
        | PhraseKind::Repeat(_, _)
        | PhraseKind::For(_, _, _)
        | PhraseKind::Forall(_, _, _)
        | PhraseKind::Exists(_, _) => ANY,
    }
}

pub fn op_spelling(op: Op) -> &'static [u8]
    ensures { result.now ≡ spelling.op_spelling op }
{
    match op {
        Op::Chop => b";".as_slice(),
        Op::Proj => b"proj".as_slice(),
        Op::Or => b"or".as_slice(),
        Op::Equal => b"=".as_slice(),
        Op::Differs => b"<>".as_slice(),
        Op::Less => b"<".as_slice(),
        Op::LessEqual => b"<=".as_slice(),
        Op::Greater => b">".as_slice(),
        Op::GreaterEqual => b">=".as_slice(),
        Op::Gets => b"gets".as_slice(),
        Op::Arrow => b"<-".as_slice(),
        Op::Becomes => b":=".as_slice(),
        Op::Plus => b"+".as_slice(),
        Op::Minus => b"-".as_slice(),
        Op::Times => b"*".as_slice(),
        Op::Div => b"div".as_slice(),
        Op::Mod => b"mod".as_slice(),
    }
}

pub fn bare_spelling(bare: Bare) -> &'static [u8]
    ensures { result.now ≡ spelling.bare_spelling bare }
{
    match bare {
        Bare::Empty => b"empty".as_slice(),
        Bare::More => b"more".as_slice(),
        Bare::Skip => b"skip".as_slice(),
    }
}

pub fn form_spelling(form: Form) -> &'static [u8]
    ensures { result.now ≡ spelling.form_spelling form }
{
    match form {
        Form::Always => b"always".as_slice(),
        Form::Keep => b"keep".as_slice(),
        Form::Fin => b"fin".as_slice(),
        Form::Halt => b"halt".as_slice(),
        Form::Stable => b"stable".as_slice(),
        Form::Sometimes => b"sometimes".as_slice(),
        Form::Len => b"len".as_slice(),
        Form::List => b"list".as_slice(),
        Form::Input => b"input".as_slice(),
        Form::Display => b"display".as_slice(),
    }
}
