// What a state's line says of its variables.
ghost use Rattle.std.specs.Prelude.{◌≡◌, None, IfOk};
ghost use Rattle.std.specs.Option.{option_copied};
ghost use Rattle.tp_store.specs.Answers.{full_of};
ghost use Rattle.tp_store.specs.Facts.{same_variable};
ghost use Rattle.tp_store.specs.Known.{full};
ghost use Rattle.tp_show.specs.Line.{plain_part, plain_parts, is_deeper, is_inside, is_value, is_written, known_part, parts_by, shape_part};

use crate::line_part::{LinePart, LineParts};
use std::alloc::Global;
use tp_store::{Known, Store};
use tp_value::{Fact, NoMemory, Path, Shape, Value, VarId};

fn same_variable(x: VarId, y: VarId) -> bool
    ensures { result ≡ same_variable x y }
{
    x == y
}

// The indices begin with these, and go on.
fn goes_on(from: &[u32], at: &[u32]) -> bool
    ensures { result ≡ is_deeper from.now at.now }
{
    from.len() < at.len() && at.starts_with(from)
}

// The path is that of something inside of what stands at the outer path.
fn is_inside(outer: &Path, path: &Path) -> bool
    ensures { result ≡ is_inside outer.now path.now }
{
    same_variable(outer.var, path.var)
        && goes_on(outer.at.items.as_slice(), path.at.items.as_slice())
}

// The path is inside of the last value that was written.
fn is_written(last: Option<&Path>, path: &Path) -> bool
    ensures { result ≡ is_written (option_copied last.entry) path.now }
{
    match last {
        Some(outer) => is_inside(outer, path),
        None => false,
    }
}

// The part of a fact alone.
fn shaped(fact: &Fact) -> Result<LinePart, NoMemory>
    ensures { IfOk result (λ part. plain_part part ≡ shape_part fact.now.path fact.now.shape) }
{
    let path = fact.path.copy()?;
    Ok(match fact.shape {
        Shape::Num(n) => LinePart::Value {
            path,
            value: Value::Num(n),
        },
        Shape::Truth(truth) => LinePart::Value {
            path,
            value: Value::Truth(truth),
        },
        Shape::Items(length) => LinePart::Length { path, length },
    })
}

// The part of a fact of whose path this is known, and whether that is its whole value.
fn part_for(fact: &Fact, known: Known) -> Result<LinePart, NoMemory>
    ensures { IfOk result (λ part. plain_part part ≡ known_part fact.now (full_of known)) }
{
    match known {
        Known::Value(value) => {
            let path = fact.path.copy()?;
            Ok(LinePart::Value { path, value })
        }
        Known::Absent | Known::Open(_) | Known::TooLong => shaped(fact),
    }
}

// Whether a whole value is known.
fn is_whole(known: &Known) -> bool
    ensures { result ≡ is_value (full_of known.now) }
{
    match known {
        Known::Value(_) => true,
        Known::Absent | Known::Open(_) | Known::TooLong => false,
    }
}

/// What the facts come to, in their order, where this store knows their values: a fact inside of a value that is known as a whole
/// makes no part of its own.
pub fn known_parts(alloc: Global, store: &Store, facts: &[Fact]) -> Result<LineParts, NoMemory>
    ensures { IfOk result (λ parts.
        plain_parts parts ≡ parts_by (full store.now.facts) None facts.now) }
{
    let mut items = Vec::new(alloc);
    let mut last: Option<&Path> = None;
    for fact in facts {
        if is_written(last, &fact.path) {
            continue;
        }
        let known = store.full(&fact.path)?;
        if is_whole(&known) {
            last = Some(&fact.path);
        }
        items.push(part_for(fact, known)?)?;
    }
    Ok(LineParts { items })
}
