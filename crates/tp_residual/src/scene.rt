// How the scene with which a state begins is spelled.
ghost use Rattle.std.specs.Prelude.{◌≡◌, ◌<◌, ◌++◌, length, IfOk, OnOk};
ghost use Rattle.tp_tree.specs.Levels.{not_level, kind_level};
ghost use Rattle.tp_tree.specs.Spelling.{kind_spelling};
ghost use Rattle.tp_decide.specs.ReadBound.{env_of, formula_of};
ghost use Rattle.tp_slots.specs.Own.{own_for, own_inside};
ghost use Rattle.tp_slots.specs.Plain.{IsOrdered};
ghost use Rattle.tp_slots.specs.Read.{slots_of};
ghost use Rattle.tp_residual.specs.Parts.{enclosed};
ghost use Rattle.tp_residual.specs.Seen.{item_level_in, item_spelling, phrase_kind, region_kind, region_spelling};

use crate::expr::append_operator;
use crate::formula::{append_formula, formula_level};
use crate::words::{Bound, Words};
use std::alloc::Global;
use tp_decide::{BoundFormula, Leaf};
use tp_kernel::Defs;
use tp_slots::{Holder, Scene, What};
use tp_store::Store;
use tp_tree::Op;
use tp_tree::level::{AND, CHOP, NOT, left_level, right_level};
use tp_value::{NoMemory, Text};

/// A scene of which the residual phrase is spelled, and by what the names in it are; and where memory is taken.
#[derive(Clone, Copy)]
pub struct Residue<'a> {
    pub alloc: Global,
    pub scene: &'a Scene,
    pub store: &'a Store,
    pub defs: &'a Defs,
}

// Adds the item, or those that stand in its place.
fn push_standing(scene: &Scene, item: u64, out: &mut Vec<u64>) -> Result<(), NoMemory>
    requires sound { IsOrdered (slots_of scene.now) }
    requires item { item < length scene.now.slots.items }
    ensures { OnOk result (out.new.items ≡ out.old.items ++ own_for (slots_of scene.now) item) }
{
    match &scene.slots[item as usize].what {
        What::Gone { first, count } => {
            for i in 0..*count {
                push_standing(scene, *first + i, out)?;
            }
        }
        What::Leaf(_) | What::Holder(_) => out.push(item)?,
    }
    Ok(())
}

// The items of a region in order, without those inside of them.
fn own_items(alloc: Global, scene: &Scene, region: u64) -> Result<Vec<u64>, NoMemory>
    requires sound { IsOrdered (slots_of scene.now) }
    requires region { region < length scene.now.regions.items }
    ensures { IfOk result (λ v. v.items ≡ own_inside scene.now region) }
{
    let mut out = Vec::new(alloc);
    for item in &scene.regions[region as usize].roots {
        push_standing(scene, *item, &mut out)?;
    }
    Ok(out)
}

// The level of an item. A scene with which a state begins has items of the first two kinds alone.
fn item_level(residue: &Residue, item: u64) -> u8
    requires { item < length residue.now.scene.now.slots.items }
    ensures { result ≡ item_level_in residue.now item }
{
    match &residue.scene.slots[item as usize].what {
        What::Leaf(Leaf::Do(phrase)) => formula_level(&phrase.what),
        What::Leaf(Leaf::Later(_) | Leaf::Shown(_)) => 0,
        What::Holder(Holder::Split { .. } | Holder::SplitProject { .. }) => CHOP,
        What::Holder(Holder::Closed(_) | Holder::Opened { .. } | Holder::Running { .. }) => 0,
        What::Gone { .. } => 0,
    }
}

// The level of a region's entries, which are these items.
fn entries_level(residue: &Residue, region: u64, items: &[u64]) -> u8
    requires sound { IsOrdered (slots_of residue.now.scene.now) }
    requires region { region < length residue.now.scene.now.regions.items }
    requires items { items.now ≡ own_inside residue.now.scene.now region }
    ensures { result ≡ kind_level (region_kind residue.now region) }
{
    match items {
        [] => 0,
        [item] => item_level(residue, *item),
        _ => AND,
    }
}

// Appends a formula with what its bound names stand for, with no parentheses round the whole.
fn append_whole(out: &mut Text, residue: &Residue, due: &BoundFormula) -> Result<(), NoMemory>
    ensures { OnOk result
        (out.new
        ≡ out.old
        ++ kind_spelling (phrase_kind residue.now (env_of due.now) (formula_of due.now))) }
{
    let bound = Bound::Around(&due.env);
    let words = Words {
        alloc: residue.alloc,
        store: residue.store,
        defs: residue.defs,
        bound: &bound,
    };
    append_formula(out, &words, &due.what)
}

// The same, bare where its level is at most this, else in parentheses.
fn append_phrase(
    out: &mut Text,
    residue: &Residue,
    due: &BoundFormula,
    most: u8,
) -> Result<(), NoMemory>
    ensures { let k = phrase_kind residue.now (env_of due.now) (formula_of due.now) in OnOk
        result (out.new ≡ out.old ++ enclosed most (kind_level k) (kind_spelling k)) }
{
    if formula_level(&due.what) <= most {
        append_whole(out, residue, due)
    } else {
        out.append(b"(")?;
        append_whole(out, residue, due)?;
        out.append(b")")
    }
}

// Appends the conjunction of a region's entries, bare where its level is at most this, else in parentheses.
#[cycle(regions)]
fn append_region(out: &mut Text, residue: &Residue, region: u64, most: u8) -> Result<(), NoMemory>
    requires sound { IsOrdered (slots_of residue.now.scene.now) }
    requires region { region < length residue.now.scene.now.regions.items }
    ensures { OnOk result
        (out.new
        ≡ out.old
        ++ enclosed most (kind_level (region_kind residue.now region))
        (region_spelling residue.now region)) }
{
    let items = own_items(residue.alloc, residue.scene, region)?;
    if entries_level(residue, region, items.as_slice()) <= most {
        append_items(out, residue, region, items.as_slice())
    } else {
        out.append(b"(")?;
        append_items(out, residue, region, items.as_slice())?;
        out.append(b")")
    }
}

// Appends the conjunction of a region's entries, which are these items.
#[cycle(regions)]
fn append_items(
    out: &mut Text,
    residue: &Residue,
    region: u64,
    items: &[u64],
) -> Result<(), NoMemory>
    requires sound { IsOrdered (slots_of residue.now.scene.now) }
    requires region { region < length residue.now.scene.now.regions.items }
    requires items { items.now ≡ own_inside residue.now.scene.now region }
    ensures { OnOk result (out.new ≡ out.old ++ region_spelling residue.now region) }
{
    match items {
        [] => out.append(b"true"),
        [item] => append_item(out, residue, *item),
        _ => {
            let mut opening = b"".as_slice();
            for i in 0..items.len() {
                append_operand(out, residue, opening, items[i])?;
                opening = b" and ".as_slice();
            }
            Ok(())
        }
    }
}

// Appends the text and then an item as an operand of `and`.
#[cycle(regions)]
fn append_operand(
    out: &mut Text,
    residue: &Residue,
    before: &[u8],
    item: u64,
) -> Result<(), NoMemory>
    requires sound { IsOrdered (slots_of residue.now.scene.now) }
    requires item { item < length residue.now.scene.now.slots.items }
    ensures { OnOk result
        (out.new
        ≡ out.old
        ++ (before.now
        ++ enclosed not_level (item_level_in residue.now item)
        (item_spelling residue.now item))) }
{
    out.append(before)?;
    if item_level(residue, item) <= NOT {
        append_item(out, residue, item)
    } else {
        out.append(b"(")?;
        append_item(out, residue, item)?;
        out.append(b")")
    }
}

// Appends an item, with no parentheses round the whole.
#[cycle(regions)]
fn append_item(out: &mut Text, residue: &Residue, item: u64) -> Result<(), NoMemory>
    requires sound { IsOrdered (slots_of residue.now.scene.now) }
    requires item { item < length residue.now.scene.now.slots.items }
    ensures { OnOk result (out.new ≡ out.old ++ item_spelling residue.now item) }
{
    match &residue.scene.slots[item as usize].what {
        What::Leaf(Leaf::Do(phrase)) => append_whole(out, residue, phrase),
        What::Leaf(Leaf::Later(_) | Leaf::Shown(_)) => Ok(()),
        What::Holder(Holder::Split { left, after }) => {
            append_region(out, residue, *left, left_level(Op::Chop))?;
            append_operator(out, Op::Chop)?;
            append_phrase(out, residue, after, right_level(Op::Chop))
        }
        What::Holder(Holder::SplitProject { left, outer, piece }) => {
            append_region(out, residue, *left, left_level(Op::Chop))?;
            append_operator(out, Op::Chop)?;
            append_phrase(out, residue, piece, left_level(Op::Proj))?;
            append_operator(out, Op::Proj)?;
            append_region(out, residue, *outer, right_level(Op::Proj))
        }
        What::Holder(Holder::Closed(_) | Holder::Opened { .. } | Holder::Running { .. }) => Ok(()),
        What::Gone { .. } => Ok(()),
    }
}

/// Appends the conjunction of the root's entries, with no parentheses round the whole.
#[tactic(auto, using(tp_slots::proofs::WalkLemmas::root_within))]
pub fn append_scene(out: &mut Text, residue: &Residue) -> Result<(), NoMemory>
    requires { IsOrdered (slots_of residue.now.scene.now) }
    ensures { OnOk result (out.new ≡ out.old ++ region_spelling residue.now 0) }
{
    let items = own_items(residue.alloc, residue.scene, 0)?;
    append_items(out, residue, 0, items.as_slice())
}
