// Equal facts to those of a tree, found by a walk through the nodes of the variables that are asked for.
ghost use Rattle.std.specs.Prelude.{◌≡◌, ◌+◌, ◌++◌, ℕ, Some, OnOk};
ghost use Rattle.tp_value.specs.declared.path.Path.{Path as PathSeen};
ghost use Rattle.tp_store.specs.Facts.{item_path};
ghost use Rattle.tp_store.specs.declared.copies.AskedVariables.{AskedVariables as WhichSeen};
ghost use Rattle.tp_store.specs.Known.{NoClash, facts_below};
ghost use Rattle.tp_store.specs.Changes.{HasAppended};
ghost use Rattle.tp_store.specs.FactMap.{facts_asked, facts_from};
ghost use Rattle.tp_store.specs.Nodes.{edges_in, fact_where, facts_in_tree, node_from, way_of, IsTree};

use crate::copies::{AskedVariables, copy_facts};
use crate::nodes::Nodes;
use std::alloc::Global;
use tp_value::{Fact, Indices, NoMemory, Path, Shape, VarId};

// Why a walk ended early: lists have gaps, so that to look at each node takes fewer turns, or for want of memory.
#[derive(Drop)]
pub enum WalkRefusal {
    Sparse,
    NoMemory,
}

impl From<NoMemory> for WalkRefusal {
    ghost use Rattle.std.specs.Prelude.{◌≡◌};
    ghost use Rattle.tp_store.specs.declared.walk.WalkRefusal.{WalkRefusal};
    ghost use Rattle.tp_store.specs.declared.walk.WalkRefusal.TheVariants as refusal;

    ghost from_gives = { λ e r. r ≡ refusal.NoMemory };

    fn from(_: NoMemory) -> WalkRefusal {
        WalkRefusal::NoMemory
    }
}

// Appends the fact of a path, where it has a shape.
fn append_fact(path: &Path, shape: Option<Shape>, facts: &mut Vec<Fact>) -> Result<(), NoMemory>
    ensures { OnOk result (facts.new.items
        ≡ facts.old.items ++ fact_where path.now.var.lasting (way_of path.now) shape) }
{
    if let Some(shape) = shape {
        let path = path.copy()?;
        facts.push(Fact { path, shape })?;
    }
    Ok(())
}

// Leads the path on to an item of what stands there.
fn go_in(path: &mut Path, index: u32) -> Result<(), NoMemory>
    ensures { OnOk result (path.new ≡ item_path path.old index) }
{
    path.at.items.push(index)?;
    Ok(())
}

// Leads the path back from an item.
fn go_out(path: &mut Path)
    ensures { (outer : PathSeen) (k : ℕ) → path.old ≡ item_path outer k → path.new ≡ outer }
{
    path.at.items.pop();
}

// Takes so many of the turns that are left.
fn take_turns(turns: &mut u64, count: u64) -> Result<(), WalkRefusal>
    ensures { OnOk result (turns.new + count ≡ turns.old) }
{
    match turns.checked_sub(count) {
        Some(left) => {
            *turns = left;
            Ok(())
        }
        None => Err(WalkRefusal::Sparse),
    }
}

// Appends the fact of the node to which the path leads, then those of its items in the order of their indices, each with what is below it.
// Gives the last node that was come to: mostly the next item is right behind it.
fn copy_from(
    nodes: &Nodes,
    node: u64,
    path: &mut Path,
    turns: &mut u64,
    facts: &mut Vec<Fact>,
) -> Result<u64, WalkRefusal>
    requires tree { IsTree nodes.now }
    requires no_clash { NoClash (facts_in_tree path.old.var.lasting nodes.now) }
    requires way { node_from (edges_in nodes.now) (way_of path.old) 0 ≡ Some node }
    ensures path { OnOk result (path.new ≡ path.old) }
    ensures facts { OnOk result (HasAppended
        (facts_from path.old (facts_in_tree path.old.var.lasting nodes.now))
        facts.old.items facts.new.items) }
{
    let _count = nodes.count();
    append_fact(path, nodes.shape(node), facts)?;
    let bound = nodes.bound(node);
    take_turns(turns, bound)?;
    let mut last = node;
    for index in 0..bound {
        if let Some(item) = nodes.child_behind(last, node, index) {
            go_in(path, index as u32)?;
            last = copy_from(nodes, item, path, turns, facts)?;
            go_out(path);
        }
    }
    Ok(last)
}

// Appends the facts of the variable with that number.
fn copy_variable(
    alloc: Global,
    lasting: bool,
    nodes: &Nodes,
    number: u64,
    turns: &mut u64,
    facts: &mut Vec<Fact>,
) -> Result<(), WalkRefusal>
    requires tree { IsTree nodes.now }
    requires no_clash { NoClash (facts_in_tree lasting nodes.now) }
    ensures { OnOk result (HasAppended
        (facts_asked (WhichSeen.Of number) (facts_in_tree lasting nodes.now))
        facts.old.items facts.new.items) }
{
    let _count = nodes.count();
    let Some(node) = nodes.root(number) else {
        return Ok(());
    };
    let var = VarId { number, lasting };
    let at = Indices::new(alloc);
    let mut path = Path { var, at };
    copy_from(nodes, node, &mut path, turns, facts)?;
    Ok(())
}

// Appends the facts of the variables with lesser numbers, one variable after the other.
fn copy_variables(
    alloc: Global,
    lasting: bool,
    nodes: &Nodes,
    below: u64,
    facts: &mut Vec<Fact>,
) -> Result<(), WalkRefusal>
    requires tree { IsTree nodes.now }
    requires no_clash { NoClash (facts_in_tree lasting nodes.now) }
    ensures { OnOk result (HasAppended (facts_below below (facts_in_tree lasting nodes.now))
        facts.old.items facts.new.items) }
{
    // Where lists have no gaps, each turn comes to another node. A list with an item alone would take as many as the item's index.
    let mut turns = nodes.count() as u64 * 2;
    for number in 0..below.min(nodes.places()) {
        copy_variable(alloc, lasting, nodes, number, &mut turns, facts)?;
    }
    Ok(())
}

/// Appends the facts of the variables with lesser numbers, as facts of variables of this kind. Where their lists have few gaps, only their
/// own nodes are looked at; it never takes more than a few looks for each node.
pub fn copy_below(
    alloc: Global,
    lasting: bool,
    nodes: &Nodes,
    below: u64,
    facts: &mut Vec<Fact>,
) -> Result<(), NoMemory>
    requires tree { IsTree nodes.now }
    requires no_clash { NoClash (facts_in_tree lasting nodes.now) }
    ensures { OnOk result (HasAppended (facts_below below (facts_in_tree lasting nodes.now))
        facts.old.items facts.new.items) }
{
    let mut found = Vec::new(alloc);
    match copy_variables(alloc, lasting, nodes, below, &mut found) {
        Ok(()) => {
            facts.append(&mut found)?;
            Ok(())
        }
        Err(WalkRefusal::Sparse) => copy_facts(
            alloc,
            lasting,
            nodes,
            AskedVariables::Below(below),
            facts,
        ),
        Err(WalkRefusal::NoMemory) => Err(NoMemory),
    }
}
