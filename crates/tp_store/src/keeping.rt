// Facts that come to a tree: room is made for the nodes of their paths, and then shapes are written there.
ghost use Rattle.std.specs.Prelude.{◌≡◌, ◌<◌, ◌≤◌, ◌+◌, ◌∷◌, [], suc, length, Some, Bool, IfOk, OnOk, OnErr};
ghost use Rattle.indexmap.specs.IndexMap.{spare};
ghost use Rattle.tp_store.specs.Facts.{fact};
ghost use Rattle.tp_store.specs.Nodes.{edges_in, node_from, way_of, facts_in_tree, steps_behind, room_behind, room_for, missing_nodes, IsTree, HasNode, ArePlaced, KeepsAll};

use crate::nodes::Nodes;
use tp_value::{Fact, NoMemory, Path, Shape};

// Keeps a shape at the node to which the path leads.
fn keep_at(nodes: &mut Nodes, way: u64, path: &Path, shape: Shape)
    requires tree { IsTree nodes.old }
    requires way { node_from (edges_in nodes.old) (way_of path.now) 0 ≡ Some way }
    ensures tree { IsTree nodes.new }
    ensures edges { edges_in nodes.new ≡ edges_in nodes.old }
    ensures places { length nodes.new.places.items ≡ length nodes.old.places.items }
    ensures room { spare nodes.new.below ≡ spare nodes.old.below }
    ensures kept { KeepsAll nodes.old (fact path.now shape ∷ []) nodes.new }
{
    let _count = nodes.count();
    nodes.keep(way, shape);
}

/// Keeps a shape at the path, which has none: it takes one node for the variable and one for each index, where they aren't there yet.
pub fn keep_shape(nodes: &mut Nodes, path: &Path, shape: Shape)
    requires tree { IsTree nodes.old }
    requires placed { path.now.var.number < length nodes.old.places.items }
    requires room { missing_nodes (edges_in nodes.old) (way_of path.now) 0 ≤ spare nodes.old.below }
    ensures tree { IsTree nodes.new }
    ensures way { HasNode (edges_in nodes.new) (way_of path.now) }
    ensures places { length nodes.new.places.items ≡ length nodes.old.places.items }
    ensures room { spare nodes.old.below
        ≤ spare nodes.new.below + missing_nodes (edges_in nodes.old) (way_of path.now) 0 }
    ensures kept { KeepsAll nodes.old (fact path.now shape ∷ []) nodes.new }
{
    let Ok(way) = nodes.make_way(path) else {
        unreachable!();
    };
    keep_at(nodes, way, path, shape);
}

// How many of the second indices follow those that both begin with.
fn indices_behind(first: &[u32], second: &[u32]) -> usize
    ensures { result ≡ steps_behind first.now second.now }
{
    let mut shared = 0usize;
    while shared < first.len() && shared < second.len() && first[shared] == second[shared] {
        shared += 1;
    }
    second.len() - shared
}

// How many nodes the way to a path has, its variable's among them.
fn node_count(path: &Path) -> usize
    ensures { result ≡ length (way_of path.now) }
{
    path.at.items.len() + 1
}

// How many nodes of the way to the second path aren't on that to the first.
fn nodes_behind(first: &Path, second: &Path) -> usize
    ensures { result ≡ steps_behind (way_of first.now) (way_of second.now) }
{
    if first.var.number == second.var.number {
        indices_behind(first.at.items.as_slice(), second.at.items.as_slice())
    } else {
        node_count(second)
    }
}

// How many nodes the paths of these facts take at most, where each goes on from that of the fact before it.
fn room_for(facts: &[Fact]) -> Result<usize, NoMemory>
    ensures { IfOk result (λ room. room ≡ room_for facts.now) }
{
    let Some(first) = facts.first() else {
        return Ok(0);
    };
    let mut room = node_count(&first.path);
    let mut before = &first.path;
    for fact in facts {
        let Some(more) = room.checked_add(nodes_behind(before, &fact.path)) else {
            return Err(NoMemory);
        };
        room = more;
        before = &fact.path;
    }
    Ok(room)
}

// Keeps the shapes of these facts, where there is room for them.
fn keep_all(nodes: &mut Nodes, facts: &[Fact])
    requires tree { IsTree nodes.old }
    requires placed { ArePlaced (length nodes.old.places.items) facts.now }
    requires room { room_for facts.now ≤ spare nodes.old.below }
    ensures tree { IsTree nodes.new }
    ensures places { length nodes.new.places.items ≡ length nodes.old.places.items }
    ensures kept { KeepsAll nodes.old facts.now nodes.new }
{
    for fact in facts {
        keep_shape(nodes, &fact.path, fact.shape);
    }
}

/// Keeps these facts, or none where memory ends: first room is made for all, then they are kept, which takes no memory.
pub fn keep_facts(nodes: &mut Nodes, facts: &[Fact]) -> Result<(), NoMemory>
    requires tree { IsTree nodes.old }
    requires placed { ArePlaced (length nodes.old.places.items) facts.now }
    ensures tree { IsTree nodes.new }
    ensures places { length nodes.new.places.items ≡ length nodes.old.places.items }
    ensures ok { OnOk result (KeepsAll nodes.old facts.now nodes.new) }
    ensures err { OnErr result ((b : Bool) → facts_in_tree b nodes.new ≡ facts_in_tree b nodes.old) }
{
    let room = room_for(facts)?;
    nodes.reserve(room)?;
    keep_all(nodes, facts);
    Ok(())
}
