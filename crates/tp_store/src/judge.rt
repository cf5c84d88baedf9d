// What becomes of a fact, by a look or two at the tree of those that are kept.
ghost use Rattle.std.specs.Prelude.{◌≡◌, ◌<◌, length, true, false, Some, IsTrue, ℕ};
ghost use Rattle.tp_store.specs.Facts.{fact, has_item};
ghost use Rattle.tp_store.specs.Known.{NoClash};
ghost use Rattle.tp_store.specs.Nodes.{edges_in, nodes_in, node_from, facts_in_tree, way_of, IsTree, IsCutOff};
ghost use Rattle.tp_store.specs.Answers.{IsNoted};

use crate::clash::{lacks, same_shape};
use crate::nodes::Nodes;
use crate::note::Noted;
use tp_value::{Path, Shape};

// Whether the shape has an item at each index below this bound.
fn has_all(shape: Shape, beyond: u64) -> bool
    ensures { IsTrue result → (k : ℕ) → k < beyond → has_item shape k ≡ true }
{
    match shape {
        Shape::Items(n) => beyond <= u64::from(n),
        Shape::Num(_) | Shape::Truth(_) => beyond == 0,
    }
}

// Whether a fact that is kept has a path which goes on from this node, at which nothing is kept, with an index that the shape has no item for.
fn cuts_off(nodes: &Nodes, number: u64, shape: Shape) -> bool
    requires tree { IsTree nodes.now }
    requires below { 0 < number }
    requires within { number < length (nodes_in nodes.now) }
    ensures found { result ≡ true
        → (at : ℕ) × (at < length (nodes_in nodes.now)) × IsCutOff nodes.now number shape at }
    ensures none { result ≡ false → (at : ℕ) → IsCutOff nodes.now number shape at → ⊥ }
{
    for place in 0..nodes.count() {
        let other = place as u64 + 1;
        if nodes.shape(other).is_some() && lacks(shape, nodes.index_after(number, other)) {
            return true;
        }
    }
    false
}

// What becomes of a fact whose path leads to the node with that number, of a variable of the same kind.
fn judge_at(nodes: &Nodes, number: u64, path: &Path, shape: Shape) -> Noted
    requires tree { IsTree nodes.now }
    requires no_clash { NoClash (facts_in_tree path.now.var.lasting nodes.now) }
    requires way { node_from (edges_in nodes.now) (way_of path.now) 0 ≡ Some number }
    ensures { IsNoted (facts_in_tree path.now.var.lasting nodes.now) (fact path.now shape) result }
{
    let _count = nodes.count();
    if let Some(kept) = nodes.shape(number) {
        return if same_shape(kept, shape) {
            Noted::Kept
        } else {
            Noted::Clash
        };
    }
    // most often the bound of the children's indices shows that no fact is cut off
    let is_cut = !has_all(shape, nodes.bound(number)) && cuts_off(nodes, number, shape);
    if is_cut || nodes.lacks(path) {
        Noted::Clash
    } else {
        Noted::New
    }
}

/// What becomes of a fact of a variable of the same kind.
pub fn judge_in(nodes: &Nodes, path: &Path, shape: Shape) -> Noted
    requires tree { IsTree nodes.now }
    requires no_clash { NoClash (facts_in_tree path.now.var.lasting nodes.now) }
    ensures { IsNoted (facts_in_tree path.now.var.lasting nodes.now) (fact path.now shape) result }
{
    let _count = nodes.count();
    match nodes.find(path) {
        Some(number) => judge_at(nodes, number, path, shape),
        None => {
            if nodes.lacks(path) {
                Noted::Clash
            } else {
                Noted::New
            }
        }
    }
}
