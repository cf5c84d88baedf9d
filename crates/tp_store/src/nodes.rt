// Facts as a tree of paths: a node for each variable and each place in its value that a fact speaks of, and for those on the way there.
ghost use Rattle.std.specs.Prelude.{◌≡◌, ◌<◌, ◌≤◌, ◌+◌, ◌^◌, ◌++◌, [], ◌∷◌, suc, length, slice_get, slice_index_or, false, Some, None, IsOk, IfOk, OnOk, OnErr, ℕ, Bool};
ghost use Rattle.std.specs.Hash as fed;
ghost use Rattle.std.specs.Cmp.Rules.{hashing};
ghost use Rattle.std.specs.List.{IsDistinct};
ghost use Rattle.indexmap.specs.IndexMap.{spare};
ghost use Rattle.std.proofs.Common.{rules};
ghost use Rattle.tp_store.specs.Nodes.{edge_number, bare_node, edges_in, nodes_in, child, same_edge, node_from, routes, path_of, way_of, shape_among, shape_found, beyond_among, item_shape, lacks_way, lacks_path, with_node, with_shape_at, facts_in_tree, route_to, index_behind, missing_nodes, IsTree, HasMoreNodes, IsRaised};
ghost use Rattle.tp_store.specs.Facts.{fact};

use crate::clash::lacks_item;
use indexmap::IndexMap;
use std::alloc::Global;
use std::hash::{Hash, Hasher};
use tp_value::{Indices, NoMemory, Path, Shape, VarId};

/// From a node to its child with this index: that of an item, or a variable's number.
#[derive(Clone, Copy, Debug, PartialEq, Eq)]
pub struct Edge {
    pub node: u64,
    pub index: u64,
}

// Both numbers as one, of which a hasher takes half the time.
impl Hash for Edge {
    ghost hash_input = { λ e. fed.u64 (edge_number e) };

    ghost respects_eq = { Prim.search (hashing, rules) };

    fn hash<H: Hasher>(&self, state: &mut H) {
        let high = self.node.wrapping_mul(1 << 32);
        state.write_u64(high.wrapping_add(self.index));
    }
}

/// What is kept at a node, and a number that the indices of its children are less than.
#[derive(Clone, Copy)]
pub struct Node {
    pub shape: Option<Shape>,
    pub beyond: u64,
}

// Makes the list so long, where it isn't; what stands in it stays.
fn lengthen(places: &mut Vec<u64>, count: u64) -> Result<(), NoMemory>
    ensures kept { (k p : ℕ) → slice_get places.old.items k ≡ Some p
        → slice_get places.new.items k ≡ Some p }
    ensures more { length places.old.items ≤ length places.new.items }
    ensures ok { OnOk result (count ≤ length places.new.items) }
{
    if places.len() < count as usize {
        places.resize(count as usize, 0)?;
    }
    Ok(())
}

/// The nodes below the root, which is node 0: the i-th of them, from 0, is node i + 1 and is found by the edge that leads to it. The
/// children of the root are the variables, by their numbers, and those of other nodes are items.
#[derive(Drop)]
pub struct Nodes {
    below: IndexMap<Edge, Node>,
    // For each variable, by its number, the place of the edge that leads to its node, where it has one. Where the edge there is another
    // one, it has none; so the node of a variable is found without a look by its edge, and a place may stay that is past. The list is as
    // long as there are variables, so that a node of each can be made where there is room for nodes alone.
    places: Vec<u64>,
}

// A node at which nothing is kept, and which has no children.
const BARE: Node = Node {
    shape: None,
    beyond: 0,
};

impl Nodes {
    /// The root alone.
    pub fn new(alloc: Global) -> Nodes
        ensures edges { edges_in result ≡ [] }
        ensures nodes { nodes_in result ≡ bare_node ∷ [] }
    {
        Nodes {
            below: IndexMap::new(alloc),
            places: Vec::new(alloc),
        }
    }

    /// How many nodes there are below the root.
    pub fn count(&self) -> usize
        ensures value { result ≡ length (edges_in self.now) }
        ensures bound { result < 2 ^ 63 }
        ensures unique { IsDistinct same_edge (edges_in self.now) }
    {
        self.below.len()
    }

    /// The node with that number.
    pub fn node(&self, number: u64) -> Option<Node>
        ensures { result ≡ slice_get (nodes_in self.now) number }
    {
        if number == 0 {
            return Some(BARE);
        }
        match self.below.get_index((number - 1) as usize) {
            Some((_, node)) => Some(*node),
            None => None,
        }
    }

    /// What is kept at the node with that number.
    pub fn shape(&self, number: u64) -> Option<Shape>
        ensures { result ≡ shape_among (nodes_in self.now) number }
    {
        match self.node(number) {
            Some(node) => node.shape,
            None => None,
        }
    }

    /// A number that the indices of the children of the node with that number are less than.
    pub fn bound(&self, number: u64) -> u64
        ensures { result ≡ beyond_among (nodes_in self.now) number }
    {
        match self.node(number) {
            Some(node) => node.beyond,
            None => 0,
        }
    }

    // The child of a node with that index.
    fn child(&self, node: u64, index: u64) -> Option<u64>
        ensures value { result ≡ child (edges_in self.now) node index }
        ensures unique { IsDistinct same_edge (edges_in self.now) }
    {
        let _count = self.below.len();
        match self.below.get_index_of(&Edge { node, index }) {
            Some(i) => Some(i as u64 + 1),
            None => None,
        }
    }

    /// The child of a node with that index. Where it is the node right behind the node `last` it is found without a look by its edge.
    pub fn child_behind(&self, last: u64, node: u64, index: u64) -> Option<u64>
        ensures { result ≡ child (edges_in self.now) node index }
    {
        let _count = self.below.len();
        if let Some((edge, _)) = self.below.get_index(last as usize) {
            if edge.node == node && edge.index == index {
                return Some(last + 1);
            }
        }
        self.child(node, index)
    }

    /// A number that those of the variables with nodes are less than.
    pub fn places(&self) -> u64
        ensures { result ≡ length self.now.places.items }
    {
        self.places.len() as u64
    }

    /// The node of the variable with that number.
    pub fn root(&self, number: u64) -> Option<u64>
        requires { IsTree self.now }
        ensures { result ≡ child (edges_in self.now) 0 number }
    {
        let _count = self.below.len();
        if number >= self.places.len() as u64 {
            return None;
        }
        let place = self.places[number as usize];
        let Some((edge, _)) = self.below.get_index(place as usize) else {
            return None;
        };
        if edge.node == 0 && edge.index == number {
            Some(place + 1)
        } else {
            None
        }
    }

    /// The node to which the path leads.
    pub fn find(&self, path: &Path) -> Option<u64>
        requires { IsTree self.now }
        ensures { result ≡ node_from (edges_in self.now) (way_of path.now) 0 }
    {
        let mut node = self.root(path.var.number)?;
        for index in path.at.items.as_slice() {
            node = self.child(node, u64::from(*index))?;
        }
        Some(node)
    }

    /// What is kept at the node to which the path leads, where there is one.
    pub fn kept(&self, path: &Path) -> Option<Shape>
        requires { IsTree self.now }
        ensures { result
            ≡ shape_found (nodes_in self.now) (node_from (edges_in self.now) (way_of path.now) 0) }
    {
        match self.find(path) {
            Some(number) => self.shape(number),
            None => None,
        }
    }

    /// Whether there is a node of the variable with that number.
    pub fn leads_to(&self, number: u64) -> bool
        requires { IsTree self.now }
        ensures { result ≡ false → child (edges_in self.now) 0 number ≡ None }
    {
        self.root(number).is_some()
    }

    /// What is kept of the variable with that number.
    pub fn variable(&self, number: u64) -> Option<Shape>
        requires { IsTree self.now }
        ensures { result
            ≡ shape_found (nodes_in self.now) (node_from (edges_in self.now) (number ∷ []) 0) }
    {
        match self.root(number) {
            Some(node) => self.shape(node),
            None => None,
        }
    }

    /// What is kept of an item of the variable with that number.
    pub fn item_shape(&self, number: u64, index: u32) -> Option<Shape>
        requires { IsTree self.now }
        ensures { result ≡ item_shape self.now number index }
    {
        let list = self.root(number)?;
        let item = self.child(list, u64::from(index))?;
        self.shape(item)
    }

    // Whether a shape on the way that these indices lead from a node has no item with the next of them.
    fn lacks_from(&self, from: u64, at: &[u32]) -> bool
        ensures { result ≡ lacks_way (edges_in self.now) (nodes_in self.now) at.now from }
    {
        let mut node = from;
        for i in 0..at.len() {
            if lacks_item(self.shape(node), at[i]) {
                return true;
            }
            if i + 1 == at.len() {
                return false;
            }
            let Some(next) = self.child(node, u64::from(at[i])) else {
                return false;
            };
            node = next;
        }
        false
    }

    /// Whether a shape on the way of the path has no item with the next of its indices.
    pub fn lacks(&self, path: &Path) -> bool
        requires { IsTree self.now }
        ensures { result ≡ lacks_path (edges_in self.now) (nodes_in self.now) path.now }
    {
        match self.root(path.var.number) {
            Some(variable) => self.lacks_from(variable, path.at.items.as_slice()),
            None => false,
        }
    }

    // Raises the bound of a node past that index of an item, where it isn't.
    fn raise(&mut self, node: u64, index: u64)
        requires tree { IsTree self.old }
        requires below { 0 < node }
        requires from { node < length (nodes_in self.old) }
        requires narrow { index < 2 ^ 32 }
        ensures { IsRaised self.old node index self.new }
    {
        if let Some(kept) = self.below.get_index_mut((node - 1) as usize) {
            kept.beyond = kept.beyond.max(index + 1);
        }
    }

    /// Has a place for each variable with a lesser number.
    pub fn place(&mut self, count: u64) -> Result<(), NoMemory>
        requires { IsTree self.old }
        ensures tree { IsTree self.new }
        ensures below { self.new.below ≡ self.old.below }
        ensures more { length self.old.places.items ≤ length self.new.places.items }
        ensures ok { OnOk result (count ≤ length self.new.places.items) }
    {
        lengthen(&mut self.places, count)
    }

    /// Makes room for so many more nodes.
    pub fn reserve(&mut self, count: usize) -> Result<(), NoMemory>
        requires { IsTree self.old }
        ensures tree { IsTree self.new }
        ensures edges { edges_in self.new ≡ edges_in self.old }
        ensures nodes { nodes_in self.new ≡ nodes_in self.old }
        ensures places { self.new.places.items ≡ self.old.places.items }
        ensures room { spare self.old.below ≤ spare self.new.below }
        ensures ok { OnOk result (count ≤ spare self.new.below) }
    {
        self.below.reserve(count)?;
        Ok(())
    }

    // Leads to the child of a node with that index of an item, which is made where it isn't there yet.
    fn lead(&mut self, node: u64, index: u64) -> Result<u64, NoMemory>
        requires tree { IsTree self.old }
        requires below { 0 < node }
        requires from { node < length (nodes_in self.old) }
        requires narrow { index < 2 ^ 32 }
        ensures tree { IsTree self.new }
        ensures more { HasMoreNodes self.old self.new }
        ensures room { spare self.old.below
            ≤ spare self.new.below + missing_nodes (edges_in self.old) (index ∷ []) node }
        ensures succeeds { missing_nodes (edges_in self.old) (index ∷ []) node ≤ spare self.old.below
            → IsOk result }
        ensures there { (n : ℕ) → child (edges_in self.old) node index ≡ Some n → self.new ≡ self.old }
        ensures unique { IfOk result (λ n. IsDistinct same_edge (edges_in self.new)) }
        ensures within { IfOk result (λ n. n < length (nodes_in self.new)) }
        ensures child { IfOk result (λ n. child (edges_in self.new) node index ≡ Some n) }
    {
        if let Some(found) = self.child(node, index) {
            return Ok(found);
        }
        self.raise(node, index);
        self.below.insert(Edge { node, index }, BARE)?;
        Ok(self.below.len() as u64)
    }

    // Leads to the node of the variable with that number, which is made where it isn't there yet.
    fn lead_root(&mut self, number: u64) -> Result<u64, NoMemory>
        requires tree { IsTree self.old }
        requires placed { number < length self.old.places.items }
        ensures tree { IsTree self.new }
        ensures more { HasMoreNodes self.old self.new }
        ensures room { spare self.old.below
            ≤ spare self.new.below + missing_nodes (edges_in self.old) (number ∷ []) 0 }
        ensures succeeds { missing_nodes (edges_in self.old) (number ∷ []) 0 ≤ spare self.old.below
            → IsOk result }
        ensures there { (n : ℕ) → child (edges_in self.old) 0 number ≡ Some n → self.new ≡ self.old }
        ensures unique { IfOk result (λ n. IsDistinct same_edge (edges_in self.new)) }
        ensures within { IfOk result (λ n. n < length (nodes_in self.new)) }
        ensures child { IfOk result (λ n. child (edges_in self.new) 0 number ≡ Some n) }
    {
        let _count = self.below.len();
        if let Some(found) = self.root(number) {
            return Ok(found);
        }
        let edge = Edge {
            node: 0,
            index: number,
        };
        self.below.insert(edge, BARE)?;
        let count = self.below.len() as u64;
        self.places[number as usize] = count - 1;
        Ok(count)
    }

    /// Leads to the node of the path; the nodes that aren't there yet are made.
    pub fn make_way(&mut self, path: &Path) -> Result<u64, NoMemory>
        requires tree { IsTree self.old }
        requires placed { path.now.var.number < length self.old.places.items }
        ensures tree { IsTree self.new }
        ensures more { HasMoreNodes self.old self.new }
        ensures room { spare self.old.below
            ≤ spare self.new.below + missing_nodes (edges_in self.old) (way_of path.now) 0 }
        ensures succeeds { missing_nodes (edges_in self.old) (way_of path.now) 0 ≤ spare self.old.below
            → IsOk result }
        ensures unique { IfOk result (λ n. IsDistinct same_edge (edges_in self.new)) }
        ensures way { IfOk result (λ n.
            node_from (edges_in self.new) (way_of path.now) 0 ≡ Some n) }
    {
        let mut node = self.lead_root(path.var.number)?;
        for index in path.at.items.as_slice() {
            node = self.lead(node, u64::from(*index))?;
        }
        Ok(node)
    }

    /// Keeps the shape at the node with that number, which isn't the root.
    pub fn keep(&mut self, number: u64, shape: Shape)
        requires below { 0 < number }
        requires within { number < length (nodes_in self.old) }
        ensures edges { edges_in self.new ≡ edges_in self.old }
        ensures places { self.new.places.items ≡ self.old.places.items }
        ensures room { spare self.new.below ≡ spare self.old.below }
        ensures nodes { nodes_in self.new ≡ with_shape_at (nodes_in self.old) number shape }
    {
        if let Some(kept) = self.below.get_index_mut((number - 1) as usize) {
            kept.shape = Some(shape);
        }
    }

    /// Drops all nodes but the root, and keeps their room.
    pub fn clear(&mut self)
        ensures edges { edges_in self.new ≡ [] }
        ensures nodes { nodes_in self.new ≡ bare_node ∷ [] }
        ensures places { self.new.places.items ≡ self.old.places.items }
        ensures room { spare self.old.below ≤ spare self.new.below }
    {
        self.below.clear();
    }

    // The edge that leads to the node with that number, which isn't the root.
    fn edge_to(&self, number: u64) -> Edge
        requires tree { IsTree self.now }
        requires below { 0 < number }
        requires within { number < length (nodes_in self.now) }
        ensures before { result.node < number }
        ensures narrow { 0 < result.node → result.index < 2 ^ 32 }
        ensures route { slice_index_or (routes (edges_in self.now)) number []
            ≡ slice_index_or (routes (edges_in self.now)) result.node [] ++ result.index ∷ [] }
    {
        let Some((edge, _)) = self.below.get_index((number - 1) as usize) else {
            unreachable!();
        };
        *edge
    }

    /// The index that follows the way of the first node in that of the second, where this one goes on from there; neither is the root.
    pub fn index_after(&self, first: u64, second: u64) -> Option<u64>
        requires tree { IsTree self.now }
        requires below { (0 < first) × (0 < second) }
        requires within { (first < length (nodes_in self.now)) × (second < length (nodes_in self.now)) }
        ensures { result ≡ index_behind (route_to self.now first) (route_to self.now second) }
    {
        let _count = self.count();
        let edge = self.edge_to(second);
        if edge.node == first {
            return Some(edge.index);
        }
        if edge.node == 0 {
            return None;
        }
        self.index_after(first, edge.node)
    }

    /// The number of the variable of whose value the node with that number, which isn't the root, is a part.
    pub fn owner(&self, number: u64) -> u64
        requires tree { IsTree self.now }
        requires below { 0 < number }
        requires within { number < length (nodes_in self.now) }
        ensures { (b : Bool) → result
            ≡ (path_of b (slice_index_or (routes (edges_in self.now)) number [])).var.number }
    {
        let edge = self.edge_to(number);
        if edge.node == 0 {
            return edge.index;
        }
        self.owner(edge.node)
    }

    /// The path of the node with that number, which isn't the root, of variables of this kind.
    pub fn path(&self, alloc: Global, lasting: bool, number: u64) -> Result<Path, NoMemory>
        requires tree { IsTree self.now }
        requires below { 0 < number }
        requires within { number < length (nodes_in self.now) }
        ensures { IfOk result (λ p.
            p ≡ path_of lasting (slice_index_or (routes (edges_in self.now)) number [])) }
    {
        let Edge { node, index } = self.edge_to(number);
        if node == 0 {
            let at = Indices::new(alloc);
            return Ok(Path {
                var: VarId {
                    number: index,
                    lasting,
                },
                at,
            });
        }
        let mut path = self.path(alloc, lasting, node)?;
        path.at.items.push(index as u32)?;
        Ok(path)
    }
}
