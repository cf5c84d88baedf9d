// What is known of the value at a path.
ghost use Rattle.std.specs.Prelude.{◌≡◌, ◌<◌, ℕ, Some, length, IfOk};
ghost use Rattle.std.specs.Option.{option_copied};
ghost use Rattle.std.specs.declared.rc.Rc.{Rc};
ghost use Rattle.std.specs.declared.alloc.Global.{Global};
ghost use Rattle.tp_value.specs.Read.{tree};
ghost use Rattle.tp_value.specs.declared.value.Value.{Value as ValueSeen};
ghost use Rattle.tp_value.specs.declared.path.Path.{Path as PathSeen};
ghost use Rattle.tp_store.specs.Known.{full, value, whole, list_of_items, items_known};
ghost use Rattle.tp_store.specs.Stock.{contents_in};
ghost use Rattle.tp_store.specs.Changes.{IsSoundStore};
ghost use Rattle.tp_store.specs.Facts.{item_path};
ghost use Rattle.tp_store.specs.Nodes.{edges_in, facts_in_tree, node_from, way_of, IsTree};
ghost use Rattle.tp_store.specs.Answers.{full_of, whole_of};

use crate::fact_map::FactMap;
use crate::nodes::Nodes;
use crate::store::{Store, part};
use std::alloc::Global;
use std::rc::Rc;
use tp_value::{Items, NoMemory, Path, Shape, Value, is_within_list_limit};

/// What is known of the value at a path: there is no such element, the shape of this path isn't kept yet, it is longer than a list may be,
/// or it is this value.
#[derive(Drop)]
pub enum Known {
    Absent,
    Open(Path),
    TooLong,
    Value(Value),
}

/// The whole value, or the first path without a shape.
#[derive(Drop)]
pub enum WholeFound {
    Whole(Value),
    Open(Path),
}

/// The path of an item of what stands at the path.
pub fn item_path(path: &Path, index: u32) -> Result<Path, NoMemory>
    ensures { IfOk result (λ inner. inner ≡ item_path path.now index) }
{
    let mut inner = path.copy()?;
    inner.at.items.push(index)?;
    Ok(inner)
}

/// The path of an item becomes that of another item of the same list.
pub fn go_to(inner: &mut Path, index: u32)
    requires { 0 < length inner.old.at }
    ensures { (path : PathSeen) (k : ℕ) → inner.old ≡ item_path path k
        → inner.new ≡ item_path path index }
{
    let last = inner.at.items.len() - 1;
    inner.at.items[last] = index;
}

/// The path is the first one without a shape.
pub fn open(path: &Path) -> Result<WholeFound, NoMemory>
    ensures { IfOk result (λ found. found ≡ WholeFound.Open path.now) }
{
    let path = path.copy()?;
    Ok(WholeFound::Open(path))
}

// The items of the list at the path, of which there are so many; the path leads to the node, which becomes the last that was come to.
#[cycle(whole)]
fn items_at(
    alloc: Global,
    nodes: &Nodes,
    path: &Path,
    count: u32,
    deeper: u64,
    node: &mut u64,
) -> Result<WholeFound, NoMemory>
    requires tree { IsTree nodes.now }
    requires way { node_from (edges_in nodes.now) (way_of path.now) 0 ≡ Some node.old }
    ensures { IfOk result (λ found. whole_of found
        ≡ list_of_items (items_known
        (whole deeper (facts_in_tree path.now.var.lasting nodes.now)) path.now count 0)) }
{
    let _count = nodes.count();
    let list = *node;
    let mut items = Vec::new(alloc);
    let mut inner = item_path(path, 0)?;
    for k in 0..count {
        go_to(&mut inner, k);
        let Some(item) = nodes.child_behind(*node, list, u64::from(k)) else {
            return Ok(WholeFound::Open(inner));
        };
        *node = item;
        match whole_at(alloc, nodes, &inner, deeper, node)? {
            WholeFound::Whole(v) => items.push(v)?,
            WholeFound::Open(q) => return Ok(WholeFound::Open(q)),
        }
    }
    Ok(WholeFound::Whole(Value::List(Items { items })))
}

/// The whole value at the path, where no path of the tree has as many indices more. The path leads to the node, which becomes the last that
/// was come to: mostly the next item is right behind it.
#[cycle(whole)]
pub fn whole_at(
    alloc: Global,
    nodes: &Nodes,
    path: &Path,
    deeper: u64,
    node: &mut u64,
) -> Result<WholeFound, NoMemory>
    requires tree { IsTree nodes.now }
    requires way { node_from (edges_in nodes.now) (way_of path.now) 0 ≡ Some node.old }
    ensures { IfOk result (λ found. whole_of found
        ≡ whole deeper (facts_in_tree path.now.var.lasting nodes.now) path.now) }
{
    let _count = nodes.count();
    if deeper == 0 {
        return open(path);
    }
    match nodes.shape(*node) {
        Some(Shape::Num(n)) => Ok(WholeFound::Whole(Value::Num(n))),
        Some(Shape::Truth(b)) => Ok(WholeFound::Whole(Value::Truth(b))),
        Some(Shape::Items(count)) => items_at(alloc, nodes, path, count, deeper - 1, node),
        None => open(path),
    }
}

/// The value at the path, where the path is a variable and its value is kept beside these facts.
pub fn kept_at<'a>(facts: &'a FactMap, path: &Path) -> Option<&'a Rc<Value>>
    ensures { (v : Rc ValueSeen Global) → option_copied result ≡ Some v
        → full facts.now.facts path.now ≡ value (tree v.value) }
{
    if path.at.items.as_slice().is_empty() {
        facts.value(path.var)
    } else {
        None
    }
}

/// What is known of the value at the path, by these facts.
pub fn full_in(alloc: Global, facts: &FactMap, path: &Path) -> Result<Known, NoMemory>
    ensures { IfOk result (λ known. full_of known ≡ full facts.now.facts path.now) }
{
    if let Some(value) = kept_at(facts, path) {
        let value = value.copy(alloc)?;
        return Ok(Known::Value(value));
    }
    if facts.excludes(path) {
        return Ok(Known::Absent);
    }
    match facts.whole(alloc, path)? {
        WholeFound::Open(q) => Ok(Known::Open(q)),
        WholeFound::Whole(v) => {
            if is_within_list_limit(&v) {
                Ok(Known::Value(v))
            } else {
                Ok(Known::TooLong)
            }
        }
    }
}

impl Store {
    /// What `full` finds at the path, to be shared, where it stands ready: where the path is a variable, to which this list was added as a
    /// whole. None says nothing of the path.
    pub fn kept_value(&self, path: &Path) -> Option<&Rc<Value>>
        ensures value { (v : Rc ValueSeen Global) → option_copied result ≡ Some v
            → full self.now.facts path.now ≡ value (tree v.value) }
        ensures sound { IsSoundStore (contents_in self.now) }
    {
        part(&self.state, &self.fixed, path.var.lasting).value(path)
    }

    /// What is known of the value at the path: it has no such element where the shape of a proper prefix leaves none; else the first path,
    /// from this one downwards in the order of the items, whose shape isn't kept; else whether the whole value is within the limit of lists.
    pub fn full(&self, path: &Path) -> Result<Known, NoMemory>
        ensures value { IfOk result (λ known. full_of known ≡ full self.now.facts path.now) }
        ensures sound { IsSoundStore (contents_in self.now) }
    {
        let facts = part(&self.state, &self.fixed, path.var.lasting);
        facts.full(self.alloc, path)
    }
}
