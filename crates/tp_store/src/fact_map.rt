// Facts, found by their paths.
ghost use Rattle.std.specs.Prelude.{◌≡◌, ◌<◌, ◌≤◌, ◌+◌, ◌^◌, ◌++◌, ◌∷◌, [], length, nat_eq, true, false, None, Some, IfOk, OnOk, OnErr, IsTrue, ℕ, suc};
ghost use Rattle.indexmap.specs.IndexMap.{get};
ghost use Rattle.std.specs.Option.{option_copied};
ghost use Rattle.tp_store.specs.Facts.{fact, kept_shape, is_excluded, has_item, item_path};
ghost use Rattle.tp_store.specs.Known.{NoClash, addition, adds, deepest, facts_below, first_clash, full, open_at, value, whole};
ghost use Rattle.tp_store.specs.Changes.{HasAppended, HaveSameShapes};
ghost use Rattle.tp_store.specs.FactMap.{AreOf, AreOfKind, IsNewFact, IsNumberOrTruth};
ghost use Rattle.tp_store.specs.Nodes.{edges_in, nodes_in, node_from, facts_in_tree, item_shape, path_along, way_of, IsTree, IsCutOff, ArePlainItems, LacksShape};
ghost use Rattle.tp_store.specs.Answers.{whole_of, IsNoted};
ghost use Rattle.tp_store.specs.Wholes.{AreOfOthers};
ghost use Rattle.tp_store.specs.KeptValue.{CountsPlain, IsSaidWith, Replaces};
ghost use Rattle.tp_value.specs.Read.{tree};
ghost use Rattle.std.specs.declared.rc.Rc.{Rc};
ghost use Rattle.std.specs.declared.alloc.Global.{Global};
ghost use Rattle.tp_value.specs.declared.value.Value.{Value as ValueSeen};

use crate::clash::{clashes, is_earlier};
use crate::copies::{AskedVariables, copy_facts};
use crate::full::{WholeFound, item_path, open, whole_at};
use crate::judge::judge_in;
use crate::keeping::{keep_facts, keep_shape};
use crate::nodes::Nodes;
use crate::note::Noted;
use crate::walk::copy_below;
use indexmap::IndexMap;
use std::alloc::Global;
use std::marker::Model;
use std::rc::Rc;
use tp_value::{Fact, NoMemory, Path, Shape, Value, VarId};

/// What is remembered of a variable that is a list: that so many of its items, from the first on, are numbers and truths (more may be so);
/// and its value, where it was given as a whole, which is read without a look at its facts.
#[derive(Drop)]
pub struct Remembered {
    pub plain: u32,
    pub value: Option<Rc<Value>>,
}

/// Facts of state variables, or of static ones, without a clash, each found by its path. What is known of a path and of what lies around it
/// takes a look-up for each of its indices; all facts of a variable are looked at only where one may clash with a new one.
#[derive(Drop)]
pub struct FactMap {
    // Whether the variables are static.
    lasting: bool,
    // The shape of each kept path.
    nodes: Nodes,
    // The greatest number of indices of a kept path.
    depth: u64,
    // What is remembered of variables, by their numbers.
    lists: IndexMap<u64, Remembered>,
}

impl Model for FactMap {
    ghost use Rattle.tp_store.specs.FactMap.{FactsOfKind};

    ghost Value = { FactsOfKind };

    ghost use Rattle.std.specs.Prelude.{◌≡◌, ◌<◌, ◌^◌, length, nat_eq};
    ghost use Rattle.indexmap.specs.IndexMap.{get, spare};
    ghost use Rattle.tp_store.specs.Known.{NoClash, deepest};
    ghost use Rattle.tp_store.specs.Nodes.{facts_in_tree, IsTree};
    ghost use Rattle.tp_store.specs.KeptValue.{AreRemembered};

    ghost view = { λ m. record {
      lasting = m.lasting;
      facts = facts_in_tree m.lasting m.nodes;
      spare = spare m.nodes.below;
      placed = length m.nodes.places.items;
    } };

    ghost invariant = { λ m.
        NoClash (facts_in_tree m.lasting m.nodes)
        × IsTree m.nodes
        × (m.depth ≡ deepest (facts_in_tree m.lasting m.nodes))
        × (m.depth < 2 ^ 63)
        × AreRemembered (get nat_eq m.lists) m.lasting (facts_in_tree m.lasting m.nodes) };
}

// The number of a path's indices.
fn count_of(path: &Path) -> u64
    ensures value { result ≡ length path.now.at }
    ensures bound { result < 2 ^ 63 }
{
    path.at.items.len() as u64
}

// The greatest number of indices of a path of these facts.
fn depth_of(facts: &[Fact]) -> u64
    ensures value { result ≡ deepest facts.now }
    ensures bound { result < 2 ^ 63 }
{
    let mut most = 0u64;
    for fact in facts {
        most = most.max(count_of(&fact.path));
    }
    most
}

// Whether this is the shape of a number or of a truth.
fn is_plain(shape: Option<Shape>) -> bool
    ensures { IsTrue result → IsNumberOrTruth shape }
{
    match shape {
        Some(Shape::Num(_) | Shape::Truth(_)) => true,
        Some(Shape::Items(_)) | None => false,
    }
}

// Whether an item of the variable with that number is a number or a truth.
fn has_plain(nodes: &Nodes, number: u64, index: u32) -> bool
    requires { IsTree nodes.now }
    ensures { IsTrue result → IsNumberOrTruth (item_shape nodes.now number index) }
{
    is_plain(nodes.item_shape(number, index))
}

// How many of its items, from the first on, are numbers and truths, where so many are.
fn count_plain(nodes: &Nodes, number: u64, from: u32) -> u32
    requires tree { IsTree nodes.now }
    requires plain { ArePlainItems from number nodes.now }
    ensures { ArePlainItems result number nodes.now }
{
    let mut count = from;
    'items: while has_plain(nodes, number, count) {
        let Some(next) = count.checked_add(1) else {
            return count;
        };
        count = next;
    }
    count
}

// The same after these facts of the variable came, of which the first may be of the next such item. That of another item leaves the count
// as it is.
fn plain_after(nodes: &Nodes, number: u64, from: u32, news: &[Fact]) -> u32
    requires tree { IsTree nodes.now }
    requires plain { ArePlainItems from number nodes.now }
    ensures { ArePlainItems result number nodes.now }
{
    let Some(first) = news.first() else {
        return from;
    };
    match first.path.at.items.as_slice() {
        [index] if *index == from => count_plain(nodes, number, from),
        _ => from,
    }
}

// The same, where this is what is kept of the whole value: where it is kept no item is open, so none is looked at.
fn plain_beside(
    nodes: &Nodes,
    number: u64,
    from: u32,
    news: &[Fact],
    value: &Option<Rc<Value>>,
) -> u32
    requires tree { IsTree nodes.now }
    requires plain { ArePlainItems from number nodes.now }
    ensures { ArePlainItems result number nodes.now }
{
    match value {
        Some(_) => from,
        None => plain_after(nodes, number, from, news),
    }
}

// Whether the variable with that number is a list that has an item with this index, of which nothing is kept.
fn lacks_shape(nodes: &Nodes, number: u64, index: u32) -> bool
    requires { IsTree nodes.now }
    ensures { IsTrue result → LacksShape nodes.now number index }
{
    match nodes.variable(number) {
        Some(Shape::Items(count)) => index < count && nodes.item_shape(number, index).is_none(),
        Some(Shape::Num(_) | Shape::Truth(_)) | None => false,
    }
}

// What is remembered of the variable with that number.
fn kept_of(lists: &IndexMap<u64, Remembered>, number: u64) -> Option<&Remembered>
    ensures { option_copied result ≡ get nat_eq lists.now number }
{
    if lists.is_empty() {
        return None;
    }
    lists.get(&number)
}

// How many of the variable's items are remembered to be numbers and truths.
fn plain_of(lists: &IndexMap<u64, Remembered>, number: u64) -> u32
    ensures { CountsPlain (get nat_eq lists.now) number result }
{
    match kept_of(lists, number) {
        Some(kept) => kept.plain,
        None => 0,
    }
}

// Remembers this of the variable, where it says anything and memory is there, and nothing else of it.
fn remember(lists: &mut IndexMap<u64, Remembered>, number: u64, now: Remembered)
    ensures { Replaces (get nat_eq lists.old) number now (get nat_eq lists.new) }
{
    if now.plain == 0 && now.value.is_none() && kept_of(lists, number).is_none() {
        return;
    }
    let _ = lists.insert(number, now);
}

/// Of these facts that which clashes with the other and is first: with the fewest indices, and among these with the lesser ones.
pub fn find_clash<'a>(facts: &'a [Fact], fact: &Fact) -> Option<&'a Fact>
    ensures { option_copied result ≡ first_clash facts.now fact.now }
{
    let mut first: Option<&'a Fact> = None;
    for i in (0..facts.len()).rev() {
        let kept = &facts[i];
        if clashes(&kept.path, kept.shape, fact) {
            first = match first {
                Some(best) if is_earlier(&best.path, &kept.path) => Some(best),
                _ => Some(kept),
            };
        }
    }
    first
}

impl FactMap {
    /// No fact.
    pub fn new(alloc: Global, lasting: bool) -> FactMap
        ensures kind { result.lasting ≡ lasting }
        ensures facts { result.facts ≡ [] }
    {
        FactMap {
            lasting,
            nodes: Nodes::new(alloc),
            depth: 0,
            lists: IndexMap::new(alloc),
        }
    }

    /// The shape that is kept for the path.
    pub fn shape(&self, path: &Path) -> Option<Shape>
        ensures { result ≡ kept_shape self.now.facts path.now }
    {
        if path.var.lasting != self.lasting {
            return None;
        }
        let _count = self.nodes.count();
        self.nodes.kept(path)
    }

    /// Whether a fact gives a proper prefix of the path a shape that has no such element.
    pub fn excludes(&self, path: &Path) -> bool
        ensures { result ≡ is_excluded self.now.facts path.now }
    {
        let _count = self.nodes.count();
        path.var.lasting == self.lasting && self.nodes.lacks(path)
    }

    /// The first open item of the value at the path, where it is found without a look at the items before it.
    pub fn open_item(&self, path: &Path) -> Option<u32>
        ensures { (k d : ℕ) → result ≡ Some k
            → whole (suc (suc d)) self.now.facts path.now ≡ open_at (item_path path.now k) }
    {
        if path.var.lasting != self.lasting || !path.at.items.as_slice().is_empty() {
            return None;
        }
        let _count = self.nodes.count();
        let number = path.var.number;
        let plain = plain_of(&self.lists, number);
        if lacks_shape(&self.nodes, number, plain) {
            Some(plain)
        } else {
            None
        }
    }

    // The whole value at the path, or the first path of it without a shape, by all items from the first on.
    fn whole_by_items(&self, alloc: Global, path: &Path) -> Result<WholeFound, NoMemory>
        ensures { IfOk result (λ found. whole_of found
            ≡ whole (suc (deepest self.now.facts)) self.now.facts path.now) }
    {
        let _count = self.nodes.count();
        if path.var.lasting == self.lasting {
            if let Some(found) = self.nodes.find(path) {
                let mut node = found;
                return whole_at(alloc, &self.nodes, path, self.depth + 1, &mut node);
            }
        }
        open(path)
    }

    /// The whole value at the path, or the first path of it without a shape.
    pub fn whole(&self, alloc: Global, path: &Path) -> Result<WholeFound, NoMemory>
        ensures { IfOk result (λ found. whole_of found
            ≡ whole (suc (deepest self.now.facts)) self.now.facts path.now) }
    {
        // a list whose items come one by one isn't read from the first on each time
        if self.depth > 0 {
            if let Some(index) = self.open_item(path) {
                let inner = item_path(path, index)?;
                return Ok(WholeFound::Open(inner));
            }
        }
        self.whole_by_items(alloc, path)
    }

    /// The value of the whole variable, where it is kept beside the facts.
    pub fn value(&self, var: VarId) -> Option<&Rc<Value>>
        ensures { (v : Rc ValueSeen Global) → option_copied result ≡ Some v
            → full self.now.facts (path_along var []) ≡ value (tree v.value) }
    {
        if var.lasting != self.lasting {
            return None;
        }
        match kept_of(&self.lists, var.number) {
            Some(kept) => kept.value.as_ref(),
            None => None,
        }
    }

    /// What becomes of a fact of a variable of this kind.
    pub fn judge(&self, path: &Path, shape: Shape) -> Noted
        requires { path.now.var.lasting ≡ self.now.lasting }
        ensures { IsNoted self.now.facts (fact path.now shape) result }
    {
        let _ = &self.depth;
        judge_in(&self.nodes, path, shape)
    }

    // Whether a fact clashes with this one.
    fn has_clash(&self, fact: &Fact) -> bool
        ensures { result ≡ false → first_clash self.now.facts fact.now ≡ None }
    {
        if fact.path.var.lasting != self.lasting {
            return false;
        }
        match self.judge(&fact.path, fact.shape) {
            Noted::Clash => true,
            Noted::New | Noted::Kept => false,
        }
    }

    /// Of the facts that clash with this one, that with the fewest indices, and among these with the lesser ones. Those of its variable are
    /// looked at only where one clashes.
    pub fn first_clash(&self, alloc: Global, fact: &Fact) -> Result<Option<Fact>, NoMemory>
        ensures { IfOk result (λ first. first ≡ first_clash self.now.facts fact.now) }
    {
        let _ = &self.lasting;
        if !self.has_clash(fact) {
            return Ok(None);
        }
        let mut facts = Vec::new(alloc);
        let of = AskedVariables::Of(fact.path.var.number);
        copy_facts(alloc, self.lasting, &self.nodes, of, &mut facts)?;
        let Some(first) = find_clash(facts.as_slice(), fact) else {
            return Ok(None);
        };
        let first = first.copy()?;
        Ok(Some(first))
    }

    // Whether the fact is new and clashes with none of these.
    fn is_new(&self, fact: &Fact) -> bool
        ensures { IsTrue result → IsNewFact self.now.facts fact.now }
    {
        fact.path.var.lasting == self.lasting && self.judge(&fact.path, fact.shape) == Noted::New
    }

    /// Whether there is a node for the variable with that number, as there is where a path of it is kept.
    pub fn leads_to(&self, number: u64) -> bool
        ensures { result ≡ false → AreOfOthers number self.now.facts }
    {
        let _count = self.nodes.count();
        self.nodes.leads_to(number)
    }

    /// Whether it is seen by a look or two that all of these facts of a variable are new and clash with none that is kept.
    pub fn takes_all(&self, var: VarId, facts: &[Fact]) -> bool
        requires { AreOf var facts.now }
        ensures all { IsTrue result → addition self.now.facts facts.now ≡ adds facts.now }
        ensures apart { NoClash self.now.facts }
    {
        let _count = self.nodes.count();
        if !self.nodes.leads_to(var.number) {
            return true;
        }
        match facts {
            [fact] => self.is_new(fact),
            _ => false,
        }
    }

    /// Appends equal facts to those of the variables with lesser numbers.
    pub fn copy_below(
        &self,
        alloc: Global,
        below: u64,
        facts: &mut Vec<Fact>,
    ) -> Result<(), NoMemory>
        ensures { OnOk result
            (HasAppended (facts_below below self.now.facts) facts.old.items facts.new.items) }
    {
        copy_below(alloc, self.lasting, &self.nodes, below, facts)
    }

    /// Adds equal facts of one variable, or none where memory ends. What needs memory comes before the facts are changed. The value is
    /// kept beside them, where it is that of the whole variable.
    pub fn add(
        &mut self,
        var: VarId,
        news: &[Fact],
        value: Option<Rc<Value>>,
    ) -> Result<(), NoMemory>
        requires kind { var.lasting ≡ self.old.lasting }
        requires placed { var.number < self.old.placed }
        requires of { AreOf var news.now }
        requires apart { NoClash (self.old.facts ++ news.now) }
        requires said { IsSaidWith value var self.old.facts news.now }
        ensures kind { self.new.lasting ≡ self.old.lasting }
        ensures placed { self.new.placed ≡ self.old.placed }
        ensures of_kind { AreOfKind self.new.lasting self.new.facts }
        ensures apart { NoClash self.new.facts }
        ensures ok { OnOk result (HaveSameShapes self.new.facts (self.old.facts ++ news.now)) }
        ensures err { OnErr result (self.new.facts ≡ self.old.facts) }
    {
        keep_facts(&mut self.nodes, news)?;
        self.depth = self.depth.max(depth_of(news));
        let _count = self.nodes.count();
        let from = plain_of(&self.lists, var.number);
        let plain = plain_beside(&self.nodes, var.number, from, news, &value);
        remember(&mut self.lists, var.number, Remembered { plain, value });
        Ok(())
    }

    /// Has a place for each variable with a lesser number.
    pub fn place(&mut self, count: u64) -> Result<(), NoMemory>
        ensures kind { self.new.lasting ≡ self.old.lasting }
        ensures facts { self.new.facts ≡ self.old.facts }
        ensures room { self.new.spare ≡ self.old.spare }
        ensures more { self.old.placed ≤ self.new.placed }
        ensures ok { OnOk result (count ≤ self.new.placed) }
    {
        self.nodes.place(count)
    }

    /// Makes room for facts, of which each takes one more than its path has indices.
    pub fn reserve(&mut self, room: usize) -> Result<(), NoMemory>
        ensures kind { self.new.lasting ≡ self.old.lasting }
        ensures facts { self.new.facts ≡ self.old.facts }
        ensures placed { self.new.placed ≡ self.old.placed }
        ensures room { self.old.spare ≤ self.new.spare }
        ensures ok { OnOk result (room ≤ self.new.spare) }
    {
        self.nodes.reserve(room)
    }

    /// Keeps a fact that is new and clashes with none that is kept, where there is room for it.
    pub fn keep(&mut self, path: &Path, shape: Shape)
        requires kind { path.now.var.lasting ≡ self.old.lasting }
        requires placed { path.now.var.number < self.old.placed }
        requires room { length path.now.at < self.old.spare }
        requires new { IsNewFact self.old.facts (fact path.now shape) }
        ensures kind { self.new.lasting ≡ self.old.lasting }
        ensures placed { self.new.placed ≡ self.old.placed }
        ensures room { self.old.spare ≤ self.new.spare + suc (length path.now.at) }
        ensures of_kind { AreOfKind self.new.lasting self.new.facts }
        ensures apart { NoClash self.new.facts }
        ensures kept { HaveSameShapes self.new.facts (self.old.facts ++ fact path.now shape ∷ []) }
    {
        keep_shape(&mut self.nodes, path, shape);
        self.depth = self.depth.max(count_of(path));
    }

    /// Drops all facts, and keeps their room.
    pub fn clear(&mut self)
        ensures kind { self.new.lasting ≡ self.old.lasting }
        ensures facts { self.new.facts ≡ [] }
        ensures placed { self.new.placed ≡ self.old.placed }
        ensures room { self.old.spare ≤ self.new.spare }
    {
        self.nodes.clear();
        self.depth = 0;
        self.lists.clear();
    }
}
