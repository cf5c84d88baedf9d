// What is known of the variables of one kind.
ghost use Rattle.std.specs.Prelude.{◌≡◌, ◌<◌, ◌≤◌, ◌+◌, ◌++◌, ◌∷◌, [], length, suc, true, None, Some, IfOk, IfErr, OnOk, OnErr, IsTrue};
ghost use Rattle.std.specs.Option.{option_copied};
ghost use Rattle.std.specs.declared.rc.Rc.{Rc};
ghost use Rattle.std.specs.declared.alloc.Global.{Global};
ghost use Rattle.tp_value.specs.Limits.{is_within_list_limit};
ghost use Rattle.tp_value.specs.Read.{tree};
ghost use Rattle.tp_value.specs.declared.value.Value.{Value as ValueSeen};
ghost use Rattle.tp_store.specs.Facts.{fact, kept_shape, is_excluded};
ghost use Rattle.tp_store.specs.Known.{NoClash, addition, adds, facts_below, first_clash, full, new_facts, value};
ghost use Rattle.tp_store.specs.Changes.{HasAppended, HaveSameShapes};
ghost use Rattle.tp_store.specs.FactMap.{AreOf, AreOfKind, IsNewFact};
ghost use Rattle.tp_store.specs.Nodes.{path_along};
ghost use Rattle.tp_store.specs.Answers.{full_of, IsNoted, IsRefusal};
ghost use Rattle.tp_store.specs.KeptValue.{AreOfValue};
ghost use Rattle.tp_store.specs.Wholes.{facts_of_value, whole_value, AreOfOthers};

use crate::add::{AddRefusal, news_in};
use crate::fact_map::{FactMap, find_clash};
use crate::full::{Known, full_in, kept_at};
use crate::note::Noted;
use crate::wholes::{
    copy_wholes, full_inside, has_shape, shape_inside, value_of_variable, whole_of,
};
use indexmap::IndexMap;
use std::alloc::Global;
use std::marker::Model;
use std::rc::Rc;
use tp_value::{Fact, Facts, NoMemory, Path, Shape, Value, VarId};

/// What is known of state variables, or of static ones: values that came as a whole, of which no fact is written down, and other facts, by
/// their paths.
#[derive(Drop)]
pub struct Portion {
    // Whether the variables are static.
    lasting: bool,
    // The facts of variables that have no value here as a whole.
    parts: FactMap,
    // The values of the others, by their numbers.
    wholes: IndexMap<u64, Rc<Value>>,
}

impl Model for Portion {
    ghost use Rattle.tp_store.specs.FactMap.{FactsOfKind};

    ghost Value = { FactsOfKind };

    ghost use Rattle.std.specs.Prelude.{◌≡◌, ◌++◌};
    ghost use Rattle.tp_store.specs.Known.{NoClash};
    ghost use Rattle.tp_store.specs.FactMap.{AreOfKind};
    ghost use Rattle.tp_store.specs.Wholes.{whole_facts, AreWholes};

    ghost view = { λ p. record {
      lasting = p.lasting;
      facts = p.parts.facts ++ whole_facts p.lasting p.wholes.entries;
      spare = p.parts.spare;
      placed = p.parts.placed;
    } };

    ghost invariant = { λ p.
        (p.parts.lasting ≡ p.lasting)
        × NoClash p.parts.facts
        × AreOfKind p.lasting p.parts.facts
        × AreWholes p.wholes.entries p.parts.facts };
}

impl Portion {
    /// Nothing is known.
    pub fn new(alloc: Global, lasting: bool) -> Portion
        ensures kind { result.lasting ≡ lasting }
        ensures facts { result.facts ≡ [] }
    {
        Portion {
            lasting,
            parts: FactMap::new(alloc, lasting),
            wholes: IndexMap::new(alloc),
        }
    }

    /// The shape that is kept for the path.
    pub fn shape(&self, path: &Path) -> Option<Shape>
        ensures { result ≡ kept_shape self.now.facts path.now }
    {
        match whole_of(&self.wholes, self.lasting, path.var) {
            Some(value) => shape_inside(value, path.at.items.as_slice()),
            None => self.parts.shape(path),
        }
    }

    /// Whether a fact gives a proper prefix of the path a shape that has no such element.
    pub fn excludes(&self, path: &Path) -> bool
        ensures { result ≡ is_excluded self.now.facts path.now }
    {
        match whole_of(&self.wholes, self.lasting, path.var) {
            Some(value) => shape_inside(value, path.at.items.as_slice()).is_none(),
            None => self.parts.excludes(path),
        }
    }

    /// The value at the path, where the path is a variable and its value stands ready.
    pub fn value(&self, path: &Path) -> Option<&Rc<Value>>
        ensures { (v : Rc ValueSeen Global) → option_copied result ≡ Some v
            → full self.now.facts path.now ≡ value (tree v.value) }
    {
        match whole_of(&self.wholes, self.lasting, path.var) {
            Some(value) => {
                if path.at.items.as_slice().is_empty() {
                    Some(value)
                } else {
                    None
                }
            }
            None => kept_at(&self.parts, path),
        }
    }

    /// What is known of the value at the path.
    pub fn full(&self, alloc: Global, path: &Path) -> Result<Known, NoMemory>
        ensures { IfOk result (λ known. full_of known ≡ full self.now.facts path.now) }
    {
        match whole_of(&self.wholes, self.lasting, path.var) {
            Some(value) => full_inside(alloc, value, path.at.items.as_slice()),
            None => full_in(alloc, &self.parts, path),
        }
    }

    /// What becomes of a fact of a variable of this kind.
    pub fn judge(&self, path: &Path, shape: Shape) -> Noted
        requires { path.now.var.lasting ≡ self.now.lasting }
        ensures { IsNoted self.now.facts (fact path.now shape) result }
    {
        match whole_of(&self.wholes, self.lasting, path.var) {
            Some(value) => {
                if has_shape(value, path.at.items.as_slice(), shape) {
                    Noted::Kept
                } else {
                    Noted::Clash
                }
            }
            None => self.parts.judge(path, shape),
        }
    }

    /// Of the facts that clash with this one, that with the fewest indices, and among these with the lesser ones.
    pub fn first_clash(&self, alloc: Global, fact: &Fact) -> Result<Option<Fact>, NoMemory>
        ensures { IfOk result (λ first. first ≡ first_clash self.now.facts fact.now) }
    {
        let Some(value) = whole_of(&self.wholes, self.lasting, fact.path.var) else {
            return self.parts.first_clash(alloc, fact);
        };
        if has_shape(value, fact.path.at.items.as_slice(), fact.shape) {
            return Ok(None);
        }
        let facts = value_of_variable(alloc, fact.path.var, value)?;
        let Some(first) = find_clash(facts.as_slice(), fact) else {
            return Ok(None);
        };
        let first = first.copy()?;
        Ok(Some(first))
    }

    /// Whether it is seen by a look or two that all of these facts of a variable are new and clash with none that is kept.
    pub fn takes_all(&self, var: VarId, facts: &[Fact]) -> bool
        requires { AreOf var facts.now }
        ensures all { IsTrue result → addition self.now.facts facts.now ≡ adds facts.now }
        ensures apart { NoClash self.now.facts }
    {
        whole_of(&self.wholes, self.lasting, var).is_none() && self.parts.takes_all(var, facts)
    }

    /// Those facts of the list whose paths have no shape yet.
    pub fn new_of(&self, alloc: Global, facts: Vec<Fact>) -> Result<Vec<Fact>, NoMemory>
        ensures news { IfOk result (λ news. news.items ≡ new_facts self.now.facts facts.items) }
        ensures apart { NoClash self.now.facts }
    {
        let _ = &self.lasting;
        let mut news = Vec::new(alloc);
        for fact in facts {
            if self.shape(&fact.path).is_none() {
                news.push(fact)?;
            }
        }
        Ok(news)
    }

    /// Appends equal facts to those of the variables with lesser numbers.
    pub fn copy_below(
        &self,
        alloc: Global,
        below: u64,
        facts: &mut Vec<Fact>,
    ) -> Result<(), NoMemory>
        ensures { OnOk result
            (HasAppended (facts_below below self.now.facts) facts.old.items facts.new.items) }
    {
        self.parts.copy_below(alloc, below, facts)?;
        copy_wholes(alloc, self.lasting, &self.wholes, below, facts)
    }

    /// Adds facts of one variable, which don't clash with each other. Where they are those of a value of the whole variable, it is kept
    /// beside them.
    pub fn add(
        &mut self,
        alloc: Global,
        var: VarId,
        facts: Vec<Fact>,
        value: Option<Rc<Value>>,
    ) -> Result<Facts, AddRefusal>
        requires kind { var.lasting ≡ self.old.lasting }
        requires placed { var.number < self.old.placed }
        requires filed { AreOf var facts.items }
        requires apart { NoClash facts.items }
        requires value { AreOfValue var facts.items value }
        ensures added { IfOk result (λ news. addition self.old.facts facts.items ≡ adds news) }
        ensures refused { IfErr result (IsRefusal (addition self.old.facts facts.items)) }
        ensures kind { self.new.lasting ≡ self.old.lasting }
        ensures placed { self.new.placed ≡ self.old.placed }
        ensures of_kind { IfOk result (λ news. AreOfKind self.new.lasting self.new.facts) }
        ensures apart { IfOk result (λ news. NoClash self.new.facts) }
        ensures ok { IfOk result (λ news.
            HaveSameShapes self.new.facts (self.old.facts ++ news)) }
        ensures err { OnErr result (self.new.facts ≡ self.old.facts) }
    {
        let news = news_in(alloc, self, var, facts)?;
        if whole_of(&self.wholes, self.lasting, var).is_some() {
            // of a whole value nothing is new
            return Ok(Facts { items: news });
        }
        self.parts.add(var, news.as_slice(), value)?;
        Ok(Facts { items: news })
    }

    /// Whether nothing is known of the variable.
    pub fn is_free(&self, var: VarId) -> bool
        ensures { IsTrue result → AreOfOthers var.number self.now.facts }
    {
        self.wholes.get(&var.number).is_none() && !self.parts.leads_to(var.number)
    }

    /// Gives this value to a variable of which nothing is known.
    pub fn give(&mut self, var: VarId, value: Rc<Value>) -> Result<(), NoMemory>
        requires kind { var.lasting ≡ self.old.lasting }
        requires free { AreOfOthers var.number self.old.facts }
        requires limit { is_within_list_limit (tree value.value) ≡ true }
        ensures kind { self.new.lasting ≡ self.old.lasting }
        ensures placed { self.new.placed ≡ self.old.placed }
        ensures of_kind { AreOfKind self.new.lasting self.new.facts }
        ensures apart { NoClash self.new.facts }
        ensures ok { OnOk result
            (self.new.facts ≡ self.old.facts ++ facts_of_value var (tree value.value)) }
        ensures err { OnErr result (self.new.facts ≡ self.old.facts) }
    {
        self.wholes.insert(var.number, value)?;
        Ok(())
    }

    /// Has a place for each variable with a lesser number.
    pub fn place(&mut self, count: u64) -> Result<(), NoMemory>
        ensures kind { self.new.lasting ≡ self.old.lasting }
        ensures facts { self.new.facts ≡ self.old.facts }
        ensures room { self.new.spare ≡ self.old.spare }
        ensures more { self.old.placed ≤ self.new.placed }
        ensures ok { OnOk result (count ≤ self.new.placed) }
    {
        self.parts.place(count)
    }

    /// Makes room for facts, of which each takes one more than its path has indices.
    pub fn reserve(&mut self, room: usize) -> Result<(), NoMemory>
        ensures kind { self.new.lasting ≡ self.old.lasting }
        ensures facts { self.new.facts ≡ self.old.facts }
        ensures placed { self.new.placed ≡ self.old.placed }
        ensures room { self.old.spare ≤ self.new.spare }
        ensures ok { OnOk result (room ≤ self.new.spare) }
    {
        self.parts.reserve(room)
    }

    /// Keeps a fact that is new and clashes with none that is kept, where there is room for it.
    pub fn keep(&mut self, path: &Path, shape: Shape)
        requires kind { path.now.var.lasting ≡ self.old.lasting }
        requires placed { path.now.var.number < self.old.placed }
        requires room { length path.now.at < self.old.spare }
        requires new { IsNewFact self.old.facts (fact path.now shape) }
        ensures kind { self.new.lasting ≡ self.old.lasting }
        ensures placed { self.new.placed ≡ self.old.placed }
        ensures room { self.old.spare ≤ self.new.spare + suc (length path.now.at) }
        ensures of_kind { AreOfKind self.new.lasting self.new.facts }
        ensures apart { NoClash self.new.facts }
        ensures kept { HaveSameShapes self.new.facts (self.old.facts ++ fact path.now shape ∷ []) }
    {
        self.parts.keep(path, shape);
    }

    /// Forgets all, and keeps the room.
    pub fn clear(&mut self)
        ensures kind { self.new.lasting ≡ self.old.lasting }
        ensures facts { self.new.facts ≡ [] }
        ensures placed { self.new.placed ≡ self.old.placed }
        ensures room { self.old.spare ≤ self.new.spare }
    {
        self.parts.clear();
        self.wholes.clear();
    }
}
