// Adding facts.
ghost use Rattle.std.specs.Prelude.{◌≡◌, ◌<◌, length, slice_get, ◌++◌, ◌∷◌, [], IfOk, IfErr, OnOk, OnErr};
ghost use Rattle.tp_value.specs.Read.{tree};
ghost use Rattle.tp_value.specs.declared.value.Shape.TheVariants as shape;
ghost use Rattle.tp_store.specs.Facts.{facts_at, fact};
ghost use Rattle.tp_store.specs.Known.{addition, adds, new_facts, IsVariableOf, NoClash};
ghost use Rattle.tp_store.specs.Stock.{contents_in};
ghost use Rattle.tp_store.specs.FactMap.{AreOf, AreOfKind};
ghost use Rattle.tp_store.specs.KeptValue.{AreOfValue};
ghost use Rattle.tp_store.specs.Answers.{Adds, IsRefusal};
ghost use Rattle.tp_store.specs.Changes.{IsSoundStore, AddsFacts, HaveSameShapes};

use crate::full::{go_to, item_path};
use crate::portion::Portion;
use crate::store::{Store, part};
use std::alloc::Global;
use std::rc::Rc;
use tp_value::{Fact, Facts, NoMemory, Path, Shape, Value, VarId, is_within_list_limit};

/// Why facts weren't added: the first new one that clashes, with the kept one that it clashes with, or want of memory.
#[derive(Debug, Drop)]
pub enum AddRefusal {
    Clash { kept: Fact, new: Fact },
    NoMemory,
}

impl From<NoMemory> for AddRefusal {
    ghost use Rattle.std.specs.Prelude.{◌≡◌};
    ghost use Rattle.tp_store.specs.declared.add.AddRefusal.{AddRefusal};
    ghost use Rattle.tp_store.specs.declared.add.AddRefusal.TheVariants as refusal;

    ghost from_gives = { λ e r. r ≡ refusal.NoMemory };

    fn from(_: NoMemory) -> AddRefusal {
        AddRefusal::NoMemory
    }
}

fn fact_at(path: &Path, shape: Shape) -> Result<Fact, NoMemory>
    ensures { IfOk result (λ f. f ≡ fact path.now shape) }
{
    let path = path.copy()?;
    Ok(Fact { path, shape })
}

// The length of a list as its shape holds it. A list of 2^32 items has no shape, and is want of memory.
fn shape_length(length: usize) -> Result<u32, NoMemory>
    ensures { IfOk result (λ n. n ≡ length) }
{
    if length > u32::MAX as usize {
        return Err(NoMemory);
    }
    Ok(length as u32)
}

/// Appends the facts of the value at the path: its shape there, then the facts of its items in order.
pub fn append_facts(path: &Path, value: &Value, out: &mut Vec<Fact>) -> Result<(), NoMemory>
    ensures { OnOk result (out.new.items ≡ out.old.items ++ facts_at path.now (tree value.now)) }
{
    match value {
        Value::Num(n) => {
            let fact = fact_at(path, Shape::Num(*n))?;
            out.push(fact)?;
        }
        Value::Truth(b) => {
            let fact = fact_at(path, Shape::Truth(*b))?;
            out.push(fact)?;
        }
        Value::List(all) => {
            let length = shape_length(all.items.len())?;
            let fact = fact_at(path, Shape::Items(length))?;
            out.push(fact)?;
            let mut inner = item_path(path, 0)?;
            for k in 0..all.items.len() {
                go_to(&mut inner, k as u32);
                append_facts(&inner, &all.items[k], out)?;
            }
        }
    }
    Ok(())
}

/// The facts of the value at the path: its shape there, and then the facts of its items in order. A list of 2^32 items has no shape, and is
/// want of memory.
pub fn value_facts(alloc: Global, path: &Path, value: &Value) -> Result<Vec<Fact>, NoMemory>
    ensures { IfOk result (λ facts. facts.items ≡ facts_at path.now (tree value.now)) }
{
    let mut facts = Vec::new(alloc);
    append_facts(path, value, &mut facts)?;
    Ok(facts)
}

// One fact alone.
fn one_fact(alloc: Global, path: Path, shape: Shape) -> Result<Vec<Fact>, NoMemory>
    ensures { IfOk result (λ facts. facts.items ≡ fact path shape ∷ []) }
{
    let mut facts = Vec::with_capacity(alloc, 1)?;
    facts.push(Fact { path, shape })?;
    Ok(facts)
}

// The value, where it is a list that a whole variable has, and within the limit.
fn list_of_variable(alloc: Global, path: &Path, value: Value) -> Result<Option<Rc<Value>>, NoMemory>
    ensures { IfOk result (λ whole.
        AreOfValue path.now.var (facts_at path.now (tree value)) whole) }
{
    if !path.at.items.as_slice().is_empty() || !is_within_list_limit(&value) {
        return Ok(None);
    }
    Ok(Some(Rc::new(alloc, value)?))
}

// Whether facts can be added to those that are kept.
fn check_in(alloc: Global, kept: &Portion, facts: &[Fact]) -> Result<(), AddRefusal>
    ensures ok { OnOk result
        (addition kept.now.facts facts.now ≡ adds (new_facts kept.now.facts facts.now)) }
    ensures refused { IfErr result (IsRefusal (addition kept.now.facts facts.now)) }
{
    for fact in facts {
        if let Some(kept) = kept.first_clash(alloc, fact)? {
            let new = fact.copy()?;
            return Err(AddRefusal::Clash { kept, new });
        }
    }
    Ok(())
}

/// Those of a variable's facts that are new to what is kept, or the refusal of one that clashes.
pub fn news_in(
    alloc: Global,
    kept: &Portion,
    var: VarId,
    facts: Vec<Fact>,
) -> Result<Vec<Fact>, AddRefusal>
    requires { AreOf var facts.items }
    ensures added { IfOk result (λ news. addition kept.now.facts facts.items ≡ adds news.items) }
    ensures refused { IfErr result (IsRefusal (addition kept.now.facts facts.items)) }
    ensures apart { NoClash kept.now.facts }
{
    if kept.takes_all(var, facts.as_slice()) {
        return Ok(facts);
    }
    check_in(alloc, kept, facts.as_slice())?;
    let news = kept.new_of(alloc, facts)?;
    Ok(news)
}

impl Store {
    /// Adds the facts of a value at a path, and gives those that are new, in order: a list's length before the facts of its items. The
    /// path's variable is one of the store's. A list of 2^32 items has no shape, and is want of memory. The first new fact that clashes is
    /// refused with the kept one that has the fewest indices of those that it clashes with, and among these the least index where their
    /// paths first differ; nothing is added then.
    pub fn add(&mut self, path: &Path, value: &Value) -> Result<Facts, AddRefusal>
        requires { IsVariableOf self.old.variables path.now.var }
        ensures news { IfOk result (λ news.
            addition self.old.facts (facts_at path.now (tree value.now)) ≡ adds news) }
        ensures refused { IfErr result
            (IsRefusal (addition self.old.facts (facts_at path.now (tree value.now)))) }
        ensures added { IfOk result (λ news.
            AddsFacts (contents_in self.old) news (contents_in self.new)) }
        ensures err { OnErr result (contents_in self.new ≡ contents_in self.old) }
        ensures sound { IsSoundStore (contents_in self.new) }
    {
        let alloc = self.alloc;
        let path = path.copy()?;
        let value = value.copy(alloc)?;
        self.add_value(path, value)
    }

    /// The same, of a path and a value that are handed in.
    pub(crate) fn add_value(&mut self, path: Path, value: Value) -> Result<Facts, AddRefusal>
        requires { IsVariableOf self.old.variables path.var }
        ensures news { IfOk result (λ news.
            addition self.old.facts (facts_at path (tree value)) ≡ adds news) }
        ensures refused { IfErr result
            (IsRefusal (addition self.old.facts (facts_at path (tree value)))) }
        ensures added { IfOk result (λ news.
            AddsFacts (contents_in self.old) news (contents_in self.new)) }
        ensures err { OnErr result (contents_in self.new ≡ contents_in self.old) }
        ensures sound { IsSoundStore (contents_in self.new) }
    {
        match value {
            Value::Num(n) => self.add_shape(path, Shape::Num(n)),
            Value::Truth(b) => self.add_shape(path, Shape::Truth(b)),
            Value::List(all) => self.add_list(&path, Value::List(all)),
        }
    }

    // The same of a list.
    fn add_list(&mut self, path: &Path, value: Value) -> Result<Facts, AddRefusal>
        requires { IsVariableOf self.old.variables path.now.var }
        ensures news { IfOk result (λ news.
            addition self.old.facts (facts_at path.now (tree value)) ≡ adds news) }
        ensures refused { IfErr result
            (IsRefusal (addition self.old.facts (facts_at path.now (tree value)))) }
        ensures added { IfOk result (λ news.
            AddsFacts (contents_in self.old) news (contents_in self.new)) }
        ensures err { OnErr result (contents_in self.new ≡ contents_in self.old) }
        ensures sound { IsSoundStore (contents_in self.new) }
    {
        let facts = value_facts(self.alloc, path, &value)?;
        let whole = list_of_variable(self.alloc, path, value)?;
        self.add_facts(path.var, facts, whole)
    }

    // Adds the one fact that the path has this shape.
    fn add_shape(&mut self, path: Path, shape: Shape) -> Result<Facts, AddRefusal>
        requires { IsVariableOf self.old.variables path.var }
        ensures news { IfOk result (λ news.
            addition self.old.facts (fact path shape ∷ []) ≡ adds news) }
        ensures refused { IfErr result
            (IsRefusal (addition self.old.facts (fact path shape ∷ []))) }
        ensures added { IfOk result (λ news.
            AddsFacts (contents_in self.old) news (contents_in self.new)) }
        ensures err { OnErr result (contents_in self.new ≡ contents_in self.old) }
        ensures sound { IsSoundStore (contents_in self.new) }
    {
        let var = path.var;
        let facts = one_fact(self.alloc, path, shape)?;
        self.add_facts(var, facts, None)
    }

    /// Adds the one fact that the path is a list of that length, by the rules of `add`.
    pub fn add_length(&mut self, path: &Path, length: u32) -> Result<Facts, AddRefusal>
        requires { IsVariableOf self.old.variables path.now.var }
        ensures news { IfOk result (λ news.
            addition self.old.facts (fact path.now (shape.Items length) ∷ []) ≡ adds news) }
        ensures refused { IfErr result
            (IsRefusal (addition self.old.facts (fact path.now (shape.Items length) ∷ []))) }
        ensures added { IfOk result (λ news.
            AddsFacts (contents_in self.old) news (contents_in self.new)) }
        ensures err { OnErr result (contents_in self.new ≡ contents_in self.old) }
        ensures sound { IsSoundStore (contents_in self.new) }
    {
        let _ = &self.alloc;
        let path = path.copy()?;
        self.add_shape(path, Shape::Items(length))
    }

    /// Whether `add` of this value at this path would add its facts, or the refusal that it would give; the store stays as it is.
    pub fn check(&self, path: &Path, value: &Value) -> Result<(), AddRefusal>
        requires { IsVariableOf self.now.variables path.now.var }
        ensures ok { OnOk result
            (Adds (addition self.now.facts (facts_at path.now (tree value.now)))) }
        ensures refused { IfErr result
            (IsRefusal (addition self.now.facts (facts_at path.now (tree value.now)))) }
    {
        let facts = value_facts(self.alloc, path, value)?;
        self.check_facts(path.var, facts.as_slice())
    }

    /// Whether `add_length` of this path would add its fact, or the refusal that it would give; the store stays as it is.
    pub fn check_length(&self, path: &Path, length: u32) -> Result<(), AddRefusal>
        requires { IsVariableOf self.now.variables path.now.var }
        ensures ok { OnOk result
            (Adds (addition self.now.facts (fact path.now (shape.Items length) ∷ []))) }
        ensures refused { IfErr result
            (IsRefusal (addition self.now.facts (fact path.now (shape.Items length) ∷ []))) }
    {
        let facts = one_fact(self.alloc, path.copy()?, Shape::Items(length))?;
        self.check_facts(path.var, facts.as_slice())
    }

    // Whether facts of one variable can be added.
    fn check_facts(&self, var: VarId, facts: &[Fact]) -> Result<(), AddRefusal>
        requires variable { IsVariableOf self.now.variables var }
        requires filed { AreOf var facts.now }
        ensures ok { OnOk result (Adds (addition self.now.facts facts.now)) }
        ensures refused { IfErr result (IsRefusal (addition self.now.facts facts.now)) }
    {
        check_in(
            self.alloc,
            part(&self.state, &self.fixed, var.lasting),
            facts,
        )
    }

    // Adds facts of one variable, which don't clash with each other. Where they are those of a value of the whole variable, it is kept
    // beside them.
    fn add_facts(
        &mut self,
        var: VarId,
        facts: Vec<Fact>,
        value: Option<Rc<Value>>,
    ) -> Result<Facts, AddRefusal>
        requires variable { IsVariableOf self.old.variables var }
        requires value { AreOfValue var facts.items value }
        requires filed { AreOf var facts.items }
        requires apart { NoClash facts.items }
        ensures news { IfOk result (λ news. addition self.old.facts facts.items ≡ adds news) }
        ensures refused { IfErr result (IsRefusal (addition self.old.facts facts.items)) }
        ensures added { IfOk result (λ news.
            AddsFacts (contents_in self.old) news (contents_in self.new)) }
        ensures err { OnErr result (contents_in self.new ≡ contents_in self.old) }
        ensures sound { IsSoundStore (contents_in self.new) }
    {
        if var.lasting {
            let news = self.fixed.add(self.alloc, var, facts, value)?;
            return Ok(news);
        }
        let news = self.state.add(self.alloc, var, facts, value)?;
        Ok(news)
    }
}
