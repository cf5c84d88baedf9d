// What is known of a state.
ghost use Rattle.std.specs.Prelude.{◌≡◌, ◌≤◌, ◌++◌, ◌∷◌, [], length, suc, IfOk, OnOk, OnErr};
ghost use Rattle.std.specs.Option.{option_copied};
ghost use Rattle.tp_store.specs.Facts.{kept_shape, is_excluded};
ghost use Rattle.tp_store.specs.Known.{new_store, name_of, lasting_facts, facts_below};
ghost use Rattle.tp_store.specs.Stock.{contents_in};
ghost use Rattle.tp_store.specs.Changes.{IsSoundStore, HaveSameShapes, HasAppended};
ghost use Rattle.tp_store.specs.Entries.{part_by_kind};

use crate::entry::{Entry, global_entries, name_of};
use crate::portion::Portion;
use std::alloc::Global;
use std::marker::Model;
use std::mem;
use tp_value::{Facts, Globals, NoMemory, Path, Shape, Text, VarId};

/// What is known of a state: facts without a clash, whose order is open, and the variables, of which the i-th, from 0, has number i. A
/// look-up goes by the path.
#[derive(Drop)]
pub struct Store {
    pub(crate) alloc: Global,
    pub(crate) entries: Vec<Entry>,
    // The facts of state variables, which go with the state.
    pub(crate) state: Portion,
    // The facts of static variables.
    pub(crate) fixed: Portion,
}

impl Model for Store {
    ghost use Rattle.std.specs.Prelude.{◌-◌, vec_len, vec_capacity};
    ghost use Rattle.tp_store.specs.Stock.{Stock};

    ghost Value = { Stock };

    ghost use Rattle.tp_store.specs.Entries.{stock_of, AreParts};

    ghost view = { λ s.
        stock_of s.entries.items (vec_capacity s.entries - vec_len s.entries) s.state s.fixed };

    ghost invariant = { λ s. AreParts s.entries.items s.state s.fixed };
}

/// The facts of static variables, or of state variables.
pub fn part<'a>(state: &'a Portion, fixed: &'a Portion, lasting: bool) -> &'a Portion
    ensures { result.now ≡ part_by_kind lasting state.now fixed.now }
{
    if lasting { fixed } else { state }
}

// No facts of this kind, and a place for each of so many variables.
fn placed_facts(alloc: Global, lasting: bool, count: u64) -> Result<Portion, NoMemory>
    ensures kind { IfOk result (λ facts. facts.lasting ≡ lasting) }
    ensures facts { IfOk result (λ facts. facts.facts ≡ []) }
    ensures placed { IfOk result (λ facts. count ≤ facts.placed) }
{
    let mut facts = Portion::new(alloc, lasting);
    facts.place(count)?;
    Ok(facts)
}

impl Store {
    /// No facts, and the globals as variables.
    pub fn new(alloc: Global, globals: &Globals) -> Result<Store, NoMemory>
        ensures { IfOk result (λ store. contents_in store ≡ new_store globals.now) }
    {
        let entries = global_entries(alloc, globals)?;
        let state = placed_facts(alloc, false, entries.len() as u64)?;
        let fixed = placed_facts(alloc, true, entries.len() as u64)?;
        Ok(Store {
            alloc,
            entries,
            state,
            fixed,
        })
    }

    /// The shape that is kept for the path.
    pub fn shape(&self, path: &Path) -> Option<Shape>
        ensures value { result ≡ kept_shape self.now.facts path.now }
        ensures sound { IsSoundStore (contents_in self.now) }
    {
        part(&self.state, &self.fixed, path.var.lasting).shape(path)
    }

    /// Whether the path has no element: the shape that is kept for a proper prefix of it leaves none.
    pub fn excludes(&self, path: &Path) -> bool
        ensures value { result ≡ is_excluded self.now.facts path.now }
        ensures sound { IsSoundStore (contents_in self.now) }
    {
        part(&self.state, &self.fixed, path.var.lasting).excludes(path)
    }

    /// How many variables there are: the number of the next new one.
    pub fn count(&self) -> u64
        ensures number { result ≡ length self.now.variables }
        ensures sound { IsSoundStore (contents_in self.now) }
    {
        self.entries.len() as u64
    }

    /// The next number, for a new variable of that name.
    pub fn fresh(&mut self, name: &Text, lasting: bool) -> Result<VarId, NoMemory>
        ensures number { IfOk result (λ x.
            x ≡ record { number = length self.old.variables; lasting = lasting }) }
        ensures variables { OnOk result
            (self.new.variables
            ≡ self.old.variables ++ record { name = name.now; lasting = lasting } ∷ []) }
        ensures facts { HaveSameShapes self.new.facts self.old.facts }
        ensures room { self.new.spare_facts ≡ self.old.spare_facts }
        ensures names { self.old.spare_names ≤ suc self.new.spare_names }
        ensures err { OnErr result (contents_in self.new ≡ contents_in self.old) }
        ensures sound { IsSoundStore (contents_in self.new) }
    {
        let number = self.entries.len() as u64;
        let name = name.copy()?;
        self.state.place(number + 1)?;
        self.fixed.place(number + 1)?;
        self.entries.push(Entry { name, lasting })?;
        Ok(VarId { number, lasting })
    }

    /// The source name of the variable, or none where it is no variable of the store's.
    pub fn name(&self, var: VarId) -> Option<&Text>
        ensures { option_copied result ≡ name_of self.now.variables var }
    {
        name_of(self.entries.as_slice(), var)
    }

    /// Appends the kept facts whose variable has a number less than `below`, each once, or nothing where it refuses.
    pub fn facts(&self, below: u64, out: &mut Facts) -> Result<(), NoMemory>
        ensures ok { OnOk result (HasAppended (facts_below below self.now.facts) out.old out.new) }
        ensures err { OnErr result (out.new ≡ out.old) }
        ensures sound { IsSoundStore (contents_in self.now) }
    {
        let mut copies = Vec::new(self.alloc);
        self.state.copy_below(self.alloc, below, &mut copies)?;
        self.fixed.copy_below(self.alloc, below, &mut copies)?;
        if out.items.is_empty() {
            mem::swap(&mut out.items, &mut copies);
            return Ok(());
        }
        out.items.append(&mut copies)?;
        Ok(())
    }

    /// Goes on to the next state: of the facts those of static variables stay, and all variables.
    pub fn next_state(&mut self)
        ensures facts { HaveSameShapes self.new.facts (lasting_facts self.old.facts) }
        ensures variables { self.new.variables ≡ self.old.variables }
        ensures room { self.old.spare_facts ≤ self.new.spare_facts }
        ensures names { self.new.spare_names ≡ self.old.spare_names }
        ensures sound { IsSoundStore (contents_in self.new) }
    {
        self.state.clear();
    }
}
