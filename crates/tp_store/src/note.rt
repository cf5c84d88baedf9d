// Facts that come one by one, where room was made for them.
ghost use Rattle.std.specs.Prelude.{◌≡◌, ◌<◌, ◌≤◌, ◌+◌, ◌∷◌, [], length, suc, OnOk};
ghost use Rattle.tp_store.specs.Facts.{fact};
ghost use Rattle.tp_store.specs.Known.{IsVariableOf};
ghost use Rattle.tp_store.specs.Stock.{contents_in};
ghost use Rattle.tp_store.specs.Answers.{IsNoted, IfNew, UnlessNew};
ghost use Rattle.tp_store.specs.Changes.{IsSoundStore, AddsFacts};
ghost use Rattle.tp_store.specs.Entries.{TakesFact};

use crate::portion::Portion;
use crate::store::Store;
use tp_value::{NoMemory, Path, Shape};

/// What became of a fact that was noted: it is kept from now on, it was kept already, or one that is kept clashes with it.
#[derive(Clone, Copy, Debug, PartialEq, Eq)]
pub enum Noted {
    New,
    Kept,
    Clash,
}

// The same for the facts of one kind.
fn note_in(kept: &mut Portion, path: &Path, shape: Shape) -> Noted
    requires kind { path.now.var.lasting ≡ kept.old.lasting }
    requires placed { path.now.var.number < kept.old.placed }
    requires room { length path.now.at < kept.old.spare }
    ensures answer { IsNoted kept.old.facts (fact path.now shape) result }
    ensures new { IfNew result (TakesFact kept.old (fact path.now shape) kept.new) }
    ensures room { kept.old.spare ≤ kept.new.spare + suc (length path.now.at) }
    ensures same { UnlessNew result (kept.new ≡ kept.old) }
{
    let noted = kept.judge(path, shape);
    if noted == Noted::New {
        kept.keep(path, shape);
    }
    noted
}

impl Store {
    /// Makes room for facts, of which each takes one more than its path has indices, and for so many more names.
    pub fn reserve(&mut self, facts: usize, names: usize) -> Result<(), NoMemory>
        ensures facts { OnOk result (facts ≤ self.new.spare_facts) }
        ensures names { OnOk result (names ≤ self.new.spare_names) }
        ensures same { contents_in self.new ≡ contents_in self.old }
        ensures sound { IsSoundStore (contents_in self.new) }
    {
        self.state.reserve(facts)?;
        self.fixed.reserve(facts)?;
        self.entries.reserve(names)?;
        Ok(())
    }

    /// Adds the one fact that the path has this shape, or says that it is kept already, or that a kept one clashes with it; it takes no
    /// memory. The path's variable is one of the store's, and there is room for more facts than the path has indices. The room for others
    /// falls only where the fact is new, and by one more than these.
    pub fn note(&mut self, path: &Path, shape: Shape) -> Noted
        requires variable { IsVariableOf self.old.variables path.now.var }
        requires room { length path.now.at < self.old.spare_facts }
        ensures answer { IsNoted self.old.facts (fact path.now shape) result }
        ensures added { IfNew result
            (AddsFacts (contents_in self.old) (fact path.now shape ∷ []) (contents_in self.new)) }
        ensures room { self.old.spare_facts ≤ self.new.spare_facts + suc (length path.now.at) }
        ensures variables { self.new.variables ≡ self.old.variables }
        ensures names { self.new.spare_names ≡ self.old.spare_names }
        ensures same { UnlessNew result (self.new ≡ self.old) }
        ensures sound { IsSoundStore (contents_in self.new) }
    {
        if path.var.lasting {
            note_in(&mut self.fixed, path, shape)
        } else {
            note_in(&mut self.state, path, shape)
        }
    }
}
