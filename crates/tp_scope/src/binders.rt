// Names that are bound together.
ghost use Rattle.std.specs.Prelude.{◌≡◌, ◌∷◌, ◌++◌, [], false, length, position, bytes_eq, IfOk, OnOk, OnErr};
ghost use Rattle.std.specs.List.{list_any};
ghost use Rattle.tp_scope.specs.Scope.{Names, bound_in, binder_of};
ghost use Rattle.tp_scope.specs.Seen.{apart, binder_among};

use indexmap::IndexSet;
use std::alloc::Global;
use std::marker::Model;
use tp_value::{NoMemory, Text, Texts};

/// Names that a definition, a loop or an `exists` binds, in their order, none twice.
#[derive(Drop)]
pub struct Binders {
    names: IndexSet<Text>,
}

impl Model for Binders {
    ghost use Rattle.std.specs.Prelude.{List, ℕ, bytes_eq};
    ghost use Rattle.indexmap.specs.IndexSet.{IsUnique};

    ghost Value = { List (List ℕ) };

    ghost view = { λ b. b.names.keys };

    ghost invariant = { λ b. IsUnique bytes_eq b.names };
}

impl Binders {
    /// No names.
    pub fn none(alloc: Global) -> Binders
        ensures { result ≡ [] }
    {
        Binders {
            names: IndexSet::new(alloc),
        }
    }

    /// These names, or nothing where one of them stands twice.
    pub fn of(alloc: Global, texts: &Texts) -> Result<Option<Binders>, NoMemory>
        ensures { IfOk result (λ found. found ≡ apart texts.now) }
    {
        let mut names = IndexSet::new(alloc);
        for name in &texts.items {
            if names.get_index_of(name).is_some() {
                return Ok(None);
            }
            names.insert(name.copy()?)?;
        }
        Ok(Some(Binders { names }))
    }

    /// This one name.
    pub fn one(alloc: Global, name: &Text) -> Result<Binders, NoMemory>
        ensures { IfOk result (λ binders. binders ≡ name.now ∷ []) }
    {
        let mut names = IndexSet::new(alloc);
        names.insert(name.copy()?)?;
        Ok(Binders { names })
    }

    /// Whether the name is one of them.
    pub fn has(&self, name: &Text) -> bool
        ensures { result ≡ list_any (bytes_eq name.now) self.now }
    {
        self.names.get_index_of(name).is_some()
    }

    /// Adds a name that isn't one of them, behind the others.
    pub fn add(&mut self, name: &Text) -> Result<(), NoMemory>
        requires { list_any (bytes_eq name.now) self.old ≡ false }
        ensures ok { OnOk result (self.new ≡ self.old ++ name.now ∷ []) }
        ensures err { OnErr result (self.new ≡ self.old) }
    {
        self.names.insert(name.copy()?)?;
        Ok(())
    }

    /// The number of the name, or none where it isn't one of them.
    pub fn number(&self, name: &Text) -> Option<usize>
        ensures { result ≡ position (bytes_eq name.now) self.now }
    {
        self.names.get_index_of(name)
    }

    /// How many there are.
    pub fn len(&self) -> usize
        ensures { result ≡ length self.now }
    {
        self.names.len()
    }

    /// The place of a name among them, or none where it isn't one of them.
    pub fn place(&self, name: &Text) -> Option<usize>
        ensures { (outer : Names)
            → binder_of (bound_in outer self.now) name.now
            ≡ binder_among outer name.now result }
    {
        self.names.get_index_of(name)
    }
}
