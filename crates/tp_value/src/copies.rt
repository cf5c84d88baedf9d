// Copies of paths and facts, and when indices are equal.
ghost use Rattle.std.specs.Prelude.{◌≡◌, [], IfOk, nat_eq};
ghost use Rattle.std.specs.Hash as fed;
ghost use Rattle.std.specs.Cmp.Lexicographic.{nat_list_eq_equiv, pointwise};
ghost use Rattle.std.specs.Cmp.{partial_equiv_from_equiv};
ghost use Rattle.std.specs.Cmp.Rules.{hashing};
ghost use Rattle.std.proofs.Common.{rules};

use crate::NoMemory;
use crate::path::{Fact, Indices, Path};
use std::alloc::Global;
use std::hash::{Hash, Hasher};

impl PartialEq for Indices {
    ghost eq = { pointwise nat_eq };

    ghost laws = { partial_equiv_from_equiv nat_list_eq_equiv };

    fn eq(&self, other: &Indices) -> bool {
        self.items.as_slice() == other.items.as_slice()
    }
}

impl Eq for Indices {
    ghost laws = { nat_list_eq_equiv };
}

impl Hash for Indices {
    ghost hash_input = { fed.slice fed.u32 };

    ghost respects_eq = { Prim.search (hashing, rules) };

    fn hash<H: Hasher>(&self, state: &mut H) {
        self.items.as_slice().hash(state);
    }
}

impl Indices {
    /// No index.
    pub fn new(alloc: Global) -> Indices
        ensures { result ≡ [] }
    {
        Indices {
            items: Vec::new(alloc),
        }
    }

    /// Equal indices.
    pub fn copy(&self) -> Result<Indices, NoMemory>
        ensures { IfOk result (λ indices. indices ≡ self.now) }
    {
        let items = self.items.clone()?;
        Ok(Indices { items })
    }
}

impl Path {
    /// An equal path.
    pub fn copy(&self) -> Result<Path, NoMemory>
        ensures { IfOk result (λ path. path ≡ self.now) }
    {
        let at = self.at.copy()?;
        Ok(Path { var: self.var, at })
    }
}

impl Fact {
    /// An equal fact.
    pub fn copy(&self) -> Result<Fact, NoMemory>
        ensures { IfOk result (λ fact. fact ≡ self.now) }
    {
        let path = self.path.copy()?;
        Ok(Fact {
            path,
            shape: self.shape,
        })
    }
}
