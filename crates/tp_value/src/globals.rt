// The global variables of a program.
ghost use Rattle.std.specs.Prelude.{◌≡◌, [], IfOk, OnOk, OnErr, length, slice_get, Some, bytes_eq};
ghost use Rattle.std.specs.List.{position_from};
ghost use Rattle.std.specs.Option.{option_copied};
ghost use Rattle.tp_value.specs.Globals.{is_lower, variable_of, variable, with_name};

use crate::{NoMemory, Text, VarId};
use indexmap::IndexSet;
use std::alloc::Global;
use std::marker::Model;

/// The names of the global variables in the order in which they were added, none twice. The i-th, counted from 0, is the
/// variable with number i; it is static where its name begins with a lower-case letter.
#[derive(Debug, Drop)]
pub struct Globals {
    names: IndexSet<Text>,
}

impl Model for Globals {
    ghost use Rattle.std.specs.Prelude.{List, ℕ};

    ghost Value = { List (List ℕ) };

    ghost view = { λ g. g.names.keys };
}

// Whether variables of this name are static.
fn is_lasting(name: &[u8]) -> bool
    ensures { result ≡ is_lower name.now }
{
    match name {
        [first, ..] => first.is_ascii_lowercase(),
        [] => false,
    }
}

// The variable of the name, which has that place in the list.
fn make_variable(name: &[u8], place: usize) -> VarId
    ensures { result ≡ variable name.now place }
{
    VarId {
        number: place as u64,
        lasting: is_lasting(name),
    }
}

impl Globals {
    /// No names.
    pub fn new(alloc: Global) -> Result<Globals, NoMemory>
        ensures { IfOk result (λ globals. globals ≡ []) }
    {
        Ok(Globals {
            names: IndexSet::new(alloc),
        })
    }

    /// The name's variable. A name that is not there is added at the end; one that is there changes nothing.
    pub fn add(&mut self, name: &Text) -> Result<VarId, NoMemory>
        ensures variable { IfOk result (λ x. variable_of self.new name.now ≡ Some x) }
        ensures names { OnOk result (self.new ≡ with_name self.old name.now) }
        ensures err { OnErr result (self.new ≡ self.old) }
    {
        if let Some(found) = self.find(name) {
            return Ok(found);
        }
        let place = self.names.len();
        self.names.insert(name.copy()?)?;
        Ok(make_variable(name.as_slice(), place))
    }

    /// How many names there are.
    pub fn len(&self) -> u64
        ensures { result ≡ length self.now }
    {
        self.names.len() as u64
    }

    /// The name of the variable with that number, or none where the number is not below `len`.
    pub fn name(&self, number: u64) -> Option<&Text>
        ensures { option_copied result ≡ slice_get self.now number }
    {
        self.names.get_index(number as usize)
    }

    /// The variable of that name, or none where the name is not there.
    #[tactic(auto, using(crate::proofs::GlobalsLemmas::position_from_start))]
    pub fn find(&self, name: &Text) -> Option<VarId>
        ensures { result ≡ variable_of self.now name.now }
    {
        let place = self.names.get_index_of(name)?;
        Some(make_variable(name.as_slice(), place))
    }
}
