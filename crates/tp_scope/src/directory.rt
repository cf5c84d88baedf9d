// The definitions of a source, by their names.
ghost use Rattle.std.specs.Prelude.{◌≡◌, map, length, nat_eq, IfOk};
ghost use Rattle.tp_tree.specs.Read.{definition_tree, phrase_trees};
ghost use Rattle.tp_scope.specs.Phrases.{phrase_count};
ghost use Rattle.tp_scope.specs.Scope.{called_of};
ghost use Rattle.tp_scope.specs.Names.{signatures_of, AreApart};
ghost use Rattle.tp_scope.specs.Seen.{IsFound, signatures_seen, names_of_definitions};

use crate::count::as_number;
use indexmap::IndexMap;
use std::alloc::Global;
use tp_tree::{Definitions, Phrases};
use tp_value::{NoMemory, Text, Texts};

/// What a call can know of a definition: its parameters, and whether it is a state definition.
#[derive(Clone, Copy)]
pub struct Signature<'a> {
    pub parameters: &'a Texts,
    pub is_state: bool,
}

/// The definition that a call calls, with its number.
#[derive(Clone, Copy)]
pub struct Callee<'a> {
    pub number: u32,
    pub signature: Signature<'a>,
}

impl Callee<'_> {
    /// Whether it takes as many operands.
    pub fn takes(&self, operands: &Phrases) -> bool
        ensures { result
            ≡ nat_eq (phrase_count (phrase_trees operands.now))
            (length self.now.signature.parameters.now) }
    {
        let parameters = self.signature.parameters;
        operands.items.len() == parameters.items.len()
    }
}

/// The definitions of a source, by their names.
#[derive(Drop)]
pub struct Directory<'a> {
    signatures: IndexMap<Text, Signature<'a>>,
}

impl<'a> Directory<'a> {
    /// Of these definitions, no two of which have one name; `states` says of each whether it is a state definition.
    pub fn of(
        alloc: Global,
        definitions: &'a Definitions,
        states: &[bool],
    ) -> Result<Directory<'a>, NoMemory>
        requires apart { AreApart (names_of_definitions definitions.now) }
        requires each { length states.now ≡ length definitions.now.items.items }
        ensures { IfOk result (λ directory.
            signatures_seen directory
            ≡ signatures_of (map definition_tree definitions.now.items.items) states.now) }
    {
        let mut signatures = IndexMap::new(alloc);
        for (definition, is_state) in definitions.items.iter().zip(states) {
            let signature = Signature {
                parameters: &definition.parameters,
                is_state: *is_state,
            };
            signatures.insert(definition.name.copy()?, signature)?;
        }
        Ok(Directory { signatures })
    }

    /// What a call of this name calls, or nothing where no definition has the name.
    pub fn find(&self, name: &Text) -> Result<Option<Callee<'a>>, NoMemory>
        ensures { IfOk result (IsFound (called_of (signatures_seen self.now) name.now)) }
    {
        let Some((number, _, signature)) = self.signatures.get_full(name) else {
            return Ok(None);
        };
        Ok(Some(Callee {
            number: as_number(number)?,
            signature: *signature,
        }))
    }
}
