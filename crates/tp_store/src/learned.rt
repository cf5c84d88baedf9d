// What was new to a store.
ghost use Rattle.std.specs.Prelude.{◌≡◌};
ghost use Rattle.tp_value.specs.Read.{tree};
ghost use Rattle.tp_store.specs.Wholes.{facts_of_value};

use std::marker::Model;
use std::rc::Rc;
use tp_value::{Facts, Value, VarId};

/// These facts, in order, or those of a value that a variable got as a whole.
#[derive(Drop)]
pub enum LearnedKind {
    Listed(Facts),
    Whole(VarId, Rc<Value>),
}

/// What a store has learned: facts that are new, in order. Those of a whole value aren't listed.
#[derive(Drop)]
pub struct Learned {
    pub kind: LearnedKind,
}

impl Model for Learned {
    ghost use Rattle.std.specs.Prelude.{List};
    ghost use Rattle.tp_value.specs.declared.path.Fact.{Fact};
    ghost use Rattle.tp_store.specs.Learned.{facts_learned};

    ghost Value = { List Fact };

    ghost view = { λ l. facts_learned l.kind };
}

impl Learned {
    /// These facts.
    pub fn listed(facts: Facts) -> Learned
        ensures { result ≡ facts }
    {
        Learned {
            kind: LearnedKind::Listed(facts),
        }
    }

    /// The facts of the value, which the whole variable has.
    pub fn whole(var: VarId, value: Rc<Value>) -> Learned
        ensures { result ≡ facts_of_value var (tree value.value) }
    {
        Learned {
            kind: LearnedKind::Whole(var, value),
        }
    }
}
