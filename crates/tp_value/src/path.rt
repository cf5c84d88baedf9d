// Variables, places in their values, and facts.
use crate::value::Shape;
use std::marker::Model;

/// A variable, by its number. `lasting` says that it is static: it keeps one value over the whole interval. Else it is a state
/// variable, with a value of its own in each state.
#[derive(Clone, Copy, Debug, PartialEq, Eq, Hash)]
pub struct VarId {
    pub number: u64,
    pub lasting: bool,
}

/// The indices of a path, from the outermost list inwards.
#[derive(Debug, Drop)]
pub struct Indices {
    pub items: Vec<u32>,
}

impl Model for Indices {
    ghost use Rattle.std.specs.Prelude.{List, ℕ};

    ghost Value = { List ℕ };

    ghost view = { λ a. a.items.items };
}

/// A place: a variable, and indices into its value; with no index it is the whole value.
#[derive(Debug, PartialEq, Eq, Hash, Drop)]
pub struct Path {
    pub var: VarId,
    pub at: Indices,
}

/// A fact gives the place of a path a shape, in one state.
#[derive(Debug, Drop)]
pub struct Fact {
    pub path: Path,
    pub shape: Shape,
}

/// Facts, in order.
#[derive(Debug, Drop)]
pub struct Facts {
    pub items: Vec<Fact>,
}

impl Model for Facts {
    ghost use Rattle.std.specs.Prelude.{List};
    ghost use Rattle.tp_value.specs.declared.path.Fact.{Fact};

    ghost Value = { List Fact };

    ghost view = { λ a. a.items.items };
}
