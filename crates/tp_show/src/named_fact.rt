// A fact by its variable's name.
use tp_value::{Indices, Shape, Text};

/// A fact of a variable that is known by its name.
#[derive(Debug, Drop)]
pub struct NamedFact {
    pub name: Text,
    pub at: Indices,
    pub shape: Shape,
}
