//! What becomes of one item of a scene, for all kinds of formula and all items with regions: as items and regions that have no numbers
//! yet, for scenes that are kept as slots. Nothing is changed here: what is decided is carried out above.
#![tactic(auto)]

mod bound_formula;
mod calls;
mod counting;
mod decision;
mod display;
mod env;
mod equation;
mod evaluated;
mod formula;
mod found;
mod holder;
mod leaves;
mod regions;
mod setting;
mod sharing;
mod sides;

pub use bound_formula::{BoundFormula, Shows, Values};
pub use decision::{Decision, Leaf, Place, Side};
pub use env::bind_last;
pub use formula::decide;
pub use holder::{HolderDecision, HolderKind, decide_holder};
pub use leaves::Leaves;
pub use setting::Setting;
