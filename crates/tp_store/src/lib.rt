//! What is known of a state: facts without a clash, found by their paths, and the names of the variables.
#![tactic(auto)]

mod add;
mod clash;
mod copies;
mod entry;
mod fact_map;
mod full;
mod judge;
mod keeping;
mod laws;
mod learned;
mod nodes;
mod note;
mod operand;
mod portion;
mod set;
mod store;
mod walk;
mod wholes;

pub use add::{AddRefusal, value_facts};
pub use full::Known;
pub use laws::{adding_is_right, agreeing_states_exist, known_is_right};
pub use learned::{Learned, LearnedKind};
pub use note::Noted;
pub use operand::{Operand, held, owned, seen};
pub use store::Store;
