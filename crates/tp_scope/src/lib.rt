//! What the names of a source stand for: its definitions, what is bound, and its variables; and which definitions speak of one state.
#![tactic(auto)]

mod binders;
mod count;
mod directory;
mod names;
mod phrases;
mod scope;
mod states;

pub use binders::Binders;
pub use directory::{Callee, Directory, Signature};
pub use names::add_names;
pub use phrases::{Callable, is_place, is_state};
pub use scope::{Scope, Visible, find_binder};
pub use states::find_states;
