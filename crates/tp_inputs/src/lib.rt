//! The table of inputs: for ranges of states the values of ports, with defaults, read from a text.
#![tactic(auto)]

mod convert;
mod fault;
mod head;
mod inputs;
mod laws;
mod line;
mod part;
mod ports;
mod ranges;
mod reading;
mod refusal;
mod span;

pub use inputs::Inputs;
pub use laws::texts_have_one_table;
pub use reading::read_inputs;
pub use refusal::InputsRefusal;
