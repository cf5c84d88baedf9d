//! The closure of a state by an agenda, which tries an item when it is new or when a cell that it waits for is decided: the waits of items
//! by what they are for, and what ends them; laws of what is held of them between two tries.
#![tactic(auto)]

mod board;
mod closure;
mod ends;
mod index;
mod laws;
mod wake;

pub use closure::close_by_agenda;
pub use index::{Index, file, no_waits};
pub use laws::{agendas_hold, steps_leave_agendas};
pub use wake::{Cause, wake_by};
