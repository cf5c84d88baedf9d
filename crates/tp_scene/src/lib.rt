//! Scenes and what they stand for: definitions, and their laws. Each law is the contract of a function that does nothing; a proof
//! elsewhere uses it by a call.
#![tactic(auto)]

mod answer;
mod copies;
mod laws;

pub use answer::{Cell, Clash};
pub use laws::{
    decided_stays, live_items_are_told, moments_stand, moments_stay_sound, rest_waits,
    status_is_least, waits_are_for_undecided,
};
