//! Laws of steps: what more facts and more status leave, what other numbers leave, and picks in any order. Definitions, and their laws. Each
//! law is a clause of a function that does nothing; a proof elsewhere cites its lemma.
#![tactic(auto)]

mod growth;
mod order;
mod renaming;

pub use growth::{steps_grow, steps_stay_within, steps_wait};
pub use order::{
    items_live_once, lengths_matter, moments_stay_orderly, states_close_one_way, steps_commute,
    waits_stay,
};
pub use renaming::{alike_moments_go_on, picks_rename};
