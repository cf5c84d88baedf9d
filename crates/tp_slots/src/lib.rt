//! Scenes as slots by item number.
#![tactic(auto)]

mod begin;
mod bound;
mod change;
mod flags;
mod laws;
mod leaves;
mod live;
mod looks;
mod number_set;
mod put;
mod scene;
mod settle;
mod sharing;
mod status;
mod values;
mod walk;

pub use begin::start;
pub use bound::become_bound;
pub use change::{become_opened, become_split, move_on, share};
pub use laws::{marks_tell_status, places_are_shallow};
pub use leaves::{become_leaves, vanish};
pub use live::{has_item, place, place_inside, place_of_item, remember};
pub use looks::{Looks, no_looks};
pub use number_set::NumberSet;
pub use scene::{Holder, Mark, Region, Scene, Slot, What};
pub use settle::first_unsettled;
pub use sharing::become_sharing;
pub use status::{mark, root_mark};
pub use values::{copy_values, shown};
pub use walk::{items, items_inside};
