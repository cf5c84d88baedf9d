//! The step of one item of a scene, and the scene's beginning, rest and next state.
#![tactic(auto)]

mod answer;
mod carry;
mod ending;
mod first;
mod laws;
mod live;
mod next_scene;
mod next_state;
mod order;
mod own;
mod seed;
mod step;
mod steps;
mod tally;

pub use answer::{ItemIds, NewIds, News, Settled, Strategy, Tried};
pub use ending::Ending;
pub use first::start;
pub use laws::first_waiting_is_named;
pub use live::{items, settled};
pub use next_state::advance;
pub use order::Order;
pub use own::own_items;
pub use seed::choose_place;
pub use step::try_item;
pub use steps::Steps;
pub use tally::{Tally, Wait, Waits};
pub use tp_decide::{BoundFormula, Setting, Shows, Values};
pub use tp_scene::{Cell, Clash};
pub use tp_slots::{Mark, Scene, has_item, mark, shown};
