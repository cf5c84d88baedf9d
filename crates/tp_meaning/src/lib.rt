//! What expressions and formulas mean on intervals: definitions, and their laws. Each law is a clause of a function that
//! does nothing; a proof elsewhere cites its lemma.
#![tactic(auto)]

mod cuts;
mod examples;
mod laws;
mod moving;
mod unfolding;

pub use cuts::formulas_mean_by_parts;
pub use examples::{
    counting_to_three, exists_formulas, expressions, inputs, length_formulas, loop_formulas,
    next_formulas, parameters, project_formulas, recursive_calls, state_formulas,
};
pub use laws::{division_rounds_down, meanings_deepen};
pub use moving::{bindings_mean, meanings_read_their_part};
pub use unfolding::formulas_unfold;
