//! Which formulas a printed run satisfies, wider ones than those that can be run. Definitions, and their laws: each law is a clause of a
//! function that does nothing, and a proof elsewhere cites its lemma. Then tables of verdicts on all parts of a run, by what is known of
//! each state. A trace is read above.
#![tactic(auto)]

mod bit_row;
mod conditions;
mod examples;
mod judging;
mod kinds;
mod laws;
mod leaves;
mod logic;
mod rule;
mod table;
mod tables;
mod verdict;
mod verdict_row;
mod whole;
mod wide;
mod wide_formula;

pub use conditions::{branch_table, while_table};
pub use examples::{where_a_state_is_unknown, where_a_variable_lasts, where_one_variable_is_known};
pub use kinds::{
    always_table, both_table, empty_table, if_empty_table, if_more_table, more_table, next_table,
    not_table, or_table, outcomes, true_table, value_verdicts,
};
pub use laws::verdicts_are_right;
pub use leaves::{
    assign_table, equation_table, len_table, next_equation_table, test_table, truth_verdicts,
};
pub use logic::{always_laws, chop_laws, wide_formulas_are_plain};
pub use rule::Rule;
pub use table::Table;
pub use tables::{chopped_table, looped_table, ruled_table, suffix_table};
pub use verdict::{Verdict, both, either, opposite};
pub use verdict_row::VerdictRow;
pub use whole::{table_of, verdict_on};
pub use wide::wide_formulas_hold_alike;
pub use wide_formula::{WideFormula, WideFormulas};
