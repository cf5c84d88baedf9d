// Verdicts on small runs.
ghost use Rattle.std.specs.Prelude.{◌≡◌};
ghost use Rattle.tp_verdict.specs.Wide.{trivial, empty, next, always, chop, negation, sometimes, disjunction};
ghost use Rattle.tp_verdict.specs.Verdict.{yes, no, undecided};
ghost use Rattle.tp_verdict.specs.Trace.{whole_verdict};
ghost use Rattle.tp_verdict.specs.Examples.{counted, partly_counted, known_later, torn, a_is, b_is, n_is, both_formulas, two_before_the_end, three_more, while_below, three_after, a_is_none};

/// On a run in which `A` is 0, 1, 2, 3. Of `B` nothing is known.
pub fn where_one_variable_is_known()
    ensures two_is_before_the_end { whole_verdict two_before_the_end counted ≡ yes }
    ensures parts_share_a_state { whole_verdict three_more counted ≡ yes }
    ensures first_suffix_counts { whole_verdict (sometimes (a_is 0)) counted ≡ yes }
    ensures nothing_is_no_0 { whole_verdict (always (b_is 0)) counted ≡ undecided }
    ensures length_decides { whole_verdict (both_formulas (always (b_is 1)) empty) counted ≡ no }
    ensures not_of_undecided { whole_verdict (negation (b_is 1)) counted ≡ undecided }
    ensures one_is_enough { whole_verdict (disjunction (b_is 1) (a_is 0)) counted ≡ yes }
    ensures loop_ends { whole_verdict (while_below 3 (next empty)) counted ≡ yes }
    ensures loop_ends_too_early { whole_verdict (while_below 2 (next empty)) counted ≡ no }
    ensures turns_have_length { whole_verdict (while_below 3 empty) counted ≡ no }
    ensures last_state_is_reached { whole_verdict (three_after 3) counted ≡ yes }
    ensures no_state_beyond { whole_verdict (three_after 4) counted ≡ no }
    ensures fault_is_no_value { whole_verdict a_is_none counted ≡ no }
    ensures not_of_a_fault { whole_verdict (negation a_is_none) counted ≡ yes }
{}

/// On a run in which a value of `A` isn't known.
pub fn where_a_state_is_unknown()
    ensures value_is_unknown { whole_verdict (next (a_is 1)) partly_counted ≡ undecided }
    ensures end_is_known { whole_verdict (sometimes (a_is 3)) partly_counted ≡ yes }
    // Each part is judged alone, so it isn't seen that no value is both 1 and 5.
    ensures parts_are_judged_alone { whole_verdict (chop (next (a_is 1)) (a_is 5)) partly_counted
        ≡ undecided }
{}

/// A static variable has one value in all states.
pub fn where_a_variable_lasts()
    ensures later_facts_are_known { whole_verdict (n_is 7) known_later ≡ yes }
    ensures two_values_are_torn { whole_verdict trivial torn ≡ no }
{}
