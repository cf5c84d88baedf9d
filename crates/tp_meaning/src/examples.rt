// The least intervals on which formulas of each kind hold, and some on which they do not. In the states 0, 1, .. the variable A has
// the values 0, 1, ..
ghost use Rattle.std.specs.Prelude.{◌≡◌, pos, negsuc, ℕ, Bool, List, [], ◌∷◌, Some, None};
ghost use Rattle.tp_value.specs.Tree.{num, truth};
ghost use Rattle.tp_meaning.specs.Syntax.{Equal, Less, Plus, Div, Mod, numeral, boolean, bound, index, both, either, binary, FormulaTree, trivial, test, equation, next_equation, empty, more, next, weak_next, if_more, if_empty, always, conjunction, branch, len, assign, chop, while, for_from, forall_from, project, exists, input, display, exprs_of, formulas_of};
ghost use Rattle.tp_meaning.specs.Course.{Shows, blank};
ghost use Rattle.tp_meaning.specs.Value.{fixed};
ghost use Rattle.tp_meaning.specs.Holds.{Holds};
ghost use Rattle.tp_meaning.specs.Derived.{skip_of, fin_of};
ghost use Rattle.tp_meaning.specs.Examples.{nothing_given, counting, A, I, number_expr, A_is, display_of, value_at_first, listed, one_shown, HoldsTo, FailsTo, CountsToThree, with_definition, call_it, on_and_on, upper_parameter, lower_parameter, indexed_course, with_inputs, port, row_is};

/// Values of expressions: quotients are rounded down, and `and` and `or` look at no more than they need.
pub fn expressions()
    ensures div_rounds_down { value_at_first (binary Div (number_expr 7) (numeral (negsuc 1)))
        ≡ Some (num (negsuc 3)) }
    ensures mod_lies_on_the_divisors_side { value_at_first
        (binary Mod (number_expr 7) (numeral (negsuc 1)))
        ≡ Some (num (negsuc 0)) }
    ensures mod_of_a_negative { value_at_first (binary Mod (numeral (negsuc 6)) (number_expr 2))
        ≡ Some (num (pos 1)) }
    ensures div_by_0 { value_at_first (binary Div (number_expr 7) (number_expr 0)) ≡ None }
    ensures mod_by_0 { value_at_first (binary Mod (number_expr 7) (number_expr 0)) ≡ None }
    ensures and_stops_at_false { value_at_first
        (both (exprs_of (boolean Bool.false ∷ number_expr 1 ∷ [])))
        ≡ Some (truth Bool.false) }
    ensures and_needs_truth_values { value_at_first
        (both (exprs_of (boolean Bool.true ∷ number_expr 1 ∷ [])))
        ≡ None }
    ensures or_stops_at_true { value_at_first (either (boolean Bool.true) (number_expr 1))
        ≡ Some (truth Bool.true) }
    ensures or_needs_truth_values { value_at_first (either (boolean Bool.false) (number_expr 1))
        ≡ None }
{}

/// `true`, tests, equations, displays, conjunctions and choices.
pub fn state_formulas()
    ensures true_holds { HoldsTo 0 trivial [] }
    ensures true_shows_nothing { (S : Shows) → Holds nothing_given 0 trivial [] counting 0 0 S
        → S ≡ blank }
    ensures test_holds { HoldsTo 0 (test (binary Equal A (number_expr 0))) [] }
    ensures test_fails { FailsTo 0 (test (binary Equal A (number_expr 1))) }
    ensures test_of_number_fails { FailsTo 0 (test A) }
    ensures equation_holds { HoldsTo 0 (A_is 0) [] }
    ensures equation_fails { FailsTo 0 (A_is 1) }
    ensures display_holds { HoldsTo 0 (display_of A) ((one_shown 0 ∷ []) ∷ []) }
    ensures display_of_two_holds { HoldsTo 0
        (display (exprs_of (number_expr 1 ∷ number_expr 2 ∷ [])))
        (((num (pos 1) ∷ num (pos 2) ∷ []) ∷ []) ∷ []) }
    ensures display_fails { FailsTo 0 (display_of (binary Div A (number_expr 0))) }
    ensures and_holds { HoldsTo 0
        (conjunction
        (formulas_of (display_of (number_expr 1) ∷ A_is 0 ∷ display_of (number_expr 2) ∷ [])))
        ((one_shown 1 ∷ one_shown 2 ∷ []) ∷ []) }
    ensures and_fails { FailsTo 0 (conjunction (formulas_of (A_is 0 ∷ A_is 1 ∷ []))) }
    ensures if_holds { HoldsTo 0 (branch (binary Equal A (number_expr 0)) empty more) [] }
    ensures if_needs_a_truth_value { FailsTo 0 (branch (number_expr 1) trivial trivial) }
    ensures if_fails { FailsTo 1 (branch (binary Equal A (number_expr 0)) empty more) }
{}

/// `empty`, `more`, `next` in its forms, `always`, and what holds where there is more, or no more.
pub fn next_formulas()
    ensures empty_holds { HoldsTo 0 empty [] }
    ensures empty_fails { FailsTo 1 empty }
    ensures more_holds { HoldsTo 1 more [] }
    ensures more_fails { FailsTo 0 more }
    ensures next_holds { HoldsTo 1 (next (display_of A)) ([] ∷ (one_shown 1 ∷ []) ∷ []) }
    ensures next_fails { FailsTo 0 (next trivial) }
    ensures weak_next_holds { HoldsTo 0 (weak_next (A_is 5)) [] }
    ensures weak_next_goes_on { HoldsTo 1 (weak_next (display_of A))
        ([] ∷ (one_shown 1 ∷ []) ∷ []) }
    ensures weak_next_fails { FailsTo 1 (weak_next (A_is 5)) }
    ensures next_equation_holds { HoldsTo 1 (next_equation 1 A (binary Plus A (number_expr 1))) [] }
    ensures next_equation_fails { FailsTo 0 (next_equation 1 A (binary Plus A (number_expr 1))) }
    ensures if_more_holds { HoldsTo 0 (if_more (A_is 5)) [] }
    ensures if_more_with_more { HoldsTo 1 (if_more (display_of A)) ((one_shown 0 ∷ []) ∷ []) }
    ensures if_more_fails { FailsTo 1 (if_more (A_is 5)) }
    ensures if_empty_holds { HoldsTo 1 (if_empty (A_is 5)) [] }
    ensures if_empty_at_the_end { HoldsTo 0 (if_empty (display_of A)) ((one_shown 0 ∷ []) ∷ []) }
    ensures if_empty_fails { FailsTo 0 (if_empty (A_is 5)) }
    ensures always_holds { HoldsTo 1 (always (display_of A))
        ((one_shown 0 ∷ []) ∷ (one_shown 1 ∷ []) ∷ []) }
    ensures older_suffix_first { HoldsTo 1
        (always
        (exists [] Bool.true
        (conjunction (formulas_of (equation (bound 0) A ∷ fin_of (display_of (bound 0)) ∷ [])))))
        ([] ∷ (one_shown 0 ∷ one_shown 1 ∷ []) ∷ []) }
    ensures always_fails { FailsTo 1 (always (A_is 0)) }
{}

/// Lengths, `<-`, and chops: at the state that two parts share, the earlier part's displays come first.
pub fn length_formulas()
    ensures len_holds { HoldsTo 1 (len (number_expr 1)) [] }
    ensures len_fails { FailsTo 0 (len (number_expr 1)) }
    ensures len_reads_the_first_state { HoldsTo 0 (len A) [] }
    ensures len_reads_no_later_state { FailsTo 1 (len A) }
    ensures assign_holds { HoldsTo 1 (assign A (binary Plus A (number_expr 1))) [] }
    ensures assign_fails { FailsTo 0 (assign A (binary Plus A (number_expr 1))) }
    ensures chop_holds { HoldsTo 0 (chop (display_of (number_expr 1)) (display_of (number_expr 2)))
        ((one_shown 1 ∷ one_shown 2 ∷ []) ∷ []) }
    ensures chop_shares_a_state { HoldsTo 2
        (chop (next (display_of (number_expr 7)))
        (conjunction (formulas_of (len (number_expr 1) ∷ display_of A ∷ []))))
        ([] ∷ (one_shown 7 ∷ one_shown 1 ∷ []) ∷ []) }
    ensures chop_fails { FailsTo 1 (chop empty empty) }
{}

/// Loops, with turns and without.
pub fn loop_formulas()
    ensures while_without_turn { HoldsTo 0 (while (binary Equal A (number_expr 1)) skip_of) [] }
    ensures while_holds { HoldsTo 2
        (while (binary Less A (number_expr 2))
        (conjunction (formulas_of (skip_of ∷ display_of A ∷ []))))
        ((one_shown 0 ∷ []) ∷ (one_shown 1 ∷ []) ∷ []) }
    ensures while_fails { FailsTo 1 (while (binary Equal A (number_expr 1)) skip_of) }
    ensures each_turn_begins_where_it_is_true { FailsTo 2
        (while (binary Equal A (number_expr 0)) skip_of) }
    ensures while_true_fails { FailsTo 0 (while (boolean Bool.true) empty) }
    ensures turns_have_length { HoldsTo 1 (while (binary Less A (number_expr 1)) (display_of A))
        ((one_shown 0 ∷ []) ∷ []) }
    ensures no_turn_without_length { (d : ℕ) (S : Shows)
        → Holds nothing_given d (while (binary Less A (number_expr 1)) (display_of A)) [] counting 0
        1 S
        → S ≡ listed ((one_shown 0 ∷ []) ∷ []) }
    ensures for_without_turn { HoldsTo 0 (for_from [] (pos 0) (number_expr 0) skip_of) [] }
    ensures for_without_turn_fails { FailsTo 1 (for_from [] (pos 0) (number_expr 0) skip_of) }
    ensures for_holds { HoldsTo 2
        (for_from [] (pos 0) (number_expr 2)
        (conjunction (formulas_of (skip_of ∷ display_of (bound 0) ∷ []))))
        ((one_shown 0 ∷ []) ∷ (one_shown 1 ∷ []) ∷ []) }
    ensures for_turns_may_be_empty { HoldsTo 0
        (for_from [] (pos 0) (number_expr 2) (display_of (bound 0)))
        ((one_shown 0 ∷ one_shown 1 ∷ []) ∷ []) }
    ensures for_counts_from_its_number { HoldsTo 0
        (for_from [] (negsuc 0) (number_expr 1) (display_of (bound 0)))
        (((num (negsuc 0) ∷ []) ∷ one_shown 0 ∷ []) ∷ []) }
    ensures number_is_bound_last { HoldsTo 0
        (exists [] Bool.true
        (conjunction
        (formulas_of
        (equation (bound 0) (number_expr 3)
        ∷ for_from [] (pos 0) (number_expr 1)
        (conjunction
        (formulas_of (equation (bound 0) (number_expr 3) ∷ equation (bound 1) (number_expr 0) ∷ [])))
        ∷ []))))
        [] }
    ensures forall_without_instance { HoldsTo 1 (forall_from [] (pos 0) (number_expr 0) empty) [] }
    ensures forall_holds { HoldsTo 0 (forall_from [] (pos 0) (number_expr 2) (display_of (bound 0)))
        ((one_shown 0 ∷ one_shown 1 ∷ []) ∷ []) }
    ensures forall_fails { FailsTo 0
        (forall_from [] (pos 0) (number_expr 2) (equation A (bound 0))) }
{}

/// Projections: at a cut the displays of the piece that ends come first, then those of the outer formula, then those of the piece that
/// begins.
pub fn project_formulas()
    ensures holds { HoldsTo 2
        (project
        (conjunction
        (formulas_of
        (skip_of ∷ display_of (number_expr 1) ∷ fin_of (display_of (number_expr 3)) ∷ [])))
        (always (display_of (number_expr 2))))
        ((one_shown 2 ∷ one_shown 1 ∷ []) ∷ (one_shown 3 ∷ one_shown 2 ∷ one_shown 1 ∷ [])
        ∷ (one_shown 3 ∷ one_shown 2 ∷ []) ∷ []) }
    ensures holds_on_one_state { HoldsTo 0 (project skip_of (A_is 0)) [] }
    ensures fails { FailsTo 1 (project skip_of empty) }
    ensures names_of_the_outer_formula { HoldsTo 2
        (project (len (number_expr 2))
        (exists [] Bool.false
        (conjunction
        (formulas_of (always (equation (bound 0) A) ∷ next (display_of (bound 0)) ∷ [])))))
        ([] ∷ [] ∷ (one_shown 2 ∷ []) ∷ []) }
    ensures names_change_with_the_cuts { HoldsTo 2
        (exists [] Bool.false
        (conjunction
        (formulas_of
        (always (equation (bound 0) A)
        ∷ project (len (number_expr 2)) (next (equation (bound 0) (number_expr 2))) ∷ []))))
        [] }
{}

/// `exists`, for state variables and for static ones.
pub fn exists_formulas()
    ensures holds { HoldsTo 0 (exists [] Bool.false (equation (bound 0) (number_expr 7))) [] }
    ensures later_names_come_after { HoldsTo 0
        (exists [] Bool.true
        (conjunction
        (formulas_of
        (equation (bound 0) (number_expr 3)
        ∷ exists [] Bool.true
        (conjunction
        (formulas_of (equation (bound 0) (number_expr 3) ∷ equation (bound 1) (number_expr 2) ∷ [])))
        ∷ []))))
        [] }
    ensures fails { FailsTo 0
        (exists [] Bool.false
        (conjunction
        (formulas_of
        (equation (bound 0) (number_expr 0) ∷ equation (bound 0) (number_expr 1) ∷ [])))) }
    ensures changing_holds { HoldsTo 1 (exists [] Bool.false (always (equation (bound 0) A))) [] }
    ensures lasting_fails { FailsTo 1 (exists [] Bool.true (always (equation (bound 0) A))) }
{}

/// `len(3) and A=0 and A gets A+1` holds where A is 0, 1, 2, 3, and nowhere else.
pub fn counting_to_three()
    ensures { CountsToThree }
{}

/// A recursion holds at the depth that it needs and above, and at none below.
pub fn recursive_calls()
    ensures one_state_at_depth_1 { Holds on_and_on 1 (call_it []) [] counting 0 0 blank }
    ensures no_state_at_depth_0 { (S : Shows) → Holds on_and_on 0 (call_it []) [] counting 0 0 S →
        ⊥ }
    ensures two_states_at_depth_2 { Holds on_and_on 2 (call_it []) [] counting 0 1 blank }
    ensures not_two_states_at_depth_1 { (S : Shows)
        → Holds on_and_on 1 (call_it []) [] counting 0 1 S → ⊥ }
{}

/// A place that is handed to an upper-case parameter varies, while its index is read in the call's first state; a lower-case parameter
/// keeps the value that its argument has there.
pub fn parameters()
    ensures upper_holds { Holds
        (with_definition upper_parameter (next (equation (bound 0) (number_expr 5)))) 1
        (call_it (index A I ∷ [])) [] indexed_course 0 1 blank }
    ensures index_in_the_next_state { Holds nothing_given 0
        (next (equation (index A I) (number_expr 7))) [] indexed_course 0 1 blank }
    ensures lower_holds { Holds
        (with_definition lower_parameter (next (equation (bound 0) (number_expr 4)))) 1
        (call_it (index A I ∷ [])) [] indexed_course 0 1 blank }
    ensures element_of_a_path_needs_no_value { Holds (with_definition upper_parameter trivial) 1
        (call_it (index A (number_expr 0) ∷ [])) [] counting 0 0 blank }
    ensures element_of_a_known_value_needs_one { (d : ℕ) (S : Shows)
        → Holds (with_definition upper_parameter trivial) d
        (call_it (index (bound 0) (number_expr 0) ∷ [])) (fixed (num (pos 1)) ∷ []) counting 0 0 S
        → ⊥ }
    ensures bindings_alone { Holds
        (with_definition lower_parameter (equation (bound 0) (number_expr 2))) 1
        (exists [] Bool.true
        (conjunction
        (formulas_of (equation (bound 0) (number_expr 3) ∷ call_it (number_expr 2 ∷ []) ∷ []))))
        [] counting 0 0 blank }
    ensures upper_takes_places { (d : ℕ) (S : Shows)
        → Holds (with_definition upper_parameter trivial) d (call_it (number_expr 1 ∷ [])) []
        indexed_course 0 1 S
        → ⊥ }
{}

/// An input is read by the state's own number, in a projection too: the value of the range that has the state, else the default.
pub fn inputs()
    ensures holds { Holds (with_inputs (row_is 0 0 0 ∷ []) None) 0 (input A port) [] counting 0 0
        blank }
    ensures fails_without { FailsTo 0 (input A port) }
    ensures fails_with_another { (d : ℕ) (S : Shows)
        → Holds (with_inputs (row_is 0 0 1 ∷ []) None) d (input A port) [] counting 0 0 S → ⊥ }
    ensures own_number { Holds (with_inputs (row_is 1 1 9 ∷ row_is 2 4 2 ∷ []) None) 0
        (project (len (number_expr 2)) (next (input A port))) [] counting 0 2 blank }
    ensures default { Holds (with_inputs (row_is 1 1 9 ∷ []) (Some (num (pos 0)))) 0 (input A port) []
        counting 0 0 blank }
    ensures over_default { (d : ℕ) (S : Shows)
        → Holds (with_inputs (row_is 0 2 9 ∷ []) (Some (num (pos 0)))) d (input A port) [] counting 0
        0 S → ⊥ }
{}
