// Laws of evaluation. Each function does nothing: its contract is the law.
ghost use Rattle.tp_eval.specs.Bound.{PlacesMean};
ghost use Rattle.tp_eval.specs.Right.{OutcomesMean, WaitsAreUndecided, PlaceWaitsAreUndecided};

/// In each state that agrees with the facts, a value that is found is the expression's value, an expression with a fault has none, and a
/// place's value and size are those of the element at its path.
pub fn outcomes_mean()
    ensures outcomes { OutcomesMean }
    // A place that is found means at each position what stands at its path, a value that is found in a known one is what
    // the place means, and a place with a fault means nothing.
    ensures places { PlacesMean }
{}

/// A path that an expression or a place waits for has no shape yet, and no fact excludes it.
pub fn waits_are_undecided()
    ensures expressions { WaitsAreUndecided }
    ensures places { PlaceWaitsAreUndecided }
{}
