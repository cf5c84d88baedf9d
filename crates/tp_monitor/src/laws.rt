// What verdicts by traces say. The function does nothing: its contract is the law.
ghost use Rattle.tp_monitor.specs.Right.{TraceVerdictsAreRight, UndecidedByTraceLimits};

/// What the verdict on a formula by a trace says.
pub fn judged_rightly()
    // It is right on each interval that is as the trace tells.
    ensures right { TraceVerdictsAreRight }
    // Where all variables are told in each state, it is undecided by limits alone.
    ensures limits { UndecidedByTraceLimits }
{}
