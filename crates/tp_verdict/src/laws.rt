// What verdicts say.
ghost use Rattle.tp_verdict.specs.VerdictLaws.{VerdictsAreRight, UndecidedWhereOpen, UndecidedByLimits, TornByLasting};

/// What the verdict on a whole run says.
pub fn verdicts_are_right()
    // It is right on each interval that is as the run tells.
    ensures right { VerdictsAreRight }
    // Where it is undecided, one of the formula's expressions has no value and no fault in some state.
    ensures undecided { UndecidedWhereOpen }
    // Where in each state all variables are known, the evaluation of one of them passes a limit in some state.
    ensures limits { UndecidedByLimits }
    // Where no state's own facts clash, a run is torn exactly where the facts of static variables do.
    ensures torn { TornByLasting }
{}
