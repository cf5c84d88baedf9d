// Laws of growth: what stays where more is known.
ghost use Rattle.tp_step_laws.specs.Outcomes.{FactsGrow, OutcomesGrow};
ghost use Rattle.tp_step_laws.specs.Rows.{HolderRowsGrow, LeafRowsGrow};
ghost use Rattle.tp_step_laws.specs.WaitingRows.{HolderRowsWait, LeafRowsWait, OutcomesWait};
ghost use Rattle.tp_step_laws.specs.Within.{PicksStayWithin, ValuesWithin};

/// What a step gives stays so where more is known, or it is a failure; and a failure stays one.
pub fn steps_grow()
    // What facts say of places and of additions.
    ensures facts { FactsGrow }
    // Values, faults and passed limits of expressions.
    ensures outcomes { OutcomesGrow }
    // What a formula becomes, and its failures.
    ensures leaves { LeafRowsGrow }
    // What an item with a region becomes.
    ensures holders { HolderRowsGrow }
{}

/// What waits goes on waiting for the same cells where more is known, but not of these; and what rests rests on.
pub fn steps_wait()
    // Of expressions, for paths.
    ensures outcomes { OutcomesWait }
    // Of formulas.
    ensures leaves { LeafRowsWait }
    // Of items with a region.
    ensures holders { HolderRowsWait }
{}

/// What is found and kept is within the limits, where bound values and inputs are.
pub fn steps_stay_within()
    // Values that are found, on items and depth.
    ensures values { ValuesWithin }
    // Bound values and kept lengths, after a step.
    ensures picks { PicksStayWithin }
{}
