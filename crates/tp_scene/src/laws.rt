// Laws of steps, of the next state, and of how a state begins and ends.
ghost use Rattle.tp_scene.specs.Laws.{StepsKeep, StepsFit, RefusalsStandForNone, AdvancesKeep, AdvancesFit, EndsStand, RunsBegin};
ghost use Rattle.tp_scene.specs.RegionLaws.{LiveItemsStandInLiveRegions};
ghost use Rattle.tp_scene.specs.RegionLaws.{StatusIsLeast};
ghost use Rattle.tp_scene.specs.CellLaws.{WaitsAreForUndecided, DecidedStays, NamedItemWaits, RestEndsGoesOrIsOpen, OpenCellsAreUndecided};
ghost use Rattle.tp_scene.specs.Seen.{PicksSeePlaces, WaitedEndsAreLive};
ghost use Rattle.tp_scene.specs.Listed.{LiveItemsAreListed};
ghost use Rattle.tp_scene.specs.Decided.{FactsDecidePaths};

/// What moments stand for, from the first of a run to its end: the intervals whose first state has the state's own number.
pub fn moments_stand()
    // A run begins with a sound moment, which stands for the intervals on which the formula holds.
    ensures begins { RunsBegin }
    // A reduction keeps what a moment stands for.
    ensures steps { StepsKeep }
    // Where an item meets a clash, or misses an input, no such interval is stood for.
    ensures refusals { RefusalsStandForNone }
    // A settled moment that goes on stands for the intervals whose first state agrees with the facts of the globals and
    // shows what is shown, and whose rest the next moment stands for.
    ensures advances { AdvancesKeep }
    // One that ends stands for the intervals of one state that agrees with them and shows what is shown.
    ensures ends { EndsStand }
{}

/// Moments of a run stay sound.
pub fn moments_stay_sound()
    // After a reduction.
    ensures steps { StepsFit }
    // With the next state.
    ensures advances { AdvancesFit }
{}

/// Which items of a scene are live.
pub fn live_items_are_told()
    // Those that stand in its live regions.
    ensures regions { LiveItemsStandInLiveRegions }
    // The list of live items has them.
    ensures listed { LiveItemsAreListed }
{}

/// The status that is computed of a live region is the least that the rules of status give, in any scene; and in a sound one each item is
/// picked with the status of the region where it stands.
pub fn status_is_least()
    ensures least { StatusIsLeast }
    ensures seen { PicksSeePlaces }
{}

/// An item waits for undecided cells alone, and the end that it waits for is that of a live region.
pub fn waits_are_for_undecided()
    ensures undecided { WaitsAreForUndecided }
    ensures live { WaitedEndsAreLive }
{}

/// A reduction leaves each decided cell decided.
pub fn decided_stays()
    ensures cells { DecidedStays }
    // A path that a step decides is decided by one of its facts.
    ensures paths { FactsDecidePaths }
{}

/// At rest, the item that settling names waits; so what is at rest ends, goes on, or has an open cell, which is undecided.
pub fn rest_waits()
    ensures named { NamedItemWaits }
    ensures ends { RestEndsGoesOrIsOpen }
    ensures undecided { OpenCellsAreUndecided }
{}
