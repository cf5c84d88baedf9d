// Laws of orders.
ghost use Rattle.std.specs.Prelude.{List, Bool};
ghost use Rattle.tp_scene.specs.Pick.{Setting};
ghost use Rattle.tp_step_laws.specs.Edits.{EditsCommute, Remains, PutIsEdit};
ghost use Rattle.tp_step_laws.specs.States.{StatesCloseOneWay};
ghost use Rattle.tp_step_laws.specs.Waiting.{RestsStay, WaitsStay, WaitsStayUntilWoken};
ghost use Rattle.tp_step_laws.specs.LiveOnce.{ItemsLiveOnce};
ghost use Rattle.tp_step_laws.specs.Unmarked.{UnmarkedStepsEndNothing};
ghost use Rattle.tp_step_laws.specs.Near.{MarkedStepsEndNear, OneStandsAround};
ghost use Rattle.tp_step_laws.specs.Others.{OthersStandAsBefore};
ghost use Rattle.tp_step_laws.specs.Examples.{OrderDecides};
ghost use Rattle.tp_step_laws.specs.Orders.{AdvancesStayOrderly, BeginsOrderly, StepsStayOrderly, FailuresAreMutual, FailuresStay, Commute, AlikeMomentsStep, AlikeIsEquivalence, OneRestOf};

/// Two steps commute, or each fails after the other.
pub fn steps_commute()
    // Edits of two items commute.
    ensures edits { EditsCommute }
    // A reduction is an edit.
    ensures puts { PutIsEdit }
    // An item stays live where another one is picked.
    ensures remains { Remains }
    // What fails goes on to fail where another item has a step.
    ensures failures { FailuresStay }
    // Where an item fails after another one's step, that one fails after its step.
    ensures mutual { FailuresAreMutual }
    ensures steps { Commute }
{}

/// Moments of runs are orderly: so begins a run, and steps and next states leave them so.
pub fn moments_stay_orderly()
    ensures begins { BeginsOrderly }
    ensures steps { StepsStayOrderly }
    ensures advances { AdvancesStayOrderly }
{}

/// Where some picks close a state, so does each state that begins alike: all its closures take as many picks and are
/// alike, and it meets no failure.
pub fn states_close_one_way()
    // To be alike is an equivalence.
    ensures equivalence { (w : Setting) (kinds : List Bool) → AlikeIsEquivalence w kinds }
    // Moments that are alike have the same steps.
    ensures steps { AlikeMomentsStep }
    // One rest for every list of picks of a state.
    ensures rest { (w : Setting) (kinds : List Bool) → OneRestOf w kinds }
    ensures states { StatesCloseOneWay }
{}

/// An example of a sound moment past a limit, in which the order of picks decides.
pub fn lengths_matter()
    ensures { OrderDecides }
{}

/// An item that waits or rests goes on so where another one is picked.
pub fn waits_stay()
    // As long as nothing that it waits for is decided.
    ensures stay { WaitsStay }
    // What decides a cell that it waits for is a fact of the step, or its mark.
    ensures woken { WaitsStayUntilWoken }
    // A step without a mark makes known no end of a region that was live.
    ensures unmarked { UnmarkedStepsEndNothing }
    // What a mark makes known leads outward to where the marked region leads.
    ensures near { MarkedStepsEndNear }
    // One region at most stands around a region.
    ensures around { OneStandsAround }
    // What rests rests on.
    ensures rests { RestsStay }
    // Any live item stays what it is.
    ensures stands { OthersStandAsBefore }
{}

/// An item that is picked is gone, and no number that was a live item's becomes one again.
pub fn items_live_once()
    ensures { ItemsLiveOnce }
{}
