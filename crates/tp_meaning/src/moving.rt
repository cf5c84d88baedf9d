// What a formula reads.
ghost use Rattle.tp_meaning.specs.Reading.{MeaningsReadVariables, SatisfyingReadsStates};
ghost use Rattle.tp_meaning.specs.BindingsLaw.{BindingsAtCuts, BindingsAppend};
ghost use Rattle.tp_meaning.specs.Moving.{MeaningsMove, MeaningsReadTheirPart, NothingShownOutside};

/// A formula reads its own part of the course and of the environment alone.
pub fn meanings_read_their_part()
    // What lies outside of an interval plays no part.
    ensures part { MeaningsReadTheirPart }
    // A formula holds where its part of the course and of the environment is moved to.
    ensures moved { MeaningsMove }
    // Nothing is shown outside of an interval.
    ensures outside { NothingShownOutside }
    // A formula that fits reads the states' own numbers and its variables alone.
    ensures variables { MeaningsReadVariables }
    // Whether an interval satisfies a program depends on its states' numbers and globals alone.
    ensures states { SatisfyingReadsStates }
{}

/// What bindings mean along the course of cut states, and with one more.
pub fn bindings_mean()
    ensures at_cuts { BindingsAtCuts }
    ensures append { BindingsAppend }
{}
