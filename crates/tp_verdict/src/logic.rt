// Laws of the logic, over the wider formulas.
ghost use Rattle.tp_verdict.specs.Logic.{WideFormulasShowNothing, WideFormulasAreDecided, ChopIsAssociative, EmptyIsUnitOfChop, OrGoesThroughChop, NextGoesOutOfChop, AlwaysByInduction, NotNot, SometimesAndAlways};

/// A wider formula shows nothing, and on each interval it holds or doesn't.
pub fn wide_formulas_are_plain()
    ensures show_nothing { WideFormulasShowNothing }
    ensures decided { WideFormulasAreDecided }
{}

/// Laws of chop.
pub fn chop_laws()
    // `(u ; v) ; w` and `u ; (v ; w)`.
    ensures associative { ChopIsAssociative }
    // `empty ; w`, `w ; empty` and `w`.
    ensures unit { EmptyIsUnitOfChop }
    // `(u or v) ; w` and `(u ; w) or (v ; w)`; `w ; (u or v)` and `(w ; u) or (w ; v)`.
    ensures disjunction { OrGoesThroughChop }
    // `(next u) ; w` and `next (u ; w)`.
    ensures next { NextGoesOutOfChop }
{}

/// Laws of `always`, `sometimes` and `not`.
pub fn always_laws()
    // Where `w` holds, and in each state it implies `w` in the next one, `always(w)` holds.
    ensures induction { AlwaysByInduction }
    // `not not w` and `w`.
    ensures not_not { NotNot }
    // `sometimes(w)` and `not always(not w)`; `always(w)` and `not sometimes(not w)`.
    ensures duals { SometimesAndAlways }
{}
