// Laws of the wider formulas.
ghost use Rattle.tp_verdict.specs.WidenedLaws.{WideHoldsAsHolds};

/// A formula that can be run, and is one of the wider ones too, holds as such on the same intervals.
pub fn wide_formulas_hold_alike()
    ensures { WideHoldsAsHolds }
{}
