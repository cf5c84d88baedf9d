// The text of a small one.
ghost use Rattle.tp_gen.specs.Laws.{SourceOfThree};

/// How the source with three variables reads.
pub fn source_of_three()
    ensures { SourceOfThree }
{}
