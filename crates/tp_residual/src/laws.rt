// Laws of residual phrases.
ghost use Rattle.tp_residual.specs.Examples.{ResidualExamples};
ghost use Rattle.tp_residual.specs.Laws.{NextScenesAreCarried};
ghost use Rattle.tp_residual.specs.OnePhrase.{AlikeMomentsHaveOnePhrase};

/// What is carried from a state to the next one has a residual phrase.
pub fn next_scenes_are_carried()
    ensures { NextScenesAreCarried }
{}

/// Moments that are alike have one residual phrase.
pub fn alike_moments_have_one_phrase()
    ensures { AlikeMomentsHaveOnePhrase }
{}

/// How the trace lines and the residual phrases of the examples are spelled.
pub fn residual_examples()
    ensures { ResidualExamples }
{}
