// What is written beside the states of a run.
ghost use Rattle.std.specs.Prelude.{◌≡◌};
ghost use Rattle.tp_words.specs.Options.{beside_given};

/// What a run writes beside each state.
#[derive(Clone, Copy, Debug, PartialEq, Eq)]
pub enum Beside {
    Nothing,
    /// How many reductions the state took, and what is left to hold.
    TraceLines,
}

/// What is written where a trace is asked for or not.
pub fn beside_given(trace: bool) -> Beside
    ensures { result ≡ beside_given trace }
{
    if trace {
        Beside::TraceLines
    } else {
        Beside::Nothing
    }
}
