// Laws of whole runs. Each function does nothing: its contract is the law.
ghost use Rattle.tp_run.specs.History.{Plan};
ghost use Rattle.tp_run.specs.Advances.{RunsAdvance, RunsMean};

/// Each answer of a run adds a settled state or is the run's end, and at the end its store holds what was known then.
pub fn runs_advance()
    ensures { (plan : Plan) → RunsAdvance plan }
{}

/// Where a run finishes, an interval satisfies the program and shows something exactly where it has the run's length, agrees with each
/// picture and shows what the pictures show; and there is such an interval. Where it meets a clash or an input is missing, no interval
/// does. Where it is open or reaches a limit, each one that does agrees with the pictures and has more states.
pub fn runs_mean()
    ensures { (plan : Plan) → RunsMean plan }
{}
