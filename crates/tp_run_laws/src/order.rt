// Laws of runs in any order.
ghost use Rattle.tp_run_laws.specs.Agree.{RunsAgree};
ghost use Rattle.tp_run_laws.specs.AlikeRuns.{AllRunsAreAlike};
ghost use Rattle.tp_run_laws.specs.Beginnings.{BeginningsGoOn};
ghost use Rattle.tp_run.specs.History.{Plan};

/// Two runs have the same settled states, the same shows, and the same end, whatever the order of picks; a cell at which they are open
/// has the same name.
pub fn runs_agree()
    ensures { (plan : Plan) → RunsAgree plan }
{}

/// What is left after each settled state is alike in any two runs.
pub fn all_runs_are_alike()
    ensures { (plan : Plan) → AllRunsAreAlike plan }
{}

/// Where a run has an end that isn't a failure, every list of picks that can be made goes on to a run with this end.
pub fn beginnings_go_on()
    ensures { (plan : Plan) → BeginningsGoOn plan }
{}
