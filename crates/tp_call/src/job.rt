// What a call has to do.
use crate::drill::Drill;
use crate::run::Task;
use tp_inputs::Inputs;
use tp_tree::Source;
use tp_verdict::Verdict;

/// What the words ask for, read: a task that is run, a source that is printed, inputs that are converted, the verdict on a trace, or a
/// drill.
#[derive(Drop)]
pub enum Job {
    Run(Task),
    Print(Source),
    Convert(Inputs),
    Check(Verdict),
    Drill(Drill),
}
