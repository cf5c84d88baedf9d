// The count of calls.
ghost use Rattle.tp_eval.specs.Evaluate.{count_call};
ghost use Rattle.tp_eval.specs.Answers.{AnswersReached, as_it_is};

use crate::halt::EvalHalt;
use tp_kernel::LimitKind;

// How many calls one evaluation may make.
const CALL_LIMIT: u32 = 100_000;

/// Counts a call, where there may be one more: the number of calls before it.
pub fn count_call(calls: &mut u32) -> Result<u32, EvalHalt>
    ensures { AnswersReached as_it_is result calls.new (count_call calls.old) }
{
    let before = *calls;
    if before >= CALL_LIMIT {
        return Err(EvalHalt::Passes(LimitKind::Calls));
    }
    *calls = before + 1;
    Ok(before)
}
