// The kinds of values, and the limits on them.
ghost use Rattle.tp_value.specs.Number.{number_width};
ghost use Rattle.tp_value.specs.Read.{tree};
ghost use Rattle.std.specs.Prelude.{map, IfOk, FitsSigned};
ghost use Rattle.tp_eval.specs.Reached.{within_lists};
ghost use Rattle.tp_eval.specs.Evaluate.{number_in, truth_in, list_items};
ghost use Rattle.tp_eval.specs.Answers.{AnswersEvaluation, number_within, as_it_is};

use crate::halt::EvalHalt;
use tp_kernel::{FaultKind, LimitKind};
use tp_value::{Items, Number, Value, is_within_list_limit};

/// The number, where the value is one.
pub fn number_of(value: Value) -> Result<Number, EvalHalt>
    ensures value { AnswersEvaluation as_it_is result (number_in (tree value)) }
    ensures fits { IfOk result (λ n. FitsSigned number_width n) }
{
    match value {
        Value::Num(n) => Ok(n),
        Value::Truth(_) | Value::List(_) => Err(EvalHalt::Faults(FaultKind::WrongKind)),
    }
}

/// The truth value, where the value is one.
pub fn truth_of(value: Value) -> Result<bool, EvalHalt>
    ensures { AnswersEvaluation as_it_is result (truth_in (tree value)) }
{
    match value {
        Value::Truth(b) => Ok(b),
        Value::Num(_) | Value::List(_) => Err(EvalHalt::Faults(FaultKind::WrongKind)),
    }
}

/// The items, where the value is a list.
pub fn items_of(value: Value) -> Result<Items, EvalHalt>
    ensures { AnswersEvaluation (λ all. map tree all.items.items) result (list_items (tree value)) }
{
    match value {
        Value::List(all) => Ok(all),
        Value::Num(_) | Value::Truth(_) => Err(EvalHalt::Faults(FaultKind::WrongKind)),
    }
}

/// A number that was found within the limit, or the limit that is passed.
pub fn within(n: Option<Number>) -> Result<Value, EvalHalt>
    ensures { AnswersEvaluation tree result (number_within n) }
{
    match n {
        Some(n) => Ok(Value::Num(n)),
        None => Err(EvalHalt::Passes(LimitKind::Number)),
    }
}

/// The value, where it is within the limit on lists.
pub fn limited(value: Value) -> Result<Value, EvalHalt>
    ensures { AnswersEvaluation tree result (within_lists (tree value)) }
{
    if is_within_list_limit(&value) {
        Ok(value)
    } else {
        Err(EvalHalt::Passes(LimitKind::List))
    }
}
