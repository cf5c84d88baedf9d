// Calls of definitions.
ghost use Rattle.tp_tree.specs.Read.{phrase_trees};
ghost use Rattle.tp_tree.specs.Tree.{call as call_kind};
ghost use Rattle.tp_kernel.specs.Read.{formula_tree};
ghost use Rattle.tp_scope.specs.Seen.{names_seen};
ghost use Rattle.tp_check.specs.Answers.{AnswersCheck};
ghost use Rattle.tp_check.specs.Positions.{formula_of_kind};

use crate::expression::arguments;
use crate::refusal::CheckRefusal;
use std::alloc::Global;
use tp_kernel::Formula;
use tp_scope::Visible;
use tp_tree::Phrases;
use tp_value::Text;

/// The formula of a call at this place.
pub fn call(
    alloc: Global,
    at: u32,
    name: &Text,
    operands: &Phrases,
    names: &Visible,
) -> Result<Formula, CheckRefusal>
    ensures { AnswersCheck formula_tree
        (formula_of_kind (names_seen names.now) at (call_kind name.now (phrase_trees operands.now)))
        result }
{
    let Some(callee) = names.directory.find(name)? else {
        return Err(CheckRefusal::Unknown { at });
    };
    if !callee.takes(operands) {
        return Err(CheckRefusal::WrongCount { at });
    }
    let arguments = arguments(alloc, operands, callee.signature.parameters, names)?;
    Ok(Formula::Call(callee.number, arguments))
}
