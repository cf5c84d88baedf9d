// Values that are handed on.
ghost use Rattle.std.specs.Prelude.{◌≡◌, IfOk};
ghost use Rattle.tp_value.specs.Read.{tree};
ghost use Rattle.tp_store.specs.Operand.{operand_tree};

use std::alloc::Global;
use std::rc::Rc;
use tp_value::{NoMemory, Value};

/// A value that is looked at or handed on: one that others hold, too, or its own.
#[derive(Drop)]
pub enum Operand {
    Shared(Rc<Value>),
    Own(Value),
}

/// The value itself, to be looked at.
pub fn seen(operand: &Operand) -> &Value
    ensures { tree result.now ≡ operand_tree operand.now }
{
    match operand {
        Operand::Shared(value) => value,
        Operand::Own(value) => value,
    }
}

/// An equal value, which is copied where it is shared.
pub fn owned(alloc: Global, operand: Operand) -> Result<Value, NoMemory>
    ensures { IfOk result (λ v. tree v ≡ operand_tree operand) }
{
    match operand {
        Operand::Shared(value) => value.copy(alloc),
        Operand::Own(value) => Ok(value),
    }
}

/// The value, for several to hold it.
pub fn held(alloc: Global, operand: Operand) -> Result<Rc<Value>, NoMemory>
    ensures { IfOk result (λ v. tree v.value ≡ operand_tree operand) }
{
    match operand {
        Operand::Shared(value) => Ok(value),
        Operand::Own(value) => Ok(Rc::new(alloc, value)?),
    }
}
