// Why an evaluation ends without a value.
ghost use Rattle.std.specs.Prelude.{◌≡◌};
ghost use Rattle.tp_eval.specs.declared.halt.EvalHalt.TheVariants.{NoMemory};

use std::alloc::{AllocError, AllocFailed};
use tp_kernel::{FaultKind, LimitKind};
use tp_value::{NoMemory, Path};

/// It waits for the shape at a path, it has no value, it passes a limit, or memory is wanting.
#[derive(Drop)]
pub enum EvalHalt {
    Waits(Path),
    Faults(FaultKind),
    Passes(LimitKind),
    NoMemory,
}

impl From<NoMemory> for EvalHalt {
    ghost from_gives = { λ _ e. e ≡ NoMemory };

    fn from(_: NoMemory) -> EvalHalt {
        EvalHalt::NoMemory
    }
}

impl From<AllocError> for EvalHalt {
    ghost from_gives = { λ _ e. e ≡ NoMemory };

    fn from(_: AllocError) -> EvalHalt {
        EvalHalt::NoMemory
    }
}

impl<T: Drop> From<AllocFailed<T>> for EvalHalt {
    ghost from_gives = { λ _ e. e ≡ NoMemory };

    fn from(_: AllocFailed<T>) -> EvalHalt {
        EvalHalt::NoMemory
    }
}
