// Want of memory, as a refusal of the checker.
ghost use Rattle.std.specs.Prelude.{◌≡◌};
ghost use Rattle.tp_check.specs.declared.refusal.CheckRefusal.TheVariants.{NoMemory};

use crate::refusal::CheckRefusal;
use std::alloc::AllocFailed;
use tp_value::NoMemory;

impl<T: Drop> From<AllocFailed<T>> for CheckRefusal {
    ghost from_gives = { λ _ e. e ≡ NoMemory };

    fn from(_: AllocFailed<T>) -> CheckRefusal {
        CheckRefusal::NoMemory
    }
}

impl From<NoMemory> for CheckRefusal {
    ghost from_gives = { λ _ e. e ≡ NoMemory };

    fn from(_: NoMemory) -> CheckRefusal {
        CheckRefusal::NoMemory
    }
}
