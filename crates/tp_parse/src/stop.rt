// Why no phrase was read.
ghost use Rattle.std.specs.Prelude.{◌≡◌};
ghost use Rattle.tp_parse.specs.declared.stop.Refusal.TheVariants.{NoMemory};

use std::alloc::AllocFailed;

/// Why no phrase was read. A token is named by how many tokens there are from it to the end.
#[derive(Clone, Copy)]
pub enum Refusal {
    Unexpected(usize),
    Unfinished,
    TooDeep(usize),
    NoMemory,
}

impl<T: Drop> From<AllocFailed<T>> for Refusal {
    ghost from_gives = { λ _ e. e ≡ NoMemory };

    fn from(_: AllocFailed<T>) -> Refusal {
        Refusal::NoMemory
    }
}
