// Why files and sinks refuse.
ghost use Rattle.std.specs.Prelude.{◌≡◌};
ghost use Rattle.tp_io.specs.declared.refusal.FileRefusal.TheVariants as file;
ghost use Rattle.tp_io.specs.declared.refusal.WriteRefusal.TheVariants as sink;

use std::alloc::{AllocError, AllocFailed};
use tp_value::NoMemory;

/// Why a read gave no bytes.
#[derive(Clone, Copy, Debug, PartialEq, Eq)]
pub enum FileRefusal {
    Failed,
    NoMemory,
}

impl From<NoMemory> for FileRefusal {
    ghost from_gives = { λ _ e. e ≡ file.NoMemory };

    fn from(_: NoMemory) -> Self {
        FileRefusal::NoMemory
    }
}

impl From<AllocError> for FileRefusal {
    ghost from_gives = { λ _ e. e ≡ file.NoMemory };

    fn from(_: AllocError) -> Self {
        FileRefusal::NoMemory
    }
}

impl<T: Drop> From<AllocFailed<T>> for FileRefusal {
    ghost from_gives = { λ _ e. e ≡ file.NoMemory };

    fn from(_: AllocFailed<T>) -> Self {
        FileRefusal::NoMemory
    }
}

/// Why a piece was not written.
#[derive(Clone, Copy, Debug, PartialEq, Eq)]
pub enum WriteRefusal {
    Failed,
    NoMemory,
}

impl From<NoMemory> for WriteRefusal {
    ghost from_gives = { λ _ e. e ≡ sink.NoMemory };

    fn from(_: NoMemory) -> Self {
        WriteRefusal::NoMemory
    }
}

impl<T: Drop> From<AllocFailed<T>> for WriteRefusal {
    ghost from_gives = { λ _ e. e ≡ sink.NoMemory };

    fn from(_: AllocFailed<T>) -> Self {
        WriteRefusal::NoMemory
    }
}
