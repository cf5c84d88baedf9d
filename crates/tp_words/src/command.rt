// What accepted words ask for, and the refusal of words.
ghost use Rattle.std.specs.Prelude.{◌≡◌};
ghost use Rattle.tp_words.specs.declared.command.WordsRefusal.TheVariants as refusal;

use crate::beside::Beside;
use crate::mode::Mode;
use std::alloc::{AllocError, AllocFailed};
use tp_step::Order;
use tp_value::NoMemory;

/// What the words ask for. All but the mode and the names of the files is of a run, or of a drill.
#[derive(Debug, Drop)]
pub struct Command {
    pub mode: Mode,
    /// The name of the source; of a drill the word of its size.
    pub file: String,
    /// The name of the inputs.
    pub inputs: Option<String>,
    /// The name of the trace that is checked.
    pub other: Option<String>,
    /// How many states it settles at most.
    pub states: u64,
    /// How many reductions it makes at most in a state.
    pub reductions: u64,
    /// In which order it takes its items.
    pub order: Order,
    /// What it writes beside each state.
    pub beside: Beside,
}

/// Why there is no command.
#[derive(Clone, Copy, Debug, PartialEq, Eq)]
pub enum WordsRefusal {
    /// The words aren't accepted.
    Refused,
    NoMemory,
}

impl From<NoMemory> for WordsRefusal {
    ghost from_gives = { λ _ e. e ≡ refusal.NoMemory };

    fn from(_: NoMemory) -> WordsRefusal {
        WordsRefusal::NoMemory
    }
}

impl From<AllocError> for WordsRefusal {
    ghost from_gives = { λ _ e. e ≡ refusal.NoMemory };

    fn from(_: AllocError) -> WordsRefusal {
        WordsRefusal::NoMemory
    }
}

impl<T: Drop> From<AllocFailed<T>> for WordsRefusal {
    ghost from_gives = { λ _ e. e ≡ refusal.NoMemory };

    fn from(_: AllocFailed<T>) -> WordsRefusal {
        WordsRefusal::NoMemory
    }
}
