// Why no value is read.
ghost use Rattle.std.specs.Prelude.{◌≡◌};
ghost use Rattle.tp_value.specs.declared.reading.ReadValue.TheVariants.{NoMemory as refused_memory};

use crate::NoMemory;

/// Why no value is read, the first cause in the order of the bytes, or want of memory. `at` counts bytes from 0.
#[derive(Clone, Copy, Debug, PartialEq, Eq)]
pub enum ReadValue {
    /// At `at`, which may be the end, no value text continues.
    NoValue { at: usize },
    /// The number that begins at `at` is past the limit.
    TooLarge { at: usize },
    /// The item that begins at `at` is item 65,537 of the value, counted at every depth.
    TooLong { at: usize },
    /// The `<` at `at` opens a list at depth 101.
    TooDeep { at: usize },
    NoMemory,
}

impl From<NoMemory> for ReadValue {
    ghost from_gives = { λ _ e. e ≡ refused_memory };

    fn from(_: NoMemory) -> ReadValue {
        ReadValue::NoMemory
    }
}
