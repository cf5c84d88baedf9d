// Why a text has no tokens.
ghost use Rattle.std.specs.Prelude.{◌≡◌};
ghost use Rattle.tp_lex.specs.declared.refusal.LexRefusal.TheVariants.{NoMemory as refused_memory};

use tp_value::NoMemory;

/// The first fault of a text in the order of its bytes, or want of memory. `at` counts bytes from 0.
#[derive(Clone, Copy, Debug, PartialEq, Eq)]
pub enum LexRefusal {
    /// At `at`, outside of comments, stands a byte that begins no name, number, symbol, blank or comment.
    BadByte { at: usize },
    /// No `*/` follows the `/*` at `at`.
    OpenComment { at: usize },
    /// The digits from `at` on spell a number past the limit.
    NumberTooLarge { at: usize },
    /// The name from `at` on has more than 64 bytes.
    NameTooLong { at: usize },
    NoMemory,
}

impl<E: Drop + Into<NoMemory>> From<E> for LexRefusal {
    ghost from_gives = { λ _ e. e ≡ refused_memory };

    fn from(_: E) -> LexRefusal {
        LexRefusal::NoMemory
    }
}
