// How many variables the source of a drill has.
ghost use Rattle.std.specs.Prelude.{◌≡◌};
ghost use Rattle.tp_words.specs.Options.{size_spelled};

use crate::numeral::numeral_within;

// The greatest size that words can ask for; the least is 1.
const GREATEST_SIZE: u64 = 5000;

// How many digits a size is written with at most.
const SIZE_DIGITS: usize = 4;

/// The size that a text spells.
pub fn size_spelled(text: &str) -> Option<u64>
    ensures { result ≡ size_spelled text.now }
{
    numeral_within(text, SIZE_DIGITS, GREATEST_SIZE)
}
