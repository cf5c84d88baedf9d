// The limits that words set.
ghost use Rattle.std.specs.Prelude.{◌≡◌, option_map};
ghost use Rattle.tp_words.specs.Options.{limit_set};

use crate::numeral::numeral_within;

/// The greatest limit that words can set; the least is 1.
pub const GREATEST_LIMIT: u64 = 1_000_000;

/// How many states a run settles at most, where the words don't say.
pub const USUAL_STATES: u64 = 1000;

/// How many reductions a run makes at most in a state, where the words don't say.
pub const USUAL_REDUCTIONS: u64 = 100_000;

// How many digits a limit is written with at most.
const LIMIT_DIGITS: usize = 7;

/// The limit where an option may have set one, and else the usual one.
pub fn limit_set(usual: u64, text: Option<&str>) -> Option<u64>
    ensures { result ≡ limit_set usual (option_map (λ t. t.now) text.entry) }
{
    match text {
        Some(text) => numeral_within(text, LIMIT_DIGITS, GREATEST_LIMIT),
        None => Some(usual),
    }
}
