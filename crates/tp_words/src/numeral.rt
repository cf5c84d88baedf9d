// Numerals among the words.
ghost use Rattle.std.specs.Prelude.{◌≡◌};
ghost use Rattle.std.specs.Char.{is_ascii_digit};
ghost use Rattle.std.specs.List.{list_all};
ghost use Rattle.tp_words.specs.Options.{is_numeral, numeral_value, numeral_within};

// Whether each byte is a decimal digit.
fn are_digits(text: &[u8]) -> bool
    ensures { result ≡ list_all is_ascii_digit text.now }
{
    text.iter().all(|byte| byte.is_ascii_digit())
}

// Whether the text is one decimal digit or more, and no more than so many.
fn is_numeral(text: &[u8], most: usize) -> bool
    ensures { result ≡ is_numeral most text.now }
{
    !text.is_empty() && text.len() <= most && are_digits(text)
}

/// The number that a text spells by no more than so many digits, below 2 to the power of 64.
pub fn numeral_value(text: &str, most: usize) -> Option<u64>
    ensures { result ≡ numeral_value most text.now }
{
    if !is_numeral(text.as_bytes(), most) {
        return None;
    }
    match text.parse::<u64>() {
        Ok(number) => Some(number),
        Err(_) => None,
    }
}

/// Such a number, where it is no less than 1 and no more than the greatest.
#[tactic(auto, using(crate::proofs::NumeralLemmas::within_value))]
pub fn numeral_within(text: &str, most: usize, greatest: u64) -> Option<u64>
    ensures { result ≡ numeral_within most greatest text.now }
{
    let number = numeral_value(text, most)?;
    if 1 <= number && number <= greatest {
        Some(number)
    } else {
        None
    }
}
