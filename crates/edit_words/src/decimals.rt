//! Decimal numbers.
ghost use Rattle.std.specs.Prelude.{◌≡◌};
ghost use Rattle.edit_model.specs.EditWords.{place_number};
ghost use Rattle.edit_words.specs.Reading.{decimal_of_64};

/// The most digits of the number of a recipient or an attachment. As many are more than any message needs, and are always
/// held.
const MOST_PLACE_DIGITS: usize = 9;

/// A decimal number without a leading zero, but for `0` itself. None where the word is no such number, or one of more
/// than 64 bits.
pub fn read_decimal(word: &str) -> Option<u64>
    ensures { result ≡ decimal_of_64 word.now }
{
    let digits = word.as_bytes();
    if digits.is_empty() || digits[0] == b'+' {
        return None;
    }
    if digits[0] == b'0' && digits.len() > 1 {
        return None;
    }
    match word.parse::<u64>() {
        Ok(number) => Some(number),
        Err(_) => None,
    }
}

/// The number of a recipient or an attachment.
#[tactic(auto, using(crate::proofs::Numerals::short_is, crate::proofs::Numerals::long_is))]
pub fn read_place_number(word: &str) -> Option<u64>
    ensures { result ≡ place_number word.now }
{
    if word.len() > MOST_PLACE_DIGITS {
        return None;
    }
    read_decimal(word)
}
