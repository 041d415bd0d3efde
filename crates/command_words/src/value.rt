//! The values of options.
ghost use Rattle.std.specs.Prelude.{◌≡◌, ◌≤◌, true, length, IfSome};
ghost use Rattle.frac128.specs.Numbers.{is_digit, number_from};
ghost use Rattle.command_words.specs.Words.{is_value, are_digits, number_of, number_within};

/// A number has at most so many digits.
const MOST_DIGITS: usize = 10;

/// Whether a word can be the value of an option: it isn't empty, and doesn't begin with a minus.
pub(crate) fn is_value(word: &[u8]) -> bool
    ensures { result ≡ is_value word.now }
{
    match word {
        [] => false,
        [byte, ..] => *byte != b'-',
    }
}

fn is_digit(byte: u8) -> bool
    ensures { result ≡ is_digit byte }
{
    b'0' <= byte && byte <= b'9'
}

fn are_digits(word: &[u8]) -> bool
    ensures { result ≡ are_digits word.now }
{
    for byte in word {
        if !is_digit(*byte) {
            return false;
        }
    }
    true
}

/// The number of some digits behind those that are read.
fn number_of_digits(word: &[u8]) -> u64
    requires digits { are_digits word.now ≡ true }
    requires short { length word.now ≤ 10 }
    ensures { result ≡ number_from 0 word.now }
{
    let mut number: u64 = 0;
    for byte in word {
        number = number * 10 + (*byte - b'0') as u64;
    }
    number
}

/// The number of 1 to 10 decimal digits; none for any other word.
fn number_of(word: &[u8]) -> Option<u64>
    ensures { result ≡ number_of word.now }
{
    if !word.is_empty() && word.len() <= MOST_DIGITS && are_digits(word) {
        Some(number_of_digits(word))
    } else {
        None
    }
}

/// The number of a word, where it is one from `least` to `most`.
pub(crate) fn number_within(word: &[u8], least: u64, most: u64) -> Option<u64>
    ensures number { result ≡ number_within word.now least most }
    ensures within { IfSome result (λ number. number ≤ most) }
{
    let number = number_of(word)?;
    if least <= number && number <= most {
        Some(number)
    } else {
        None
    }
}
