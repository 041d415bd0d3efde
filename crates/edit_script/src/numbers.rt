// The numbers of commands.
ghost use Rattle.std.specs.Prelude.{◌≡◌, ◌≤◌, ◌+◌, ◌*◌, ◌-◌, IfOk};
ghost use Rattle.frac128.specs.Numbers.{is_digit};
ghost use Rattle.edit_script.specs.Numbers.{count_of, if_inner, inner_number};

use core_defs::{Cause, number_of};
use edit_apply::is_inner;
use frac128::Frac;

/// The number, where it is above 0 and below 1.
fn if_inner(value: Frac) -> Result<Frac, Cause>
    ensures { result ≡ if_inner value }
{
    if is_inner(value) {
        Ok(value)
    } else {
        Err(Cause::EditProbability)
    }
}

/// The probability that a field is.
pub(crate) fn inner_number(word: &[u8]) -> Result<Frac, Cause>
    ensures { result ≡ inner_number word.now }
{
    let value = number_of(word)?;
    if_inner(value)
}

fn is_digit(byte: u8) -> bool
    ensures { result ≡ is_digit byte }
{
    b'0' <= byte && byte <= b'9'
}

/// The count of solves that a field is: 1 to 1,000,000.
pub(crate) fn count_of(word: &[u8]) -> Result<u64, Cause>
    ensures count { result ≡ count_of word.now }
    ensures few { IfOk result (λ n. n ≤ 1000000) }
{
    let mut number: u64 = 0;
    for byte in word {
        if !is_digit(*byte) {
            return Err(Cause::NumberBad);
        }
        number = number * 10 + byte.saturating_sub(48) as u64;
        if number > 1_000_000 {
            return Err(Cause::NumberBad);
        }
    }
    if number == 0 {
        return Err(Cause::NumberBad);
    }
    Ok(number)
}
