// Digits at the start of a text, and numbers by their digits.
ghost use Rattle.std.specs.Prelude.{◌≡◌, ◌<◌, ◌-◌, ◌*◌, ◌+◌, ◌^◌};
ghost use Rattle.rationals.specs.Passes.{wide, unless};
ghost use Rattle.frac128.specs.Numbers.{digits, after_digits, number};
ghost use Rattle.frac128.specs.Significand.{AllDigits};

/// The largest number that is not wide.
pub const MAX: u128 = i128::MAX as u128;

/// The digits at the start of a text, and what follows them.
pub fn split_digits(text: &[u8]) -> (&[u8], &[u8])
    ensures front { result.0.now ≡ digits text.now }
    ensures back { result.1.now ≡ after_digits text.now }
    ensures all { AllDigits result.0.now }
{
    let mut i = 0;
    'digits: while i < text.len() {
        let b = text[i];
        if !b.is_ascii_digit() {
            return text.split_at(i);
        }
        i += 1;
    }
    text.split_at(i)
}

/// `n` times ten and a digit, where that is not wide.
fn next(n: u128, digit: u8) -> Option<u128>
    requires { n < 2 ^ 127 }
    ensures { result ≡ unless (wide (n * 10 + (digit - 48))) (n * 10 + (digit - 48)) }
{
    let tens = n.checked_mul(10)?;
    let sum = tens.checked_add(digit.saturating_sub(48) as u128)?;
    if sum > MAX { None } else { Some(sum) }
}

/// A number by its digits, where it is not wide.
pub fn small_number(ds: &[u8]) -> Option<u128>
    ensures { result ≡ unless (wide (number ds.now)) (number ds.now) }
{
    let mut n = 0;
    let mut i = 0;
    'digits: while i < ds.len() {
        n = next(n, ds[i])?;
        i += 1;
    }
    Some(n)
}

/// A number times a power of ten, where that is not wide.
pub fn shifted(m: u128, zeros: u64) -> Option<u128>
    requires { m < 2 ^ 127 }
    ensures { result ≡ unless (wide (m * 10 ^ zeros)) (m * 10 ^ zeros) }
{
    let mut n = m;
    let mut k = 0;
    'powers: while k < zeros {
        n = next(n, 48)?;
        k += 1;
    }
    Some(n)
}

/// A power of ten, where it is not wide.
pub fn power_of_ten(k: u128) -> Option<u128>
    ensures { result ≡ unless (wide (10 ^ k)) (10 ^ k) }
{
    if k > 38 { None } else { shifted(1, k as u64) }
}
