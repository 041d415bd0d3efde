//! The first digits of a fraction, by long division.
ghost use Rattle.std.specs.Prelude.{◌≡◌, ◌≤◌, ◌<◌, ◌+◌, ◌*◌, ◌^◌};
ghost use Rattle.decimals.specs.Rounded.{IsFloor};

/// The least number of 13 digits.
const LEAST: u128 = 1_000_000_000_000;

/// The least number of 14 digits.
const BEYOND: u128 = 10_000_000_000_000;

/// A quotient, and what is left.
#[derive(Clone, Copy)]
struct Division {
    quotient: u128,
    rest: u128,
}

/// A whole number, which stands for itself times 10^`up` over 10^`down`.
#[derive(Clone, Copy)]
pub(crate) struct Scaled {
    pub(crate) number: u128,
    pub(crate) up: u32,
    pub(crate) down: u32,
}

/// Twice a number that is a quotient and a rest.
fn doubled(it: Division, by: u128) -> Division
    requires small { it.quotient < 10 }
    requires rest { it.rest < by }
    requires fits { by < 2 ^ 127 }
    ensures whole { result.quotient * by + result.rest ≡ 2 * (it.quotient * by + it.rest) }
    ensures rest { result.rest < by }
    ensures digit { result.quotient ≤ 2 * it.quotient + 1 }
{
    let twice = it.rest + it.rest;
    if twice < by {
        Division {
            quotient: 2 * it.quotient,
            rest: twice,
        }
    } else {
        Division {
            quotient: 2 * it.quotient + 1,
            rest: twice - by,
        }
    }
}

/// A number that is a quotient and a rest, and a further rest.
fn raised(it: Division, more: u128, by: u128) -> Division
    requires small { it.quotient < 10 }
    requires rest { it.rest < by }
    requires more { more < by }
    requires fits { by < 2 ^ 127 }
    ensures whole { result.quotient * by + result.rest ≡ it.quotient * by + it.rest + more }
    ensures rest { result.rest < by }
    ensures digit { result.quotient ≤ it.quotient + 1 }
{
    let sum = it.rest + more;
    if sum < by {
        Division {
            quotient: it.quotient,
            rest: sum,
        }
    } else {
        Division {
            quotient: it.quotient + 1,
            rest: sum - by,
        }
    }
}

/// The next digit of a rest, and what is left of ten times that.
fn next_digit(rest: u128, by: u128) -> Division
    requires rest { rest < by }
    requires fits { by < 2 ^ 127 }
    ensures whole { result.quotient * by + result.rest ≡ 10 * rest }
    ensures rest { result.rest < by }
    ensures digit { result.quotient < 10 }
{
    let once = Division { quotient: 0, rest };
    let twice = doubled(once, by);
    let four = doubled(twice, by);
    let five = raised(four, rest, by);
    doubled(five, by)
}

/// A large number without its digits behind the thirteenth.
fn shortened(whole: u128) -> Scaled
    requires large { LEAST ≤ whole }
    requires fits { whole < 2 ^ 127 }
    ensures down { result.down ≡ 0 }
    ensures least { LEAST ≤ result.number }
    ensures most { result.number < BEYOND }
    ensures short { result.up < 39 }
    ensures low { result.number * 10 ^ result.up ≤ whole }
    ensures high { whole < (result.number + 1) * 10 ^ result.up }
{
    let mut number = whole;
    let mut up: u32 = 0;
    'shorten: while number >= BEYOND {
        number /= 10;
        up += 1;
    }
    Scaled {
        number,
        up,
        down: 0,
    }
}

/// The first thirteen digits of a number that has fewer in front of its point.
fn lengthened(first: Division, num: u128, den: u128) -> Scaled
    requires some { 0 < num }
    requires fits { den < 2 ^ 127 }
    requires small { first.quotient < LEAST }
    requires rest { first.rest < den }
    requires whole { first.quotient * den + first.rest ≡ num }
    ensures up { result.up ≡ 0 }
    ensures least { LEAST ≤ result.number }
    ensures most { result.number < BEYOND }
    ensures low { result.number * den ≤ num * 10 ^ result.down }
    ensures high { num * 10 ^ result.down < (result.number + 1) * den }
{
    let mut number = first.quotient;
    let mut rest = first.rest;
    let mut down: u32 = 0;
    'lengthen: while number < LEAST {
        let next = next_digit(rest, den);
        number = number * 10 + next.quotient;
        rest = next.rest;
        down += 1;
    }
    Scaled {
        number,
        up: 0,
        down,
    }
}

/// The first thirteen digits of a fraction above 0.
pub(crate) fn first_digits(num: u128, den: u128) -> Scaled
    requires some { 0 < num }
    requires num { num < 2 ^ 127 }
    requires above_zero { 0 < den }
    requires den { den < 2 ^ 127 }
    ensures floor { IsFloor num den result.number result.up result.down }
    ensures short { result.up < 39 }
    ensures least { LEAST ≤ result.number }
    ensures most { result.number < BEYOND }
{
    let first = Division {
        quotient: num / den,
        rest: num % den,
    };
    if first.quotient >= LEAST {
        shortened(first.quotient)
    } else {
        lengthened(first, num, den)
    }
}
