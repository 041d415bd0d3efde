//! Levels and weights of a risk measure that aren't within their range.
use frac128::{Frac, parse};

const LEVEL: &str = "A of --tail is from 0 and below 1, as 0.95 where the worst twentieth counts\n";

const WEIGHT: &str =
    "W of --weight is from 0 to 1, as 0.5 where half of the cost is that of the tail\n";

/// What is said of a level or a weight among words that is a number out of range; none where each is within.
pub fn level_fault(words: &[String]) -> Option<&'static str> {
    let mut before = "";
    for word in words {
        if is_out_of_level(value_of("--tail", before, word.as_str())) {
            return Some(LEVEL);
        }
        if is_out_of_weight(value_of("--weight", before, word.as_str())) {
            return Some(WEIGHT);
        }
        before = word.as_str();
    }
    None
}

/// The number that a word has for an option, behind the word before it or in one word with it.
fn value_of(option: &str, before: &str, word: &str) -> Option<Frac> {
    let value = if before == option {
        word
    } else {
        word.strip_prefix(option)?.strip_prefix("=")?
    };
    parse(value.as_bytes()).ok()
}

fn is_out_of_level(value: Option<Frac>) -> bool {
    match value {
        Some(level) => level < Frac::zero() || Frac::one() <= level,
        None => false,
    }
}

fn is_out_of_weight(value: Option<Frac>) -> bool {
    match value {
        Some(weight) => weight < Frac::zero() || Frac::one() < weight,
        None => false,
    }
}
