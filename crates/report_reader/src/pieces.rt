//! Pieces of a text.
ghost use Rattle.std.specs.Prelude.{◌≡◌, ◌<◌, length, Some, None, Ok, Err, IfSome, MatchOption, MatchResult};
ghost use Rattle.report_reader.specs.Pieces.{after, cut, field};

use core_defs::Cause;

/// What follows a word that stands in front.
pub(crate) fn after<'a>(text: &'a [u8], word: &[u8]) -> Result<&'a [u8], Cause>
    ensures { MatchResult result (λ rest. after word.now text.now ≡ Ok rest.now) (λ c. after word.now text.now ≡ Err c) }
{
    let mut rest = text;
    for byte in word {
        match rest {
            [first, behind @ ..] => {
                if *first != *byte {
                    return Err(Cause::ReportBad);
                }
                rest = behind;
            }
            [] => return Err(Cause::ReportBad),
        }
    }
    Ok(rest)
}

/// What stands before the first such byte, and what follows it.
pub(crate) fn cut(text: &[u8], byte: u8) -> Option<(&[u8], &[u8])>
    ensures cut { MatchOption result (cut byte text.now ≡ None) (λ p. cut byte text.now ≡ Some (p.0.now, p.1.now)) }
    ensures shorter { IfSome result (λ p. length p.1.now < length text.now) }
{
    for (end, first) in text.iter().enumerate() {
        if *first == byte {
            return Some((&text[..end], &text[end + 1..]));
        }
    }
    None
}

/// The first field of a line, up to a space, and what follows that.
pub(crate) fn field(text: &[u8]) -> Result<(&[u8], &[u8]), Cause>
    ensures { MatchResult result (λ p. field text.now ≡ Ok (p.0.now, p.1.now)) (λ c. field text.now ≡ Err c) }
{
    match cut(text, b' ') {
        Some((first, rest)) => Ok((first, rest)),
        None => Err(Cause::ReportBad),
    }
}
