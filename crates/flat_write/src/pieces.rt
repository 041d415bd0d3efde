//! Names and lines, appended to a text.
ghost use Rattle.std.specs.Prelude.{◌≡◌, ◌++◌, IfOk, OnOk, string_bytes};
ghost use Rattle.rationals.specs.Rational.{zero_ℚ};
ghost use Rattle.flat_write.specs.FlatText.{flat_name, word_line, number_line, nonzero_line};

use frac128::{Frac, Memory, print};
use std::alloc::Global;

/// Appends the bytes.
pub(crate) fn put(out: &mut Vec<u8>, text: &str) -> Result<(), Memory>
    ensures { OnOk result (out.new.items ≡ out.old.items ++ text.now) }
{
    out.extend_from_slice(text.as_bytes())?;
    Ok(())
}

/// The name of a column or a row at a node.
pub(crate) fn flat_name(
    alloc: Global,
    letter: &str,
    node: u64,
    place: u64,
) -> Result<String, Memory>
    ensures { IfOk result (λ name. string_bytes name ≡ flat_name letter.now node place) }
{
    let name = format!(in alloc; "{letter}{node}_{place}")?;
    Ok(name)
}

/// Appends a line with two words.
pub(crate) fn put_words(
    alloc: Global,
    out: &mut Vec<u8>,
    one: &str,
    two: &str,
) -> Result<(), Memory>
    ensures { OnOk result (out.new.items ≡ out.old.items ++ word_line one.now two.now) }
{
    let line = format!(in alloc; " {one} {two}\n")?;
    put(out, line.as_str())
}

/// Appends a line with two words and a number.
pub(crate) fn put_number(
    alloc: Global,
    out: &mut Vec<u8>,
    one: &str,
    two: &str,
    value: Frac,
) -> Result<(), Memory>
    ensures { OnOk result (out.new.items ≡ out.old.items ++ number_line one.now two.now value) }
{
    let front = format!(in alloc; " {one} {two} ")?;
    put(out, front.as_str())?;
    print(alloc, value, out)?;
    put(out, "\n")
}

/// Appends such a line, unless the number is 0.
pub(crate) fn put_nonzero(
    alloc: Global,
    out: &mut Vec<u8>,
    one: &str,
    two: &str,
    value: Frac,
) -> Result<(), Memory>
    ensures { OnOk result (out.new.items ≡ out.old.items ++ nonzero_line one.now two.now value) }
{
    if value == Frac::zero() {
        return Ok(());
    }
    put_number(alloc, out, one, two, value)
}
