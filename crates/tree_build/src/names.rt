//! The names of scenarios that have none of their own: S1, S2 and so on.
ghost use Rattle.std.specs.Prelude.{◌≡◌, ◌∷◌, ◌++◌, IfOk, OnOk};
ghost use Rattle.build_defs.specs.Digits.{digits, digits_in};

use smps_words::Name;
use std::alloc::{AllocError, Global};

/// Adds a number in decimal digits, so many at most.
fn push_digits(out: &mut Vec<u8>, room: u32, number: u64) -> Result<(), AllocError>
    ensures { OnOk result (out.new.items ≡ out.old.items ++ digits_in room number) }
{
    if room == 0 {
        return Ok(());
    }
    if number < 10 {
        out.push(b'0' + number as u8)?;
        return Ok(());
    }
    push_digits(out, room - 1, number / 10)?;
    out.push(b'0' + (number % 10) as u8)?;
    Ok(())
}

/// S and the number.
pub(crate) fn numbered(alloc: Global, number: u64) -> Result<Name, AllocError>
    ensures { IfOk result (λ name. name ≡ 83 ∷ digits number) }
{
    let mut bytes = Vec::new(alloc);
    bytes.push(b'S')?;
    push_digits(&mut bytes, 20, number)?;
    Name::new(alloc, &bytes)
}
