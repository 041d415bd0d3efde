//! The sets of right-hand sides, ranges and bounds.
ghost use Rattle.std.specs.Prelude.{◌≡◌, Some, OnOk, IfOk, option_map};
ghost use Rattle.core_defs.specs.Stated.{same_set, chosen};

use smps_words::Name;
use std::alloc::{AllocError, Global};

/// Whether the two sets are one; lines without a name are a set of their own.
fn same_set(held: &Option<Name>, set: Option<&[u8]>) -> bool
    ensures { result ≡ same_set held.now (option_map (λ name. name.now) set.entry) }
{
    match (held, set) {
        (Some(held), Some(name)) => held.as_bytes() == name,
        (None, None) => true,
        _ => false,
    }
}

/// The set with a name of its own.
fn owned(alloc: Global, set: Option<&[u8]>) -> Result<Option<Name>, AllocError>
    ensures { IfOk result (λ held. held ≡ option_map (λ name. name.now) set.entry) }
{
    match set {
        Some(name) => Ok(Some(Name::new(alloc, name)?)),
        None => Ok(None),
    }
}

/// Whether a line of this set is used; the first line chooses the set.
pub(crate) fn choose(
    alloc: Global,
    used: &mut Option<Option<Name>>,
    set: Option<&[u8]>,
) -> Result<bool, AllocError>
    ensures same { let line = option_map (λ name. name.now) set.entry in IfOk result
        (λ same. same ≡ same_set (chosen used.old line) line) }
    ensures used { let line = option_map (λ name. name.now) set.entry in OnOk result (used.new ≡ Some (chosen used.old line)) }
{
    match used {
        Some(held) => Ok(same_set(held, set)),
        None => {
            *used = Some(owned(alloc, set)?);
            Ok(true)
        }
    }
}
