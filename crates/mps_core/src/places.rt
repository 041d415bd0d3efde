//! Rows and columns by their names.
ghost use Rattle.std.specs.Prelude.{◌≡◌};
ghost use Rattle.core_defs.specs.Filed.{last_of};
ghost use Rattle.core_defs.specs.Step.{is_named, row_at};

use core_defs::RowPlace;
use smps_words::Names;

/// Whether the name is the last of the names.
#[tactic(auto, using(crate::proofs::PlaceLemmas::last_is))]
pub(crate) fn is_last(names: &Names, name: &[u8]) -> bool
    ensures { result ≡ is_named (last_of names.now) name.now }
{
    let count = names.len();
    if count == 0 {
        return false;
    }
    names.name(count - 1) == name
}

/// The row with this name.
pub(crate) fn row_at(free: &Names, rows: &Names, name: &[u8]) -> Option<RowPlace>
    ensures { result ≡ row_at free.now rows.now name.now }
{
    if let Some(row) = rows.place(name) {
        return Some(RowPlace::Constraint(row));
    }
    match free.place(name) {
        Some(row) => Some(RowPlace::Free(row)),
        None => None,
    }
}
