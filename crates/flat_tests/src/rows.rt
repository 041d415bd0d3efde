//! What a test says of a row of a table that isn't so.
use std::process::Abort;

/// A row that isn't so ends the test, by its name.
pub(crate) fn expect_row(rt: &impl Abort, is_so: bool, row: &str) {
    assert!(rt; is_so, "{row}");
}
