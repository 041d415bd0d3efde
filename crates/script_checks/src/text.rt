//! The text of checks.
ghost use Rattle.std.specs.Prelude.{◌≡◌, ◌++◌, OnOk};
ghost use Rattle.std.specs.List.{flat_map};
ghost use Rattle.script_checks.specs.Checked.{line_of, all_hold};

use crate::single::Checked;
use certificate_check::print_verdict;
use frac128::Memory;
use std::alloc::Global;

/// Appends the line of each check.
pub fn print_checks(alloc: Global, checks: &[Checked], out: &mut Vec<u8>) -> Result<(), Memory>
    ensures { OnOk result (out.new.items ≡ out.old.items ++ flat_map line_of checks.now) }
{
    for check in checks {
        print_verdict(alloc, check.number, check.outcome, out)?;
    }
    Ok(())
}

/// Whether all claims of all reports hold.
pub fn all_hold(checks: &[Checked]) -> bool
    ensures { result ≡ all_hold checks.now }
{
    for check in checks {
        if !check.holds() {
            return false;
        }
    }
    true
}
