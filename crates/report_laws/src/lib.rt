//! The printed text of reports is read again as the same reports. No code that runs.
#![tactic(auto)]

ghost use Rattle.report_laws.specs.Law.{PrintedAreRead};

/// The text of reports is read as these reports, each with its number, its counts, its finding, its ends and its lists: what is printed
/// of them loses nothing.
pub fn printed_are_read()
    ensures { PrintedAreRead }
{}
