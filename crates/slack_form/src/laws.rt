//! What the standard form says of the rows themselves.
ghost use Rattle.slack_form.specs.Laws.{SlackFormLaws};

/// Points and rays of the equations are those of the rows, at the same cost; multipliers of the equations
/// are multipliers of the rows once their signs are undone, and of equal worth.
pub fn slack_form_means()
    ensures { SlackFormLaws }
{}
