//! What a cause of a refusal is, in one sentence.
use core_defs::Cause;
use input_files::FileKind;

const NO_ENTRY: &str =
    "that column and row name no entry; in place of the column of a right-hand side stands RHS, \
or the name of the set of RHS that the core uses";

/// The sentence for a cause in a file. The numbers that some causes carry stand on standard output.
pub fn sentence(file: FileKind, cause: Cause) -> &'static str {
    match cause {
        Cause::SectionUnknown => "that header isn't a section of the file",
        Cause::SectionOrder => "that line stands out of order, or no section takes it",
        Cause::SectionMissing => missing(file),
        Cause::RowKind => "that row's kind isn't N, L, G or E",
        Cause::RowTwice => "that row's name was there before",
        Cause::RowUnknown => "that row isn't stated in ROWS",
        Cause::ColumnSplit => "that column's lines don't stand together",
        Cause::EntryTwice => twice(file),
        Cause::FieldCount =>
            "that line has too many or too few fields; a name with a blank inside counts as two",
        Cause::NumberBad => no_number(file),
        Cause::NumberWide => "that number doesn't fit into 128 bits",
        Cause::BoundKind => "that bound's kind isn't LO, UP, FX, FR, MI or PL",
        Cause::BoundsCross => "that column's lower bound is above its upper bound",
        Cause::UpperNegative =>
            "that upper bound is below 0, and the column's lower bound isn't stated before it",
        Cause::IntegerMarker => "integer columns aren't solved",
        Cause::ObjectiveRhs => "the objective has a right-hand side other than 0",
        Cause::NoObjective => "no N row stands before COLUMNS",
        Cause::RangeOnFree => "that N row has no end for a range",
        Cause::ColumnUnknown => "that column isn't stated in COLUMNS",
        Cause::CoreLimit =>
            "there are more than 4,000 constraints, 4,000 columns or 100,000 entries",
        Cause::StartUnknown =>
            "a name on that line isn't that of a column or a constraint; the objective stands at most on the first line of PERIODS",
        Cause::PeriodOrder =>
            "that period doesn't start after the one before it; the first one starts with the first column and the objective or the first \
constraint",
        Cause::PeriodTwice => "that period's name was there before",
        Cause::NotTriangular { row: _, column: _ } =>
            "a row has an entry of a column of a later period",
        Cause::PeriodCount => "there are more than 16 periods, or none",
        Cause::PeriodUnknown => "that row's or column's period isn't one of PERIODS",
        Cause::RowMissing(_) => "a row of the core has no period",
        Cause::ColumnMissing(_) => "a column of the core has no period",
        Cause::PlaceTwice => "that row or column stands on an earlier line",
        Cause::KindUnknown =>
            "those words of a section aren't known: INDEP, BLOCKS and SCENARIOS are followed by nothing, by DISCRETE, \
or by DISCRETE and one of REPLACE, ADD and MULTIPLY",
        Cause::EntryUnknown | Cause::EditEntryUnknown => NO_ENTRY,
        Cause::EntryStage => late(file),
        Cause::ProbabilityRange => "that probability isn't above 0, or is above 1",
        Cause::ProbabilitySum(_) =>
            "the probabilities of a block, an entry of INDEP or all scenarios add up to the printed sum, more than 1/1000 from 1; \
blocks and entries are looked at in the order in which they begin, and the first at fault is meant",
        Cause::ParentUnknown =>
            "that parent isn't ROOT or an earlier scenario; a line of five fields that begins with SC states a scenario, \
also where a column has that name",
        Cause::BranchPeriod => "that period isn't known, or no scenario can branch there",
        Cause::ScenarioTwice => "that scenario's name was there before",
        Cause::ScenariosMixed => "SCENARIOS can't stand beside another kind of section",
        Cause::ScenarioLimit =>
            "there are more than 10,000 scenarios, 20,000 nodes, or 10,000,000 entries, rows or costs over all nodes",
        Cause::CommandUnknown => "that line's first word isn't SET, PROB, DROP, ADD, WORK or SOLVE",
        Cause::ScenarioUnknown => "after the lines before it no scenario has that name",
        Cause::NameTaken => "after the lines before it a scenario has that name",
        Cause::EditProbability => "that probability isn't above 0 and below 1",
        Cause::LastScenario =>
            "that scenario is the only one, so that it stays, and its probability is 1",
        Cause::ScriptLimit => "that command is the 10,001st, and an edit list has at most 10,000",
        Cause::Passes(_) => passing(file),
        Cause::ReportBad => other_line(file),
        Cause::FlatLimit =>
            "all nodes together have more than 4,000 constraints, 4,000 columns or 100,000 entries, the most of a core file that is \
read here; with --whole, for other solvers, more than 10,000,000 entries",
        Cause::TailName =>
            "a column is named TAIL_H or TAIL_U, or a row TAIL_R: names that --tail adds itself",
        Cause::BasisBad => "that line isn't one of a basis of the program, or the file is cut off",
        Cause::TraceBad => "no command has that cause",
    }
}

/// What a field has to be.
fn no_number(file: FileKind) -> &'static str {
    match file {
        FileKind::Edits =>
            "that field isn't a number; after WORK it is a whole number from 1 to 1,000,000",
        _ => "that field isn't a number",
    }
}

/// What stands twice.
fn twice(file: FileKind) -> &'static str {
    match file {
        FileKind::Stoch =>
            "that entry is set twice: in another block or entry of INDEP, or twice in this case or scenario",
        _ => "that row is named twice, in a column or in the set of RHS or RANGES that is used",
    }
}

/// Which line doesn't stand where it stands.
fn other_line(file: FileKind) -> &'static str {
    match file {
        FileKind::Measures => "value prints another line there, or its output is cut off",
        _ => "a report has another line there, or no further report is asked for",
    }
}

/// Which period doesn't fit.
fn late(file: FileKind) -> &'static str {
    match file {
        FileKind::Edits => "that entry's column is of a later period than its row",
        _ =>
            "a period there isn't known, is the first, is later than that of the entry, or another one than in the case before; \
or the column is of a later period than the row",
    }
}

/// What doesn't fit into 128 bits.
fn passing(file: FileKind) -> &'static str {
    match file {
        FileKind::Edits =>
            "after that edit a probability or an end of a row doesn't fit into 128 bits",
        FileKind::Stoch => "a value, a probability or an end of a row doesn't fit into 128 bits",
        _ =>
            "an end of a row doesn't fit into 128 bits; or, under flat, a cost times the probability of its node",
    }
}

/// What a file can't do without.
fn missing(file: FileKind) -> &'static str {
    match file {
        FileKind::Core => "COLUMNS or ENDATA is missing",
        FileKind::Time => "PERIODS or ENDATA is missing, or, with EXPLICIT, ROWS or COLUMNS",
        _ => "ENDATA is missing",
    }
}
