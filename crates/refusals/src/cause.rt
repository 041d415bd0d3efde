//! Why a text is refused.
ghost use Rattle.std.specs.Prelude.{◌≡◌};

use frac128::{Frac, Passed};

/// Why a line is refused.
#[derive(Clone, Copy, Debug, PartialEq, Eq)]
pub enum Cause {
    /// 10: a header isn't one of the file.
    SectionUnknown,
    /// 11: a section or a data line stands out of order.
    SectionOrder,
    /// 12: a section or ENDATA is missing.
    SectionMissing,
    /// 13: a row's kind isn't N, L, G or E.
    RowKind,
    /// 14: a row's name was there.
    RowTwice,
    /// 15: a row isn't known.
    RowUnknown,
    /// 16: a column's lines don't stand together.
    ColumnSplit,
    /// 17: an entry is set twice.
    EntryTwice,
    /// 18: the number of fields doesn't fit.
    FieldCount,
    /// 19: a field isn't a number.
    NumberBad,
    /// 20: a number is wide.
    NumberWide,
    /// 21: a bound's kind isn't LO, UP, FX, FR, MI or PL.
    BoundKind,
    /// 22: the lower bound is above the upper.
    BoundsCross,
    /// 23: an upper bound below 0 without a stated lower bound.
    UpperNegative,
    /// 24: a MARKER line.
    IntegerMarker,
    /// 25: the objective's right-hand side isn't 0.
    ObjectiveRhs,
    /// 26: there is no N row.
    NoObjective,
    /// 27: a range on an N row.
    RangeOnFree,
    /// 28: a bound's column isn't known.
    ColumnUnknown,
    /// 29: a limit of the core is exceeded.
    CoreLimit,
    /// 30: a period's column or row isn't known.
    StartUnknown,
    /// 31: a period doesn't start behind the one before it.
    PeriodOrder,
    /// 32: a period's name was there.
    PeriodTwice,
    /// 33: this row has an entry of this column of a later period.
    NotTriangular { row: u64, column: u64 },
    /// 34: too many periods, or none.
    PeriodCount,
    /// 35: a row's or a column's period isn't known.
    PeriodUnknown,
    /// 36: this row stands on no line.
    RowMissing(u64),
    /// 36: this column stands on no line.
    ColumnMissing(u64),
    /// 37: a row or a column stands on an earlier line.
    PlaceTwice,
    /// 40: the words of a section aren't known.
    KindUnknown,
    /// 41: column and row name no entry.
    EntryUnknown,
    /// 42: an entry's period doesn't fit.
    EntryStage,
    /// 43: a probability isn't above 0, or is above 1.
    ProbabilityRange,
    /// 44: the probabilities add up to this sum, which is too far from 1.
    ProbabilitySum(Frac),
    /// 45: a parent isn't ROOT or an earlier scenario.
    ParentUnknown,
    /// 46: a branch period isn't known or can't be.
    BranchPeriod,
    /// 47: a scenario's name was there.
    ScenarioTwice,
    /// 48: SCENARIOS beside another kind of section.
    ScenariosMixed,
    /// 49: a limit of the program is exceeded.
    ScenarioLimit,
    /// 50: the first word isn't a command of an edit list.
    CommandUnknown,
    /// 51: no scenario has that name there.
    ScenarioUnknown,
    /// 52: a scenario has that name already.
    NameTaken,
    /// 53: a probability of an edit isn't above 0 and below 1.
    EditProbability,
    /// 54: an edit changes the probability of the only scenario, or drops it.
    LastScenario,
    /// 55: column and row of an edit name no entry.
    EditEntryUnknown,
    /// 56: there are more than 10,000 commands.
    ScriptLimit,
    /// 57: this operation passes 128 bits.
    Passes(Passed),
    /// 58: a line isn't one of a report there, or a report is cut off.
    ReportBad,
    /// 59: a line isn't one of a trace there, or a trace is cut off.
    TraceBad,
    /// 60: the deterministic equivalent exceeds a limit of core files.
    FlatLimit,
    /// 61: a name of the core is one that the program with tail risk needs.
    TailName,
    /// 62: a line isn't one of a basis file of the program there, or a basis file is cut off.
    BasisBad,
}

impl Cause {
    ghost use Rattle.refusals.specs.Cause.{number_of_cause};

    /// The number by which the cause is printed.
    pub fn number(&self) -> u32
        ensures { result ≡ number_of_cause self.now }
    {
        match self {
            Cause::SectionUnknown => 10,
            Cause::SectionOrder => 11,
            Cause::SectionMissing => 12,
            Cause::RowKind => 13,
            Cause::RowTwice => 14,
            Cause::RowUnknown => 15,
            Cause::ColumnSplit => 16,
            Cause::EntryTwice => 17,
            Cause::FieldCount => 18,
            Cause::NumberBad => 19,
            Cause::NumberWide => 20,
            Cause::BoundKind => 21,
            Cause::BoundsCross => 22,
            Cause::UpperNegative => 23,
            Cause::IntegerMarker => 24,
            Cause::ObjectiveRhs => 25,
            Cause::NoObjective => 26,
            Cause::RangeOnFree => 27,
            Cause::ColumnUnknown => 28,
            Cause::CoreLimit => 29,
            Cause::StartUnknown => 30,
            Cause::PeriodOrder => 31,
            Cause::PeriodTwice => 32,
            Cause::NotTriangular { row: _, column: _ } => 33,
            Cause::PeriodCount => 34,
            Cause::PeriodUnknown => 35,
            Cause::RowMissing(_) => 36,
            Cause::ColumnMissing(_) => 36,
            Cause::PlaceTwice => 37,
            Cause::KindUnknown => 40,
            Cause::EntryUnknown => 41,
            Cause::EntryStage => 42,
            Cause::ProbabilityRange => 43,
            Cause::ProbabilitySum(_) => 44,
            Cause::ParentUnknown => 45,
            Cause::BranchPeriod => 46,
            Cause::ScenarioTwice => 47,
            Cause::ScenariosMixed => 48,
            Cause::ScenarioLimit => 49,
            Cause::CommandUnknown => 50,
            Cause::ScenarioUnknown => 51,
            Cause::NameTaken => 52,
            Cause::EditProbability => 53,
            Cause::LastScenario => 54,
            Cause::EditEntryUnknown => 55,
            Cause::ScriptLimit => 56,
            Cause::Passes(_) => 57,
            Cause::ReportBad => 58,
            Cause::TraceBad => 59,
            Cause::FlatLimit => 60,
            Cause::TailName => 61,
            Cause::BasisBad => 62,
        }
    }
}

/// The first line that is refused.
#[derive(Clone, Copy, Debug, PartialEq, Eq)]
pub struct Refusal {
    /// Counted from 1 over all lines of the text; one more than their number where the text ends too early.
    pub line: u32,
    pub cause: Cause,
}

/// Why a text isn't read.
#[derive(Debug, Drop, PartialEq, Eq)]
pub enum ReadFail {
    Refused(Refusal),
    Memory,
}
