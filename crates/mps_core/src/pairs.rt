//! The lines of RHS and RANGES: one or two pairs of a row and a value, behind the name of a set or none.
use crate::draft::Draft;
use crate::number::is_zero;
use crate::places::row_at;
use crate::sets::choose;
use crate::values::{state, stated};
use core_defs::{Cause, RowPlace, number_of};
use frac128::Frac;
use reader_defs::Stop;
use smps_words::Line;
use std::alloc::AllocError;

/// A section whose lines are pairs.
#[derive(Clone, Copy)]
pub(crate) enum PairSection {
    Rhs,
    Ranges,
}

impl Draft {
    ghost use Rattle.std.specs.Prelude.{◌≡◌, OnOk, IfOk, option_map};
    ghost use Rattle.smps_words.specs.Seen.{seen};
    ghost use Rattle.core_defs.specs.Stated.{same_set, chosen};
    ghost use Rattle.core_defs.specs.Step.{with_rhs_at, with_rhs, with_range};
    ghost use Rattle.mps_core.specs.Pairs.{used_set, choosing_set, with_pair, with_two_pairs, in_set, pairs_line};
    ghost use Rattle.mps_core.specs.View.{filed, Files};

    /// Whether a line of this set is used.
    fn choose_set(&mut self, section: PairSection, set: Option<&[u8]>) -> Result<bool, AllocError>
        ensures used { let line = option_map (λ name. name.now) set.entry
            in IfOk result (λ used. used ≡ same_set (chosen (used_set section (filed self.old)) line) line) }
        ensures filed { let line = option_map (λ name. name.now) set.entry
            in OnOk result (filed self.new ≡ choosing_set section (filed self.old) line) }
        ensures entries { OnOk result (self.new.entries ≡ self.old.entries) }
    {
        match section {
            PairSection::Rhs => choose(self.alloc, &mut self.rhs_set, set),
            PairSection::Ranges => choose(self.alloc, &mut self.range_set, set),
        }
    }

    /// The right-hand side of a row.
    fn with_rhs_at(&mut self, value: Frac, row: RowPlace) -> Result<(), Stop>
        ensures filed { Files self.new result (with_rhs_at (filed self.old) value row) }
        ensures entries { OnOk result (self.new.entries ≡ self.old.entries) }
    {
        match row {
            RowPlace::Free(row) => {
                if row == 0 && !is_zero(value) {
                    return Err(Stop::Fault(Cause::ObjectiveRhs));
                }
                if stated(&self.free_rhs, row).is_some() {
                    return Err(Stop::Fault(Cause::EntryTwice));
                }
                state(&mut self.free_rhs, row, value);
                Ok(())
            }
            RowPlace::Constraint(row) => {
                if stated(&self.rhs, row).is_some() {
                    return Err(Stop::Fault(Cause::EntryTwice));
                }
                state(&mut self.rhs, row, value);
                Ok(())
            }
        }
    }

    /// A row and its right-hand side.
    #[tactic(auto, unfolding(core_defs::specs::Step::with_rhs))]
    fn with_rhs(&mut self, name: &[u8], word: &[u8]) -> Result<(), Stop>
        ensures filed { Files self.new result (with_rhs (filed self.old) name.now word.now) }
        ensures entries { OnOk result (self.new.entries ≡ self.old.entries) }
    {
        let Some(row) = row_at(&self.free, &self.rows, name) else {
            return Err(Stop::Fault(Cause::RowUnknown));
        };
        let value = number_of(word)?;
        self.with_rhs_at(value, row)
    }

    /// A constraint and its range.
    #[tactic(auto, unfolding(core_defs::specs::Step::with_range))]
    fn with_range(&mut self, name: &[u8], word: &[u8]) -> Result<(), Stop>
        ensures filed { Files self.new result (with_range (filed self.old) name.now word.now) }
        ensures entries { OnOk result (self.new.entries ≡ self.old.entries) }
    {
        let Some(place) = row_at(&self.free, &self.rows, name) else {
            return Err(Stop::Fault(Cause::RowUnknown));
        };
        let RowPlace::Constraint(row) = place else {
            return Err(Stop::Fault(Cause::RangeOnFree));
        };
        let value = number_of(word)?;
        if stated(&self.ranges, row).is_some() {
            return Err(Stop::Fault(Cause::EntryTwice));
        }
        state(&mut self.ranges, row, value);
        Ok(())
    }

    /// A pair of the section.
    fn with_pair(&mut self, section: PairSection, name: &[u8], word: &[u8]) -> Result<(), Stop>
        ensures filed { Files self.new result (with_pair section (filed self.old) name.now word.now) }
        ensures entries { OnOk result (self.new.entries ≡ self.old.entries) }
    {
        match section {
            PairSection::Rhs => self.with_rhs(name, word),
            PairSection::Ranges => self.with_range(name, word),
        }
    }

    /// Two pairs of the section.
    fn with_two_pairs(
        &mut self,
        section: PairSection,
        row: &[u8],
        word: &[u8],
        second: &[u8],
        other: &[u8],
    ) -> Result<(), Stop>
        ensures filed { Files self.new result (with_two_pairs section (filed self.old) row.now word.now second.now other.now) }
        ensures entries { OnOk result (self.new.entries ≡ self.old.entries) }
    {
        match self.with_pair(section, row, word) {
            Ok(()) => self.with_pair(section, second, other),
            Err(stop) => Err(stop),
        }
    }

    /// A line of one pair, where its set is used.
    fn pair_in_set(
        &mut self,
        section: PairSection,
        set: Option<&[u8]>,
        row: &[u8],
        word: &[u8],
    ) -> Result<(), Stop>
        ensures filed { let line = option_map (λ name. name.now) set.entry
            in Files self.new result (in_set section (filed self.old) line (λ f. with_pair section f row.now word.now)) }
        ensures entries { OnOk result (self.new.entries ≡ self.old.entries) }
    {
        if !self.choose_set(section, set)? {
            return Ok(());
        }
        self.with_pair(section, row, word)
    }

    /// A line of two pairs, where its set is used.
    fn two_pairs_in_set(
        &mut self,
        section: PairSection,
        set: Option<&[u8]>,
        row: &[u8],
        word: &[u8],
        second: &[u8],
        other: &[u8],
    ) -> Result<(), Stop>
        ensures filed { let line = option_map (λ name. name.now) set.entry
            in Files self.new result (in_set section (filed self.old) line
            (λ f. with_two_pairs section f row.now word.now second.now other.now)) }
        ensures entries { OnOk result (self.new.entries ≡ self.old.entries) }
    {
        if !self.choose_set(section, set)? {
            return Ok(());
        }
        self.with_two_pairs(section, row, word, second, other)
    }

    /// A line of the section.
    #[tactic(auto, using(crate::proofs::StepLemmas::long_pairs))]
    pub(crate) fn pairs_line(&mut self, section: PairSection, line: &Line) -> Result<(), Stop>
        ensures filed { Files self.new result (pairs_line section (filed self.old) (seen line.now).fields) }
        ensures entries { OnOk result (self.new.entries ≡ self.old.entries) }
    {
        match line.fields() {
            Some([row, value]) => self.pair_in_set(section, None, row, value),
            Some([set, row, value]) => self.pair_in_set(section, Some(set), row, value),
            Some([row, value, second, other]) => {
                self.two_pairs_in_set(section, None, row, value, second, other)
            }
            Some([set, row, value, second, other]) => {
                self.two_pairs_in_set(section, Some(set), row, value, second, other)
            }
            _ => Err(Stop::Fault(Cause::FieldCount)),
        }
    }
}
