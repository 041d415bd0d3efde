//! The lines of COLUMNS.
use crate::draft::Draft;
use crate::number::is_zero;
use crate::places::{is_last, row_at};
use crate::values::first_bounds;
use core_defs::{Cause, ColumnPart, RowPlace, number_of};
use frac128::Frac;
use reader_defs::Stop;
use smps_words::Line;
use std::alloc::AllocError;

/// So many columns and entries of constraints a core has at most, so that its programs fit into memory.
const MOST_COLUMNS: usize = 4000;

const MOST_ENTRIES: u32 = 100_000;

impl Draft {
    ghost use Rattle.std.specs.Prelude.{◌≡◌, ◌≤◌, ◌+◌, [], ◌∷◌, None, OnOk};
    ghost use Rattle.smps_words.specs.Names.{place_of};
    ghost use Rattle.smps_words.specs.Seen.{seen};
    ghost use Rattle.core_defs.specs.Filed.{closed};
    ghost use Rattle.core_defs.specs.Step.{most_entries, opened, with_column, with_value_at, with_value, within_limits, column_line};
    ghost use Rattle.mps_core.specs.View.{filed, Files};

    /// The last column is whole.
    #[tactic(auto, using(crate::proofs::PlaceLemmas::closed_lemmas), unfolding(core_defs::specs::Filed::closed))]
    pub(crate) fn close_column(&mut self) -> Result<(), AllocError>
        ensures closed { OnOk result (filed self.new ≡ closed (filed self.old)) }
        // Nothing else changes.
        ensures rest { OnOk result (filed self.new ≡ record (filed self.old)
            { parts = self.new.parts.items; costs = self.new.costs; terms = self.new.terms }) }
        ensures names { OnOk result (self.new.names ≡ self.old.names) }
        ensures entries { OnOk result (self.new.entries ≡ self.old.entries) }
    {
        if self.names.len() == 0 {
            return Ok(());
        }
        let cost = self.costs.value(0).unwrap_or(Frac::zero());
        self.costs.clear();
        let entries = self.terms.take_form(self.alloc)?;
        self.parts.push(ColumnPart { cost, entries })?;
        Ok(())
    }

    /// A new column.
    fn open_column(&mut self, name: &[u8]) -> Result<(), AllocError>
        requires { place_of self.old.names name.now ≡ None }
        ensures filed { OnOk result (filed self.new ≡ opened (filed self.old) name.now) }
        ensures entries { OnOk result (self.new.entries ≡ self.old.entries) }
    {
        self.close_column()?;
        self.names.add(name)?;
        self.bounds.push(first_bounds())?;
        Ok(())
    }

    /// The column is that of the line before, or a new one.
    #[tactic(auto, unfolding(core_defs::specs::Step::with_column))]
    fn with_column(&mut self, name: &[u8]) -> Result<(), Stop>
        ensures filed { Files self.new result (with_column (filed self.old) name.now) }
        ensures entries { OnOk result (self.new.entries ≡ self.old.entries) }
    {
        if is_last(&self.names, name) {
            return Ok(());
        }
        if self.names.place(name).is_some() {
            return Err(Stop::Fault(Cause::ColumnSplit));
        }
        self.open_column(name)?;
        Ok(())
    }

    /// The column's value in a row.
    fn with_value_at(&mut self, value: Frac, row: RowPlace) -> Result<(), Stop>
        requires { self.old.entries ≤ most_entries + 1 }
        ensures filed { Files self.new result (with_value_at (filed self.old) value row) }
        ensures entries { OnOk result (self.new.entries ≤ self.old.entries + 1) }
    {
        match row {
            RowPlace::Free(row) => {
                if self.costs.value(row as u64).is_some() {
                    return Err(Stop::Fault(Cause::EntryTwice));
                }
                self.costs.add(self.alloc, row as u64, value)?;
                Ok(())
            }
            RowPlace::Constraint(row) => {
                if self.terms.value(row as u64).is_some() {
                    return Err(Stop::Fault(Cause::EntryTwice));
                }
                self.terms.add(self.alloc, row as u64, value)?;
                if !is_zero(value) {
                    self.entries += 1;
                }
                Ok(())
            }
        }
    }

    /// A row and the column's value there.
    #[tactic(auto, unfolding(core_defs::specs::Step::with_value))]
    fn with_value(&mut self, name: &[u8], word: &[u8]) -> Result<(), Stop>
        requires { self.old.entries ≤ most_entries + 1 }
        ensures filed { Files self.new result (with_value (filed self.old) name.now word.now) }
        ensures entries { OnOk result (self.new.entries ≤ self.old.entries + 1) }
    {
        let Some(row) = row_at(&self.free, &self.rows, name) else {
            return Err(Stop::Fault(Cause::RowUnknown));
        };
        let value = number_of(word)?;
        self.with_value_at(value, row)
    }

    /// There are not too many columns and entries.
    fn within_limits(&mut self) -> Result<(), Stop>
        ensures filed { Files self.new result (within_limits (filed self.old)) }
        ensures entries { OnOk result (self.new.entries ≤ most_entries) }
    {
        if self.names.len() > MOST_COLUMNS || self.entries > MOST_ENTRIES {
            return Err(Stop::Fault(Cause::CoreLimit));
        }
        Ok(())
    }

    /// A line of COLUMNS with one value.
    #[tactic(auto, unfolding(core_defs::specs::Step::column_line))]
    fn one_value(&mut self, column: &[u8], row: &[u8], word: &[u8]) -> Result<(), Stop>
        requires { self.old.entries ≤ most_entries }
        ensures filed { Files self.new result (column_line (filed self.old) (column.now ∷ row.now ∷ word.now ∷ [])) }
        ensures entries { OnOk result (self.new.entries ≤ most_entries) }
    {
        if row == b"'MARKER'".as_slice() {
            return Err(Stop::Fault(Cause::IntegerMarker));
        }
        self.with_column(column)?;
        self.with_value(row, word)?;
        self.within_limits()
    }

    /// A line of COLUMNS.
    #[tactic(auto, using(crate::proofs::StepLemmas::long_column), unfolding(core_defs::specs::Step::column_line))]
    pub(crate) fn column_line(&mut self, line: &Line) -> Result<(), Stop>
        requires { self.old.entries ≤ most_entries }
        ensures filed { Files self.new result (column_line (filed self.old) (seen line.now).fields) }
        ensures entries { OnOk result (self.new.entries ≤ most_entries) }
    {
        match line.fields() {
            Some([column, row, value]) => self.one_value(column, row, value),
            Some([column, row, value, second, other]) => {
                self.with_column(column)?;
                self.with_value(row, value)?;
                self.with_value(second, other)?;
                self.within_limits()
            }
            _ => Err(Stop::Fault(Cause::FieldCount)),
        }
    }
}
