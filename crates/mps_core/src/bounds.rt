//! The lines of BOUNDS.
use crate::draft::Draft;
use crate::keywords::{bound_kind, has_value};
use crate::limits::{are_crossed, bounded, is_sudden};
use crate::sets::choose;
use crate::values::{bounds_at, set_bounds};
use core_defs::{BoundKind, Cause, number_of};
use frac128::Frac;
use reader_defs::Stop;
use smps_words::Line;
use std::alloc::AllocError;

impl Draft {
    ghost use Rattle.std.specs.Prelude.{◌≡◌, OnOk, IfOk, option_map, map};
    ghost use Rattle.smps_words.specs.Seen.{seen};
    ghost use Rattle.core_defs.specs.Stated.{same_set, chosen};
    ghost use Rattle.core_defs.specs.Step.{choosing_bound, in_bound_set, with_bound_at, with_bound, without_bound};
    ghost use Rattle.core_defs.specs.Step.{value_line, plain_line, bound_line};
    ghost use Rattle.mps_core.specs.View.{filed, Files};

    /// Whether a line of this set is used.
    fn choose_bound(&mut self, set: Option<&[u8]>) -> Result<bool, AllocError>
        ensures used { let line = option_map (λ name. name.now) set.entry
            in IfOk result (λ used. used ≡ same_set (chosen self.old.bound_set line) line) }
        ensures filed { let line = option_map (λ name. name.now) set.entry
            in OnOk result (filed self.new ≡ choosing_bound (filed self.old) line) }
        ensures entries { OnOk result (self.new.entries ≡ self.old.entries) }
    {
        choose(self.alloc, &mut self.bound_set, set)
    }

    /// The column with this number is bounded.
    #[tactic(auto, unfolding(core_defs::specs::Step::with_bound_at))]
    fn with_bound_at(&mut self, kind: BoundKind, column: usize, value: Frac) -> Result<(), Stop>
        ensures filed { Files self.new result (with_bound_at (filed self.old) kind column value) }
        ensures entries { OnOk result (self.new.entries ≡ self.old.entries) }
    {
        let old = bounds_at(&self.bounds, column);
        if is_sudden(kind, value, &old) {
            return Err(Stop::Fault(Cause::UpperNegative));
        }
        let new = bounded(&old, kind, value);
        if are_crossed(&new) {
            return Err(Stop::Fault(Cause::BoundsCross));
        }
        set_bounds(&mut self.bounds, column, new);
        Ok(())
    }

    /// A column and the value of its bound.
    #[tactic(auto, unfolding(core_defs::specs::Step::with_bound))]
    fn with_bound(&mut self, kind: BoundKind, column: &[u8], word: &[u8]) -> Result<(), Stop>
        ensures filed { Files self.new result (with_bound (filed self.old) kind column.now word.now) }
        ensures entries { OnOk result (self.new.entries ≡ self.old.entries) }
    {
        let Some(place) = self.names.place(column) else {
            return Err(Stop::Fault(Cause::ColumnUnknown));
        };
        let value = number_of(word)?;
        self.with_bound_at(kind, place, value)
    }

    /// A column whose bound has no value.
    #[tactic(auto, unfolding(core_defs::specs::Step::without_bound))]
    fn without_bound(&mut self, kind: BoundKind, column: &[u8]) -> Result<(), Stop>
        ensures filed { Files self.new result (without_bound (filed self.old) kind column.now) }
        ensures entries { OnOk result (self.new.entries ≡ self.old.entries) }
    {
        let Some(place) = self.names.place(column) else {
            return Err(Stop::Fault(Cause::ColumnUnknown));
        };
        self.with_bound_at(kind, place, Frac::zero())
    }

    /// A column and the value of its bound, where its set is used.
    fn bound_in_set(
        &mut self,
        kind: BoundKind,
        set: Option<&[u8]>,
        column: &[u8],
        word: &[u8],
    ) -> Result<(), Stop>
        ensures filed { let line = option_map (λ name. name.now) set.entry
            in Files self.new result (in_bound_set (filed self.old) line (λ f. with_bound f kind column.now word.now)) }
        ensures entries { OnOk result (self.new.entries ≡ self.old.entries) }
    {
        if !self.choose_bound(set)? {
            return Ok(());
        }
        self.with_bound(kind, column, word)
    }

    /// A column whose bound has no value, where its set is used.
    fn plain_in_set(
        &mut self,
        kind: BoundKind,
        set: Option<&[u8]>,
        column: &[u8],
    ) -> Result<(), Stop>
        ensures filed { let line = option_map (λ name. name.now) set.entry
            in Files self.new result (in_bound_set (filed self.old) line (λ f. without_bound f kind column.now)) }
        ensures entries { OnOk result (self.new.entries ≡ self.old.entries) }
    {
        if !self.choose_bound(set)? {
            return Ok(());
        }
        self.without_bound(kind, column)
    }

    /// What stands behind LO, UP and FX.
    #[tactic(auto, using(crate::proofs::StepLemmas::long_value), unfolding(core_defs::specs::Step::value_line))]
    fn value_line(&mut self, kind: BoundKind, fields: &[&[u8]]) -> Result<(), Stop>
        ensures filed { Files self.new result (value_line (filed self.old) kind (map (λ field. field.now) fields.now)) }
        ensures entries { OnOk result (self.new.entries ≡ self.old.entries) }
    {
        match fields {
            [column, word] => self.bound_in_set(kind, None, column, word),
            [set, column, word] => self.bound_in_set(kind, Some(set), column, word),
            _ => Err(Stop::Fault(Cause::FieldCount)),
        }
    }

    /// What stands behind FR, MI and PL; a fourth field of the line is skipped.
    #[tactic(auto, using(crate::proofs::StepLemmas::long_plain), unfolding(core_defs::specs::Step::plain_line))]
    fn plain_line(&mut self, kind: BoundKind, fields: &[&[u8]]) -> Result<(), Stop>
        ensures filed { Files self.new result (plain_line (filed self.old) kind (map (λ field. field.now) fields.now)) }
        ensures entries { OnOk result (self.new.entries ≡ self.old.entries) }
    {
        match fields {
            [column] => self.plain_in_set(kind, None, column),
            [set, column] | [set, column, _] => self.plain_in_set(kind, Some(set), column),
            _ => Err(Stop::Fault(Cause::FieldCount)),
        }
    }

    /// A line of BOUNDS.
    #[tactic(auto, using(crate::proofs::StepLemmas::bound_lines), unfolding(core_defs::specs::Step::bound_line))]
    pub(crate) fn bound_line(&mut self, line: &Line) -> Result<(), Stop>
        ensures filed { Files self.new result (bound_line (filed self.old) (seen line.now).fields) }
        ensures entries { OnOk result (self.new.entries ≡ self.old.entries) }
    {
        let Some(word) = line.first() else {
            return Err(Stop::Fault(Cause::BoundKind));
        };
        let Some(kind) = bound_kind(word) else {
            return Err(Stop::Fault(Cause::BoundKind));
        };
        let Some(fields) = line.fields() else {
            return Err(Stop::Fault(Cause::FieldCount));
        };
        let [_, rest @ ..] = fields else {
            return Err(Stop::Fault(Cause::BoundKind));
        };
        if has_value(kind) {
            self.value_line(kind, rest)
        } else {
            self.plain_line(kind, rest)
        }
    }
}
