//! The lines of ROWS.
use crate::draft::Draft;
use crate::keywords::use_of;
use crate::places::row_at;
use core_defs::{Cause, RowUse};
use reader_defs::Stop;
use smps_words::{Line, RowKind};
use std::alloc::AllocError;

/// So many constraints a core has at most, so that its programs fit into memory.
const MOST_ROWS: usize = 4000;

impl Draft {
    ghost use Rattle.std.specs.Prelude.{◌≡◌, None, OnOk};
    ghost use Rattle.smps_words.specs.Names.{place_of};
    ghost use Rattle.smps_words.specs.Seen.{seen};
    ghost use Rattle.core_defs.specs.Step.{row_at, with_free, with_row, with_use, row_of, row_line};
    ghost use Rattle.mps_core.specs.View.{filed, Files};

    /// A new N row.
    fn with_free(&mut self, name: &[u8]) -> Result<(), AllocError>
        requires { place_of self.old.free name.now ≡ None }
        ensures filed { OnOk result (filed self.new ≡ with_free (filed self.old) name.now) }
        ensures entries { OnOk result (self.new.entries ≡ self.old.entries) }
    {
        self.free.add(name)?;
        self.free_rhs.push(None)?;
        Ok(())
    }

    /// A new constraint.
    fn with_row(&mut self, kind: RowKind, name: &[u8]) -> Result<(), AllocError>
        requires { place_of self.old.rows name.now ≡ None }
        ensures filed { OnOk result (filed self.new ≡ with_row (filed self.old) kind name.now) }
        ensures entries { OnOk result (self.new.entries ≡ self.old.entries) }
    {
        self.rows.add(name)?;
        self.kinds.push(kind)?;
        self.rhs.push(None)?;
        self.ranges.push(None)?;
        Ok(())
    }

    /// A new row of this kind.
    fn with_use(&mut self, name: &[u8], purpose: RowUse) -> Result<(), Stop>
        requires { row_at self.old.free self.old.rows name.now ≡ None }
        ensures filed { Files self.new result (with_use (filed self.old) name.now purpose) }
        ensures entries { OnOk result (self.new.entries ≡ self.old.entries) }
    {
        match purpose {
            RowUse::Free => {
                self.with_free(name)?;
                Ok(())
            }
            RowUse::Constraint(kind) => {
                if self.rows.len() >= MOST_ROWS {
                    return Err(Stop::Fault(Cause::CoreLimit));
                }
                self.with_row(kind, name)?;
                Ok(())
            }
        }
    }

    /// A kind and the name of a row.
    #[tactic(auto, unfolding(core_defs::specs::Step::row_of))]
    fn row_of(&mut self, word: &[u8], name: &[u8]) -> Result<(), Stop>
        ensures filed { Files self.new result (row_of (filed self.old) word.now name.now) }
        ensures entries { OnOk result (self.new.entries ≡ self.old.entries) }
    {
        let Some(purpose) = use_of(word) else {
            return Err(Stop::Fault(Cause::RowKind));
        };
        if row_at(&self.free, &self.rows, name).is_some() {
            return Err(Stop::Fault(Cause::RowTwice));
        }
        self.with_use(name, purpose)
    }

    /// A line of ROWS.
    #[tactic(auto, using(crate::proofs::StepLemmas::long_row), unfolding(core_defs::specs::Step::row_line))]
    pub(crate) fn row_line(&mut self, line: &Line) -> Result<(), Stop>
        ensures filed { Files self.new result (row_line (filed self.old) (seen line.now).fields) }
        ensures entries { OnOk result (self.new.entries ≡ self.old.entries) }
    {
        let Some([word, name]) = line.fields() else {
            return Err(Stop::Fault(Cause::FieldCount));
        };
        self.row_of(word, name)
    }
}
