//! What the lines of a core file say, filed by section.
ghost use Rattle.std.specs.Prelude.{◌≡◌};

use crate::terms::Terms;
use core_defs::{ColumnBounds, ColumnPart, Section};
use frac128::Frac;
use smps_words::{Name, Names, RowKind};
use std::alloc::Global;

/// What the lines so far say.
#[derive(Drop)]
pub(crate) struct Draft {
    pub alloc: Global,
    /// The section that the last header began.
    pub section: Section,
    pub has_columns: bool,
    /// The N rows, of which the first is the objective.
    pub free: Names,
    /// The constraints.
    pub rows: Names,
    pub kinds: Vec<RowKind>,
    /// The columns.
    pub names: Names,
    /// The columns whose lines are all read.
    pub parts: Vec<ColumnPart>,
    /// The last column's values in N rows, and in constraints.
    pub costs: Terms,
    pub terms: Terms,
    /// The number of values of constraints that aren't 0.
    pub entries: u32,
    /// The set that RHS uses, and its values in constraints and in N rows.
    pub rhs_set: Option<Option<Name>>,
    pub rhs: Vec<Option<Frac>>,
    pub free_rhs: Vec<Option<Frac>>,
    /// The set that RANGES uses, and its values.
    pub range_set: Option<Option<Name>>,
    pub ranges: Vec<Option<Frac>>,
    /// The set that BOUNDS uses, and what it sets.
    pub bound_set: Option<Option<Name>>,
    pub bounds: Vec<ColumnBounds>,
}

impl Draft {
    ghost use Rattle.core_defs.specs.Filed.{nothing_filed};
    ghost use Rattle.mps_core.specs.View.{filed};

    /// No line is filed.
    pub(crate) fn empty(alloc: Global) -> Draft
        ensures { filed result ≡ nothing_filed }
    {
        Draft {
            alloc,
            section: Section::Start,
            has_columns: false,
            free: Names::empty(alloc),
            rows: Names::empty(alloc),
            kinds: Vec::new(alloc),
            names: Names::empty(alloc),
            parts: Vec::new(alloc),
            costs: Terms::empty(alloc),
            terms: Terms::empty(alloc),
            entries: 0,
            rhs_set: None,
            rhs: Vec::new(alloc),
            free_rhs: Vec::new(alloc),
            range_set: None,
            ranges: Vec::new(alloc),
            bound_set: None,
            bounds: Vec::new(alloc),
        }
    }
}
