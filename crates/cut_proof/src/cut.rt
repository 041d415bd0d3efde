// Cuts, which hold the cuts that they were made from. Contracts see a cut as a tree without pointers.
ghost use Rattle.std.specs.Prelude.{◌≡◌, IfOk};
ghost use Rattle.cut_defs.specs.Stored.{source_of, uses_of, constant_of, form_of};
ghost use Rattle.cut_defs.specs.Stored.Stored.{Stored_of};
ghost use Rattle.cut_defs.specs.Support.{support, with_uses, own_by};
ghost use Rattle.cut_proof.specs.View.{source_content, uses_content};

use cut_defs::{CutKind, Stamp};
use frac128::{Form, Frac, Memory};
use std::alloc::Global;
use std::marker::Model;
use std::sync::Arc;

/// A cut of a child with its weight, which is above 0.
#[cycle(cut)]
#[derive(Drop)]
pub struct Used {
    /// Above 0.
    pub weight: Frac,
    /// A cut about a child of the record's node.
    pub cut: SharedCut,
}

/// A cut that several owners share. Contracts see it as the cut.
#[cycle(cut)]
#[derive(Drop)]
pub struct SharedCut {
    cut: Arc<Cut, Global>,
}

impl Model for SharedCut {
    ghost use Rattle.cut_defs.specs.Stored.{Stored};
    ghost use Rattle.cut_defs.specs.Codes.{stored_coded};

    ghost Value = { Stored };

    ghost coded = { stored_coded };

    ghost use Rattle.cut_proof.specs.View.{shared_size};
    ghost use Rattle.std.proofs.Common.{arith};

    ghost view = { λ s. s.cut.value };

    ghost size = { shared_size };

    ghost size_decreases = { λ a _. Prim.omega arith };
}

/// What proves a cut: multipliers of the rows of a node, and cuts of its children with their weights.
#[cycle(cut)]
#[derive(Drop)]
pub struct Record {
    /// The node that the cut is about.
    pub node: u32,
    /// What the cut says.
    pub kind: CutKind,
    /// The version of the node's rows.
    pub rows_version: u32,
    /// The version of the node's costs and shares.
    pub costs_version: u32,
    /// By the number of the row.
    pub multipliers: Form,
    /// The cuts of children that are used, in their order.
    pub used: Vec<Used>,
}

/// A cut with the record that proves it, its sums, and what it rests on.
#[cycle(cut)]
#[derive(Drop)]
pub struct Cut {
    source: Record,
    constant: Frac,
    form: Form,
    support: Vec<Stamp>,
}

impl Model for Cut {
    ghost use Rattle.cut_defs.specs.Stored.{Stored};
    ghost use Rattle.cut_defs.specs.Codes.{stored_coded};

    ghost Value = { Stored };

    ghost coded = { stored_coded };

    ghost use Rattle.cut_proof.specs.View.{cut_content, stored_size, IsCut};

    ghost view = { cut_content };

    ghost invariant = { IsCut };

    ghost size = { stored_size };

    ghost use Rattle.cut_proof.specs.Falls.{cut_falls};

    ghost size_decreases = { λ a _. cut_falls a };
}

impl SharedCut {
    /// The first owner of a cut.
    pub fn new(alloc: Global, cut: Cut) -> Result<SharedCut, Memory>
        ensures { IfOk result (λ shared. shared ≡ cut) }
    {
        Ok(SharedCut {
            cut: Arc::new(alloc, cut)?,
        })
    }

    /// The cut itself.
    pub fn cut(&self) -> &Cut
        ensures { result.now ≡ self.now }
    {
        &self.cut
    }

    /// One more owner of the same cut.
    pub fn share(&self) -> Result<SharedCut, Memory>
        ensures { IfOk result (λ shared. shared ≡ self.now) }
    {
        Ok(SharedCut {
            cut: Arc::try_clone(&self.cut)?,
        })
    }
}

impl Cut {
    /// The cut of these parts.
    #[tactic(auto, unfolding(cut_defs::specs::Support::support))]
    pub(crate) fn from_parts(source: Record, constant: Frac, form: Form, support: Vec<Stamp>) -> Cut
        requires { support.items ≡ with_uses (own_by source.kind (source_content source)) (uses_content source.used.items) }
        ensures { result ≡ Stored_of (source_content source) (uses_content source.used.items) constant form }
    {
        Cut {
            source,
            constant,
            form,
            support,
        }
    }

    /// The record that proves the cut.
    pub fn source(&self) -> &Record
        ensures source { source_content result.now ≡ source_of self.now }
        ensures uses { uses_content result.now.used.items ≡ uses_of self.now }
    {
        &self.source
    }

    /// The node that the cut is about.
    pub fn node(&self) -> u32
        ensures { result ≡ (source_of self.now).node }
    {
        self.source.node
    }

    /// What the cut says.
    pub fn kind(&self) -> CutKind
        ensures { result ≡ (source_of self.now).kind }
    {
        self.source.kind
    }

    /// The value where all columns of the stages before are 0.
    pub fn constant(&self) -> Frac
        ensures { result ≡ constant_of self.now }
    {
        self.constant
    }

    /// The form over the columns of the stages before.
    pub fn form(&self) -> &Form
        ensures { result.now ≡ form_of self.now }
    {
        &self.form
    }

    /// What the cut rests on: the versions of the data of all records that it reaches, each once, by node, rows
    /// before costs, and then by version.
    pub fn support(&self) -> &[Stamp]
        ensures { result.now ≡ support self.now }
    {
        &self.support
    }
}
