// A cut from a record and the data of its node.
ghost use Rattle.std.specs.Prelude.{◌≡◌, IfOk};
ghost use Rattle.scen_defs.specs.Lists.{NumbersRise};
ghost use Rattle.rationals.specs.Sparse.{coefficient};
ghost use Rattle.rationals.specs.Forms.{product_from};
ghost use Rattle.cut_defs.specs.Stored.{constant_of, form_of, IsMadeFrom};
ghost use Rattle.cut_proof.specs.Answers.{Makes};
ghost use Rattle.cut_proof.specs.Conditions.{MayBeMade};
ghost use Rattle.cut_proof.specs.View.{source_content, uses_content};
ghost use Rattle.cut_sums.specs.Walks.{all_columns, made, value_walk};

use crate::cut::{Cut, Record};
use crate::fault::CutFault;
use crate::gathered::all_sums;
use crate::stamps::support_of;
use crate::sums::{constant, form, price};
use cut_sums::NodeDatum;
use frac128::{Form, Frac, Passed, Term};
use std::alloc::Global;

/// A number and, entry by entry, the entry times the value of its column.
fn value_at(form: &[Term], start: Frac, trial: &Form) -> Result<Frac, Passed>
    ensures { result ≡ product_from (coefficient trial.now) start form.now }
{
    let mut sum = start;
    for term in form {
        sum = sum.add_product(term.value, trial.get(term.column))?;
    }
    Ok(sum)
}

impl Cut {
    /// The cut by its walk.
    fn make(alloc: Global, source: Record, datum: &NodeDatum) -> Result<Cut, CutFault>
        ensures walk { Makes (made datum.now (source_content source) (uses_content source.used.items)) result }
        ensures rises { IfOk result (λ _. NumbersRise 0 (all_columns datum.now.rows (uses_content source.used.items))) }
    {
        let rows = datum.rows();
        let sums = all_sums(alloc, datum, &source)?;
        let priced = price(alloc, datum, &source, &sums)?;
        let form = form(alloc, datum, &source, &sums)?;
        let worth = constant(rows, &source, &priced)?;
        if !worth.is_good {
            return Err(CutFault::NotGood);
        }
        let support = support_of(alloc, &source)?;
        Ok(Cut::from_parts(source, worth.sum.reduced(), form, support))
    }

    /// The cut that a record proves over the data of its node: its sums, in this order.
    ///
    /// First come the reduced costs of the node's own columns, each from the column's cost (for a Ray from 0), less
    /// entry times multiplier by row, plus weight times the used cut's form by used list. Then comes the form, in the
    /// same way from 0, by column; then the constant: the rows' terms, the columns' terms, the used cuts' terms.
    /// Each product is added to, or taken from, what is there as one step. `Passed` names the first operation that
    /// passes. Else `NotGood` comes exactly where an end that a
    /// multiplier or a reduced cost uses is not finite.
    ///
    /// Where the record is of the datum's node and versions, each multiplier of one of its rows, and the weights fit
    /// the children's shares, the cut is made from the datum.
    ///
    /// Time: one pass over the columns of the node and the entries of the rows and of the used cuts' forms, where a
    /// column is found at once if there is no gap behind it, and else by halving. Where an operation passes, (columns of
    /// the node and of the form) times (rows and used cuts) behind that, each a look-up by halving. The support takes
    /// the stamps of all used cuts, each merged in order.
    pub fn of(alloc: Global, source: Record, datum: &NodeDatum) -> Result<Cut, CutFault>
        ensures walk { Makes (made datum.now (source_content source) (uses_content source.used.items)) result }
        ensures made { MayBeMade datum.now (source_content source) (uses_content source.used.items) → IfOk result (λ cut.
            IsMadeFrom datum.now (source_content source) (uses_content source.used.items) (constant_of cut) (form_of cut)) }
    {
        Cut::make(alloc, source, datum)
    }

    /// The constant, and then the form times the trial by column, each product added as a step. The first step that
    /// passes ends the sum.
    pub fn at(&self, trial: &Form) -> Result<Frac, Passed>
        ensures { result ≡ value_walk self.now trial.now }
    {
        value_at(self.form().terms(), self.constant(), trial)
    }
}
