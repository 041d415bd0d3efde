//! The reports of a script: of the program after the edits before each SOLVE.
ghost use Rattle.std.specs.Prelude.{◌≡◌, IfOk};
ghost use Rattle.scen_defs.specs.Program.{content};
ghost use Rattle.edit_defs.specs.Limits.{counts};
ghost use Rattle.edit_script.specs.Allowed.{AreAllowed};
ghost use Rattle.pass_core.specs.declared.budget.Budget.{Budget as BudgetOf};
ghost use Rattle.nested_method.specs.Stands.{HasFewNodes, Begins, StandsOn};
ghost use Rattle.smps_session.specs.Told.{IsScripted};

use crate::items::Progress;
use crate::told::Told;
use crate::whole::StatedLimits;
use edit_apply::count;
use edit_defs::{Item, Script};
use frac128::Memory;
use nested_method::Method;
use pass_core::Budget;
use run_watch::Watch;
use scen_defs::Program;
use std::alloc::Global;
use std::mem::replace;
use whole_guess::WholeHint;

impl Progress {
    /// Before the first item: nothing was done of the program.
    fn begin(
        alloc: Global,
        program: &Program,
        budget: Budget,
        hint: WholeHint,
    ) -> Result<Progress, Memory>
        ensures counted { IfOk result (λ progress. progress.counted ≡ counts (content program.now).nodes) }
        ensures number { IfOk result (λ progress. progress.number ≡ 1) }
        ensures stands { IfOk result (λ progress. StandsOn (content program.now) budget progress.method) }
        ensures begins { HasFewNodes (content program.now)
            → IfOk result (λ progress. Begins (content program.now) budget progress.method) }
    {
        let counted = count(&program.nodes)?;
        let method = Method::begin(alloc, program, budget)?;
        Ok(Progress {
            counted,
            method,
            number: 1,
            hint,
        })
    }

    /// The reports of all items, one behind the other; before them nothing was done of the program.
    fn reports<W: Watch>(
        &mut self,
        alloc: Global,
        program: &mut Program,
        items: &[Item],
        budget: Budget,
        stated: StatedLimits,
        watch: &mut W,
    ) -> Result<Vec<Told>, Memory>
        requires allowed { AreAllowed (content program.old) items.now }
        requires counted { self.old.counted ≡ counts (content program.old).nodes }
        requires number { self.old.number ≡ 1 }
        requires stands { StandsOn (content program.old) budget self.old.method }
        requires begins { HasFewNodes (content program.old) → Begins (content program.old) budget self.old.method }
        ensures { IfOk result (λ tolds. IsScripted budget stated (content program.old) items.now tolds.items) }
    {
        let mut tolds = Vec::new(alloc);
        let mut rest = items;
        while let [item, behind @ ..] = rest {
            self.take(alloc, program, item, budget, stated, &mut tolds, watch)?;
            rest = behind;
        }
        Ok(tolds)
    }
}

/// Solves a program on a tree by the nested method after edits, once for each SOLVE of a script. A report may take so many solves of
/// nodes at most, and so many pivots in each. The cuts that an edit leaves true are kept over it. What was found is tested before it is
/// told, and the whole program is tried where the method had stopped, as by `session`, from the hint, which may be that of an earlier
/// script; the program is then as the edits left it.
pub fn scripted<W: Watch>(
    alloc: Global,
    program: &mut Program,
    script: &Script,
    solves: u64,
    pivots: u64,
    stated: StatedLimits,
    hint: &mut WholeHint,
    watch: &mut W,
) -> Result<Vec<Told>, Memory>
    requires { AreAllowed (content program.old) script.now.items.items }
    ensures { let budget : BudgetOf = record { solves = solves; pivots = pivots } in
        IfOk result (λ tolds. IsScripted budget stated (content program.old) script.now.items.items tolds.items) }
{
    let budget = Budget { solves, pivots };
    let start = replace(hint, WholeHint::empty(alloc));
    let mut progress = Progress::begin(alloc, program, budget, start)?;
    let tolds = progress.reports(alloc, program, &script.items, budget, stated, watch)?;
    *hint = replace(&mut progress.hint, WholeHint::empty(alloc));
    Ok(tolds)
}
