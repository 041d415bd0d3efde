//! ENDATA: the sums of the probabilities, and what the tables mean.
ghost use Rattle.std.specs.Prelude.{◌≡◌, ◌≢◌, ◌<◌, ◌++◌, ◌∷◌, [], ℕ, pos, IfOk, OnOk, nat_eq};
ghost use Rattle.std.specs.Prelude.{if◌then◌else◌, get_or, length, map};
ghost use Rattle.rationals.specs.Rational.{zero_ℚ, ◌÷◌};
ghost use Rattle.stoch_defs.specs.Finish.{sum_from, is_near, divided_from, shared, stated_cases, chance_of, own_from, with_parts, block_of};
ghost use Rattle.stoch_defs.specs.Finish.{blocks_from, stated_branch, branch_with, branches_with};
ghost use Rattle.stoch_defs.specs.Random.{case_content, block_content, branch_content};
ghost use Rattle.scenario_paths.specs.Paths.{node_stated};
ghost use Rattle.reader_defs.specs.Stops.{Gives};
ghost use Rattle.smps_stoch.specs.View.{sets_in, cases_in, items_in, blocks_in, branches_in};

use crate::draft::Draft;
use crate::numbers::at_most;
use core_defs::Cause;
use frac128::Frac;
use reader_defs::Stop;
use scenario_paths::{Paths, Scenario};
use smps_words::{Entry, Name, Names};
use std::alloc::{AllocError, Global};
use std::mem::replace;
use stoch_defs::{Block, Branch, BranchHead, Case, CaseHead, Stoch};

/// The sum, one after another.
fn sum(values: &[Frac]) -> Result<Frac, Cause>
    ensures { result ≡ sum_from zero_ℚ values.now }
{
    let mut total = Frac::zero();
    for value in values {
        match total.add(*value) {
            Ok(more) => total = more,
            Err(passed) => return Err(Cause::Passes(passed)),
        }
    }
    Ok(total)
}

fn least_sum() -> Frac
    ensures { result ≡ pos 999 ÷ 1000 }
{
    match Frac::new(999, 1000) {
        Some(least) => least,
        None => Frac::zero(),
    }
}

fn greatest_sum() -> Frac
    ensures { result ≡ pos 1001 ÷ 1000 }
{
    match Frac::new(1001, 1000) {
        Some(greatest) => greatest,
        None => Frac::zero(),
    }
}

/// At most 1/1000 from 1.
fn is_near(total: Frac) -> bool
    ensures { result ≡ is_near total }
{
    at_most(least_sum(), total) && at_most(total, greatest_sum())
}

/// Each divided by the total.
fn divided(alloc: Global, values: &[Frac], total: Frac) -> Result<Vec<Frac>, Stop>
    requires { total ≢ zero_ℚ }
    ensures { Gives items_in result (divided_from total [] values.now) }
{
    let mut parts = Vec::new(alloc);
    for value in values {
        match value.div(total) {
            Ok(part) => parts.push(part)?,
            Err(passed) => return Err(Stop::Fault(Cause::Passes(passed))),
        }
    }
    Ok(parts)
}

/// The probabilities divided by their sum, which differs from 1 by at most 1/1000.
fn shared(alloc: Global, values: &[Frac]) -> Result<Vec<Frac>, Stop>
    ensures { Gives items_in result (shared values.now) }
{
    let total = sum(values)?;
    if !is_near(total) {
        return Err(Stop::Fault(Cause::ProbabilitySum(total)));
    }
    divided(alloc, values, total)
}

/// A number in 32 bits. A text has fewer lines than 2^32, so that its numbers of scenarios and of periods fit.
fn small(number: usize) -> Result<u32, AllocError>
    ensures { IfOk result (λ n. n ≡ number) }
{
    match u32::try_from(number) {
        Ok(small) => Ok(small),
        Err(_) => Err(AllocError),
    }
}

/// The cases with the probabilities that are stated.
fn stated_cases(
    alloc: Global,
    heads: &[CaseHead],
    case_sets: Vec<Vec<(Entry, Frac)>>,
) -> Result<Vec<Case>, AllocError>
    ensures { IfOk result (λ cases. cases_in cases ≡ stated_cases heads.now (map sets_in case_sets.items)) }
{
    let mut rest = heads;
    let mut cases = Vec::new(alloc);
    for sets in case_sets {
        let Some((head, others)) = rest.split_first() else {
            return Ok(cases);
        };
        cases.push(Case {
            probability: head.probability,
            sets,
        })?;
        rest = others;
    }
    Ok(cases)
}

/// So many lists without a case.
fn no_cases(alloc: Global, stages: &[usize]) -> Result<Vec<Vec<Case>>, AllocError>
    ensures length { IfOk result (λ all. length all.items ≡ length stages.now) }
    ensures empty { IfOk result (λ all. (n : ℕ) → get_or (map cases_in all.items) n [] ≡ []) }
{
    let mut all = Vec::new(alloc);
    while all.len() < stages.len() {
        all.push(Vec::new(alloc))?;
    }
    Ok(all)
}

/// One more case of a block.
fn add_case(all: &mut Vec<Vec<Case>>, block: usize, case: Case) -> Result<(), AllocError>
    ensures count { OnOk result (length all.new.items ≡ length all.old.items) }
    ensures added { OnOk result ((n : ℕ) → n < length all.old.items
        → get_or (map cases_in all.new.items) n [] ≡ get_or (map cases_in all.old.items) n []
        ++ (if nat_eq block n then case_content case ∷ [] else [])) }
{
    if block < all.len() {
        let own = &mut all[block];
        own.push(case)?;
    }
    Ok(())
}

/// The cases of each block.
fn by_block(
    alloc: Global,
    heads: &[CaseHead],
    cases: Vec<Case>,
    stages: &[usize],
) -> Result<Vec<Vec<Case>>, AllocError>
    ensures { IfOk result (λ all. map cases_in all.items ≡ own_from 0 heads.now (cases_in cases) stages.now) }
{
    let mut all = no_cases(alloc, stages)?;
    let mut rest = heads;
    for case in cases {
        let Some((head, others)) = rest.split_first() else {
            return Ok(all);
        };
        add_case(&mut all, head.block, case)?;
        rest = others;
    }
    Ok(all)
}

/// The cases with other probabilities.
fn with_parts(alloc: Global, parts: &[Frac], cases: Vec<Case>) -> Result<Vec<Case>, AllocError>
    ensures { IfOk result (λ done. cases_in done ≡ with_parts parts.now (cases_in cases)) }
{
    let mut rest = parts;
    let mut done = Vec::new(alloc);
    for case in cases {
        let Some((part, others)) = rest.split_first() else {
            return Ok(done);
        };
        done.push(Case {
            probability: *part,
            sets: case.sets,
        })?;
        rest = others;
    }
    Ok(done)
}

/// The probabilities of cases.
fn chances(alloc: Global, cases: &[Case]) -> Result<Vec<Frac>, AllocError>
    ensures { IfOk result (λ chances. chances.items ≡ map chance_of (map case_content cases.now)) }
{
    let mut chances = Vec::new(alloc);
    for case in cases {
        chances.push(case.probability)?;
    }
    Ok(chances)
}

/// The block of this stage and these cases.
fn block_of(alloc: Global, stage: usize, cases: Vec<Case>) -> Result<Block, Stop>
    ensures { Gives block_content result (block_of stage (cases_in cases)) }
{
    let stated = chances(alloc, &cases)?;
    let parts = shared(alloc, &stated)?;
    let cases = with_parts(alloc, &parts, cases)?;
    let stage = small(stage)?;
    Ok(Block { stage, cases })
}

/// Block by block.
fn blocks_from(alloc: Global, stages: &[usize], all: Vec<Vec<Case>>) -> Result<Vec<Block>, Stop>
    ensures { Gives blocks_in result (blocks_from [] stages.now (map cases_in all.items)) }
{
    let mut rest = stages;
    let mut done = Vec::new(alloc);
    for cases in all {
        let Some((stage, others)) = rest.split_first() else {
            return Ok(done);
        };
        let block = block_of(alloc, *stage, cases)?;
        done.push(block)?;
        rest = others;
    }
    Ok(done)
}

fn small_parent(parent: Option<usize>) -> Result<Option<u32>, AllocError>
    ensures { IfOk result (λ small. small ≡ parent) }
{
    match parent {
        Some(number) => Ok(Some(small(number)?)),
        None => Ok(None),
    }
}

/// The scenario with this name and probability.
fn branch_with(
    alloc: Global,
    name: &[u8],
    head: BranchHead,
    scenario: Scenario,
    part: Frac,
) -> Result<Branch, AllocError>
    ensures { IfOk result (λ branch. branch_content branch ≡ branch_with name.now head (node_stated scenario) part) }
{
    let name = Name::new(alloc, name)?;
    let parent = small_parent(scenario.parent)?;
    let stage = small(head.stage)?;
    Ok(Branch {
        name,
        parent,
        probability: part,
        stage,
        sets: scenario.sets,
    })
}

/// The scenarios with these names and probabilities.
fn branches_with(
    alloc: Global,
    names: &Names,
    heads: &[BranchHead],
    parts: &[Frac],
    scenarios: Vec<Scenario>,
) -> Result<Vec<Branch>, AllocError>
    ensures { IfOk result (λ done. branches_in done ≡ branches_with names.now heads.now (map node_stated scenarios.items) parts.now) }
{
    let mut number = 0;
    let mut rest_heads = heads;
    let mut rest_parts = parts;
    let mut done = Vec::new(alloc);
    for scenario in scenarios {
        if number >= names.len() {
            return Ok(done);
        }
        let Some((head, further_heads)) = rest_heads.split_first() else {
            return Ok(done);
        };
        let Some((part, further_parts)) = rest_parts.split_first() else {
            return Ok(done);
        };
        let branch = branch_with(alloc, names.name(number), *head, scenario, *part)?;
        done.push(branch)?;
        number += 1;
        rest_heads = further_heads;
        rest_parts = further_parts;
    }
    Ok(done)
}

/// The probabilities of scenarios.
fn branch_chances(alloc: Global, heads: &[BranchHead]) -> Result<Vec<Frac>, AllocError>
    ensures { IfOk result (λ chances. chances.items ≡ map stated_branch heads.now) }
{
    let mut chances = Vec::new(alloc);
    for head in heads {
        chances.push(head.probability)?;
    }
    Ok(chances)
}

impl Draft {
    ghost use Rattle.stoch_defs.specs.Finish.{blocks_of, branches_of, random_of};
    ghost use Rattle.stoch_defs.specs.Random.{stoch_content};
    ghost use Rattle.smps_stoch.specs.View.{filed};

    /// The blocks, which take the values of the cases.
    fn take_blocks(&mut self) -> Result<Stoch, Stop>
        ensures { Gives stoch_content result (blocks_of (filed self.old)) }
    {
        let alloc = self.alloc;
        let sets = replace(&mut self.case_sets, Vec::new(alloc));
        let cases = stated_cases(alloc, &self.cases, sets)?;
        let all = by_block(alloc, &self.cases, cases, &self.blocks)?;
        let blocks = blocks_from(alloc, &self.blocks, all)?;
        Ok(Stoch::Blocks(blocks))
    }

    /// The scenarios, which take their values.
    fn take_branches(&mut self) -> Result<Stoch, Stop>
        ensures { Gives stoch_content result (branches_of (filed self.old)) }
    {
        let alloc = self.alloc;
        let scenarios = replace(&mut self.paths, Paths::empty(alloc)).into_scenarios();
        let stated = branch_chances(alloc, &self.branches)?;
        let parts = shared(alloc, &stated)?;
        let branches = branches_with(alloc, &self.branch_names, &self.branches, &parts, scenarios)?;
        Ok(Stoch::Scenarios(branches))
    }

    /// What the lines mean: scenarios where there are any, or else blocks. It takes their values.
    pub(crate) fn finish(&mut self) -> Result<Stoch, Stop>
        ensures { Gives stoch_content result (random_of (filed self.old)) }
    {
        if self.branches.is_empty() {
            return self.take_blocks();
        }
        self.take_branches()
    }
}
