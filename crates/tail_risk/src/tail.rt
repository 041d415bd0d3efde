// The program of a weighted mean and conditional value at risk.
ghost use Rattle.std.specs.Prelude.{◌≡◌, ◌+◌, ◌<◌, ◌^◌, ◌++◌, ◌∷◌, [], false, IfOk, MatchResult, Ok, length};
ghost use Rattle.rationals.specs.Rational.{one_ℚ, ◌<ℚ◌};
ghost use Rattle.rationals.specs.Replies.{IsReply, reply_by};
ghost use Rattle.frac128.specs.Faults.{FaultOf};
ghost use Rattle.scen_defs.specs.Program.{content};
ghost use Rattle.tail_risk.specs.TailNames.{has_tail_names};
ghost use Rattle.tail_risk.specs.TailProgram.{h_added, u_added, r_added, tail_of};
ghost use Rattle.tail_risk.specs.TailWalk.{tail_walk, tail_end, tail_says};

use crate::costs::last_stage;
use crate::fault::TailFault;
use crate::names::{H_NAME, R_NAME, U_NAME, has_tail_names};
use crate::nodes::tail_nodes;
use crate::rates::rates_of;
use crate::size::is_too_large;
use frac128::{ArithmeticFault, Frac, Memory};
use scen_copies::copied_columns;
use scen_defs::{Column, Kind, Program, Row};
use scen_nodes::derive;
use smps_words::{Name, RowKind};
use std::alloc::Global;

/// The columns, and behind them TAIL_H and TAIL_U.
fn with_added_columns(alloc: Global, program: &Program) -> Result<Vec<Column>, Memory>
    ensures { IfOk result (λ all. all.items
        ≡ program.now.columns.items ++ h_added ∷ u_added (content program.now) ∷ []) }
{
    let mut all = copied_columns(alloc, &program.columns)?;
    all.push(Column {
        name: Name::new(alloc, H_NAME)?,
        stage: 0,
        lower: None,
        upper: None,
    })?;
    all.push(Column {
        name: Name::new(alloc, U_NAME)?,
        stage: last_stage(program) as u32,
        lower: Some(Frac::zero()),
        upper: None,
    })?;
    Ok(all)
}

/// The row TAIL_R.
fn added_row(alloc: Global, program: &Program) -> Result<Row, Memory>
    ensures { IfOk result (λ row. row ≡ r_added (content program.now)) }
{
    let name = Name::new(alloc, R_NAME)?;
    Ok(Row {
        name,
        stage: last_stage(program) as u32,
        kind: RowKind::Greater,
        range: None,
    })
}

/// The program with the two columns and the row, or the first operation that passes.
fn made_program(
    alloc: Global,
    program: &Program,
    level: Frac,
    weight: Frac,
) -> Result<Program, ArithmeticFault>
    requires level { level <ℚ one_ℚ }
    requires columns { length program.now.columns.items + 2 < 2 ^ 32 }
    requires rows { length program.now.rows.items + 1 < 2 ^ 32 }
    requires names { has_tail_names (content program.now) ≡ false }
    ensures { MatchResult result (λ made. tail_walk (content program.now) level weight ≡ Ok (content made))
        (FaultOf (tail_walk (content program.now) level weight)) }
{
    let rates = rates_of(level, weight)?;
    let nodes = tail_nodes(alloc, program, &rates)?;
    let columns = with_added_columns(alloc, program)?;
    let added = added_row(alloc, program)?;
    let copy = derive(alloc, program, Kind::Cost)?;
    let Program {
        objective,
        rhs,
        periods,
        rows,
        scenarios,
        ..
    } = copy;
    let mut rows = rows;
    rows.push(added)?;
    Ok(Program::of_parts(objective, rhs, periods, columns, rows, nodes, scenarios))
}

/// The program whose least cost is the least, over all decisions, of the mean cost weighted by `1 - weight` and the conditional value at
/// risk of this level weighted by `weight`. `Name` comes where a column is named TAIL_H or TAIL_U or a row TAIL_R; else `Limit` where the
/// new program has more than 10,000,000 entries over all nodes; else `Passed`, the first operation that passes: `1 - level`, the weight
/// divided by it, `1 - weight`, then each cost times that, by node and column. The level is from 0 and below 1, the weight from 0 to 1.
pub fn tail_program(
    alloc: Global,
    program: &Program,
    level: Frac,
    weight: Frac,
) -> Result<Program, TailFault>
    requires level { level <ℚ one_ℚ }
    requires columns { length program.now.columns.items + 2 < 2 ^ 32 }
    requires rows { length program.now.rows.items + 1 < 2 ^ 32 }
    ensures end { IsReply (tail_end (content program.now) level weight) (reply_by content tail_says result) }
    ensures program { IfOk result (λ made. content made ≡ tail_of (content program.now) level weight) }
{
    if has_tail_names(program) {
        return Err(TailFault::Name);
    }
    if is_too_large(program)? {
        return Err(TailFault::Limit);
    }
    let made = made_program(alloc, program, level, weight)?;
    Ok(made)
}
