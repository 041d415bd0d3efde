//! Reading a whole text.
ghost use Rattle.std.specs.Prelude.{◌<◌, ◌-◌, ◌^◌, length};

use crate::fault::BasisFault;
use crate::given::GivenBasis;
use crate::lines::{is_header, take};
use scen_defs::Program;
use smps_words::Lines;
use std::alloc::Global;

/// Reads the line NAME.
fn read_name(lines: &mut Lines<'_>) -> Result<(), BasisFault> {
    match lines.next() {
        Some(line) if is_header(&line, b"NAME") => Ok(()),
        Some(line) => Err(BasisFault::Line(line.number)),
        None => Err(BasisFault::Line(lines.end_line())),
    }
}

/// Reads the lines up to ENDATA.
fn read_lines(
    given: &mut GivenBasis,
    program: &Program,
    lines: &mut Lines<'_>,
) -> Result<(), BasisFault> {
    while let Some(line) = lines.next() {
        if is_header(&line, b"ENDATA") {
            return Ok(());
        }
        if !take(given, program, &line)? {
            return Err(BasisFault::Line(line.number));
        }
    }
    Err(BasisFault::Line(lines.end_line()))
}

/// The basis that the text of a basis file states of the program of all nodes.
///
/// A line NAME comes first, then a line for each column that is basic (XU or XL, the column and a row that isn't basic, at its upper or its
/// lower end), or that stands at its upper bound (UL) or at its lower one (LL), and at last ENDATA. The first line is refused that is none
/// of these, that names a column or a row that the program of all nodes hasn't, or one for the second time; where ENDATA is missing the one
/// behind the last.
pub fn read_basis(alloc: Global, program: &Program, text: &[u8]) -> Result<GivenBasis, BasisFault>
    requires { length text.now < 2 ^ 32 - 1 }
{
    let mut given = GivenBasis::empty(alloc);
    let mut lines = Lines::over(text);
    read_name(&mut lines)?;
    read_lines(&mut given, program, &mut lines)?;
    Ok(given)
}
