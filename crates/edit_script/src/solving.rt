//! The reports that a script asks for.
ghost use Rattle.std.specs.Prelude.{◌≡◌, ◌<◌, ◌^◌, length};
ghost use Rattle.edit_script.specs.Solves.{solve_count};

use edit_defs::{Act, Script};

/// How many SOLVEs a script has: it asks for so many reports.
pub fn solves(script: &Script) -> u32
    requires { length script.now.items.items < 2 ^ 32 }
    ensures { result ≡ solve_count script.now.items.items }
{
    let mut solves = 0;
    let mut rest = script.items.as_slice();
    while let [item, behind @ ..] = rest {
        match &item.act {
            Act::Change(_) => {}
            Act::Solve => solves += 1,
        }
        rest = behind;
    }
    solves
}
