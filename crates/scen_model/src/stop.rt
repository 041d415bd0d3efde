// Why a computation of an answer ends before its last operation.
use frac128::Passed;

/// What came first.
#[derive(Clone, Copy, Debug)]
pub enum Stop {
    /// A test that fails, or a used end that is not finite: the answer is decided.
    Decided,
    /// An operation that passes 128 bits.
    Passed(Passed),
}

impl From<Passed> for Stop {
    ghost use Rattle.std.specs.Prelude.{◌≡◌};
    ghost use Rattle.scen_model.specs.declared.stop.Stop.TheVariants.{Passed as PassedStop};

    ghost from_gives = { λ p s. s ≡ PassedStop p };

    fn from(passed: Passed) -> Stop {
        Stop::Passed(passed)
    }
}
