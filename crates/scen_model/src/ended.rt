// Why a pass that follows a walk ends before its last operation.
use frac128::Unfinished;

/// Why a pass that follows a walk ends.
#[derive(Clone, Copy, Debug)]
pub enum Ended {
    /// The walk is decided, too.
    Decided,
    /// The walk step by step gives the answer.
    Walk,
    Memory,
}

impl From<Unfinished> for Ended {
    ghost use Rattle.scen_model.specs.Gathered.{IsLeft};

    ghost from_gives = { λ u e. IsLeft e };

    fn from(left: Unfinished) -> Ended {
        match left {
            Unfinished::Walk => Ended::Walk,
            Unfinished::Memory => Ended::Memory,
        }
    }
}
