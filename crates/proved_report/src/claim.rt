//! What a method claims.
use scen_defs::Values;

/// What a method claims of a program.
#[derive(Drop)]
pub enum Claim {
    /// A feasible policy, whose cost is the upper end, and a good dual, whose value is the lower end; each may be
    /// wanting.
    Ends {
        policy: Option<Values>,
        dual: Option<Values>,
    },
    /// Multipliers that show that no policy is feasible.
    Nowhere {
        ray: Values,
    },
    /// A feasible policy, and a direction in which the cost falls without end.
    Endless {
        policy: Values,
        direction: Values,
    },
}
