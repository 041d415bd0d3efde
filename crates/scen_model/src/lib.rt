//! What points and multipliers of a program on a tree cost, meet and are worth.
#![tactic(auto)]

mod charges;
mod costs;
mod duals;
mod ended;
mod ends;
mod feasibility;
mod laws;
mod quick;
mod reduced;
mod rows;
mod seats;
mod stop;
mod totals;

pub use charges::Costs;
pub use costs::cost;
pub use duals::{dual_value, zero_value};
pub use ends::number_at;
pub use feasibility::{feasible, is_direction};
pub use laws::{
    costs_are_exact, directions_are_exact, duals_are_exact, infeasibility_is_shown,
    programs_are_trees, recession_makes_good, recessions_are_trees, tests_are_exact,
    the_cover_is_worked_out, unboundedness_is_shown, weak_duality_holds,
};
pub use reduced::{reduced_costs, seat_at};
pub use scen_defs::{
    Column, Finding, Halt, Kind, Node, NodeRow, Place, Program, Report, Row, Scenario, Value,
    Values,
};
pub use scen_nodes::{derive, fits};
pub use seats::{Seating, seated};
pub use totals::all_totals;
