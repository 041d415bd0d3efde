//! Turns of one worker; and several solves in flight: a commit of one that isn't late is a turn of the machine in which none is in
//! flight. No code that runs.
#![tactic(auto)]

mod laws;

pub use laws::{
    commits_are_turns, crews_take_turns, events_keep_fair, reads_stay, rounds_keep_clear,
    tables_fit_besides, turns_add_cuts, turns_go_round, turns_keep_valid,
};
