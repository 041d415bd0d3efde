//! What pools keep through solves and edits: cuts that are made of what the program has now. No code that runs.
#![tactic(auto)]

mod laws;

pub use laws::{
    dues_are_few, edits_keep_cuts, first_cuts_are_kept, nothing_is_stale, offers_keep_cuts,
    solves_give_cuts,
};
