//! The list machine of the run: what each command answers and leaves, on what contents it begins, and laws of all this,
//! none of which names a database; the configuration of a run, and generated commands.
#![tactic(auto)]

mod config;
mod generator;
mod laws;
mod operation;
mod rows;

pub use config::{ConfigError, TwinConfig, VALUE_LIMIT};
pub use generator::{generate, generated_are_accepted, write_summary};
pub use laws::{
    commit_proofs_are_proofs, left_states_reopen, openings, questions_keep, refusals_keep,
    replies_tell_lists, runs_are_good, runs_continue, sizes_never_fall, states_are_told,
    steps_stay_good, storage_keeps_lists,
};
pub use operation::Operation;
pub use rows::worked_rows;
