//! A run of commands over the full database, which keeps each operation on a volume, and the compact one beside it,
//! which keeps witnesses; and the top call of the program `twins`.
#![tactic(auto)]

mod agreement;
mod both;
mod ending;
mod laws;
mod main_call;
mod opening;
mod report;
mod run;
mod sides;
mod words;

pub use ending::{CorruptAt, Fault, Status, Stopped};
pub use laws::{commit_proofs_verify, proofs_verify};
pub use list_machine::{ConfigError, TwinConfig, VALUE_LIMIT};
pub use main_call::twins_main;
pub use opening::realign;
pub use run::run_twins;
pub use sides::Twins;
pub use words::folder_of;
