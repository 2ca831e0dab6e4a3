//! The database that keeps a log without keys whole: each operation, and the tree of all.
#![tactic(auto)]

mod applying;
mod batch;
mod batch_reading;
mod beginning;
mod database;
mod errors;
pub mod fixed;
mod laws;
mod locations;
mod opening;
mod operation;
mod proving;
mod pruning;
mod reading;
mod sealed_proving;
mod sealed_reading;
mod sealing;
mod serving;
mod syncing;
pub mod variable;

pub use batch::{MerkleizedBatch, UnmerkleizedBatch};
pub use beginning::initial_root;
pub use database::Keyless;
pub use laws::answers_verify_law;
pub use opening::Config;
pub use operation::KeylessOperation;
