//! Databases that keep of a list of operations the frontier of its tree, and a witness of each applied state. A
//! database is opened from its log of witnesses, or begins by an import.
#![tactic(auto)]

mod applying;
mod batch;
mod beginning;
mod database;
mod durable;
pub mod immutable;
mod keeping;
pub mod keyless;
mod laws;
mod opening;
mod operation;
mod pinned;
mod places;
mod proving;
mod pruning;
mod rebuilding;
mod resuming;
mod sealing;
mod serving;
mod syncing;
mod verified;

pub use batch::{MerkleizedBatch, UnmerkleizedBatch};
pub use database::{CompactConfig, CompactDb, WitnessLog};
pub use laws::witness_laws;
pub use operation::CompactOperation;
pub use rebuilding::{Rebuilt, rebuild};
pub use verified::{VerifiedWitness, build_witness};
