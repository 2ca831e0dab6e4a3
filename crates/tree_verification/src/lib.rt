//! Proofs made from the nodes of a tree, wherever these stand.
#![tactic(auto)]

mod bounds;
mod counting;
mod laws;
mod memory;
mod order;
mod proof_store;
mod ranges;
mod several;
mod told;
mod walk;
mod wanted;

pub use laws::{needed_cover_law, range_proofs_check, told_tree_law};
pub use memory::{proof_from_memory, range_proof_from_memory};
pub use proof_store::ProofStore;
pub use ranges::{historical_range_proof, range_proof};
pub use several::multi_proof;
