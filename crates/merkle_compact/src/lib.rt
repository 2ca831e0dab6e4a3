//! Trees that keep their frontier alone: what every later root and append needs.
#![tactic(auto)]

mod merkle;

pub use merkle::Merkle;
pub use tree_core::UnmerkleizedBatch;
