//! Proofs that items stand in a tree with a root.
#![tactic(auto)]

mod checking;
mod known;
mod laws;
mod left;
mod peaks;
mod pinned;
mod pins;
mod proof;
mod rebuild;
mod wanted;

pub use checking::verify;
pub use known::{Items, Known};
pub use laws::{cover_count_law, one_root_law, slow_pins_law, slow_proof_law};
pub use pinned::verify_proof_and_pinned_nodes;
pub use proof::{Proof, equality_law};
pub use wanted::{LeafRange, Wanted};
