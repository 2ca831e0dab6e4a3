//! Proofs: made from what has the nodes of a tree, and checked.
pub use tree_proof::{
    Proof, cover_count_law, slow_pins_law, slow_proof_law, verify, verify_proof_and_pinned_nodes,
};
pub use tree_verification::{
    ProofStore, historical_range_proof, multi_proof, needed_cover_law, range_proof,
    range_proofs_check, told_tree_law,
};
