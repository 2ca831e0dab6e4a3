//! Append-only trees over lists of leaf digests, and batches of nodes.
#![tactic(auto)]

mod growth;
mod kept;
mod kept_nodes;
mod laws;
mod mark;
mod mem;
mod overlay;
mod peaks;
mod sealed;
mod segment;
mod unsealed;
pub mod verification;

pub use laws::rebuilt_roots;
pub use mem::Mem;
pub use sealed::MerkleizedBatch;
pub use tree_proof::{Proof, verify};
pub use tree_shape::{
    Bagging, Digest, Family, Hasher, Location, MAX_LEAVES, Mmb, Mmr, Pins, Position, Sha256Digest,
    Sha256Hasher, Standard, inactive_law, needed_nodes, slow_node, slow_peaks, slow_root,
    table_laws,
};
pub use tree_store::{Error, Readable, Storage, TreeData};
pub use unsealed::UnmerkleizedBatch;
