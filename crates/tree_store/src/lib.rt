//! What generic callers ask of a tree's nodes: the stores that have them, and the errors of trees.
#![tactic(auto)]

mod error;
mod laws;
mod stores;

pub use error::{Error, TreeData, equality_laws};
pub use laws::stored_laws;
pub use stores::{Readable, Storage, nodes_from_memory};
