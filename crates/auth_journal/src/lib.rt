//! A log of items joined with a tree: item i is leaf i.
#![tactic(auto)]

mod align;
mod append;
mod components;
mod contiguous;
mod durable;
mod error;
mod finish;
mod init;
mod items;
mod journal;
mod leaves;
mod lift;
mod lower;
mod mutable;
mod over;
mod prepare;
mod proofs;
mod prune;
mod reading;
mod ready;
mod recovery;
mod removal;
mod sealed;
mod search;
mod segment;
mod unsealed;

pub use error::Error;
pub use journal::Journal;
pub use ready::init_sync;
pub use recovery::Recovery;
pub use sealed::MerkleizedBatch;
pub use unsealed::UnmerkleizedBatch;
