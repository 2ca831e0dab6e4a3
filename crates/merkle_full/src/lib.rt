//! A tree whose nodes stand in a log of a volume, beside a map of pins.
#![tactic(auto)]

mod begin;
mod boundary_map;
mod config;
mod durable;
mod finish;
mod flush;
mod init;
mod keys;
mod merkle;
mod opening;
mod orphan;
mod pins;
mod prepare;
mod proofs;
mod prune;
mod reads;
mod recovered;
mod recovery;
mod removal;
mod reopen;
mod repin;
mod selection;
mod settle;
mod sizes;
mod started;
mod storage;
mod sync_config;
mod sync_log;
mod sync_pins;
mod tail;

pub use config::Config;
pub use merkle::Merkle;
pub use recovery::Recovery;
pub use sync_config::SyncConfig;
pub use tree_core::{MerkleizedBatch, UnmerkleizedBatch};
