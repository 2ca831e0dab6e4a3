//! Chains of batches: at which states of a database a batch may be read, sealed and applied, and the pool that holds them.
#![tactic(auto)]

mod bounds;
mod commitment;
mod error;
mod floor;
mod laws;
mod place;
mod pool;
mod reach;

pub use bounds::{Bounds, effective_boundary, merkleizable, validate_batch_applicable};
pub use commitment::{Commitment, Compatible};
pub use error::{DataFault, Error};
pub use floor::validate_merkleize_floor;
pub use laws::{equality_laws, marks_laws};
pub use place::Place;
pub use pool::{BatchId, HeldBatch, Pool, PoolError};
pub use reach::{Chained, Reach, reach_of};
