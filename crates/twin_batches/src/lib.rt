//! The batches of a run by number, what a database and its batches stand for, and when both stand for a state of the
//! list machine.
#![tactic(auto)]

mod about;
mod numbers;

pub use about::{Topic, topic_of};
pub use numbers::{Batch, Holding, Numbers};
