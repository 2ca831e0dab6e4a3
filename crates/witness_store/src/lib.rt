//! Logs of witnesses: each applied state of a list of operations by what is kept of it.
#![tactic(auto)]

mod opening;
mod places;
mod pruning;
mod reader;
mod search;
mod selection;
mod store;
mod witness;

pub use reader::Witnesses;
pub use search::{Found, first_at_or_above};
pub use selection::select;
pub use store::Store;
pub use witness::Witness;
