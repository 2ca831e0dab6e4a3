//! Logs and maps by name, and what a crash at any moment may leave of them.
#![tactic(auto)]

mod error;
mod map;
mod volume;

pub use error::{JournalError, TreeCause, VolumeError, equality_laws};
pub use map::MetaMap;
pub use volume::Volume;
