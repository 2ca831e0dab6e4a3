//! The adapters of the real thing: each call of theirs that fails is counted once, and they tell the bytes that the reader or writer below tells.
#![tactic(auto)]

mod faults;
mod sink;
mod source;

pub use folder_volume::{FolderVolume, Lock};
pub use sink::StdSink;
pub use source::StdSource;
