//! A volume in memory, which keeps a record of its calls.
#![tactic(auto)]

mod choice;
mod entry;
mod memory;
mod record;
mod replay;
mod shared;
mod stored;
mod table;

pub use choice::LogChoice;
pub use memory::MemoryVolume;
