//! A volume on the files of a folder.
#![tactic(auto)]

mod contents;
mod directory;
mod failure;
mod lock;
mod log_file;
mod logs;
mod map_file;
mod own_name;
mod parts;
mod reading;
mod synced;
mod volume;

pub use lock::Lock;
pub use volume::FolderVolume;
