//! The full database, which keeps each operation on a volume, and the compact one, which keeps witnesses, as databases
//! of the run, and how they are opened.
#![tactic(auto)]

mod compact_durable;
mod compact_opening;
mod compact_side;
mod database;
mod durable;
mod full_durable;
mod full_opening;
mod full_side;

pub use compact_opening::open_compact_under;
pub use compact_side::Compact;
pub use database::Database;
pub use durable::Durable;
pub use full_opening::open_full_under;
pub use full_side::Full;
