//! Journals: logs of a volume that hold items, each with its one spelling.
#![tactic(auto)]

mod append;
mod backing;
mod contiguous;
mod encodings;
mod journal;
mod laws;
mod matching;
mod mutable;
mod recovery;
mod replay;
mod ticket;

pub use append::append_all;
pub use backing::{Backing, BackingRecovery};
pub use contiguous::Contiguous;
pub use encodings::{encode_all, encode_one};
pub use journal::{Fixed, FixedJournal, Journal, JournalConfig, Kind, Variable, VariableJournal};
pub use laws::{backing_laws, run_laws};
pub use mutable::Mutable;
pub use recovery::Recovery;
pub use replay::Replay;
pub use ticket::SyncTicket;
