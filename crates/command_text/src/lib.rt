//! The commands of a run and its replies, and their lines: what each line of an input says, and the text of each reply.
#![tactic(auto)]

mod command;
mod name;
mod parse;
mod text;
mod words;

pub use command::{Answer, Command, Locations, OpList, ProofAnswer, Replies, Reply, ValueList};
pub use log_model::Refusal;
pub use parse::{LineError, parse_commands};
pub use text::write_replies;
