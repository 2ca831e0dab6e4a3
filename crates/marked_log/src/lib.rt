//! A small user of journals over any volume: items are durable before a map says that they are there.
#![tactic(auto)]

mod mark;

pub use mark::append_and_mark;
