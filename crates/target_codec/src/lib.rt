//! What a log is synced to, what is asked for it, and what is answered.
#![tactic(auto)]

mod request;
mod response;
mod target;

pub use request::{Request, request_equality_law};
pub use response::{Response, response_equality_law};
pub use target::{CompactTarget, EngineError, Target, advance_laws, equality_laws};
