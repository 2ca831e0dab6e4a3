//! The operations of a log, in one spelling each. It passes on the names of what a log is synced to.
#![tactic(auto)]

mod commit;
mod encoding;
pub mod immutable;
mod key;
pub mod keyless;
mod same;
mod text;
mod traits;

pub use encoding::{FixedEncoding, ValueEncoding, VariableEncoding};
pub use key::Key;
pub use same::Same;
pub use target_codec::{
    CompactTarget, EngineError, Request, Response, Target, advance_laws, equality_laws,
};
pub use traits::{Committable, Floored, OperationTrait};
