//! The database of values of any length.
use crate::Keyless;
use journal_base::{JournalConfig, VariableJournal};
use op_codec::VariableEncoding;

/// An operation of it.
pub type Operation<F, V> = op_codec::keyless::Operation<F, VariableEncoding<V>>;

/// The database.
pub type Db<F, V, H> = Keyless<F, Operation<F, V>, VariableJournal<Operation<F, V>>, H>;

/// Where it has its operations and their tree, and which values they may have.
pub type Config<C> = crate::Config<JournalConfig<C>>;
