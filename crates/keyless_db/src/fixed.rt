//! The database of values that all have one width.
use crate::Keyless;
use journal_base::{FixedJournal, JournalConfig};
use op_codec::FixedEncoding;

/// An operation of it.
pub type Operation<F, V> = op_codec::keyless::Operation<F, FixedEncoding<V>>;

/// The database.
pub type Db<F, V, H> = Keyless<F, Operation<F, V>, FixedJournal<Operation<F, V>>, H>;

/// Where it has its operations and their tree.
pub type Config = crate::Config<JournalConfig<()>>;
