//! The operations of the log.
use codec_base::Bytes;
use op_codec::{VariableEncoding, keyless};
use tree_shape::Mmr;

/// An operation of the log: without keys, its values of any length.
pub type Operation = keyless::Operation<Mmr, VariableEncoding<Bytes>>;
