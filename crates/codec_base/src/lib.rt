//! The codec base: byte lists and lists that contracts see as lists, and lawful codecs.
#![tactic(auto)]

mod bytes;
mod codec;
mod cursor;
mod duplicate;
mod error;
mod lawful;
mod list;
mod number;
mod numbers;
mod parts;
mod varint;
mod whole;
mod zeros;

pub use bytes::{Bytes, undo_on_err};
pub use codec::{EncodeSize, FixedSize, Read, Spelled, Write};
pub use cursor::Cursor;
pub use duplicate::Duplicate;
pub use error::{CodecError, InvalidAt, equality_laws};
pub use lawful::{spelling_laws, width_law};
pub use list::ListOf;
pub use number::U64;
pub use parts::{LengthCfg, ListCfg};
pub use varint::{read_varint, varint_size, write_varint};
pub use whole::{decode, encode};
pub use zeros::{read_zeros, write_zeros};
