//! Lines of text, whatever they say: their words, numbers and bytes, and texts that are written in pieces.
#![tactic(auto)]

mod lines;
mod parse;
mod piece;
mod text;

pub use lines::{Lines, Words};
pub use parse::{
    is_skipped, next_number, only_number, parse_bytes, parse_number, parse_optional_bytes,
};
pub use piece::Piece;
pub use text::{put_decimal, put_digest, put_hex, put_number, put_two, put_value};
