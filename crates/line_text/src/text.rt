//! Texts, put piece by piece.
ghost use Rattle.std.specs.Prelude.{◌≡◌, codes, decimal};
ghost use Rattle.codec_base.specs.Causes.{HasCause};
ghost use Rattle.stream_base.specs.Writing.{text_then};
ghost use Rattle.hex.specs.Hex.{encode_lower};
ghost use Rattle.line_text.specs.Pending.{Puts};
ghost use Rattle.line_text.specs.Text.{numbered, titled, value_text};

use crate::Piece;
use codec_base::Bytes;
use stream_base::{Sink, WriteFailed};
use tree_shape::{Digest, Sha256Digest};

/// Puts a number, in decimal.
pub fn put_decimal<O: Sink>(piece: &mut Piece, out: &mut O, n: u64) -> Result<(), WriteFailed>
    ensures text { Puts (O.written out.old) piece.old (O.written out.new) piece.new result (decimal n) }
    ensures cause { HasCause (O.faults out.old) (O.faults out.new) result }
{
    if n < 10 {
        return piece.put(out, &[b'0' + n as u8]);
    }
    put_decimal(piece, out, n / 10)?;
    piece.put(out, &[b'0' + (n % 10) as u8])
}

/// Puts a word, and a number behind it.
#[tactic(auto, using(crate::specs::Pending::putting))]
pub fn put_number<O: Sink>(
    piece: &mut Piece,
    out: &mut O,
    word: &[u8],
    n: u64,
) -> Result<(), WriteFailed>
    ensures text { Puts (O.written out.old) piece.old (O.written out.new) piece.new result (numbered word.now n) }
    ensures cause { HasCause (O.faults out.old) (O.faults out.new) result }
{
    piece.put(out, word)?;
    put_decimal(piece, out, n)
}

/// Puts a word, and a digest behind it.
#[tactic(auto, using(crate::specs::Pending::putting))]
pub fn put_digest<O: Sink>(
    piece: &mut Piece,
    out: &mut O,
    word: &[u8],
    digest: &Sha256Digest,
) -> Result<(), WriteFailed>
    ensures text { Puts (O.written out.old) piece.old (O.written out.new) piece.new result (titled word.now digest.now) }
    ensures cause { HasCause (O.faults out.old) (O.faults out.new) result }
{
    let mut digits = [0u8; 64];
    if hex::encode_to_slice(digest.as_slice(), &mut digits).is_err() {
        unreachable!()
    }
    piece.put(out, word)?;
    piece.put(out, &digits)
}

/// Puts bytes, in hexadecimal.
pub fn put_hex<O: Sink>(piece: &mut Piece, out: &mut O, bytes: &[u8]) -> Result<(), WriteFailed>
    ensures text { Puts (O.written out.old) piece.old (O.written out.new) piece.new result (encode_lower bytes.now) }
    ensures cause { HasCause (O.faults out.old) (O.faults out.new) result }
{
    for byte in bytes {
        let mut pair = [0u8; 2];
        if hex::encode_to_slice(&[*byte], &mut pair).is_err() {
            unreachable!()
        }
        piece.put(out, &pair)?;
    }
    Ok(())
}

/// Puts a value, a hyphen for none and a full stop for one without bytes.
pub fn put_value<O: Sink>(
    piece: &mut Piece,
    out: &mut O,
    value: &Option<Bytes>,
) -> Result<(), WriteFailed>
    ensures text { Puts (O.written out.old) piece.old (O.written out.new) piece.new result (value_text value.now) }
    ensures cause { HasCause (O.faults out.old) (O.faults out.new) result }
{
    match value {
        None => piece.put(out, b"-"),
        Some(bytes) => {
            if bytes.len() == 0 {
                return piece.put(out, b".");
            }
            put_hex(piece, out, bytes.as_slice())
        }
    }
}

/// Puts a word, and two numbers behind it.
#[tactic(auto, using(crate::specs::Pending::putting))]
pub fn put_two<O: Sink>(
    piece: &mut Piece,
    out: &mut O,
    word: &[u8],
    first: u64,
    second: u64,
) -> Result<(), WriteFailed>
    ensures text { Puts (O.written out.old) piece.old (O.written out.new) piece.new result (text_then (numbered word.now first) (numbered (codes " ") second)) }
    ensures cause { HasCause (O.faults out.old) (O.faults out.new) result }
{
    put_number(piece, out, word, first)?;
    put_number(piece, out, b" ", second)
}
