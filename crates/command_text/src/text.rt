ghost use Rattle.std.specs.Prelude.{◌≡◌, ◌∷◌, [], codes};
ghost use Rattle.std.specs.List.{flat_map};
ghost use Rattle.codec_base.specs.Causes.{HasCause};
ghost use Rattle.stream_base.specs.Writing.{Writes, text_then};
ghost use Rattle.line_text.specs.Pending.{Puts};
ghost use Rattle.line_text.specs.Text.{numbered, titled, value_text};
ghost use Rattle.command_text.specs.Text.{bytes_text, digest_text, values_text, listed, proof_text, refusal_text, answer_text, roots_text, reply_text, text_of};

use crate::command::{Answer, ProofAnswer, Replies, Reply};
use codec_base::Bytes;
use line_text::{Piece, put_digest, put_hex, put_number, put_two, put_value};
use log_model::Refusal;
use stream_base::{Sink, WriteFailed};
use tree_shape::Sha256Digest;

/// Puts bytes, a full stop for none.
fn put_bytes<O: Sink>(piece: &mut Piece, out: &mut O, bytes: &Bytes) -> Result<(), WriteFailed>
    ensures text { Puts (O.written out.old) piece.old (O.written out.new) piece.new result (bytes_text bytes.now) }
    ensures cause { HasCause (O.faults out.old) (O.faults out.new) result }
{
    if bytes.len() == 0 {
        return piece.put(out, b".");
    }
    put_hex(piece, out, bytes.as_slice())
}

/// Puts a word, and a value behind it.
#[tactic(auto, using(line_text::specs::Pending::putting))]
fn put_titled_value<O: Sink>(
    piece: &mut Piece,
    out: &mut O,
    word: &[u8],
    value: &Option<Bytes>,
) -> Result<(), WriteFailed>
    ensures text { Puts (O.written out.old) piece.old (O.written out.new) piece.new result
        (text_then word.now (value_text value.now)) }
    ensures cause { HasCause (O.faults out.old) (O.faults out.new) result }
{
    piece.put(out, word)?;
    put_value(piece, out, value)
}

/// Puts values, each behind a space.
fn put_values<O: Sink>(
    piece: &mut Piece,
    out: &mut O,
    values: &[Option<Bytes>],
) -> Result<(), WriteFailed>
    ensures text { Puts (O.written out.old) piece.old (O.written out.new) piece.new result (values_text values.now) }
    ensures cause { HasCause (O.faults out.old) (O.faults out.new) result }
{
    for value in values {
        put_titled_value(piece, out, b" ", value)?;
    }
    Ok(())
}

/// Puts the answer to a read of several locations.
#[tactic(auto, using(line_text::specs::Pending::putting))]
fn put_titled_values<O: Sink>(
    piece: &mut Piece,
    out: &mut O,
    values: &[Option<Bytes>],
) -> Result<(), WriteFailed>
    ensures text { Puts (O.written out.old) piece.old (O.written out.new) piece.new result
        (text_then (codes "values") (values_text values.now)) }
    ensures cause { HasCause (O.faults out.old) (O.faults out.new) result }
{
    piece.put(out, b"values")?;
    put_values(piece, out, values)
}

/// Puts the encodings of operations, with commas between them, or a hyphen for none.
fn put_operations<O: Sink>(
    piece: &mut Piece,
    out: &mut O,
    operations: &[Bytes],
) -> Result<(), WriteFailed>
    ensures text { Puts (O.written out.old) piece.old (O.written out.new) piece.new result
        (listed bytes_text operations.now) }
    ensures cause { HasCause (O.faults out.old) (O.faults out.new) result }
{
    match operations {
        [first, others @ ..] => put_some_operations(piece, out, first, others),
        [] => piece.put(out, b"-"),
    }
}

/// Puts the encodings of operations, with commas between them.
#[tactic(auto, using(line_text::specs::Pending::putting))]
fn put_some_operations<O: Sink>(
    piece: &mut Piece,
    out: &mut O,
    first: &Bytes,
    others: &[Bytes],
) -> Result<(), WriteFailed>
    ensures text { Puts (O.written out.old) piece.old (O.written out.new) piece.new result
        (text_then (bytes_text first.now) (flat_map (λ op. text_then (codes ",") (bytes_text op)) others.now)) }
    ensures cause { HasCause (O.faults out.old) (O.faults out.new) result }
{
    put_bytes(piece, out, first)?;
    put_more_operations(piece, out, others)
}

/// Puts the encodings of more operations, each behind a comma.
fn put_more_operations<O: Sink>(
    piece: &mut Piece,
    out: &mut O,
    operations: &[Bytes],
) -> Result<(), WriteFailed>
    ensures text { Puts (O.written out.old) piece.old (O.written out.new) piece.new result
        (flat_map (λ op. text_then (codes ",") (bytes_text op)) operations.now) }
    ensures cause { HasCause (O.faults out.old) (O.faults out.new) result }
{
    for operation in operations {
        put_another(piece, out, operation)?;
    }
    Ok(())
}

/// Puts bytes behind a comma.
#[tactic(auto, using(line_text::specs::Pending::putting))]
fn put_another<O: Sink>(piece: &mut Piece, out: &mut O, bytes: &Bytes) -> Result<(), WriteFailed>
    ensures text { Puts (O.written out.old) piece.old (O.written out.new) piece.new result
        (text_then (codes ",") (bytes_text bytes.now)) }
    ensures cause { HasCause (O.faults out.old) (O.faults out.new) result }
{
    piece.put(out, b",")?;
    put_bytes(piece, out, bytes)
}

/// Puts digests, with commas between them, or a hyphen for none.
fn put_digests<O: Sink>(
    piece: &mut Piece,
    out: &mut O,
    digests: &[Sha256Digest],
) -> Result<(), WriteFailed>
    ensures text { Puts (O.written out.old) piece.old (O.written out.new) piece.new result
        (listed digest_text digests.now) }
    ensures cause { HasCause (O.faults out.old) (O.faults out.new) result }
{
    match digests {
        [first, others @ ..] => put_some_digests(piece, out, first, others),
        [] => piece.put(out, b"-"),
    }
}

/// Puts digests, with commas between them.
#[tactic(auto, using(line_text::specs::Pending::putting))]
fn put_some_digests<O: Sink>(
    piece: &mut Piece,
    out: &mut O,
    first: &Sha256Digest,
    others: &[Sha256Digest],
) -> Result<(), WriteFailed>
    ensures text { Puts (O.written out.old) piece.old (O.written out.new) piece.new result
        (text_then (titled (codes "") first.now) (flat_map (titled (codes ",")) others.now)) }
    ensures cause { HasCause (O.faults out.old) (O.faults out.new) result }
{
    put_digest(piece, out, b"", first)?;
    put_more_digests(piece, out, others)
}

/// Puts more digests, each behind a comma.
fn put_more_digests<O: Sink>(
    piece: &mut Piece,
    out: &mut O,
    digests: &[Sha256Digest],
) -> Result<(), WriteFailed>
    ensures text { Puts (O.written out.old) piece.old (O.written out.new) piece.new result
        (flat_map (titled (codes ",")) digests.now) }
    ensures cause { HasCause (O.faults out.old) (O.faults out.new) result }
{
    for digest in digests {
        put_digest(piece, out, b",", digest)?;
    }
    Ok(())
}

/// Puts a proof: its numbers, its operations and its digests.
#[tactic(auto, using(line_text::specs::Pending::putting))]
fn put_proof<O: Sink>(
    piece: &mut Piece,
    out: &mut O,
    answer: &ProofAnswer,
) -> Result<(), WriteFailed>
    ensures text { Puts (O.written out.old) piece.old (O.written out.new) piece.new result (proof_text answer.now) }
    ensures cause { HasCause (O.faults out.old) (O.faults out.new) result }
{
    put_number(piece, out, b"proof leaves=", answer.proof.leaves.as_u64())?;
    put_number(piece, out, b" inactive=", answer.proof.inactive_peaks)?;
    put_number(piece, out, b" start=", answer.start)?;
    piece.put(out, b" ops=")?;
    put_operations(piece, out, answer.operations.as_slice())?;
    piece.put(out, b" digests=")?;
    put_digests(piece, out, answer.proof.digests.as_slice())
}

/// Puts the name of a refusal, and its numbers behind it.
fn put_refusal<O: Sink>(piece: &mut Piece, out: &mut O, refusal: Refusal) -> Result<(), WriteFailed>
    ensures text { Puts (O.written out.old) piece.old (O.written out.new) piece.new result (refusal_text refusal) }
    ensures cause { HasCause (O.faults out.old) (O.faults out.new) result }
{
    match refusal {
        Refusal::NoBatch(n) => put_number(piece, out, b"NoBatch ", n),
        Refusal::ValueTooLong(n) => put_number(piece, out, b"ValueTooLong ", n),
        Refusal::StaleBatch => piece.put(out, b"StaleBatch"),
        Refusal::LocationOverflow(n) => put_number(piece, out, b"LocationOverflow ", n),
        Refusal::FloorRegressed(floor, below) => {
            put_two(piece, out, b"FloorRegressed ", floor, below)
        }
        Refusal::FloorBeyondSize(floor, location) => {
            put_two(piece, out, b"FloorBeyondSize ", floor, location)
        }
        Refusal::StaleRead => piece.put(out, b"StaleRead"),
        Refusal::LocationOutOfOrder(l, next) => {
            put_two(piece, out, b"LocationOutOfOrder ", l, next)
        }
        Refusal::LocationOutOfBounds(l, size) => {
            put_two(piece, out, b"LocationOutOfBounds ", l, size)
        }
        Refusal::BelowInactivityFloor(l) => put_number(piece, out, b"BelowInactivityFloor ", l),
        Refusal::ItemPruned(l) => put_number(piece, out, b"ItemPruned ", l),
        Refusal::PruneBeyondMinRequired(l, floor) => {
            put_two(piece, out, b"PruneBeyondMinRequired ", l, floor)
        }
        Refusal::HistoricalFloorPruned(n) => put_number(piece, out, b"HistoricalFloorPruned ", n),
        Refusal::RangeOutOfBounds(n) => put_number(piece, out, b"RangeOutOfBounds ", n),
    }
}

/// Puts the answer to `seal`: the batch's size and its root.
#[tactic(auto, using(line_text::specs::Pending::putting))]
fn put_sealed<O: Sink>(
    piece: &mut Piece,
    out: &mut O,
    size: u64,
    root: &Sha256Digest,
) -> Result<(), WriteFailed>
    ensures text { Puts (O.written out.old) piece.old (O.written out.new) piece.new result
        (text_then (numbered (codes "sealed ") size) (titled (codes " ") root.now)) }
    ensures cause { HasCause (O.faults out.old) (O.faults out.new) result }
{
    put_number(piece, out, b"sealed ", size)?;
    put_digest(piece, out, b" ", root)
}

/// Puts the answer to `size`: the log's size, its start and its floor.
#[tactic(auto, using(line_text::specs::Pending::putting))]
fn put_size<O: Sink>(
    piece: &mut Piece,
    out: &mut O,
    size: u64,
    start: u64,
    floor: u64,
) -> Result<(), WriteFailed>
    ensures text { Puts (O.written out.old) piece.old (O.written out.new) piece.new result
        (text_then (numbered (codes "size ") size)
        (text_then (numbered (codes " start ") start) (numbered (codes " floor ") floor))) }
    ensures cause { HasCause (O.faults out.old) (O.faults out.new) result }
{
    put_number(piece, out, b"size ", size)?;
    put_number(piece, out, b" start ", start)?;
    put_number(piece, out, b" floor ", floor)
}

/// Puts the answer of a refused command.
#[tactic(auto, using(line_text::specs::Pending::putting))]
fn put_refused<O: Sink>(piece: &mut Piece, out: &mut O, refusal: Refusal) -> Result<(), WriteFailed>
    ensures text { Puts (O.written out.old) piece.old (O.written out.new) piece.new result
        (text_then (codes "refused ") (refusal_text refusal)) }
    ensures cause { HasCause (O.faults out.old) (O.faults out.new) result }
{
    piece.put(out, b"refused ")?;
    put_refusal(piece, out, refusal)
}

/// Puts an answer.
fn put_answer<O: Sink>(piece: &mut Piece, out: &mut O, answer: &Answer) -> Result<(), WriteFailed>
    ensures text { Puts (O.written out.old) piece.old (O.written out.new) piece.new result (answer_text answer.now) }
    ensures cause { HasCause (O.faults out.old) (O.faults out.new) result }
{
    match answer {
        Answer::Opened { start, .. } => put_number(piece, out, b"opened start=", *start),
        Answer::Batch(n) => put_number(piece, out, b"batch ", *n),
        Answer::Done => piece.put(out, b"ok"),
        Answer::Sealed { size, root } => put_sealed(piece, out, *size, root),
        Answer::Applied => piece.put(out, b"applied"),
        Answer::Value(value) => put_titled_value(piece, out, b"value ", value),
        Answer::Values(values) => put_titled_values(piece, out, values.as_slice()),
        Answer::Size { size, start, floor } => put_size(piece, out, *size, *start, *floor),
        Answer::Metadata(metadata) => put_titled_value(piece, out, b"metadata ", metadata),
        Answer::Proof(proof) => put_proof(piece, out, proof),
        Answer::Committed => piece.put(out, b"committed"),
        Answer::Synced => piece.put(out, b"synced"),
        Answer::SyncStarted => piece.put(out, b"sync-started"),
        Answer::Pruned(start) => put_number(piece, out, b"pruned ", *start),
        Answer::Refused(refusal) => put_refused(piece, out, *refusal),
    }
}

/// Puts both roots, and the end of the line.
#[tactic(auto, using(line_text::specs::Pending::putting))]
fn put_roots<O: Sink>(piece: &mut Piece, out: &mut O, reply: &Reply) -> Result<(), WriteFailed>
    ensures text { Puts (O.written out.old) piece.old (O.written out.new) piece.new result (roots_text reply.now) }
    ensures cause { HasCause (O.faults out.old) (O.faults out.new) result }
{
    put_digest(piece, out, b" full=", &reply.full_root)?;
    put_digest(piece, out, b" compact=", &reply.compact_root)?;
    piece.put(out, b"\n")
}

/// Puts the line of a reply.
#[tactic(auto, using(line_text::specs::Pending::putting))]
fn put_reply<O: Sink>(piece: &mut Piece, out: &mut O, reply: &Reply) -> Result<(), WriteFailed>
    ensures text { Puts (O.written out.old) piece.old (O.written out.new) piece.new result (reply_text reply.now) }
    ensures cause { HasCause (O.faults out.old) (O.faults out.new) result }
{
    put_answer(piece, out, &reply.answer)?;
    put_number(piece, out, b" size=", reply.size)?;
    put_roots(piece, out, reply)
}

/// Writes the text of replies, in large pieces. It takes no memory.
pub fn write_replies<O: Sink>(replies: &Replies, output: &mut O) -> Result<(), WriteFailed>
    ensures text { Writes (O.written output.old) (O.written output.new) result (text_of replies.now) }
    ensures cause { HasCause (O.faults output.old) (O.faults output.new) result }
{
    let mut piece = Piece::new();
    for reply in replies.as_slice() {
        put_reply(&mut piece, output, reply)?;
    }
    piece.send(output)
}
