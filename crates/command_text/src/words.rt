//! The words of a line, read as a command.
ghost use Rattle.std.specs.Prelude.{◌≡◌, [], ◌∷◌, codes, IfOk, IsOkUnless, MatchOption};
ghost use Rattle.line_text.specs.Said.{IsTheOne};
ghost use Rattle.command_text.specs.Grammar.{AreNumberWords, IsReading};

use crate::command::{Command, Locations};
use crate::name::{Name, name_of};
use codec_base::{CodecError, ListOf};
use line_text::{Words, next_number, only_number, parse_bytes, parse_number, parse_optional_bytes};
use std::alloc::Global;
use std::num::NonZeroU64;

/// Reads the words behind `append`.
fn read_append(alloc: Global, mut words: Words<'_>) -> Result<Option<Command>, CodecError>
    ensures command { IfOk result (IsReading (codes "append" ∷ words.entry)) }
    ensures memory { IsOkUnless result CodecError.Memory }
{
    let Some(b) = next_number(&mut words) else {
        return Ok(None);
    };
    let Some(word) = words.next_word() else {
        return Ok(None);
    };
    if !words.is_empty() {
        return Ok(None);
    }
    match parse_bytes(alloc, word)? {
        Some(value) => Ok(Some(Command::Append(b, value))),
        None => Ok(None),
    }
}

/// Reads the words behind `seal`.
fn read_seal(alloc: Global, mut words: Words<'_>) -> Result<Option<Command>, CodecError>
    ensures command { IfOk result (IsReading (codes "seal" ∷ words.entry)) }
    ensures memory { IsOkUnless result CodecError.Memory }
{
    let Some(b) = next_number(&mut words) else {
        return Ok(None);
    };
    let Some(word) = words.next_word() else {
        return Ok(None);
    };
    let Some(floor) = next_number(&mut words) else {
        return Ok(None);
    };
    if !words.is_empty() {
        return Ok(None);
    }
    match parse_optional_bytes(alloc, word)? {
        Some(metadata) => Ok(Some(Command::Seal(b, metadata, floor))),
        None => Ok(None),
    }
}

/// Reads the words behind `new`.
fn read_new(words: Words<'_>) -> Option<Command>
    ensures { IsReading (codes "new" ∷ words.entry) result }
{
    if words.is_empty() {
        return Some(Command::New(None));
    }
    Some(Command::New(Some(only_number(words)?)))
}

/// Reads the words behind `apply`.
fn read_apply(words: Words<'_>) -> Option<Command>
    ensures { IsReading (codes "apply" ∷ words.entry) result }
{
    Some(Command::Apply(only_number(words)?))
}

/// Reads the words behind `hold`.
fn read_hold(words: Words<'_>) -> Option<Command>
    ensures { IsReading (codes "hold" ∷ words.entry) result }
{
    Some(Command::Hold(only_number(words)?))
}

/// Reads the words behind `release`.
fn read_release(words: Words<'_>) -> Option<Command>
    ensures { IsReading (codes "release" ∷ words.entry) result }
{
    Some(Command::Release(only_number(words)?))
}

/// Reads the words that are left as numbers, one each.
fn read_numbers(alloc: Global, mut words: Words<'_>) -> Result<Option<Locations>, CodecError>
    ensures numbers { IfOk result (λ found. IsTheOne found (AreNumberWords words.entry)) }
    ensures memory { IsOkUnless result CodecError.Memory }
{
    let mut numbers = ListOf::new(alloc);
    while let Some(word) = words.next_word() {
        let Some(number) = parse_number(word) else {
            return Ok(None);
        };
        numbers.push(number)?;
    }
    Ok(Some(numbers))
}

/// Reads the words behind `get`.
fn read_get(words: Words<'_>) -> Option<Command>
    ensures { IsReading (codes "get" ∷ words.entry) result }
{
    Some(Command::Get(only_number(words)?))
}

/// Reads the words behind `get-many`.
fn read_get_many(alloc: Global, words: Words<'_>) -> Result<Option<Command>, CodecError>
    ensures command { IfOk result (IsReading (codes "get-many" ∷ words.entry)) }
    ensures memory { IsOkUnless result CodecError.Memory }
{
    match read_numbers(alloc, words)? {
        Some(locations) => Ok(Some(Command::GetMany(locations))),
        None => Ok(None),
    }
}

/// Reads the words behind `batch-get`.
fn read_batch_get(mut words: Words<'_>) -> Option<Command>
    ensures { IsReading (codes "batch-get" ∷ words.entry) result }
{
    let b = next_number(&mut words)?;
    Some(Command::BatchGet(b, only_number(words)?))
}

/// Reads the words behind `batch-get-many`.
fn read_batch_get_many(alloc: Global, mut words: Words<'_>) -> Result<Option<Command>, CodecError>
    ensures command { IfOk result (IsReading (codes "batch-get-many" ∷ words.entry)) }
    ensures memory { IsOkUnless result CodecError.Memory }
{
    let Some(b) = next_number(&mut words) else {
        return Ok(None);
    };
    match read_numbers(alloc, words)? {
        Some(locations) => Ok(Some(Command::BatchGetMany(b, locations))),
        None => Ok(None),
    }
}

/// Reads the words behind `proof`.
fn read_proof(mut words: Words<'_>) -> Option<Command>
    ensures { IsReading (codes "proof" ∷ words.entry) result }
{
    let size = next_number(&mut words)?;
    let start = next_number(&mut words)?;
    let count = NonZeroU64::new(only_number(words)?)?;
    Some(Command::Proof(size, start, count))
}

/// Reads the words behind `commit-proof`.
fn read_commit_proof(words: Words<'_>) -> Option<Command>
    ensures { IsReading (codes "commit-proof" ∷ words.entry) result }
{
    Some(Command::CommitProof(only_number(words)?))
}

/// Reads the words behind `prune`.
fn read_prune(words: Words<'_>) -> Option<Command>
    ensures { IsReading (codes "prune" ∷ words.entry) result }
{
    Some(Command::Prune(only_number(words)?))
}

/// The command, where no word is left.
fn read_alone(words: Words<'_>, command: Command) -> Option<Command>
    ensures { MatchOption result (words.entry ≡ [] → ⊥) (λ made. (words.entry ≡ []) × (made ≡ command)) }
{
    if words.is_empty() {
        Some(command)
    } else {
        None
    }
}

/// Reads the words behind the first, which says what command it is.
pub(crate) fn read_words(
    alloc: Global,
    word: &[u8],
    words: Words<'_>,
) -> Result<Option<Command>, CodecError>
    ensures command { IfOk result (IsReading (word.now ∷ words.entry)) }
    ensures memory { IsOkUnless result CodecError.Memory }
{
    let Some(name) = name_of(word) else {
        return Ok(None);
    };
    match name {
        Name::New => Ok(read_new(words)),
        Name::Append => read_append(alloc, words),
        Name::Seal => read_seal(alloc, words),
        Name::Apply => Ok(read_apply(words)),
        Name::Hold => Ok(read_hold(words)),
        Name::Release => Ok(read_release(words)),
        Name::Snapshot => Ok(read_alone(words, Command::Snapshot)),
        Name::Get => Ok(read_get(words)),
        Name::GetMany => read_get_many(alloc, words),
        Name::BatchGet => Ok(read_batch_get(words)),
        Name::BatchGetMany => read_batch_get_many(alloc, words),
        Name::Size => Ok(read_alone(words, Command::Size)),
        Name::Metadata => Ok(read_alone(words, Command::Metadata)),
        Name::Proof => Ok(read_proof(words)),
        Name::CommitProof => Ok(read_commit_proof(words)),
        Name::Commit => Ok(read_alone(words, Command::Commit)),
        Name::Sync => Ok(read_alone(words, Command::Sync)),
        Name::StartSync => Ok(read_alone(words, Command::StartSync)),
        Name::Prune => Ok(read_prune(words)),
    }
}
