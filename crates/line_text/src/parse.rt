//! What words and lines say.
ghost use Rattle.std.specs.Prelude.{◌≡◌, IfOk, IsOkUnless, ◌↔◌, IsTrue, drop};
ghost use Rattle.line_text.specs.Said.{IsTheOne, IsNumberWord, IsBytesWord, IsOptionalWord, IsFirstNumber, IsOnlyNumber, IsSkipped};

use crate::Words;
use codec_base::{Bytes, CodecError};
use hex::FromHexError;
use std::alloc::Global;
use std::str;

/// The number that a word is, in decimal without sign and without zeros in front.
pub fn parse_number(word: &[u8]) -> Option<u64>
    ensures { IsTheOne result (IsNumberWord word.now) }
{
    if word.is_empty() {
        return None;
    }
    if word[0] == b'+' {
        return None;
    }
    if word[0] == b'0' {
        return if word.len() == 1 { Some(0) } else { None };
    }
    let Ok(text) = str::from_utf8(word) else {
        return None;
    };
    let Ok(number) = text.parse::<u64>() else {
        return None;
    };
    Some(number)
}

/// The bytes that a word stands for, in hexadecimal, or a full stop for none.
pub fn parse_bytes(alloc: Global, word: &[u8]) -> Result<Option<Bytes>, CodecError>
    ensures bytes { IfOk result (λ o. IsTheOne o (IsBytesWord word.now)) }
    ensures memory { IsOkUnless result CodecError.Memory }
{
    if word == b".".as_slice() {
        return Ok(Some(Bytes::new(alloc)));
    }
    if word.is_empty() {
        return Ok(None);
    }
    match hex::decode(alloc, word) {
        Ok(bytes) => Ok(Some(Bytes::from_vec(bytes))),
        Err(e) => match e {
            FromHexError::OutOfMemory => Err(CodecError::Memory),
            _ => Ok(None),
        },
    }
}

/// The bytes that a word stands for, or none where it is a hyphen.
pub fn parse_optional_bytes(alloc: Global, word: &[u8]) -> Result<Option<Option<Bytes>>, CodecError>
    ensures bytes { IfOk result (λ o. IsTheOne o (IsOptionalWord word.now)) }
    ensures memory { IsOkUnless result CodecError.Memory }
{
    if word == b"-".as_slice() {
        return Ok(Some(None));
    }
    match parse_bytes(alloc, word)? {
        Some(bytes) => Ok(Some(Some(bytes))),
        None => Ok(None),
    }
}

/// Takes the next word, and reads it as a number. The word is taken whatever it says.
pub fn next_number(words: &mut Words<'_>) -> Option<u64>
    ensures number { IsFirstNumber words.old words.new result }
    ensures rest { words.new ≡ drop 1 words.old }
{
    parse_number(words.next_word()?)
}

/// Reads the words that are left as one number.
pub fn only_number(mut words: Words<'_>) -> Option<u64>
    ensures { IsOnlyNumber words.entry result }
{
    let number = next_number(&mut words)?;
    if words.is_empty() { Some(number) } else { None }
}

/// Whether a line is empty or a comment.
pub fn is_skipped(line: &[u8]) -> bool
    ensures { IsTrue result ↔ IsSkipped line.now }
{
    match line {
        [] => true,
        [first, ..] => *first == b'#',
    }
}
