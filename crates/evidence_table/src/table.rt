//! Lists in pairs, and what is answered of them.
use crate::answers::Answers;
use crate::byte_hash::ByteHasher;
use crate::error::TableError;
use crate::lists::elements_of;
use codec_base::Bytes;
use std::alloc::Global;
use tree_evidence::{Clash, find_clash};
use tree_shape::{Bagging, Digest, Family, Hasher, Mmr, Sha256Hasher};

const LEAVES: u64 = 12;

const VALUES: u8 = 96;

/// No place has another value.
const NOWHERE: u64 = u64::MAX;

/// What two lists show, with at most so many inactive peaks each.
fn answer_of<F: Family, H: Hasher>(
    alloc: Global,
    a: &[Bytes],
    b: &[Bytes],
    inactive_a: u64,
    inactive_b: u64,
    bagging: Bagging,
) -> Result<Clash<H::Digest>, TableError> {
    if a.len() > 64 || b.len() > 64 {
        return Err(TableError::Lists);
    }
    let peaks_a = u64::from(F::peak_count(a.len() as u64));
    let peaks_b = u64::from(F::peak_count(b.len() as u64));
    Ok(find_clash::<F, H>(
        alloc,
        a,
        b,
        inactive_a.min(peaks_a),
        inactive_b.min(peaks_b),
        bagging,
    )?)
}

/// Prints what equal lists and differing ones show under SHA-256.
pub(crate) fn print_rows(rt: &impl Print, alloc: Global) -> Result<(), TableError> {
    for value in [0x61, 0x62] {
        let a = elements_of(alloc, 1, 0, 0x61)?;
        let b = elements_of(alloc, 1, 0, value)?;
        match answer_of::<Mmr, Sha256Hasher>(alloc, &a, &b, 0, 0, Bagging::ForwardFold)? {
            Clash::Equal => println!(rt; "61 {value:x} equal")?,
            Clash::RootsDiffer(first, second) => println!(rt;
                "61 {value:x} roots differ {} {}",
                hex::encode(alloc, first.as_slice())?.as_str(),
                hex::encode(alloc, second.as_slice())?.as_str()
            )?,
            Clash::Clash(_, _) => println!(rt; "61 {value:x} clash")?,
        }
    }
    Ok(())
}

/// Adds what lists of so many elements show that have a value in one place, or others there.
fn add_changed<F: Family>(
    rt: &impl Print,
    alloc: Global,
    title: &str,
    answers: &mut Answers,
    count: u64,
    value: u8,
    bagging: Bagging,
) -> Result<(), TableError> {
    let a = elements_of(alloc, count, NOWHERE, 0)?;
    for place in 0..count {
        let b = elements_of(alloc, count, place, value)?;
        let answer = answer_of::<F, ByteHasher>(alloc, &a, &b, place, place, bagging)?;
        answers.add(rt, alloc, title, &answer)?;
    }
    Ok(())
}

/// Adds what lists show that have a value in the first place, where one has an element less, or no inactive peak.
fn add_shorter<F: Family>(
    rt: &impl Print,
    alloc: Global,
    title: &str,
    answers: &mut Answers,
    count: u64,
    value: u8,
    bagging: Bagging,
) -> Result<(), TableError> {
    let a = elements_of(alloc, count, 0, value)?;
    let b = elements_of(alloc, count.saturating_sub(1), 0, value)?;
    let answer = answer_of::<F, ByteHasher>(alloc, &a, &b, 0, 0, bagging)?;
    answers.add(rt, alloc, title, &answer)?;
    let answer = answer_of::<F, ByteHasher>(alloc, &a, &a, count, 0, bagging)?;
    answers.add(rt, alloc, title, &answer)
}

/// Adds what is answered where one value of so many leaves is changed, or the leaves are fewer.
fn add_count<F: Family>(
    rt: &impl Print,
    alloc: Global,
    title: &str,
    answers: &mut Answers,
    count: u64,
    bagging: Bagging,
) -> Result<(), TableError> {
    for value in 0..VALUES {
        add_changed::<F>(rt, alloc, title, answers, count, value, bagging)?;
        add_shorter::<F>(rt, alloc, title, answers, count, value, bagging)?;
    }
    Ok(())
}

/// Prints what was answered with one way to fold.
fn print_bagging<F: Family>(
    rt: &impl Print,
    alloc: Global,
    title: &str,
    bagging: Bagging,
) -> Result<(), TableError> {
    let mut answers = Answers::new();
    for count in 0..LEAVES + 1 {
        add_count::<F>(rt, alloc, title, &mut answers, count, bagging)?;
    }
    answers.print(rt, alloc, title)
}

/// Prints what was answered of one family.
pub(crate) fn print_family<F: Family>(
    rt: &impl Print,
    alloc: Global,
    name: &str,
) -> Result<(), TableError> {
    let forward = format!(in alloc; "{name} forward")?;
    print_bagging::<F>(rt, alloc, forward.as_str(), Bagging::ForwardFold)?;
    let backward = format!(in alloc; "{name} backward")?;
    print_bagging::<F>(rt, alloc, backward.as_str(), Bagging::BackwardFold)
}
