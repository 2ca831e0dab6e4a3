//! Bytes that are put in the place of a witness.
use crate::shared::{Kept, NAME, recovery};
use codec_base::{Bytes, ListOf, decode, encode};
use journal_base::BackingRecovery;
use memory_volume::MemoryVolume;
use std::alloc::Global;
use std::test::Fail;
use tree_shape::{Location, Mmr, Sha256Digest};
use volume_base::JournalError;
use witness_store::{Witness, select};

/// The peaks of the initial commit and of the appends of 61 and 62 to it, made by `tools/expected.py`.
const PEAKS: [&str; 2] = [
    "f15099eba7574b7a122a7893af8c1ef1187868c8e11fd694d5db68166dfa892e",
    "e0add04adc283e329c543100a06feeb292af56de0f1551fea57780901abac35a",
];

/// These bytes, and behind them so many peaks, of the two in turn.
fn text(alloc: Global, front: &[u8], peaks: usize) -> Result<Bytes, Fail> {
    let mut text = Bytes::from_slice(alloc, front)?;
    for number in 0..peaks {
        text.extend_from_slice(&hex::decode(alloc, PEAKS[number % 2])?)?;
    }
    Ok(text)
}

/// The witness of the commit behind these operations.
fn witness(alloc: Global) -> Result<Kept, Fail> {
    let mut pinned_nodes = ListOf::new(alloc);
    for peak in PEAKS {
        pinned_nodes.push(decode(alloc, &hex::decode(alloc, peak)?, &())?)?;
    }
    Ok(Witness {
        op_bytes: Bytes::from_slice(alloc, &[0, 0, 0])?,
        size: Location::new(4),
        pinned_nodes,
    })
}

#[test]
fn a_witness_has_one_spelling(rt: HostRuntime) -> Result<(), Fail> {
    let spelled = encode(rt.alloc(), &witness(rt.alloc())?)?;
    assert!(rt; spelled.len() == 70);
    assert!(rt; spelled == text(rt.alloc(), &[3, 0, 0, 0, 4, 2], 2)?);
    Ok(())
}

/// Size and number of peaks of the witness that a log is opened at, where these bytes stand behind a first witness.
fn opened(alloc: Global, bytes: Bytes) -> Result<Result<(u64, u64), JournalError>, Fail> {
    let mut vol = MemoryVolume::new(alloc);
    let first = text(alloc, &[3, 0, 0, 0, 1, 0], 0)?;
    vol.put_log(NAME, 0, &[first, bytes])?;
    let recovery = recovery(alloc, &mut vol)?;
    let (start, end) = recovery.bounds();
    if start >= end {
        return Err("nothing was put".into());
    }
    match select::<Mmr, Sha256Digest, _, _>(&recovery, &mut vol, None) {
        Ok(Some((_, witness))) => Ok(Ok((witness.size.as_u64(), witness.pinned_nodes.len()))),
        Ok(None) => Err("nothing is selected".into()),
        Err(error) => Ok(Err(error)),
    }
}

#[test]
fn names_where_bytes_are_no_witness(rt: HostRuntime) -> Result<(), Fail> {
    // Peaks that are missing or too many for the size are the rebuilding's to refuse; here as many have to stand as are told,
    // 64 at most.
    let rows = [
        (2, 2, Ok((4, 2))),
        (1, 1, Ok((4, 1))),
        (64, 64, Ok((4, 64))),
        (65, 65, Err(JournalError::Corruption(1))),
        (2, 1, Err(JournalError::Corruption(1))),
        (1, 2, Err(JournalError::Corruption(1))),
    ];
    for (told, peaks, want) in rows {
        let bytes = text(rt.alloc(), &[3, 0, 0, 0, 4, told], peaks)?;
        assert!(rt; opened(rt.alloc(), bytes)? == want);
    }
    Ok(())
}

#[test]
fn a_size_is_that_of_a_tree(rt: HostRuntime) -> Result<(), Fail> {
    // The size is a varint, of 2^62 and of one more.
    let rows = [
        (0x80, Ok((1 << 62, 0))),
        (0x81, Err(JournalError::Corruption(1))),
    ];
    for (low, want) in rows {
        let front = [
            3, 0, 0, 0, low, 0x80, 0x80, 0x80, 0x80, 0x80, 0x80, 0x80, 0x40, 0,
        ];
        assert!(rt; opened(rt.alloc(), text(rt.alloc(), &front, 0)?)? == want);
    }
    Ok(())
}
