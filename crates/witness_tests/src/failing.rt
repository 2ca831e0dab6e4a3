//! Each call of the volume that fails in turn, and each image that a crash then leaves.
use crate::shared::{Log, NAME, append, open_at, sizes, store_of, witness};
use codec_base::Bytes;
use memory_volume::{LogChoice, MemoryVolume};
use std::alloc::Global;
use std::test::Fail;
use tree_shape::Location;
use volume_base::{JournalError, VolumeError};

/// A call of a store.
#[derive(Clone, Copy)]
enum Call {
    Append,
    Commit,
    CommitTwice,
    Sync,
    StartSync,
    Place,
    Prune,
    Destroy,
}

/// What a call of a store comes to.
fn call_of(
    alloc: Global,
    vol: &mut MemoryVolume,
    store: Log,
    call: Call,
) -> Result<Result<(), JournalError>, Fail> {
    Ok(match call {
        Call::Append => store.append(vol, &witness(alloc, 13)?).map(|_| ()),
        Call::Commit => store.commit(vol).map(|_| ()),
        Call::CommitTwice => store
            .commit(vol)
            .and_then(|store| store.commit(vol))
            .map(|_| ()),
        Call::Sync => store.sync(vol).map(|_| ()),
        Call::StartSync => match store.start_sync(vol) {
            Ok((_, ticket)) => ticket.settle().map_err(JournalError::from),
            Err(error) => Err(error),
        },
        Call::Place => store.place_at(vol, Location::new(7)).map(|_| ()),
        Call::Prune => store.prune(vol, Location::new(7)).map(|_| ()),
        Call::Destroy => store.destroy(vol),
    })
}

/// The volume behind a call, and what it comes to, where of three witnesses two are durable and then the n-th call of the volume
/// fails.
fn called(
    alloc: Global,
    call: Call,
    n: u64,
) -> Result<(MemoryVolume, Result<(), JournalError>), Fail> {
    let mut vol = MemoryVolume::new(alloc);
    let store = store_of(alloc, &mut vol, &[1, 4])?;
    let store = append(alloc, &mut vol, store, &[7])?;
    vol.fail_call(n)?;
    let answer = call_of(alloc, &mut vol, store, call)?;
    Ok((vol, answer))
}

#[test]
fn each_failing_call_is_told(rt: HostRuntime) -> Result<(), Fail> {
    // An append and a prune of the log ask for its bounds first. A search among three reads two.
    let rows = [
        (Call::Append, 2),
        (Call::Commit, 1),
        (Call::CommitTwice, 1),
        (Call::Sync, 1),
        (Call::StartSync, 1),
        (Call::Place, 2),
        (Call::Prune, 6),
        (Call::Destroy, 1),
    ];
    for (call, count) in rows {
        assert!(rt; called(rt.alloc(), call, count)?.1 == Err(JournalError::Volume));
        assert!(rt; called(rt.alloc(), call, count + 1)?.1 == Ok(()));
    }
    Ok(())
}

/// The number of a row's image: its version, and whether least or most is left at each end.
fn choice(alloc: Global, row: u64) -> Result<LogChoice, Fail> {
    Ok(LogChoice {
        name: Bytes::from_slice(alloc, NAME.as_bytes())?,
        version: row / 4,
        start: if row % 2 == 0 { 0 } else { u64::MAX },
        end: if row / 2 % 2 == 0 { 0 } else { u64::MAX },
    })
}

/// The sizes that a store has which is opened on an image.
fn reopened(alloc: Global, vol: &MemoryVolume, row: u64) -> Result<Vec<u64>, Fail> {
    let mut left = vol.crash(&[choice(alloc, row)?])?;
    match open_at(alloc, &mut left, None)? {
        Some(_) => sizes(alloc, &mut left),
        None => Err("no witness is left".into()),
    }
}

/// Whether these are sizes of the log, one behind another, to one that is at least this.
fn is_run(kept: &[u64], least: u64) -> bool {
    let all = [1, 4, 7, 13];
    match kept.last() {
        Some(last) => *last >= least && (0..4).any(|from| all[from..].starts_with(kept)),
        None => false,
    }
}

/// Whether each image behind a call, with the n-th call of the volume failed, is a part of the log from what is durable on.
fn each_is_run(alloc: Global, call: Call, n: u64) -> Result<bool, Fail> {
    let (vol, answer) = called(alloc, call, n)?;
    let least = match (call, answer) {
        (Call::Append, _) | (_, Err(_)) => 4,
        (_, Ok(())) => 7,
    };
    for row in 0..16 {
        if !is_run(&reopened(alloc, &vol, row)?, least) {
            return Ok(false);
        }
    }
    Ok(true)
}

/// Whether it is so with each call of the volume failed in turn.
fn each_is_run_wherever_it_fails(alloc: Global, call: Call) -> Result<bool, Fail> {
    for n in 0..7 {
        if !each_is_run(alloc, call, n)? {
            return Ok(false);
        }
    }
    Ok(true)
}

#[test]
fn each_image_has_what_is_durable(rt: HostRuntime) -> Result<(), Fail> {
    for call in [
        Call::Append,
        Call::Commit,
        Call::Sync,
        Call::StartSync,
        Call::Prune,
    ] {
        assert!(rt; each_is_run_wherever_it_fails(rt.alloc(), call)?);
    }
    Ok(())
}

/// What a call comes to behind a started sync that failed.
fn called_after_failure(alloc: Global, call: Call) -> Result<Result<(), JournalError>, Fail> {
    let mut vol = MemoryVolume::new(alloc);
    let store = store_of(alloc, &mut vol, &[1, 4])?;
    vol.fail_call(1)?;
    let (store, ticket) = store.start_sync(&mut vol)?;
    if ticket.settle() != Err(VolumeError::Failed) {
        return Err("settled".into());
    }
    let store = append(alloc, &mut vol, store, &[7])?;
    call_of(alloc, &mut vol, store, call)
}

#[test]
fn a_failed_started_sync_is_kept(rt: HostRuntime) -> Result<(), Fail> {
    for call in [Call::Commit, Call::Sync, Call::StartSync, Call::Prune] {
        assert!(rt; called_after_failure(rt.alloc(), call)? == Err(JournalError::Volume));
    }
    Ok(())
}
