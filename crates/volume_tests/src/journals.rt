//! Journals over a volume in memory: what is refused, what a failed sync keeps, what an unsynced append leaves, and each call
//! once at items of both kinds.
use codec_base::{Bytes, LengthCfg, U64};
use journal_base::{
    Backing, BackingRecovery, Contiguous, Fixed, FixedJournal, JournalConfig, Mutable, Recovery,
    VariableJournal, append_all, backing_laws, encode_all, run_laws,
};
use memory_volume::{LogChoice, MemoryVolume};
use std::alloc::Global;
use std::num::NonZeroU64;
use std::test::Fail;
use volume_base::{JournalError, Volume, VolumeError};

pub(crate) fn config<C: Drop>(alloc: Global, codec: C) -> Result<JournalConfig<C>, JournalError> {
    Ok(JournalConfig {
        name: String::from_str(alloc, "log")?,
        items_per_blob: NonZeroU64::new(2).unwrap_or(NonZeroU64::MIN),
        codec,
    })
}

/// The configuration of a journal of words.
fn words_config(alloc: Global) -> Result<JournalConfig<LengthCfg>, JournalError> {
    config(alloc, LengthCfg { max: 9 })
}

fn words(alloc: Global, texts: &[&[u8]]) -> Result<Vec<Bytes>, JournalError> {
    let mut items = Vec::new(alloc);
    for text in texts {
        items.push(Bytes::from_vec(text.to_vec(alloc)?))?;
    }
    Ok(items)
}

pub(crate) fn numbers(alloc: Global, count: u64) -> Result<Vec<U64>, JournalError> {
    let mut items = Vec::new(alloc);
    for number in 0..count {
        items.push(U64::new(number))?;
    }
    Ok(items)
}

/// Opens a journal at its log's end, or at a cap.
pub(crate) fn open<J: Backing>(
    vol: &mut MemoryVolume,
    cfg: J::Config,
    cap: Option<u64>,
) -> Result<J, JournalError> {
    J::recover(vol, cfg, cap)?.finish(vol, u64::MAX)
}

/// Appends items, of which the first blob of two then goes.
fn appended<J: Backing>(
    vol: &mut MemoryVolume,
    journal: J,
    items: &[J::Item],
) -> Result<J, JournalError> {
    Ok(append_all(journal, vol, items)?.prune(vol, 3)?.0)
}

/// A journal of five numbers, of which the first blob is gone.
fn numbered(alloc: Global, vol: &mut MemoryVolume) -> Result<FixedJournal<U64>, JournalError> {
    let items = numbers(alloc, 5)?;
    let journal = open(vol, config(alloc, ())?, None)?;
    appended(vol, journal, &items)
}

/// A call of an open journal.
#[derive(Clone, Copy)]
enum Call {
    AppendNone,
    AppendTwo,
    Read(u64),
    Clear(u64),
    Commit,
    Sync,
    StartSync,
    Prune,
}

/// The error of a call.
fn error_of(
    vol: &mut MemoryVolume,
    journal: FixedJournal<U64>,
    call: Call,
) -> Option<JournalError> {
    match call {
        Call::AppendNone => journal.append_many(vol, &[]).err(),
        Call::AppendTwo => journal.append_many(vol, &[U64::new(5), U64::new(6)]).err(),
        Call::Read(position) => journal.read(vol, position).err(),
        Call::Clear(size) => journal.clear_to_size(vol, size).err(),
        Call::Commit => journal.commit(vol).err(),
        Call::Sync => journal.sync(vol).err(),
        Call::StartSync => journal.start_sync(vol).err(),
        Call::Prune => journal.prune(vol, 4).err(),
    }
}

/// The error of a call where the n-th call of the volume fails.
fn error_at(alloc: Global, call: Call, n: u64) -> Result<Option<JournalError>, JournalError> {
    let mut vol = MemoryVolume::new(alloc);
    let journal = numbered(alloc, &mut vol)?;
    vol.fail_call(n)?;
    Ok(error_of(&mut vol, journal, call))
}

#[test]
fn refuses_by_name(rt: HostRuntime) -> Result<(), Fail> {
    let rows = [
        (Call::AppendNone, JournalError::EmptyAppend),
        (Call::Read(1), JournalError::ItemPruned(1)),
        (Call::Read(5), JournalError::ItemOutOfRange(5)),
        (Call::Clear(u64::MAX), JournalError::SizeOverflow),
    ];
    for (call, want) in rows {
        assert!(rt; error_at(rt.alloc(), call, 0)? == Some(want));
    }
    Ok(())
}

#[test]
fn many_items_are_one_append_and_a_sync_is_one(rt: HostRuntime) -> Result<(), Fail> {
    // An append asks for the bounds first.
    for (call, count) in [(Call::AppendTwo, 2), (Call::Commit, 1), (Call::Sync, 1)] {
        assert!(rt; error_at(rt.alloc(), call, count)? == Some(JournalError::Volume));
        assert!(rt; error_at(rt.alloc(), call, count + 1)?.is_none());
    }
    Ok(())
}

/// A journal of six numbers whose last sync has failed inside `start_sync`, and what its ticket told.
fn unsynced(
    alloc: Global,
    vol: &mut MemoryVolume,
) -> Result<(FixedJournal<U64>, Result<(), VolumeError>), JournalError> {
    let journal = numbered(alloc, vol)?;
    vol.fail_call(1)?;
    let (journal, ticket) = journal.start_sync(vol)?;
    let told = ticket.settle();
    Ok((journal.append(vol, &U64::new(5))?.0, told))
}

#[test]
fn keeps_a_failed_started_sync(rt: HostRuntime) -> Result<(), Fail> {
    for call in [Call::Commit, Call::Sync, Call::StartSync, Call::Prune] {
        let mut vol = MemoryVolume::new(rt.alloc());
        let (journal, told) = unsynced(rt.alloc(), &mut vol)?;
        let error = error_of(&mut vol, journal, call);
        assert!(rt; (told, error) == (Err(VolumeError::Failed), Some(JournalError::Volume)));
    }
    Ok(())
}

/// Appends words to a journal.
fn appended_words(
    alloc: Global,
    vol: &mut MemoryVolume,
    journal: VariableJournal<Bytes>,
    texts: &[&[u8]],
) -> Result<VariableJournal<Bytes>, JournalError> {
    let items = words(alloc, texts)?;
    append_all(journal, vol, &items)
}

/// Leaves three words that are synced, and two more that aren't.
fn put_unsynced_words(alloc: Global, vol: &mut MemoryVolume) -> Result<(), JournalError> {
    let journal: VariableJournal<Bytes> = open(vol, words_config(alloc)?, None)?;
    let journal = appended_words(alloc, vol, journal, &[b"one", b"two", b"three"])?;
    let journal = journal.commit(vol)?;
    let _journal = appended_words(alloc, vol, journal, &[b"one", b"two"])?;
    Ok(())
}

/// The bounds of the journal after a crash that leaves the log up to an end.
fn span_after(alloc: Global, vol: &MemoryVolume, end: u64) -> Result<(u64, u64), Fail> {
    let choice = LogChoice {
        name: Bytes::from_slice(alloc, b"log")?,
        version: 0,
        start: 0,
        end,
    };
    let cfg = words_config(alloc)?;
    Ok(VariableJournal::<Bytes>::span(&mut vol.crash(&[choice])?, &cfg)?)
}

#[test]
fn an_unsynced_append_leaves_any_front(rt: HostRuntime) -> Result<(), Fail> {
    let mut vol = MemoryVolume::new(rt.alloc());
    put_unsynced_words(rt.alloc(), &mut vol)?;
    for (end, left) in [(0, 3), (2, 3), (3, 3), (4, 4), (5, 5), (9, 5)] {
        assert!(rt; span_after(rt.alloc(), &vol, end)? == (0, left));
    }
    Ok(())
}

/// A journal that begins at 3, with an item that is synced by each call that can.
fn synced<J: Backing>(
    vol: &mut MemoryVolume,
    cfg: J::Config,
    item: &J::Item,
) -> Result<J, JournalError> {
    let journal = J::clear(vol, cfg, 3)?.finish(vol, 3)?;
    let journal = journal.append(vol, item)?.0.commit(vol)?;
    let (journal, ticket) = journal.start_sync(vol)?;
    ticket.settle()?;
    journal.sync(vol)
}

/// The items that a replay of a journal gives.
fn replayed<J: Contiguous>(
    alloc: Global,
    vol: &mut MemoryVolume,
    journal: &J,
) -> Result<Vec<J::Item>, JournalError> {
    let (start, end) = journal.bounds();
    let mut replay = journal.replay(start, end)?;
    let mut items = Vec::new(alloc);
    for _ in 0..9 {
        match replay.next(vol) {
            None => break,
            Some(item) => items.push(item?)?,
        }
    }
    Ok(items)
}

/// The end behind the last item that fits, of a log that is being opened and then emptied at its end.
fn last_fit<J: Backing, P: Fn(&J::Item) -> bool>(
    vol: &mut MemoryVolume,
    cfg: J::Config,
    predicate: P,
) -> Result<u64, JournalError>
    requires { P.IsAlwaysCallable predicate }
{
    let recovery = J::recover(vol, cfg, None)?;
    let (_, end) = recovery.bounds();
    let found = recovery.last_matching(vol, end, predicate)?;
    recovery.reset(vol, end)?.finish(vol, end)?.destroy(vol)?;
    Ok(found)
}

/// Whether a journal has these items at these positions, and gives them in a replay.
fn gives<J: Contiguous>(
    alloc: Global,
    vol: &mut MemoryVolume,
    journal: &J,
    positions: &[u64],
    want: &[J::Item],
) -> Result<bool, JournalError>
where
    J::Item: PartialEq,
{
    let read = journal.read_many(vol, positions)?;
    let replayed = replayed(alloc, vol, journal)?;
    Ok(read.as_slice() == want && replayed.as_slice() == want)
}

/// Whether the words that each call left are read again.
fn gives_words(alloc: Global, vol: &mut MemoryVolume) -> Result<bool, JournalError> {
    let items = words(alloc, &[b"seven", b"two", b"three"])?;
    let Some((first, others)) = items.split_first() else {
        return Ok(false);
    };
    let journal: VariableJournal<Bytes> = synced(vol, words_config(alloc)?, first)?;
    let journal = append_all(journal, vol, others)?;
    gives(alloc, vol, &journal, &[3, 4, 5], &items)
}

/// Whether the word of three letters is found.
fn finds_word(alloc: Global, vol: &mut MemoryVolume) -> Result<bool, JournalError> {
    let fits = |item: &Bytes| item.len() == 3;
    let found = last_fit::<VariableJournal<Bytes>, _>(vol, words_config(alloc)?, fits)?;
    Ok(found == 5)
}

#[test]
fn each_call_answers_at_items_of_several_sizes(rt: HostRuntime) {
    let mut vol = MemoryVolume::new(rt.alloc());
    let given = gives_words(rt.alloc(), &mut vol);
    let found = finds_word(rt.alloc(), &mut vol);
    assert!(rt; (given, found) == (Ok(true), Ok(true)));
}

/// A journal that begins at 3, with items that are put there by their encodings, and where the first of them stands.
fn put_encoded<J: Backing>(
    alloc: Global,
    vol: &mut MemoryVolume,
    cfg: J::Config,
    items: &[J::Item],
) -> Result<(J, u64), JournalError> {
    let journal = J::clear(vol, cfg, 3)?.finish(vol, 3)?;
    journal.append_encoded(vol, &encode_all(alloc, items)?)
}

#[test]
fn encodings_are_read_as_items(rt: HostRuntime) -> Result<(), Fail> {
    let alloc = rt.alloc();
    let mut vol = MemoryVolume::new(alloc);
    let items = words(alloc, &[b"seven", b"two"])?;
    let (journal, first): (VariableJournal<Bytes>, u64) = put_encoded(
        alloc,
        &mut vol,
        words_config(alloc)?,
        &items,
    )?;
    let given = gives(alloc, &mut vol, &journal, &[3, 4], &items)?;
    let (journal, end) = journal.append_encoded(&mut vol, &[])?;
    assert!(rt; (first, given, end, journal.bounds()) == (3, true, 5, (3, 5)));
    Ok(())
}

/// Whether the numbers that are left are read.
fn gives_numbers(alloc: Global, vol: &mut MemoryVolume) -> Result<bool, JournalError> {
    let items = numbers(alloc, 5)?;
    let journal = numbered(alloc, vol)?;
    gives(
        alloc,
        vol,
        &journal,
        &[2, 3, 4],
        items.get(2..).unwrap_or(&[]),
    )
}

#[test]
fn reads_items_of_one_size_in_their_order(rt: HostRuntime) {
    let mut vol = MemoryVolume::new(rt.alloc());
    assert!(rt; gives_numbers(rt.alloc(), &mut vol) == Ok(true));
}

#[test]
fn laws_hold_of_items_of_several_sizes(_rt: HostRuntime) {
    backing_laws::<VariableJournal<Bytes>>();
    run_laws::<Bytes>(&LengthCfg { max: 9 });
}

/// A step of an opening.
#[derive(Clone, Copy)]
enum Step {
    Unbounded,
    Prune,
    Truncate(u64),
    Clear(u64),
}

/// A log after a step of its opening.
fn after(
    vol: &mut MemoryVolume,
    recovery: Recovery<U64, Fixed>,
    step: Step,
) -> Result<Recovery<U64, Fixed>, JournalError> {
    match step {
        Step::Unbounded => recovery.unbounded(vol),
        Step::Prune => recovery.prune(vol, 4),
        Step::Truncate(size) => recovery.truncate(vol, size),
        Step::Clear(size) => recovery.clear_to_size(vol, size),
    }
}

/// The bounds of a log of five items, of which the first blob is gone, after a step of its opening under a cap of 4.
fn bounds_after(
    alloc: Global,
    vol: &mut MemoryVolume,
    step: Step,
) -> Result<(u64, u64), JournalError> {
    let _journal = numbered(alloc, vol)?;
    let recovery = FixedJournal::<U64>::recover(vol, config(alloc, ())?, Some(4))?;
    Ok(after(vol, recovery, step)?.bounds())
}

#[test]
fn opens_by_steps(rt: HostRuntime) {
    let rows = [
        (Step::Unbounded, Ok((2, 5))),
        (Step::Prune, Ok((4, 4))),
        (Step::Truncate(3), Ok((2, 3))),
        (Step::Truncate(1), Err(JournalError::ItemPruned(1))),
        (Step::Clear(7), Ok((7, 7))),
        (Step::Clear(u64::MAX), Err(JournalError::SizeOverflow)),
    ];
    for (step, want) in rows {
        let mut vol = MemoryVolume::new(rt.alloc());
        assert!(rt; bounds_after(rt.alloc(), &mut vol, step) == want);
    }
}

/// A volume whose log has one item, of these bytes.
fn stored(alloc: Global, text: &[u8]) -> Result<MemoryVolume, VolumeError> {
    let mut vol = MemoryVolume::new(alloc);
    let items = [Bytes::from_vec(text.to_vec(alloc)?)];
    vol.put_log("log", 3, &items)?;
    Ok(vol)
}

/// What a journal answers for its item at 3.
fn read_of<J: Backing>(vol: &mut MemoryVolume, cfg: J::Config) -> Option<JournalError> {
    let journal: J = match open(vol, cfg, None) {
        Ok(journal) => journal,
        Err(error) => return Some(error),
    };
    journal.read(vol, 3).err()
}

#[test]
fn names_where_bytes_are_no_item(rt: HostRuntime) -> Result<(), Fail> {
    // Words of at most two bytes: one is short, one has a byte more, one has a length of two spellings, one is too long.
    let words: [&[u8]; 4] = [&[2, 7], &[0, 7], &[0x80, 0], &[3, 7, 7, 7]];
    for text in words {
        let cfg = config(rt.alloc(), LengthCfg { max: 2 })?;
        let mut vol = stored(rt.alloc(), text)?;
        let read = read_of::<VariableJournal<Bytes>>(&mut vol, cfg);
        assert!(rt; read == Some(JournalError::Corruption(3)));
    }
    Ok(())
}
