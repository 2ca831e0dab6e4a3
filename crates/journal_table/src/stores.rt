//! Journals in a volume: of numbers, each of eight bytes, and of texts of any length.
ghost use Rattle.std.specs.Prelude.{◌≡◌, codes, string_bytes, IfOk};

use crate::error::TableError;
use auth_journal::{Error, Journal};
use codec_base::{Bytes, LengthCfg, encode};
use journal_base::{Backing, BackingRecovery, FixedJournal, JournalConfig, VariableJournal};
use memory_volume::MemoryVolume;
use merkle_full::{Config, Merkle};
use std::alloc::Global;
use std::num::NonZeroU64;
use tree_core::{Bagging, Family, Location, Mem, Sha256Digest, Sha256Hasher, Standard};

pub(crate) type Opened<F, C> = Result<Journal<F, C, Sha256Hasher>, Error<F>>;

/// A log of items, of which every third matches unless it is said which do.
pub(crate) trait Store: Backing {
    /// Two items a blob.
    fn settings(alloc: Global) -> Result<Self::Config, TableError>
        ensures { IfOk result (λ cfg. (Self.config cfg).name ≡ codes "items") };

    /// The item of a number, that matches or doesn't.
    fn item(alloc: Global, number: u8, matching: bool) -> Result<Self::Item, TableError>;

    /// Whether it matches.
    fn is_match(item: &Self::Item) -> bool;
}

impl Store for FixedJournal<u64> {
    fn settings(alloc: Global) -> Result<JournalConfig<()>, TableError> {
        Ok(JournalConfig {
            name: String::from_str(alloc, "items")?,
            items_per_blob: NonZeroU64::new(2).ok_or(TableError::Journal)?,
            codec: (),
        })
    }

    fn item(_: Global, number: u8, matching: bool) -> Result<u64, TableError> {
        Ok(u64::from(number) * 2 + u64::from(matching))
    }

    fn is_match(item: &u64) -> bool {
        *item % 2 == 1
    }
}

impl Store for VariableJournal<Bytes> {
    fn settings(alloc: Global) -> Result<JournalConfig<LengthCfg>, TableError> {
        Ok(JournalConfig {
            name: String::from_str(alloc, "items")?,
            items_per_blob: NonZeroU64::new(2).ok_or(TableError::Journal)?,
            codec: LengthCfg { max: 300 },
        })
    }

    fn item(alloc: Global, number: u8, matching: bool) -> Result<Bytes, TableError> {
        let mut item = Bytes::new(alloc);
        item.extend_from_slice(&[u8::from(matching)])?;
        for _ in 0..number {
            item.extend_from_slice(&[number])?;
        }
        Ok(item)
    }

    fn is_match(item: &Bytes) -> bool {
        item.as_slice().first() == Some(&1)
    }
}

/// Three nodes a blob.
pub(crate) fn nodes(alloc: Global) -> Result<Config, TableError>
    ensures { IfOk result (λ cfg. string_bytes cfg.nodes ≡ codes "nodes") }
{
    Ok(Config {
        nodes: String::from_str(alloc, "nodes")?,
        items_per_blob: NonZeroU64::new(3).ok_or(TableError::Tree)?,
        metadata: String::from_str(alloc, "pins")?,
    })
}

/// It folds forward.
pub(crate) fn hasher() -> Standard<Sha256Hasher> {
    Standard::new(Bagging::ForwardFold)
}

/// Two items are replayed at a time.
pub(crate) fn piece() -> Result<NonZeroU64, TableError> {
    NonZeroU64::new(2).ok_or(TableError::Journal)
}

/// The journal up to its last match.
pub(crate) fn at_last_match<F: Family, C: Store>(
    alloc: Global,
    vol: &mut MemoryVolume,
) -> Result<Opened<F, C>, TableError> {
    let tree = nodes(alloc)?;
    let log = C::settings(alloc)?;
    let piece = piece()?;
    Ok(Journal::new(
        alloc,
        vol,
        tree,
        log,
        |item| C::is_match(item),
        Bagging::ForwardFold,
        piece,
    ))
}

/// The journal up to its last match at or below a size.
pub(crate) fn at_most<F: Family, C: Store>(
    alloc: Global,
    vol: &mut MemoryVolume,
    size: u64,
) -> Result<Opened<F, C>, TableError> {
    let tree = nodes(alloc)?;
    let log = C::settings(alloc)?;
    let piece = piece()?;
    Ok(Journal::init_at_most(
        alloc,
        vol,
        tree,
        log,
        size,
        |item| C::is_match(item),
        Bagging::ForwardFold,
        piece,
    ))
}

/// The tree of a journal in the volume, of at most so many leaves.
pub(crate) fn first_leaves<F: Family>(
    alloc: Global,
    vol: &mut MemoryVolume,
    leaves: u8,
) -> Result<Merkle<F, Sha256Digest>, TableError>
    ensures { IfOk result (λ tree. tree.log.name ≡ codes "nodes") }
{
    let settings = nodes(alloc)?;
    let most = Location::new(u64::from(leaves));
    let tree = Merkle::init_at_most(alloc, vol, &hasher(), settings, most)?;
    Ok(tree)
}

/// The log of a journal in the volume, cut to so many items.
pub(crate) fn first_items<C: Store>(
    alloc: Global,
    vol: &mut MemoryVolume,
    count: u8,
) -> Result<C, TableError>
    ensures { IfOk result (λ log. (C.view log).name ≡ codes "items") }
{
    let settings = C::settings(alloc)?;
    let seen = C::recover(vol, settings, None)?;
    let log = seen.finish(vol, u64::from(count))?;
    Ok(log)
}

/// The items from one number up to another; of the number i matches where the bit i of a mask is set.
pub(crate) fn items<C: Store>(
    alloc: Global,
    from: u8,
    to: u8,
    mask: u64,
) -> Result<Vec<C::Item>, TableError> {
    let mut items = Vec::new(alloc);
    for number in from..to {
        items.push(C::item(alloc, number, (mask >> number.min(63)) % 2 == 1)?)?;
    }
    Ok(items)
}

/// The roots of the first of these items, of none first.
pub(crate) fn roots<F: Family, C: Store>(
    alloc: Global,
    items: &[C::Item],
) -> Result<Vec<Sha256Digest>, TableError> {
    let mut roots = Vec::new(alloc);
    let mut mem: Mem<F, Sha256Digest> = Mem::new(alloc)?;
    roots.push(mem.root(&hasher(), 0)?)?;
    for item in items {
        let mut batch = mem.new_batch()?;
        batch.add(&hasher(), encode(alloc, item)?.as_slice())?;
        let sealed = batch.merkleize(&hasher(), 0)?;
        mem.apply_batch(&sealed)?;
        roots.push(mem.root(&hasher(), 0)?)?;
    }
    Ok(roots)
}
