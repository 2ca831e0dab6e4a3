//! Databases in a volume, of values of any length and of numbers.
ghost use Rattle.std.specs.Prelude.{◌≡◌, codes, string_bytes, IfOk};

use crate::compact::compact_root;
use crate::error::TableError;
use chain_core::Error;
use codec_base::{Bytes, LengthCfg, U64};
use journal_base::{Backing, FixedJournal, JournalConfig, VariableJournal};
use keyless_db::{Config, Keyless, KeylessOperation, fixed, variable};
use memory_volume::MemoryVolume;
use op_codec::{FixedEncoding, VariableEncoding};
use std::alloc::Global;
use std::num::NonZeroU64;
use tree_core::{Family, Location, Sha256Digest, Sha256Hasher};

pub(crate) type Db<F, O, C> = Keyless<F, O, C, Sha256Hasher>;

/// The longest byte list that the table has.
const LONGEST: LengthCfg = LengthCfg { max: 8 };

/// An operation of the table.
pub(crate) trait Kind: KeylessOperation {
    /// The value of a number.
    fn valued(alloc: Global, number: u8) -> Result<Self::Value, TableError>;

    /// A value in hexadecimal digits.
    fn shown(alloc: Global, value: &Self::Value) -> Result<String, TableError>;

    /// The root of a compact database behind a batch of the values of 1 and 2.
    fn compact_root(alloc: Global) -> Result<Sha256Digest, TableError>;
}

impl<F: Family> Kind for variable::Operation<F, Bytes> {
    fn valued(alloc: Global, number: u8) -> Result<Bytes, TableError> {
        Ok(Bytes::from_slice(alloc, &[(number & 63) + 96])?)
    }

    fn shown(alloc: Global, value: &Bytes) -> Result<String, TableError> {
        Ok(hex::encode(alloc, value.as_slice())?)
    }

    fn compact_root(alloc: Global) -> Result<Sha256Digest, TableError> {
        let first = Self::valued(alloc, 1)?;
        let second = Self::valued(alloc, 2)?;
        compact_root::<F, VariableEncoding<Bytes>>(alloc, LONGEST, first, second)
    }
}

impl<F: Family> Kind for fixed::Operation<F, U64> {
    fn valued(_alloc: Global, number: u8) -> Result<U64, TableError> {
        Ok(U64::new(u64::from(number)))
    }

    fn shown(alloc: Global, value: &U64) -> Result<String, TableError> {
        Ok(hex::encode(alloc, &value.get().to_be_bytes())?)
    }

    fn compact_root(alloc: Global) -> Result<Sha256Digest, TableError> {
        compact_root::<F, FixedEncoding<U64>>(alloc, (), U64::new(1), U64::new(2))
    }
}

/// A log of operations.
pub(crate) trait Store: Backing {
    /// Seven operations a blob.
    fn settings(alloc: Global) -> Result<Self::Config, TableError>
        ensures { IfOk result (λ cfg. (Self.config cfg).name ≡ codes "operations") };
}

impl<F: Family> Store for VariableJournal<variable::Operation<F, Bytes>> {
    fn settings(alloc: Global) -> Result<JournalConfig<LengthCfg>, TableError> {
        Ok(JournalConfig {
            name: String::from_str(alloc, "operations")?,
            items_per_blob: NonZeroU64::new(7).ok_or(TableError::Database)?,
            codec: LONGEST,
        })
    }
}

impl<F: Family> Store for FixedJournal<fixed::Operation<F, U64>> {
    fn settings(alloc: Global) -> Result<JournalConfig<()>, TableError> {
        Ok(JournalConfig {
            name: String::from_str(alloc, "operations")?,
            items_per_blob: NonZeroU64::new(7).ok_or(TableError::Database)?,
            codec: (),
        })
    }
}

/// Eleven nodes a blob, and four operations that are replayed at a time.
fn config<C: Store>(alloc: Global) -> Result<Config<C::Config>, TableError>
    ensures log { IfOk result (λ cfg. (C.config cfg.log).name ≡ codes "operations") }
    ensures nodes { IfOk result (λ cfg. string_bytes cfg.merkle.nodes ≡ codes "nodes") }
{
    Ok(Config {
        merkle: merkle_full::Config {
            nodes: String::from_str(alloc, "nodes")?,
            items_per_blob: NonZeroU64::new(11).ok_or(TableError::Database)?,
            metadata: String::from_str(alloc, "pins")?,
        },
        log: C::settings(alloc)?,
        apply_batch: NonZeroU64::new(4).ok_or(TableError::Database)?,
    })
}

/// What is opened in a volume, under a cap if there is one.
pub(crate) fn opening<F: Family, O: Kind, C: Store<Item = O>>(
    alloc: Global,
    vol: &mut MemoryVolume,
    cap: Option<u64>,
) -> Result<Result<Db<F, O, C>, Error<F>>, TableError> {
    let cfg = config::<C>(alloc)?;
    let most = match cap {
        Some(size) => Some(Location::new(size)),
        None => None,
    };
    Ok(Keyless::init(alloc, vol, cfg, most))
}

/// The database of a volume.
pub(crate) fn opened<F: Family, O: Kind, C: Store<Item = O>>(
    alloc: Global,
    vol: &mut MemoryVolume,
) -> Result<Db<F, O, C>, TableError> {
    Ok(opening(alloc, vol, None)??)
}
