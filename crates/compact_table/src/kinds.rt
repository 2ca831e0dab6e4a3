//! The kinds of operations of which the table has databases.
ghost use Rattle.std.specs.Prelude.{◌≡◌};

use crate::error::TableError;
use codec_base::{Bytes, LengthCfg, U64};
use compact_db::{CompactOperation, UnmerkleizedBatch};
use op_codec::{FixedEncoding, VariableEncoding, immutable, keyless};
use std::alloc::Global;
use tree_core::{Family, Sha256Hasher};

pub(crate) type VariableKeyless<F> = keyless::Operation<F, VariableEncoding<Bytes>>;

pub(crate) type FixedKeyless<F> = keyless::Operation<F, FixedEncoding<U64>>;

pub(crate) type VariableKeyed<F> = immutable::Operation<F, Bytes, VariableEncoding<Bytes>>;

pub(crate) type FixedKeyed<F> = immutable::Operation<F, U64, FixedEncoding<U64>>;

/// An operation of the table.
pub(crate) trait Kind<F: Family>: CompactOperation {
    /// What a commit may be.
    fn codec() -> Self::Cfg;

    /// Adds the operation of a number to a batch.
    fn add(
        alloc: Global,
        batch: &mut UnmerkleizedBatch<F, Self, Sha256Hasher>,
        number: u8,
    ) -> Result<(), TableError>
        ensures parent { batch.new.parent ≡ batch.old.parent };
}

/// The longest byte list that the table has.
const LONGEST: LengthCfg = LengthCfg { max: 8 };

/// An operation that sets a key.
pub(crate) trait Keyed<F: Family>: Kind<F> {
    /// Sets the key of a number to the value of another.
    fn set(
        alloc: Global,
        batch: &mut UnmerkleizedBatch<F, Self, Sha256Hasher>,
        key: u8,
        number: u8,
    ) -> Result<(), TableError>
        ensures parent { batch.new.parent ≡ batch.old.parent };
}

/// The key of a number: eight keys, in another order than the numbers.
fn key_of(number: u8) -> u8 {
    (number & 63) * 3 % 8
}

impl<F: Family> Kind<F> for VariableKeyless<F> {
    fn codec() -> LengthCfg {
        LONGEST
    }

    fn add(
        alloc: Global,
        batch: &mut UnmerkleizedBatch<F, Self, Sha256Hasher>,
        number: u8,
    ) -> Result<(), TableError> {
        let value = Bytes::from_slice(alloc, &[b'a', number])?;
        batch.append(value)?;
        Ok(())
    }
}

impl<F: Family> Kind<F> for FixedKeyless<F> {
    fn codec() {}

    fn add(
        _alloc: Global,
        batch: &mut UnmerkleizedBatch<F, Self, Sha256Hasher>,
        number: u8,
    ) -> Result<(), TableError> {
        batch.append(U64::new(u64::from(number)))?;
        Ok(())
    }
}

impl<F: Family> Kind<F> for VariableKeyed<F> {
    fn codec() -> (LengthCfg, LengthCfg) {
        (LONGEST, LONGEST)
    }

    fn add(
        alloc: Global,
        batch: &mut UnmerkleizedBatch<F, Self, Sha256Hasher>,
        number: u8,
    ) -> Result<(), TableError> {
        Self::set(alloc, batch, key_of(number), number)
    }
}

impl<F: Family> Keyed<F> for VariableKeyed<F> {
    fn set(
        alloc: Global,
        batch: &mut UnmerkleizedBatch<F, Self, Sha256Hasher>,
        key: u8,
        number: u8,
    ) -> Result<(), TableError> {
        let key = Bytes::from_slice(alloc, &[b'k', key])?;
        let value = Bytes::from_slice(alloc, &[b'a', number])?;
        batch.set(key, value)?;
        Ok(())
    }
}

impl<F: Family> Kind<F> for FixedKeyed<F> {
    fn codec() -> ((), ()) {
        ((), ())
    }

    fn add(
        alloc: Global,
        batch: &mut UnmerkleizedBatch<F, Self, Sha256Hasher>,
        number: u8,
    ) -> Result<(), TableError> {
        Self::set(alloc, batch, key_of(number), number)
    }
}

impl<F: Family> Keyed<F> for FixedKeyed<F> {
    fn set(
        _alloc: Global,
        batch: &mut UnmerkleizedBatch<F, Self, Sha256Hasher>,
        key: u8,
        number: u8,
    ) -> Result<(), TableError> {
        batch.set(U64::new(u64::from(key)), U64::new(u64::from(number)))?;
        Ok(())
    }
}
