//! What comes of an import of an operation that is no commit.
use crate::error::TableError;
use crate::history::config;
use crate::kinds::{Kind, VariableKeyless};
use crate::texts::Db;
use chain_core::Error;
use codec_base::Bytes;
use memory_volume::MemoryVolume;
use op_codec::keyless::Operation;
use std::alloc::Global;
use tree_core::{Family, Location, Mmr};

/// Imports an operation as the last of four, and prints where it isn't taken for a commit.
fn print_import<F: Family, O: Kind<F>>(
    rt: &impl Print,
    alloc: Global,
    operation: O,
) -> Result<(), TableError>
where
    O::Value: Drop,
{
    let mut vol = MemoryVolume::new(alloc);
    let cfg = config::<F, O>(alloc)?;
    let pins = Vec::new(alloc);
    let db: Result<Db<F, O>, Error<F>> = Db::import(
        alloc,
        &mut vol,
        cfg,
        Location::new(3),
        pins,
        operation,
    );
    match db.err() {
        Some(Error::UnexpectedData(at)) => {
            println!(rt; "unexpected data at {}", at.as_u64())?;
            Ok(())
        }
        _ => Err(TableError::Database),
    }
}

/// Prints that an append isn't imported.
pub(crate) fn print_uncommitted(rt: &impl Print, alloc: Global) -> Result<(), TableError> {
    let value = Bytes::from_slice(alloc, b"a")?;
    let append: VariableKeyless<Mmr> = Operation::Append(value);
    print!(rt; "an append is imported: ")?;
    print_import(rt, alloc, append)
}
