//! What is opened of a history under caps.
use crate::error::TableError;
use crate::history::config;
use crate::kinds::Kind;
use crate::texts::{Db, print_state};
use chain_core::Error;
use memory_volume::MemoryVolume;
use std::alloc::Global;
use tree_core::{Family, Location};

/// The caps under which the history is opened.
const CAPS: [u64; 16] = [0, 1, 2, 3, 4, 5, 6, 7, 8, 9, 10, 11, 12, 13, 14, 100];

/// Prints what is opened of a copy of the volume under a cap, or why nothing is.
fn print_cap<F: Family, O: Kind<F>>(
    rt: &impl Print,
    alloc: Global,
    vol: &MemoryVolume,
    cap: u64,
) -> Result<(), TableError>
where
    O::Value: Drop,
{
    let mut copy = vol.crash(&[])?;
    let cfg = config::<F, O>(alloc)?;
    let opened: Result<Db<F, O>, Error<F>> = Db::init(
        alloc,
        &mut copy,
        cfg,
        Some(Location::new(cap)),
    );
    print!(rt; "  cap {cap}: ")?;
    match opened {
        Ok(db) => print_state(rt, alloc, &db),
        Err(Error::InvalidInitializationBound) => {
            println!(rt; "invalid bound")?;
            Ok(())
        }
        Err(error) => Err(error.into()),
    }
}

/// Prints what is opened under each cap.
pub(crate) fn print_opened<F: Family, O: Kind<F>>(
    rt: &impl Print,
    alloc: Global,
    vol: &MemoryVolume,
) -> Result<(), TableError>
where
    O::Value: Drop,
{
    for cap in CAPS {
        print_cap::<F, O>(rt, alloc, vol, cap)?;
    }
    Ok(())
}
