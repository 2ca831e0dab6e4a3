//! Prints what compact databases answer: without keys and with keys, in both families and both encodings. Of each kind
//! a history of three batches with their operations, proofs, pins and states; what is opened of it under each cap; what
//! is served of it, imported elsewhere and served again; and what its other calls answer.
#![tactic(auto)]

mod calls;
mod error;
mod history;
mod imported;
mod kinds;
mod opened;
mod texts;
mod uncommitted;

use crate::calls::print_calls;
use crate::error::TableError;
use crate::history::{print_history, print_order};
use crate::imported::print_imported;
use crate::kinds::{FixedKeyed, FixedKeyless, Keyed, Kind, VariableKeyed, VariableKeyless};
use crate::opened::print_opened;
use crate::uncommitted::print_uncommitted;
use memory_volume::MemoryVolume;
use std::alloc::Global;
use tree_core::{Family, Mmb, Mmr};

/// Prints the table of one kind of database.
fn print_kind<F: Family, O: Kind<F>>(
    rt: &impl Print,
    alloc: Global,
    name: &str,
) -> Result<(), TableError>
where
    O::Value: Drop,
{
    println!(rt; "{name}")?;
    let mut vol = MemoryVolume::new(alloc);
    print_history::<F, O>(rt, alloc, &mut vol)?;
    print_opened::<F, O>(rt, alloc, &vol)?;
    print_imported::<F, O>(rt, alloc, &mut vol)?;
    print_calls::<F, O>(rt, alloc)
}

/// Prints the table of a kind with keys, a batch with a repeated key first.
fn print_keyed<F: Family, O: Keyed<F>>(
    rt: &impl Print,
    alloc: Global,
    name: &str,
) -> Result<(), TableError>
where
    O::Value: Drop,
{
    println!(rt; "{name}, a repeated key")?;
    print_order::<F, O>(rt, alloc)?;
    print_kind::<F, O>(rt, alloc, name)
}

fn print_family<F: Family>(rt: &impl Print, alloc: Global, name: &str) -> Result<(), TableError> {
    println!(rt; "{name}")?;
    print_kind::<F, VariableKeyless<F>>(rt, alloc, "variable values")?;
    print_kind::<F, FixedKeyless<F>>(rt, alloc, "fixed values")?;
    print_keyed::<F, VariableKeyed<F>>(rt, alloc, "variable keys and values")?;
    print_keyed::<F, FixedKeyed<F>>(rt, alloc, "fixed keys and values")
}

fn main(rt: HostRuntime) -> Result<(), TableError> {
    print_family::<Mmr>(&rt, rt.alloc(), "mmr")?;
    print_family::<Mmb>(&rt, rt.alloc(), "mmb")?;
    print_uncommitted(&rt, rt.alloc())
}
