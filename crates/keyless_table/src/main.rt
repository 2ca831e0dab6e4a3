//! Prints what full databases answer, in both families and both encodings: small histories of batches, each with what
//! is read, proved, pruned and refused of it, and beside the first the root of its compact database; a batch with
//! metadata and a snapshot, with what their other calls answer; what is opened of a history under each cap; and how
//! what a crash leaves is opened where each call of the volume fails in turn.
#![tactic(auto)]

mod answers;
mod batches;
mod calls;
mod changes;
mod compact;
mod error;
mod failing;
mod histories;
mod images;
mod labels;
mod rows;
mod steps;
mod stores;
mod texts;

use crate::calls::print_calls;
use crate::error::TableError;
use crate::failing::print_failing;
use crate::histories::{print_bounded, print_history};
use crate::rows::{ABOVE, CHAIN, EQUAL, FIRST, FLOORS, FOLLOWED, PRUNED, REPLACED, SIBLINGS};
use crate::stores::{Kind, Store};
use codec_base::{Bytes, U64};
use journal_base::{FixedJournal, VariableJournal};
use keyless_db::{fixed, initial_root, variable};
use std::alloc::Global;
use tree_core::{Digest, Family, Mmb, Mmr, Sha256Hasher};

/// Prints the root of a compact database behind the first batch.
fn print_compact<O: Kind>(rt: &impl Print, alloc: Global) -> Result<(), TableError> {
    let root = O::compact_root(alloc)?;
    println!(rt;
        " one batch of the compact database: root {}",
        hex::encode(alloc, root.as_slice())?
    )?;
    Ok(())
}

/// Prints the root of the first commit alone.
fn print_initial<F: Family, O: Kind>(rt: &impl Print, alloc: Global) -> Result<(), TableError> {
    let root = initial_root::<F, O, Sha256Hasher>(alloc)?;
    println!(rt;
        " the first commit: root {}",
        hex::encode(alloc, root.as_slice())?
    )?;
    Ok(())
}

/// Prints the table of one kind of database.
fn print_kind<F: Family, O: Kind, C: Store<Item = O>>(
    rt: &impl Print,
    alloc: Global,
    name: &str,
) -> Result<(), TableError>
where
    O::Value: Drop,
{
    println!(rt; "{name}")?;
    print_compact::<O>(rt, alloc)?;
    print_initial::<F, O>(rt, alloc)?;
    print_history::<F, O, C>(rt, alloc, "one batch", &FIRST)?;
    print_history::<F, O, C>(rt, alloc, "a batch on a batch", &CHAIN)?;
    print_history::<F, O, C>(rt, alloc, "two batches on one database", &SIBLINGS)?;
    print_history::<F, O, C>(rt, alloc, "two equal batches on one database", &EQUAL)?;
    print_history::<F, O, C>(rt, alloc, "refused floors, and a read below one", &FLOORS)?;
    print_history::<F, O, C>(rt, alloc, "fifteen batches, pruned", &PRUNED)?;
    print_history::<F, O, C>(rt, alloc, "a prune above the floor", &ABOVE)?;
    print_history::<F, O, C>(rt, alloc, "a batch after another history", &REPLACED)?;
    print_history::<F, O, C>(rt, alloc, "followed, and taken away", &FOLLOWED)?;
    print_calls::<F, O, C>(rt, alloc)?;
    print_bounded::<F, O, C>(rt, alloc)
}

type VariableLog<F> = VariableJournal<variable::Operation<F, Bytes>>;

type FixedLog<F> = FixedJournal<fixed::Operation<F, U64>>;

fn print_family<F: Family>(rt: &impl Print, alloc: Global, name: &str) -> Result<(), TableError> {
    println!(rt; "{name}")?;
    print_kind::<F, variable::Operation<F, Bytes>, VariableLog<F>>(rt, alloc, "variable values")?;
    print_kind::<F, fixed::Operation<F, U64>, FixedLog<F>>(rt, alloc, "fixed values")
}

fn main(rt: HostRuntime) -> Result<(), TableError> {
    let alloc = rt.alloc();
    print_family::<Mmr>(&rt, alloc, "mmr")?;
    print_family::<Mmb>(&rt, alloc, "mmb")?;
    print_failing::<Mmr, variable::Operation<Mmr, Bytes>, VariableLog<Mmr>>(&rt, alloc, "mmr")?;
    print_failing::<Mmb, fixed::Operation<Mmb, U64>, FixedLog<Mmb>>(&rt, alloc, "mmb")
}
