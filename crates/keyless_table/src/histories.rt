//! How a history is printed.
use crate::answers::print_answer;
use crate::batches::Batches;
use crate::changes::{changed, grown};
use crate::error::TableError;
use crate::labels::print_label;
use crate::rows::HISTORY;
use crate::steps::{Change, Step, Values};
use crate::stores::{Db, Kind, Store, opened, opening};
use crate::texts::{print_refusal, print_state};
use memory_volume::MemoryVolume;
use std::alloc::Global;
use tree_core::{Digest, Family};

/// Seals a batch, and prints its size and root, or why it isn't sealed.
fn print_seal<F: Family, O: Kind, C: Store<Item = O>>(
    rt: &impl Print,
    alloc: Global,
    batches: &mut Batches<F, O>,
    db: &Db<F, O, C>,
    parent: Option<usize>,
    values: Values,
) -> Result<(), TableError>
where
    O::Value: Drop,
{
    let number = batches.count();
    match batches.seal(alloc, db, parent, values)? {
        Ok(()) => {
            let batch = batches.batch(number)?;
            let size = batch.size().as_u64();
            println!(rt; " {size} {}", hex::encode(alloc, batch.root().as_slice())?)?;
            Ok(())
        }
        Err(error) => print_refusal(rt, error),
    }
}

/// Changes a database, and prints its state, or why it isn't changed; then it is opened again.
fn print_changed<F: Family, O: Kind, C: Store<Item = O>>(
    rt: &impl Print,
    alloc: Global,
    vol: &mut MemoryVolume,
    batches: &Batches<F, O>,
    db: Db<F, O, C>,
    change: Change,
) -> Result<Db<F, O, C>, TableError> {
    match changed(alloc, vol, batches, db, change)? {
        Ok(db) => {
            print_state(rt, alloc, &db)?;
            Ok(db)
        }
        Err(error) => {
            print_refusal(rt, error)?;
            opened(alloc, vol)
        }
    }
}

/// Prints a step.
fn print_step<F: Family, O: Kind, C: Store<Item = O>>(
    rt: &impl Print,
    alloc: Global,
    vol: &mut MemoryVolume,
    batches: &mut Batches<F, O>,
    db: Db<F, O, C>,
    step: Step,
) -> Result<Db<F, O, C>, TableError>
where
    O::Value: Drop,
{
    print_label(rt, step)?;
    match step {
        Step::Seal(parent, values) => {
            print_seal(rt, alloc, batches, &db, parent, values)?;
            Ok(db)
        }
        Step::Batch(values) => {
            let db = grown(alloc, vol, batches, db, values)?;
            print_state(rt, alloc, &db)?;
            Ok(db)
        }
        Step::Ask(ask) => {
            print_answer(rt, alloc, vol, batches, &db, ask)?;
            Ok(db)
        }
        Step::Change(change) => print_changed(rt, alloc, vol, batches, db, change),
    }
}

/// Prints the steps of a database that begins in a volume.
fn print_steps<F: Family, O: Kind, C: Store<Item = O>>(
    rt: &impl Print,
    alloc: Global,
    vol: &mut MemoryVolume,
    batches: &mut Batches<F, O>,
    steps: &[Step],
) -> Result<(), TableError>
where
    O::Value: Drop,
{
    let mut db: Db<F, O, C> = opened(alloc, vol)?;
    for step in steps {
        db = print_step(rt, alloc, vol, batches, db, *step)?;
    }
    Ok(())
}

/// Prints a history.
pub(crate) fn print_history<F: Family, O: Kind, C: Store<Item = O>>(
    rt: &impl Print,
    alloc: Global,
    name: &str,
    steps: &[Step],
) -> Result<(), TableError>
where
    O::Value: Drop,
{
    println!(rt; " {name}")?;
    let mut vol = MemoryVolume::new(alloc);
    let mut batches = Batches::new(alloc);
    print_steps::<F, O, C>(rt, alloc, &mut vol, &mut batches, steps)
}

/// Prints what is opened of a copy of the volume under a cap, or why nothing is.
fn print_cap<F: Family, O: Kind, C: Store<Item = O>>(
    rt: &impl Print,
    alloc: Global,
    vol: &MemoryVolume,
    cap: u64,
) -> Result<(), TableError> {
    let mut copy = vol.crash(&[])?;
    print!(rt; "  cap {cap}:")?;
    match opening::<F, O, C>(alloc, &mut copy, Some(cap))? {
        Ok(db) => print_state(rt, alloc, &db),
        Err(error) => print_refusal(rt, error),
    }
}

/// Prints a history of three batches, and what is opened of it under each cap.
pub(crate) fn print_bounded<F: Family, O: Kind, C: Store<Item = O>>(
    rt: &impl Print,
    alloc: Global,
) -> Result<(), TableError>
where
    O::Value: Drop,
{
    println!(rt; " three batches, opened under caps")?;
    let mut vol = MemoryVolume::new(alloc);
    let mut batches = Batches::new(alloc);
    print_steps::<F, O, C>(rt, alloc, &mut vol, &mut batches, &HISTORY)?;
    for cap in [0, 1, 2, 3, 4, 5, 6, 7, 8, 9, 10, 11, 12, 13, 14, 100] {
        print_cap::<F, O, C>(rt, alloc, &vol, cap)?;
    }
    Ok(())
}
