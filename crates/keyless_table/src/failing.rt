//! A history of which a call of the volume fails, and what a crash then leaves, opened again.
use crate::batches::Batches;
use crate::changes::{changed, grown};
use crate::error::TableError;
use crate::images::{Found, Stop, find_images, stop_of};
use crate::rows::FAILING;
use crate::steps::{Change, Step};
use crate::stores::{Db, Kind, Store, opened};
use memory_volume::MemoryVolume;
use std::alloc::Global;
use tree_core::Family;

/// How far a history came: the states that it had, and the size that no crash undoes.
#[derive(Drop)]
struct Came {
    stops: Vec<Stop>,
    least: u64,
}

impl Came {
    /// One state more, durable or not.
    fn pass(&mut self, stop: Stop, durable: bool) -> Result<(), TableError> {
        self.stops.push(stop)?;
        if durable {
            self.least = stop.size;
        }
        Ok(())
    }
}

/// The database behind a step.
fn taken<F: Family, O: Kind, C: Store<Item = O>>(
    alloc: Global,
    vol: &mut MemoryVolume,
    batches: &mut Batches<F, O>,
    db: Db<F, O, C>,
    step: Step,
) -> Result<Db<F, O, C>, TableError>
where
    O::Value: Drop,
{
    match step {
        Step::Batch(values) => grown(alloc, vol, batches, db, values),
        Step::Change(change) => Ok(changed(alloc, vol, batches, db, change)??),
        _ => Err(TableError::Database),
    }
}

/// The history, as far as no call fails.
fn run<F: Family, O: Kind, C: Store<Item = O>>(
    alloc: Global,
    vol: &mut MemoryVolume,
    batches: &mut Batches<F, O>,
    came: &mut Came,
) -> Result<(), TableError>
where
    O::Value: Drop,
{
    let mut db: Db<F, O, C> = opened(alloc, vol)?;
    came.pass(stop_of(&db), true)?;
    for step in FAILING {
        db = taken(alloc, vol, batches, db, step)?;
        came.pass(stop_of(&db), matches!(step, Step::Change(_)))?;
    }
    Ok(())
}

/// How far the history comes in a volume of which a call may fail, and whether one fails.
fn attempt<F: Family, O: Kind, C: Store<Item = O>>(
    alloc: Global,
    vol: &mut MemoryVolume,
) -> Result<(Came, bool), TableError>
where
    O::Value: Drop,
{
    let mut batches = Batches::new(alloc);
    let mut came = Came {
        stops: Vec::new(alloc),
        least: 0,
    };
    match run::<F, O, C>(alloc, vol, &mut batches, &mut came) {
        Ok(()) => Ok((came, false)),
        Err(TableError::Volume) => Ok((came, true)),
        Err(error) => Err(error),
    }
}

/// Finds how what is left opens where a call of the volume fails. It gives the step in which that is, if there are so
/// many calls.
fn find_failed<F: Family, O: Kind, C: Store<Item = O>>(
    alloc: Global,
    whole: &[Stop],
    number: u64,
    found: &mut Found,
) -> Result<Option<usize>, TableError>
where
    O::Value: Drop,
{
    let mut vol = MemoryVolume::new(alloc);
    vol.fail_call(number)?;
    let (came, failed) = attempt::<F, O, C>(alloc, &mut vol)?;
    if !failed {
        return Ok(None);
    }
    find_images::<F, O, C>(alloc, &vol, whole, came.stops.len(), came.least, found)?;
    Ok(Some(came.stops.len()))
}

/// Prints the steps in which calls of the volume fail, each in turn, and at which sizes what is left opens.
pub(crate) fn print_failing<F: Family, O: Kind, C: Store<Item = O>>(
    rt: &impl Print,
    alloc: Global,
    name: &str,
) -> Result<(), TableError>
where
    O::Value: Drop,
{
    print!(rt; "{name}, calls of the volume fail in steps 0")?;
    let (whole, _) = attempt::<F, O, C>(alloc, &mut MemoryVolume::new(alloc))?;
    let mut found = Found::new();
    let mut last = 0;
    for number in 1..1000 {
        let step = find_failed::<F, O, C>(alloc, &whole.stops, number, &mut found)?;
        let Some(step) = step else {
            break;
        };
        if step != last {
            print!(rt; " {step}")?;
        }
        last = step;
    }
    found.print(rt)
}
