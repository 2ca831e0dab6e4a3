//! What calls answer that only read.
use crate::batches::{Batch, Batches};
use crate::error::TableError;
use crate::steps::{Ask, BatchAsk};
use crate::stores::{Db, Kind, Store};
use crate::texts::{
    print_digests, print_operation, print_operations, print_proof, print_refusal, print_value,
};
use chain_core::Error;
use memory_volume::MemoryVolume;
use std::alloc::Global;
use std::num::NonZeroU64;
use target_codec::{Request, Response};
use tree_core::{Family, Location, Proof, Sha256Digest};

/// Locations of these numbers.
pub(crate) fn locations<F: Family>(
    alloc: Global,
    places: &[u64],
) -> Result<Vec<Location<F>>, TableError> {
    let mut found = Vec::new(alloc);
    for place in places {
        found.push(Location::new(*place))?;
    }
    Ok(found)
}

/// The answer of a read.
pub(crate) fn print_one<F: Family, O: Kind>(
    rt: &impl Print,
    alloc: Global,
    answer: Result<Option<O::Value>, Error<F>>,
) -> Result<(), TableError>
where
    O::Value: Drop,
{
    match answer {
        Ok(value) => {
            print_value::<O>(rt, alloc, &value)?;
            println!(rt; "")?;
            Ok(())
        }
        Err(error) => print_refusal(rt, error),
    }
}

/// The values, and the end of the line.
fn print_values<O: Kind>(
    rt: &impl Print,
    alloc: Global,
    values: &[Option<O::Value>],
) -> Result<(), TableError> {
    for value in values {
        print_value::<O>(rt, alloc, value)?;
    }
    println!(rt; "")?;
    Ok(())
}

/// The answer of a read of several places.
pub(crate) fn print_many<F: Family, O: Kind>(
    rt: &impl Print,
    alloc: Global,
    answer: Result<Vec<Option<O::Value>>, Error<F>>,
) -> Result<(), TableError>
where
    O::Value: Drop,
{
    match answer {
        Ok(values) => print_values::<O>(rt, alloc, values.as_slice()),
        Err(error) => print_refusal(rt, error),
    }
}

/// The pins that are answered with.
fn print_pins<F: Family>(
    rt: &impl Print,
    alloc: Global,
    answer: Result<Vec<Sha256Digest>, Error<F>>,
) -> Result<(), TableError> {
    match answer {
        Ok(pins) => print_digests(rt, alloc, pins.as_slice()),
        Err(error) => print_refusal(rt, error),
    }
}

/// The operations that are answered with, and their proof.
fn print_proved<F: Family, O: Kind>(
    rt: &impl Print,
    alloc: Global,
    answer: Result<(Proof<F, Sha256Digest>, Vec<O>), Error<F>>,
) -> Result<(), TableError> {
    match answer {
        Ok((proof, operations)) => {
            print_operations(rt, alloc, operations.as_slice())?;
            print!(rt; "   ")?;
            print_proof(rt, alloc, &proof)
        }
        Err(error) => print_refusal(rt, error),
    }
}

/// What a follower is given: operations, or one with the nodes before it; and the proof.
fn print_served<F: Family, O: Kind>(
    rt: &impl Print,
    alloc: Global,
    answer: Result<Response<F, O, Sha256Digest>, Error<F>>,
) -> Result<(), TableError> {
    match answer {
        Ok(Response::Operations { proof, operations }) => {
            print_operations(rt, alloc, operations.as_slice())?;
            print!(rt; "   ")?;
            print_proof(rt, alloc, &proof)
        }
        Ok(
            Response::Boundary {
                proof,
                op,
                pinned_nodes,
            },
        ) => {
            print_operation(rt, alloc, &op)?;
            println!(rt; "")?;
            print!(rt; "   ")?;
            print_proof(rt, alloc, &proof)?;
            print!(rt; "    behind")?;
            print_digests(rt, alloc, pinned_nodes.as_slice())
        }
        Err(error) => print_refusal(rt, error),
    }
}

/// What a follower asks.
fn request<F: Family>(
    size: u64,
    start: u64,
    most: u64,
    alone: bool,
) -> Result<Request<F>, TableError> {
    let max_ops = NonZeroU64::new(most).ok_or(TableError::Database)?;
    let (size, start) = (Location::new(size), Location::new(start));
    Ok(if alone {
        Request::Boundary {
            size,
            start,
            max_ops,
        }
    } else {
        Request::Operations {
            size,
            start,
            max_ops,
        }
    })
}

/// The proof that a batch answers with.
fn print_batch_proof<F: Family>(
    rt: &impl Print,
    alloc: Global,
    answer: Result<Proof<F, Sha256Digest>, Error<F>>,
) -> Result<(), TableError> {
    match answer {
        Ok(proof) => print_proof(rt, alloc, &proof),
        Err(error) => print_refusal(rt, error),
    }
}

/// What a call of a sealed batch answers.
fn print_batch_answer<F: Family, O: Kind, C: Store<Item = O>>(
    rt: &impl Print,
    alloc: Global,
    vol: &mut MemoryVolume,
    batch: &Batch<F, O>,
    db: &Db<F, O, C>,
    ask: BatchAsk,
) -> Result<(), TableError>
where
    O::Value: Drop,
{
    match ask {
        BatchAsk::Get(place) => {
            print_one::<F, O>(rt, alloc, batch.get(vol, db, Location::new(place)))
        }
        BatchAsk::GetMany(places) => {
            let places = locations(alloc, places)?;
            print_many::<F, O>(rt, alloc, batch.get_many(vol, db, &places))
        }
        BatchAsk::Proof => print_batch_proof(rt, alloc, batch.proof(db)),
        BatchAsk::Pins => print_pins::<F>(rt, alloc, batch.pinned_nodes(db)),
    }
}

/// What a call answers.
pub(crate) fn print_answer<F: Family, O: Kind, C: Store<Item = O>>(
    rt: &impl Print,
    alloc: Global,
    vol: &mut MemoryVolume,
    batches: &Batches<F, O>,
    db: &Db<F, O, C>,
    ask: Ask,
) -> Result<(), TableError>
where
    O::Value: Drop,
{
    match ask {
        Ask::Get(place) => print_one::<F, O>(rt, alloc, db.get(vol, Location::new(place))),
        Ask::GetMany(places) => {
            let places = locations(alloc, places)?;
            print_many::<F, O>(rt, alloc, db.get_many(vol, &places))
        }
        Ask::Proof(size, start, most) => {
            let most = NonZeroU64::new(most).ok_or(TableError::Database)?;
            let (size, start) = (Location::new(size), Location::new(start));
            print_proved::<F, O>(rt, alloc, db.historical_proof(vol, size, start, most))
        }
        Ask::Boundary => {
            println!(rt; " {}", db.sync_boundary().as_u64())?;
            Ok(())
        }
        Ask::Present(start, most) => {
            let most = NonZeroU64::new(most).ok_or(TableError::Database)?;
            print_proved::<F, O>(rt, alloc, db.proof(vol, Location::new(start), most))
        }
        Ask::Serve(size, start, most) => {
            let asked = request(size, start, most, false)?;
            print_served::<F, O>(rt, alloc, db.serve(vol, asked))
        }
        Ask::ServeBoundary(size, start) => {
            let asked = request(size, start, 1, true)?;
            print_served::<F, O>(rt, alloc, db.serve(vol, asked))
        }
        Ask::Pins(place) => {
            print_pins::<F>(rt, alloc, db.pinned_nodes_at(vol, Location::new(place)))
        }
        Ask::Batch(number, ask) => {
            print_batch_answer(rt, alloc, vol, batches.batch(number)?, db, ask)
        }
    }
}
