//! A small history of a journal, of which each call of the volume fails in turn; and what a crash then leaves, opened again.
use crate::error::TableError;
use crate::images::{count_images, end_of_match};
use crate::stores::{Store, at_last_match, at_most, items, roots};
use auth_journal::Journal;
use memory_volume::MemoryVolume;
use std::alloc::Global;
use tree_core::{Family, Location, Sha256Digest, Sha256Hasher};

/// What a step calls behind its new items.
#[derive(Clone, Copy)]
enum Call {
    Commit,
    Sync,
    StartSync,
    Prune(u8),
    Reopen,
    ReopenAtMost(u8),
}

/// The steps behind the opening: up to how many items the journal grows, and what is then called.
const STEPS: [(u8, Call); 9] = [
    (5, Call::Commit),
    (6, Call::Reopen),
    (6, Call::Sync),
    (8, Call::ReopenAtMost(5)),
    (7, Call::StartSync),
    (8, Call::Prune(3)),
    (9, Call::Commit),
    (10, Call::Reopen),
    (11, Call::Prune(7)),
];

/// As many items as the last step has.
const MOST_ITEMS: u8 = 11;

/// Every third.
const MATCHES: u64 = 585;

/// How far a history came: to which step, the opening being 0, and how many items no crash undoes.
#[derive(Drop)]
struct Came {
    step: u64,
    least: u64,
}

type Kept<F, C> = Journal<F, C, Sha256Hasher>;

/// The journal with more items, up to a number.
fn grown<F: Family, C: Store>(
    alloc: Global,
    vol: &mut MemoryVolume,
    journal: Kept<F, C>,
    count: u8,
) -> Result<Kept<F, C>, TableError> {
    let size = journal.size().as_u64().min(255) as u8;
    if count <= size {
        return Ok(journal);
    }
    let more = items::<C>(alloc, size, count, MATCHES)?;
    let (journal, _) = journal.append_many(vol, &more)?;
    Ok(journal)
}

/// Opens it again, at most at a size. Behind that end nothing need be left.
fn reopened<F: Family, C: Store>(
    alloc: Global,
    vol: &mut MemoryVolume,
    came: &mut Came,
    journal: Kept<F, C>,
    most: Option<u8>,
) -> Result<Kept<F, C>, TableError> {
    let size = journal.size().as_u64();
    drop(journal);
    let opened = match most {
        None => {
            came.least = came.least.min(end_of_match(size));
            at_last_match::<F, C>(alloc, vol)??
        }
        Some(most) => {
            came.least = came.least.min(end_of_match(size.min(u64::from(most))));
            at_most::<F, C>(alloc, vol, u64::from(most))??
        }
    };
    Ok(opened)
}

fn step<F: Family, C: Store>(
    alloc: Global,
    vol: &mut MemoryVolume,
    came: &mut Came,
    journal: Kept<F, C>,
    call: Call,
) -> Result<Kept<F, C>, TableError> {
    match call {
        Call::Commit => Ok(journal.commit(vol)?),
        Call::Sync => Ok(journal.sync(vol)?),
        Call::StartSync => {
            let (journal, ticket) = journal.start_sync(vol)?;
            ticket.settle()?;
            Ok(journal)
        }
        Call::Prune(place) => {
            let (journal, _) = journal.prune(vol, Location::new(u64::from(place)))?;
            Ok(journal)
        }
        Call::Reopen => reopened(alloc, vol, came, journal, None),
        Call::ReopenAtMost(most) => reopened(alloc, vol, came, journal, Some(most)),
    }
}

/// The history, as far as no call fails.
fn run<F: Family, C: Store>(
    alloc: Global,
    vol: &mut MemoryVolume,
    came: &mut Came,
) -> Result<(), TableError> {
    let mut journal = at_last_match::<F, C>(alloc, vol)??;
    for (count, call) in STEPS {
        came.step = came.step.saturating_add(1);
        journal = grown(alloc, vol, journal, count)?;
        journal = step(alloc, vol, came, journal, call)?;
        came.least = journal.size().as_u64();
    }
    Ok(())
}

/// Prints at which step the history ends where a call of the volume fails, and how what a crash leaves is opened. It answers
/// whether the history has so many calls.
fn print_failing<F: Family, C: Store>(
    rt: &impl Print,
    alloc: Global,
    name: &str,
    roots: &[Sha256Digest],
    number: u64,
) -> Result<bool, TableError> {
    let mut vol = MemoryVolume::new(alloc);
    vol.fail_call(number)?;
    let mut came = Came { step: 0, least: 0 };
    let failed = match run::<F, C>(alloc, &mut vol, &mut came) {
        Ok(()) => false,
        Err(TableError::Volume) => true,
        Err(error) => return Err(error),
    };
    if failed {
        print!(rt; "{name} call {number} fails in step {}: ", came.step)?;
    } else {
        print!(rt; "{name} ends: ")?;
    }
    let counted = count_images::<F, C>(alloc, &vol, roots, came.least)?;
    println!(rt;
        "{} of {} images open as reckoned, {} items durable",
        counted.same, counted.all, came.least
    )?;
    Ok(failed)
}

/// Prints the history with each call of the volume failing in turn, and then with none.
pub(crate) fn print_history<F: Family, C: Store>(
    rt: &impl Print,
    alloc: Global,
    name: &str,
) -> Result<(), TableError> {
    let roots = roots::<F, C>(alloc, &items::<C>(alloc, 0, MOST_ITEMS, MATCHES)?)?;
    for number in 1..1000 {
        if !print_failing::<F, C>(rt, alloc, name, &roots, number)? {
            break;
        }
    }
    Ok(())
}
