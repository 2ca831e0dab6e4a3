//! A small history of a tree, of which each call of the volume fails in turn; and what a crash then leaves, opened again.
use crate::error::TableError;
use crate::reckoned::is_as_reckoned;
use crate::trees::{Tree, config, grown, hasher, roots};
use codec_base::Bytes;
use memory_volume::{LogChoice, MemoryVolume};
use merkle_full::Merkle;
use std::alloc::Global;
use tree_core::{Family, Location, Sha256Digest};
use volume_base::Volume;

/// What a step calls behind its new leaves.
#[derive(Clone, Copy)]
enum Call {
    Flush,
    Sync,
    StartSync,
    Prune(u8),
}

/// The steps behind the opening: up to how many leaves the tree grows, and what is then called.
const STEPS: [(u8, Call); 8] = [
    (5, Call::Flush),
    (8, Call::Sync),
    (10, Call::Flush),
    (11, Call::Prune(6)),
    (13, Call::Flush),
    (14, Call::StartSync),
    (15, Call::Flush),
    (15, Call::Prune(15)),
];

/// More than the last step's leaves, and more than their nodes.
const MOST_LEAVES: u8 = 16;

const MOST_NODES: u64 = 32;

/// How far a history came: to which step, the opening being 0, and how many leaves are durable.
#[derive(Drop)]
struct Came {
    step: u64,
    durable: u64,
}

fn step<F: Family>(
    vol: &mut MemoryVolume,
    tree: Tree<F>,
    leaves: u8,
    call: Call,
) -> Result<Tree<F>, TableError> {
    let tree = grown(tree, leaves)?;
    match call {
        Call::Flush => Ok(tree.flush(vol)?),
        Call::Sync => Ok(tree.sync(vol)?),
        Call::StartSync => {
            let (tree, ticket) = tree.start_sync(vol)?;
            ticket.settle()?;
            Ok(tree)
        }
        Call::Prune(boundary) => Ok(tree.prune(vol, Location::new(u64::from(boundary)))?),
    }
}

/// The history, as far as no call fails.
fn run<F: Family>(
    alloc: Global,
    vol: &mut MemoryVolume,
    came: &mut Came,
) -> Result<(), TableError> {
    let mut tree: Tree<F> = Merkle::init(alloc, vol, &hasher(), config(alloc)?)?;
    for (leaves, call) in STEPS {
        came.step = came.step.saturating_add(1);
        tree = step(vol, tree, leaves, call)?;
        if !matches!(call, Call::Flush) {
            came.durable = u64::from(leaves);
        }
    }
    Ok(())
}

/// The volume with the image of the node log from a start to an end, where a version has that.
fn image(
    alloc: Global,
    vol: &MemoryVolume,
    version: u64,
    start: u64,
    end: u64,
) -> Result<Option<MemoryVolume>, TableError> {
    let name = Bytes::from_slice(alloc, b"nodes")?;
    let choice = LogChoice {
        name,
        version,
        start,
        end,
    };
    let mut left = vol.crash(&[choice])?;
    if left.log_bounds("nodes")? == (start, end) {
        return Ok(Some(left));
    }
    Ok(None)
}

/// Of the images of the two newest versions with a start and an end, how many are opened as reckoned with at least so many leaves;
/// and how many there are.
fn count_at<F: Family>(
    alloc: Global,
    vol: &MemoryVolume,
    roots: &[Sha256Digest],
    durable: u64,
    start: u64,
    end: u64,
) -> Result<(u64, u64), TableError> {
    let (mut same, mut all) = (0u64, 0u64);
    for version in 0..2 {
        if let Some(left) = image(alloc, vol, version, start, end)? {
            all = all.saturating_add(1);
            if is_as_reckoned::<F>(alloc, left, roots, durable)? {
                same = same.saturating_add(1);
            }
        }
    }
    Ok((same, all))
}

/// The same of those with a start.
fn count_from<F: Family>(
    alloc: Global,
    vol: &MemoryVolume,
    roots: &[Sha256Digest],
    durable: u64,
    start: u64,
) -> Result<(u64, u64), TableError> {
    let (mut same, mut all) = (0u64, 0u64);
    for end in start..MOST_NODES {
        let (some, more) = count_at::<F>(alloc, vol, roots, durable, start, end)?;
        same = same.saturating_add(some);
        all = all.saturating_add(more);
    }
    Ok((same, all))
}

/// The same of all images.
fn print_images<F: Family>(
    rt: &impl Print,
    alloc: Global,
    vol: &MemoryVolume,
    durable: u64,
) -> Result<(), TableError> {
    let roots = roots::<F>(alloc, MOST_LEAVES)?;
    let (mut same, mut all) = (0u64, 0u64);
    for start in 0..MOST_NODES {
        let (some, more) = count_from::<F>(alloc, vol, &roots, durable, start)?;
        same = same.saturating_add(some);
        all = all.saturating_add(more);
    }
    println!(rt; "{same} of {all} images open as reckoned, {durable} leaves durable")?;
    Ok(())
}

/// Prints at which step the history ends where a call of the volume fails, and how what a crash leaves is opened. It answers
/// whether the history has so many calls.
fn print_failing<F: Family>(
    rt: &impl Print,
    alloc: Global,
    name: &str,
    number: u64,
) -> Result<bool, TableError> {
    let mut vol = MemoryVolume::new(alloc);
    vol.fail_call(number)?;
    let mut came = Came {
        step: 0,
        durable: 0,
    };
    let failed = match run::<F>(alloc, &mut vol, &mut came) {
        Ok(()) => false,
        Err(TableError::Volume) => true,
        Err(error) => return Err(error),
    };
    if failed {
        print!(rt; "{name} call {number} fails in step {}: ", came.step)?;
    } else {
        print!(rt; "{name} ends: ")?;
    }
    print_images::<F>(rt, alloc, &vol, came.durable)?;
    Ok(failed)
}

/// Prints the history with each call of the volume failing in turn, and then with none.
pub(crate) fn print_history<F: Family>(
    rt: &impl Print,
    alloc: Global,
    name: &str,
) -> Result<(), TableError> {
    for number in 1..1000 {
        if !print_failing::<F>(rt, alloc, name, number)? {
            break;
        }
    }
    Ok(())
}
