//! Chains of batches: where a batch may be read, sealed and applied, and which ancestors it reaches.
ghost use Rattle.std.specs.Prelude.{◌<◌};

use chain_core::{
    BatchId, Bounds, Chained, Commitment, DataFault, Error, Place, Pool, PoolError,
    effective_boundary, merkleizable, validate_batch_applicable, validate_merkleize_floor,
};
use codec_base::ListOf;
use command_text::Refusal;
use std::alloc::Global;
use std::test::Fail;
use tree_shape::{Hasher, Location, Mmr, Sha256Digest, Sha256Hasher};
use volume_base::JournalError;

/// The state of this size whose root is that of one byte.
fn state(size: u64, root: u8) -> Commitment<Mmr, Sha256Digest> {
    let mut hasher = Sha256Hasher::new();
    hasher.update(&[root]);
    Commitment::new(Location::new(size), hasher.finish())
}

/// The bounds of a batch on two others, of which the older one was made at size 10.
fn bounds(alloc: Global) -> Result<Bounds<Mmr, Sha256Digest>, Fail> {
    let mut ancestors = ListOf::new(alloc);
    ancestors.push(state(16, 16))?;
    ancestors.push(state(12, 12))?;
    Ok(Bounds {
        base: state(16, 16),
        db: state(10, 1),
        tip: state(18, 18),
        ancestors,
        inactivity_floor: Location::new(3),
    })
}

/// Whether a batch may be read, and whether it may be applied, at the state of this size and root.
fn is_allowed(bounds: &Bounds<Mmr, Sha256Digest>, size: u64, root: u8) -> (bool, bool) {
    let reads = bounds.compatible(&7u8, state(size, root)).is_ok();
    let ancestors = bounds.ancestors.as_slice();
    let applies = validate_batch_applicable(state(size, root), state(10, 1), ancestors).is_ok();
    (reads, applies)
}

#[test]
fn which_commitments_a_batch_may_read_or_apply_at(rt: HostRuntime) -> Result<(), Fail> {
    let bounds = bounds(rt.alloc())?;
    for (size, root, want) in [
        (18, 18, (true, false)),
        (16, 16, (true, true)),
        (10, 1, (true, true)),
        (16, 99, (false, false)),
        (18, 99, (false, false)),
    ] {
        assert!(rt; is_allowed(&bounds, size, root) == want, "at {size} {root}");
    }
    Ok(())
}

/// Whether a batch without operations is allowed everything at its state.
fn stands_at_its_state(start: &Bounds<Mmr, Sha256Digest>) -> bool {
    let ancestors = start.ancestors.as_slice();
    let boundary = effective_boundary(state(10, 1), Some(state(12, 12)));
    start.tip == state(10, 1)
        && ancestors.is_empty()
        && start.validate_apply_to(start.tip.copied()).is_ok()
        && start.tip.compatible(&7u8, state(10, 1)).is_ok()
        && merkleizable(&7u8, boundary, state(12, 12), ancestors).is_ok()
}

#[test]
fn a_batch_without_operations_stands_at_its_state(rt: HostRuntime) -> Result<(), Fail> {
    let start = Bounds::from_db(rt.alloc(), state(10, 1), Location::new(3))?;
    assert!(rt; stands_at_its_state(&start));
    Ok(())
}

#[test]
fn floors_stand_between_the_one_below_and_the_commit(rt: HostRuntime) {
    let rows = [
        (
            2,
            Err(Error::FloorRegressed(Location::new(2), Location::new(3))),
        ),
        (3, Ok(())),
        (9, Ok(())),
        (
            10,
            Err(Error::FloorBeyondSize(Location::new(10), Location::new(9))),
        ),
    ];
    for (floor, wanted) in rows {
        let (below, floor) = (Location::<Mmr>::new(3), Location::new(floor));
        assert!(rt; validate_merkleize_floor(below, floor, Location::new(9)) == wanted);
    }
}

#[test]
fn faults_have_their_texts(rt: HostRuntime) {
    assert!(rt; Error::<Mmr>::from(JournalError::Volume) == Error::Volume);
    for (fault, text) in [
        (DataFault::CommitOperation, "invalid commit operation"),
        (DataFault::NotACommit, "last operation was not a commit"),
        (DataFault::Witness, "invalid compact witness"),
        (DataFault::NoTip, "witness journal has no tip"),
        (
            DataFault::ImportNotApplied,
            "compact-sync import not applied",
        ),
    ] {
        assert!(rt; fault.text() == text);
    }
}

/// A pool with a chain of three batches, and these, the oldest first.
fn chain(alloc: Global) -> Result<(Pool<char>, [BatchId; 3]), PoolError> {
    let mut pool = Pool::new(alloc);
    let oldest = pool.insert('a', None)?;
    let middle = pool.insert('b', Some(oldest))?;
    let newest = pool.insert('c', Some(middle))?;
    Ok((pool, [oldest, middle, newest]))
}

/// Whether the newest batch reaches its parent and the oldest one, and none once its parent is released.
fn reached(
    pool: &mut Pool<char>,
    [oldest, middle, newest]: [BatchId; 3],
) -> Result<bool, PoolError> {
    let before = pool.ancestors_of(newest)?;
    pool.release(middle)?;
    let behind = pool.ancestors_of(newest)?;
    Ok(before.as_slice() == [middle, oldest].as_slice() && behind.is_empty())
}

/// How often a batch is held when it is held once more, and what it is when that hold is released.
fn held(pool: &mut Pool<char>, id: BatchId) -> Result<(u64, char), PoolError> {
    if pool.holds(id) > 1 {
        return Err(PoolError::NoBatch);
    }
    pool.hold(id)?;
    let holds = pool.holds(id);
    pool.release(id)?;
    Ok((holds, *pool.get(id)?))
}

#[test]
fn a_released_ancestor_ends_the_chain(rt: HostRuntime) -> Result<(), Fail> {
    let (mut pool, [oldest, middle, newest]) = chain(rt.alloc())?;
    assert!(rt; (pool.drawn(), newest.number()) == (3, 2));
    assert!(rt; reached(&mut pool, [oldest, middle, newest]) == Ok(true));
    assert!(rt; pool.get(middle) == Err(PoolError::NoBatch) && pool.is_alive(oldest));
    assert!(rt; pool.parent(newest) == Ok(Some(middle)));
    assert!(rt; held(&mut pool, newest) == Ok((2, 'c')));
    Ok(())
}

/// A sealed batch that is its bounds alone.
#[derive(Drop)]
struct Link {
    bounds: Bounds<Mmr, Sha256Digest>,
}

impl Chained<Mmr, Sha256Digest> for Link {
    ghost bounds_of = { λ link. link.bounds };

    fn bounds(&self) -> &Bounds<Mmr, Sha256Digest> {
        &self.bounds
    }
}

/// A batch of two operations behind this size, in a chain that began at size 1.
fn carried(alloc: Global, size: u64, floor: u64) -> Link
    requires { size < 1000 }
{
    Link {
        bounds: Bounds {
            base: state(size, 0),
            db: state(1, 0),
            tip: state(size + 2, 0),
            ancestors: ListOf::new(alloc),
            inactivity_floor: Location::new(floor),
        },
    }
}

/// The place of a batch on one behind size 3, on one behind size 1 that may be released.
fn place(alloc: Global, is_released: bool) -> Result<Place<Mmr, Sha256Digest>, Fail> {
    let mut pool = Pool::new(alloc);
    let older = pool.insert(carried(alloc, 1, 0), None)?;
    let parent = pool.insert(carried(alloc, 3, 2), Some(older))?;
    if is_released {
        pool.release(older)?;
    }
    Ok(Place::of(&pool, Some(parent), &state(5, 0), Location::new(0))?)
}

/// What is answered to a seal of six operations and a commit of this floor in a place, where the list has this size.
fn sealed_at(place: &Place<Mmr, Sha256Digest>, size: u64, floor: u64) -> Result<u64, Error<Mmr>> {
    place.check(&state(size, 0), 6, Location::new(floor))
}

#[test]
fn a_batch_is_sealed_in_the_place_that_its_living_ancestors_give(
    rt: HostRuntime,
) -> Result<(), Fail> {
    let regressed = Error::FloorRegressed(Location::new(1), Location::new(2));
    let beyond = Error::FloorBeyondSize(Location::new(7), Location::new(6));
    // Whether the older ancestor is released, the size and the floor.
    for (is_released, size, floor, want) in [
        (false, 1, 2, Ok(7)),
        (false, 3, 2, Ok(7)),
        (false, 5, 2, Ok(7)),
        (false, 4, 2, Err(Error::StaleBatch)),
        (false, 5, 1, Err(regressed)),
        (false, 5, 7, Err(beyond)),
        (true, 1, 2, Err(Error::StaleBatch)),
        (true, 3, 2, Ok(7)),
        (true, 5, 2, Ok(7)),
    ] {
        let place = place(rt.alloc(), is_released)?;
        assert!(rt; sealed_at(&place, size, floor) == want, "at {size} {floor}");
    }
    Ok(())
}

#[test]
fn refusals_of_a_seal_are_replies(rt: HostRuntime) {
    let beyond = Error::<Mmr>::FloorBeyondSize(Location::new(7), Location::new(6));
    assert!(rt; beyond.refusal() == Some(Refusal::FloorBeyondSize(7, 6)));
    assert!(rt; Error::<Mmr>::StaleRead.refusal() == None);
}
