//! Where a batch may be sealed.
ghost use Rattle.std.specs.Prelude.{◌≡◌, ◌+◌, ◌-◌, ◌<◌, ◌^◌, IfOk, IsOkUnless};
ghost use Rattle.std.specs.Option.{ForSome};
ghost use Rattle.chain_core.specs.Slots.{IsAlive};
ghost use Rattle.chain_core.specs.Commitments.{later_state};
ghost use Rattle.chain_core.specs.Reached.{IsPlaceOf};
ghost use Rattle.chain_core.specs.Sealing.{place_refusal, Refuses};

use crate::{
    BatchId, Chained, Commitment, Error, Pool, PoolError, Reach, effective_boundary, reach_of,
    validate_batch_applicable, validate_merkleize_floor,
};
use codec_base::ListOf;
use tree_shape::{Digest, Location, MAX_LEAVES};

/// What holds for a batch that is sealed now: where its chain begins, the tips that it reaches, the newest first, and the floor that it builds on.
#[derive(Drop)]
pub struct Place<F, D> {
    pub boundary: Commitment<F, D>,
    pub ancestors: ListOf<Commitment<F, D>>,
    pub floor: Location<F>,
}

/// The place of a batch with this reach, which inherits this boundary and builds on this floor.
fn reached<F: Drop, D: Digest>(
    reach: Reach<F, D>,
    inherited: Commitment<F, D>,
    floor: Location<F>,
) -> Place<F, D>
    ensures ancestors { result.ancestors ≡ reach.tips }
    ensures boundary { result.boundary ≡ later_state inherited reach.oldest }
    ensures floor { result.floor ≡ floor }
{
    Place {
        boundary: effective_boundary(inherited, reach.oldest),
        ancestors: reach.tips,
        floor,
    }
}

impl<F: Drop, D: Digest> Place<F, D> {
    /// The place of a batch on this parent, which is alive; where it has none, on the state `base` of a log whose floor is `floor`.
    pub fn of<T: Chained<F, D>>(
        pool: &Pool<T>,
        parent: Option<BatchId>,
        base: &Commitment<F, D>,
        floor: Location<F>,
    ) -> Result<Self, PoolError>
        requires { ForSome parent (IsAlive pool.now) }
        ensures place { IfOk result (IsPlaceOf T.bounds_of pool.now parent base.now floor) }
        ensures memory { IsOkUnless result PoolError.Memory }
    {
        match parent {
            Some(id) => {
                let reach = reach_of(pool, Some(id))?;
                let bounds = pool.item(id).bounds();
                let floor = Location::new(bounds.inactivity_floor.as_u64());
                Ok(reached(reach, bounds.db.copied(), floor))
            }
            None => {
                let reach = reach_of(pool, None)?;
                Ok(reached(reach, base.copied(), floor))
            }
        }
    }

    /// The size of a batch of `size` operations and its commit, where it may be sealed at the state `current`. Refuses, in
    /// this order: `StaleBatch`, `Merkle(LocationOverflow(size + 1))`, `FloorRegressed`, `FloorBeyondSize`.
    pub fn check(
        &self,
        current: &Commitment<F, D>,
        size: u64,
        floor: Location<F>,
    ) -> Result<u64, Error<F>>
        requires { size < 2 ^ 64 - 1 }
        ensures tip { IfOk result (λ tip. tip ≡ size + 1) }
        ensures refused { Refuses (place_refusal D.bytes self.now current.now size floor) result }
    {
        validate_batch_applicable(
            current.copied(),
            self.boundary.copied(),
            self.ancestors.as_slice(),
        )?;
        let tip = size + 1;
        if tip > MAX_LEAVES {
            let overflow = tree_store::Error::LocationOverflow(Location::new(tip));
            return Err(Error::Merkle(overflow));
        }
        let start = Location::new(self.floor.as_u64());
        validate_merkleize_floor(start, floor, Location::new(size))?;
        Ok(tip)
    }
}
