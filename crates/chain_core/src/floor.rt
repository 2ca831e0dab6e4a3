ghost use Rattle.log_model.specs.Refusals.{floor_refusal};
ghost use Rattle.chain_core.specs.Sealing.{Refuses};

use crate::Error;
use tree_shape::Location;

/// Tests the floor of a batch that is to be sealed: it has to stand between the floor that the batch builds on, `start`, and the
/// location of its commit. Refuses, in this order: `FloorRegressed(floor, start)` below, `FloorBeyondSize(floor, commit_loc)` above.
pub fn validate_merkleize_floor<F>(
    start: Location<F>,
    floor: Location<F>,
    commit_loc: Location<F>,
) -> Result<(), Error<F>>
    ensures { Refuses (floor_refusal start floor commit_loc) result }
{
    if floor < start {
        return Err(Error::FloorRegressed(floor, start));
    }
    if floor > commit_loc {
        return Err(Error::FloorBeyondSize(floor, commit_loc));
    }
    Ok(())
}
