//! Whether locations may be read.
ghost use Rattle.log_model.specs.Reads.{unordered, first_below};
ghost use Rattle.log_model.specs.declared.refusal.Refusal.TheVariants.{BelowInactivityFloor};
ghost use Rattle.chain_core.specs.Answers.{IsRefusedWhere};
ghost use Rattle.keyless_db.specs.Reading.{last_past, location_refusal, locations_refusal, floored_refusal};

use chain_core::Error;
use tree_core::{Family, Location};

/// Whether these locations rise. The first pair that doesn't is refused with `LocationOutOfOrder`.
fn check_order<F: Family>(locs: &[Location<F>]) -> Result<(), Error<F>>
    ensures { IsRefusedWhere (unordered locs.now) result }
{
    for i in 1..locs.len() {
        let before = locs[i - 1].as_u64();
        let next = locs[i].as_u64();
        if before >= next {
            return Err(Error::LocationOutOfOrder(Location::new(before), Location::new(next)));
        }
    }
    Ok(())
}

/// Whether the last of these locations is below a size. It is refused with `LocationOutOfBounds`.
fn check_last<F: Family>(locs: &[Location<F>], size: u64) -> Result<(), Error<F>>
    ensures { IsRefusedWhere (last_past size locs.now) result }
{
    if locs.is_empty() {
        return Ok(());
    }
    let last = locs[locs.len() - 1].as_u64();
    if last >= size {
        return Err(Error::LocationOutOfBounds(Location::new(last), Location::new(size)));
    }
    Ok(())
}

/// Whether these locations of a list of this size may be read. The first pair that doesn't rise is refused with
/// `LocationOutOfOrder`, and then a last at or past the size with `LocationOutOfBounds`.
pub(crate) fn check_locations<F: Family>(locs: &[Location<F>], size: u64) -> Result<(), Error<F>>
    ensures { IsRefusedWhere (locations_refusal size locs.now) result }
{
    match check_order(locs) {
        Ok(()) => check_last(locs, size),
        Err(error) => Err(error),
    }
}

/// Whether the first of these locations isn't below a floor. It is refused with `BelowInactivityFloor`.
fn check_first<F: Family>(locs: &[Location<F>], floor: u64) -> Result<(), Error<F>>
    ensures { IsRefusedWhere (first_below floor BelowInactivityFloor locs.now) result }
{
    if locs.is_empty() {
        return Ok(());
    }
    let first = locs[0].as_u64();
    if first < floor {
        return Err(Error::BelowInactivityFloor(Location::new(first)));
    }
    Ok(())
}

/// Whether these locations of a batch's list of this size may be read, from this floor on. It refuses as
/// `check_locations`, and then with `BelowInactivityFloor` a first below the floor.
pub(crate) fn check_locations_from<F: Family>(
    locs: &[Location<F>],
    size: u64,
    floor: u64,
) -> Result<(), Error<F>>
    ensures { IsRefusedWhere (floored_refusal size floor locs.now) result }
{
    match check_locations(locs, size) {
        Ok(()) => check_first(locs, floor),
        Err(error) => Err(error),
    }
}

/// Whether a location of a batch's list of this size may be read, from this floor on. It refuses with
/// `LocationOutOfBounds` at or past the size, and then with `BelowInactivityFloor` below the floor.
pub(crate) fn check_location<F: Family>(
    location: u64,
    size: u64,
    floor: u64,
) -> Result<(), Error<F>>
    ensures { IsRefusedWhere (location_refusal size floor location) result }
{
    if location >= size {
        return Err(Error::LocationOutOfBounds(Location::new(location), Location::new(size)));
    }
    if location < floor {
        return Err(Error::BelowInactivityFloor(Location::new(location)));
    }
    Ok(())
}
