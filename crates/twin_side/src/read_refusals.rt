//! Why locations of the log's list aren't read, and which errors of a batch's read are refusals.
ghost use Rattle.std.specs.Prelude.{◌≡◌, IfOk, IsOkUnless};
ghost use Rattle.log_model.specs.Reads.{unordered};
ghost use Rattle.keyless_db.specs.Reading.{last_past};
ghost use Rattle.twin_side.specs.ReadRefusals.{kept_refusal, kept_refusals, unread_of};

use chain_core::Error;
use command_text::Refusal;
use std::alloc::Global;
use tree_shape::{Location, Mmr};

/// Why a location isn't read of a list of this size that is kept from `start` on: it is at or past the end, or isn't
/// kept.
pub fn location_refusal(location: u64, size: u64, start: u64) -> Option<Refusal>
    ensures { result ≡ kept_refusal size start location }
{
    if location >= size {
        return Some(Refusal::LocationOutOfBounds(location, size));
    }
    if location < start {
        return Some(Refusal::ItemPruned(location));
    }
    None
}

/// The first pair of locations that doesn't rise.
fn order_refusal(locations: &[u64]) -> Option<Refusal>
    ensures { result ≡ unordered locations.now }
{
    for i in 1..locations.len() {
        if locations[i - 1] >= locations[i] {
            return Some(Refusal::LocationOutOfOrder(locations[i - 1], locations[i]));
        }
    }
    None
}

/// A last one of these locations that is at or past the end of a list of this size.
fn last_refusal(locations: &[u64], size: u64) -> Option<Refusal>
    ensures { result ≡ last_past size locations.now }
{
    if locations.is_empty() {
        return None;
    }
    let last = locations[locations.len() - 1];
    if last >= size {
        return Some(Refusal::LocationOutOfBounds(last, size));
    }
    None
}

/// Why several locations aren't read of such a list: two don't rise, the last is at or past the end, or the first isn't
/// kept.
pub fn locations_refusal(locations: &[u64], size: u64, start: u64) -> Option<Refusal>
    ensures { result ≡ kept_refusals size start locations.now }
{
    if let Some(refusal) = order_refusal(locations) {
        return Some(refusal);
    }
    if let Some(refusal) = last_refusal(locations, size) {
        return Some(refusal);
    }
    if !locations.is_empty() && locations[0] < start {
        return Some(Refusal::ItemPruned(locations[0]));
    }
    None
}

/// The same locations, as those of the run's tree.
pub fn in_tree(alloc: Global, locations: &[u64]) -> Result<Vec<Location<Mmr>>, Error<Mmr>>
    ensures same { IfOk result (λ made. made.items ≡ locations.now) }
    ensures memory { IsOkUnless result Error.Memory }
{
    let mut made = Vec::new(alloc);
    for location in locations {
        made.push(Location::new(*location))?;
    }
    Ok(made)
}

/// Why a batch isn't read at a location, whatever is kept, where the error says so.
pub fn unread(error: &Error<Mmr>) -> Option<Refusal>
    ensures { result ≡ unread_of error.now }
{
    match error {
        Error::StaleRead => Some(Refusal::StaleRead),
        Error::LocationOutOfOrder(location, next) => {
            Some(Refusal::LocationOutOfOrder(location.as_u64(), next.as_u64()))
        }
        Error::LocationOutOfBounds(location, size) => {
            Some(Refusal::LocationOutOfBounds(location.as_u64(), size.as_u64()))
        }
        Error::BelowInactivityFloor(location) => {
            Some(Refusal::BelowInactivityFloor(location.as_u64()))
        }
        _ => None,
    }
}
