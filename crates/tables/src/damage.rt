//! Damaged copies of a proof and of what it is to show.
use crate::cases::{Case, WHOLE};
use crate::elements::elements_of;
use crate::error::TableError;
use std::alloc::Global;
use tree_core::Family;

/// One where it was refused.
pub(crate) fn count(shown: bool) -> u64 {
    if shown { 0 } else { 1 }
}

/// Whether the case is refused with another digest in the middle, where it has one.
fn refused_digest<F: Family>(alloc: Global, case: &Case<F>) -> Result<u64, TableError> {
    let digests = case.proof.digests.len();
    if digests == 0 {
        return Ok(0);
    }
    let damaged = case.with(alloc, case.proof.leaves.as_u64(), digests / 2)?;
    Ok(count(damaged.holds(alloc)?))
}

/// Whether it is refused with another element in the middle.
fn refused_element<F: Family>(alloc: Global, case: &Case<F>) -> Result<u64, TableError> {
    let middle = case.start.saturating_add(case.end) / 2;
    let elements = elements_of(alloc, case.start, case.end, middle)?;
    Ok(count(case.shows(alloc, case.start, &elements)?))
}

/// How often it is refused with an element less, with one more, from another leaf on, and with another number of leaves.
fn refused_bounds<F: Family>(alloc: Global, case: &Case<F>) -> Result<u64, TableError> {
    let fewer = elements_of(alloc, case.start, case.end.saturating_sub(1), WHOLE)?;
    let more = elements_of(alloc, case.start, case.end.saturating_add(1), WHOLE)?;
    let elements = elements_of(alloc, case.start, case.end, WHOLE)?;
    let longer = case.with(alloc, case.proof.leaves.as_u64().saturating_add(1), WHOLE)?;
    let counts = count(case.shows(alloc, case.start, &fewer)?).saturating_add(count(case.shows(
        alloc, case.start, &more,
    )?));
    let places = count(case.shows(alloc, case.start.saturating_add(1), &elements)?).saturating_add(
        count(longer.holds(alloc)?),
    );
    Ok(counts.saturating_add(places))
}

/// How many damaged copies are refused.
pub(crate) fn refused<F: Family>(alloc: Global, case: &Case<F>) -> Result<u64, TableError> {
    let digest = refused_digest(alloc, case)?;
    let element = refused_element(alloc, case)?;
    let bounds = refused_bounds(alloc, case)?;
    Ok(digest.saturating_add(element).saturating_add(bounds))
}
