//! The pins of the leaves before a range, and damaged copies of them.
ghost use Rattle.std.specs.Prelude.{◌≤◌, ◌^◌};

use crate::cases::{Case, WHOLE, digests_of};
use crate::damage::count;
use crate::error::TableError;
use std::alloc::Global;
use tree_core::{Digest, Family, Hasher, Location, Mem, Sha256Digest, Sha256Hasher};

/// The peaks of so many leaves of a tree, the oldest first.
pub(crate) fn pins_of<F: Family>(
    alloc: Global,
    tree: &Mem<F, Sha256Digest>,
    leaves: u64,
) -> Result<Vec<Sha256Digest>, TableError>
    requires { leaves ≤ 2 ^ 62 }
{
    let mut pins = Vec::new(alloc);
    for position in F::nodes_to_pin(Location::new(leaves)) {
        match tree.get_node(position) {
            Some(pin) => pins.push(pin)?,
            None => return Err(TableError::Tree),
        }
    }
    Ok(pins)
}

/// Whether the proof is refused with a pin more.
fn refused_longer<F: Family>(
    alloc: Global,
    case: &Case<F>,
    pins: &[Sha256Digest],
) -> Result<u64, TableError> {
    let mut longer = digests_of(alloc, &case.hasher, pins, WHOLE)?;
    longer.push(case.root)?;
    Ok(count(case.holds_behind(alloc, &longer)?))
}

/// How many damaged copies of the pins are refused: one with a pin more, and where there are any, one without the last and
/// one with another in the middle.
fn refused_pins<F: Family>(
    alloc: Global,
    case: &Case<F>,
    pins: &[Sha256Digest],
) -> Result<u64, TableError> {
    let more = refused_longer(alloc, case, pins)?;
    if pins.is_empty() {
        return Ok(more);
    }
    let other = digests_of(alloc, &case.hasher, pins, pins.len() as u64 / 2)?;
    let fewer = count(case.holds_behind(alloc, &pins[..pins.len() - 1])?);
    let changed = count(case.holds_behind(alloc, &other)?);
    Ok(more.saturating_add(fewer).saturating_add(changed))
}

/// What was found of proofs with the pins before them.
#[derive(Drop)]
pub(crate) struct Pinned {
    pins: Sha256Hasher,
    accepted: u64,
    refused: u64,
}

impl Pinned {
    /// Nothing was found yet.
    pub(crate) fn new() -> Self {
        Pinned {
            pins: Sha256Hasher::new(),
            accepted: 0,
            refused: 0,
        }
    }

    /// Adds the number of pins and the pins, whether the proof is accepted with them, and how many damaged copies of them
    /// are refused.
    pub(crate) fn add<F: Family>(
        &mut self,
        alloc: Global,
        case: &Case<F>,
        pins: &[Sha256Digest],
    ) -> Result<(), TableError> {
        self.pins.update(&(pins.len() as u64).to_be_bytes());
        for pin in pins {
            self.pins.update(pin.as_slice());
        }
        if case.holds_behind(alloc, pins)? {
            self.accepted = self.accepted.saturating_add(1);
        }
        self.refused = self
            .refused
            .saturating_add(refused_pins(alloc, case, pins)?);
        Ok(())
    }

    /// Prints what was found.
    pub(crate) fn print(
        self,
        rt: &impl Print,
        alloc: Global,
        name: &str,
    ) -> Result<(), TableError> {
        let pins = self.pins.finish();
        println!(rt;
            "{name} pins {}",
            hex::encode(alloc, pins.as_slice())?.as_str()
        )?;
        println!(rt; "{name} accepted with pins {}", self.accepted)?;
        println!(rt; "{name} refused with pins {}", self.refused)?;
        Ok(())
    }
}
