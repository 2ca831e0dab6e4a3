//! Nodes in two vectors: pins, each with its position, before a position, and the nodes from there on, each in its place.
ghost use Rattle.std.specs.Prelude.{◌≡◌, ℕ, ◌+◌, ◌≤◌, ◌<◌, ◌++◌, take, drop, length, filter, is_none, IfOk, vec_len, vec_capacity};
ghost use Rattle.tree_core.specs.KeptNodes.{AreBefore, HasRoom, entry_at, found_at, placed};

use std::alloc::{AllocError, Global};
use std::collections::BTreeMap;
use tree_shape::{Digest, Family, MAX_PINNED_NODES, Position};

/// The room of a table of pins: for the peaks of the leaves and of a boundary, and for as many that a prune puts behind them
/// before it lets go of them.
pub(crate) const PIN_ROOM: usize = 4 * MAX_PINNED_NODES as usize;

/// The pin at a position, of the first `count`.
fn pin_among<D: Digest>(pins: &[(u64, D)], count: usize, position: u64) -> Option<D>
    requires { count ≤ length pins.now }
    ensures { result ≡ entry_at (take count pins.now) position }
{
    for i in 0..count {
        if pins[i].0 == position {
            return Some(pins[i].1);
        }
    }
    None
}

/// The node at a position, of the first `count` pins and the nodes from `first` on.
pub(crate) fn node_among<D: Digest>(
    pins: &[(u64, D)],
    count: usize,
    first: u64,
    nodes: &[D],
    position: u64,
) -> Option<D>
    requires within { count ≤ length pins.now }
    requires before { AreBefore first (take count pins.now) }
    ensures { result ≡ entry_at (take count pins.now ++ placed first nodes.now) position }
{
    if position < first {
        return pin_among(pins, count, position);
    }
    let place = position - first;
    if place < nodes.len() as u64 {
        Some(nodes[place as usize])
    } else {
        None
    }
}

/// The node at a position, of the pins and the nodes from `first` on.
pub(crate) fn node_of<D: Digest>(
    pins: &[(u64, D)],
    first: u64,
    nodes: &[D],
    position: u64,
) -> Option<D>
    requires { AreBefore first pins.now }
    ensures { result ≡ entry_at (pins.now ++ placed first nodes.now) position }
{
    node_among(pins, pins.len(), first, nodes, position)
}

/// Puts a node, where there is one, behind the pins, which have room for it.
pub(crate) fn push_found<D: Digest>(pins: &mut Vec<(u64, D)>, position: u64, found: Option<D>)
    requires { vec_len pins.old < vec_capacity pins.old }
    ensures pins { pins.new.items ≡ pins.old.items ++ found_at position found }
    ensures room { vec_capacity pins.old ≤ vec_capacity pins.new }
{
    match found {
        Some(digest) => match pins.push((position, digest)) {
            Ok(()) => {}
            Err(_) => unreachable!(),
        },
        None => {}
    }
}

/// Lets go of the first `count`. It takes no memory.
pub(crate) fn drop_front<T: Copy + Drop>(items: &mut Vec<T>, count: usize)
    requires { count ≤ length items.old.items }
    ensures items { items.new.items ≡ drop count items.old.items }
    ensures room { vec_capacity items.new ≡ vec_capacity items.old }
{
    let left = items.len() - count;
    items.rotate_left(count);
    items.truncate(left);
}

/// These pins, and before them those at positions where neither a pin nor one of the nodes from `first` on stands.
pub(crate) fn with_pins<F: Family, D: Digest>(
    alloc: Global,
    old: &[(u64, D)],
    first: u64,
    nodes: &[D],
    pins: &BTreeMap<Position<F>, D>,
) -> Result<Vec<(u64, D)>, AllocError>
    requires { AreBefore first old.now }
    ensures pins { let kept = old.now ++ placed first nodes.now in IfOk result (λ all.
        all.items ≡ filter (λ e. is_none (entry_at kept e.0)) pins.now.entries ++ old.now) }
    ensures room { IfOk result (λ all. HasRoom (length all.items) (vec_capacity all)) }
{
    let mut all = Vec::new(alloc);
    for (position, digest) in pins {
        let place = position.as_u64();
        if node_of(old, first, nodes, place).is_none() {
            all.push((place, *digest))?;
        }
    }
    all.extend_from_slice(old)?;
    all.reserve(PIN_ROOM)?;
    Ok(all)
}
