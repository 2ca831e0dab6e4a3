//! A tree as a later append sees it.
ghost use Rattle.std.specs.Prelude.{◌≡◌, ℕ, ◌+◌, ◌≤◌, ◌<◌, ◌^◌, ◌↔◌, List, length, IsSome, IsTrue, IfOk, Some, ◌==◌, ◌&&◌};
ghost use Rattle.tree_core.specs.Pruned.{peak_found, held_at};

use std::alloc::{AllocError, Global};
use std::marker::PhantomData;
use tree_shape::{Digest, Family, width};

/// The number of leaves and the digests of their peaks, the newest first.
#[derive(Drop)]
pub(crate) struct Mark<F: Family, D: Digest> {
    pub(crate) leaves: u64,
    pub(crate) peaks: Vec<D>,
    pub(crate) family: PhantomData<F>,
    ghost few: { leaves ≤ 2 ^ 62 },
    ghost counted: { length peaks.items ≡ length (F.shape.heights leaves) },
}

fn is_here(end: u64, below: u32, start: u64, height: u32) -> bool
    ensures { result ≡ (end == start && below == height) }
{
    end == start && below == height
}

fn same_digests<D: Digest>(a: &[D], b: &[D]) -> bool
    ensures { IsTrue result ↔ (a.now ≡ b.now) }
{
    if a.len() != b.len() {
        return false;
    }
    for i in 0..a.len() {
        if a[i].as_slice() != b[i].as_slice() {
            return false;
        }
    }
    true
}

impl<F: Family, D: Digest> Mark<F, D> {
    /// Whether the two have as many leaves and the same peaks.
    pub(crate) fn is_same(&self, other: &Mark<F, D>) -> bool
        ensures { IsTrue result ↔
            ((self.now.leaves ≡ other.now.leaves) × (self.now.peaks.items ≡ other.now.peaks.items)) }
    {
        self.leaves == other.leaves && same_digests(&self.peaks, &other.peaks)
    }

    /// Another of the same.
    pub(crate) fn copied(&self, alloc: Global) -> Result<Self, AllocError>
        ensures leaves { IfOk result (λ m. m.leaves ≡ self.now.leaves) }
        ensures peaks { IfOk result (λ m. m.peaks.items ≡ self.now.peaks.items) }
    {
        let mut peaks = Vec::new(alloc);
        peaks.extend_from_slice(&self.peaks)?;
        Ok(Mark {
            leaves: self.leaves,
            peaks,
            family: PhantomData,
        })
    }

    /// The digest of the peak of this height over the leaves from `start` on.
    fn peak_over(&self, start: u64, height: u32) -> Option<D>
        ensures { let heights = F.shape.heights self.now.leaves in
            result ≡ peak_found self.now.leaves heights self.now.peaks.items start height }
    {
        let mut end = self.leaves;
        let count = F::peak_count(self.leaves);
        for i in 0..count {
            let below = F::peak_height(self.leaves, i);
            end -= width(below);
            if is_here(end, below, start, height) {
                return Some(self.peaks[i as usize]);
            }
        }
        None
    }

    /// The node of this height over the leaves from `start` on: a peak here, or made since.
    pub(crate) fn node_since(&self, since: &[D], start: u64, height: u32) -> D
        requires small { start + 2 ^ height ≤ 2 ^ 62 }
        requires there { IsSome (held_at F.shape self.now.leaves self.now.peaks.items since.now start height) }
        ensures { Some result ≡ held_at F.shape self.now.leaves self.now.peaks.items since.now start height }
    {
        let position = F::position(start, height);
        let size = F::size(self.leaves);
        if size <= position {
            since[(position - size) as usize]
        } else {
            match self.peak_over(start, height) {
                Some(digest) => digest,
                None => unreachable!(),
            }
        }
    }
}
