//! What one batch of a chain added.
ghost use Rattle.std.specs.Prelude.{◌≡◌, ℕ, ◌+◌, ◌-◌, ◌≤◌, ◌<◌, ◌^◌, ◌↔◌, List, [], ◌∷◌, ◌++◌, length, map, reverse, drop, slice_get, OnOk, OnErr, IfOk, IfSome, IsTrue, Some, None};
ghost use Rattle.tree_shape.specs.Hashing.{Hashing};
ghost use Rattle.tree_shape.specs.Root.{root, root_over};
ghost use Rattle.tree_core.specs.Pruned.{made_from, nodes_from, peaks_at, held_at};
ghost use Rattle.tree_core.specs.Links.{ChainSegment, IsMarkBehind, first_leaves, HasMark, joined_nodes};
ghost use Rattle.tree_core.specs.Batches.{IsSoundSegment};

use crate::growth::mark_of;
use crate::mark::Mark;
use crate::peaks::{Peaks, root_from};
use std::alloc::{AllocError, Global};
use std::marker::Model;
use std::rc::Rc;
use tree_shape::{Digest, Family, Hasher, Standard};

/// The mark before it, the number of its leaves, and its nodes.
#[derive(Drop)]
pub(crate) struct Segment<F: Family, D: Digest> {
    before: Mark<F, D>,
    later: u64,
    nodes: Vec<D>,
}

impl<F: Family, D: Digest> Model for Segment<F, D> {
    ghost Value = { ChainSegment D };

    ghost view = { λ g. record {
      leaves = g.before.leaves;
      peaks = g.before.peaks.items;
      later = g.later;
      nodes = g.nodes.items;
    } };

    ghost invariant = { λ g. IsSoundSegment F.shape (record {
      leaves = g.before.leaves;
      peaks = g.before.peaks.items;
      later = g.later;
      nodes = g.nodes.items;
    }) };
}

impl<F: Family, D: Digest> Peaks<F, D> for Segment<F, D> {
    ghost told = { λ g x k. held_at F.shape g.leaves g.peaks g.nodes x k };

    fn read(&self, start: u64, height: u32) -> D {
        self.before.node_since(&self.nodes, start, height)
    }
}

impl<F: Family, D: Digest> Segment<F, D> {
    /// The segment that goes on from a mark with these nodes of `later` leaves.
    pub(crate) fn new(before: Mark<F, D>, later: u64, nodes: Vec<D>) -> Self
        requires few { before.leaves + later ≤ 2 ^ 62 }
        requires counted { length nodes.items ≡ length (made_from F.shape before.leaves later) }
        ensures { result ≡ record {
          leaves = before.leaves;
          peaks = before.peaks.items;
          later = later;
          nodes = nodes.items;
        } }
    {
        Segment {
            before,
            later,
            nodes,
        }
    }

    /// The number of leaves before it.
    pub(crate) fn first(&self) -> u64
        ensures { result ≡ self.now.leaves }
    {
        self.before.leaves
    }

    /// Its nodes, in the order of making.
    pub(crate) fn nodes(&self) -> &[D]
        ensures { result.now ≡ self.now.nodes }
    {
        &self.nodes
    }

    /// The root behind it, with this many inactive peaks.
    pub(crate) fn root<H: Hasher<Digest = D>>(&self, hasher: &Standard<H>, inactive: u64) -> D
        requires { inactive ≤ length (F.shape.heights (self.now.leaves + self.now.later)) }
        ensures root { (all : List D) → self.now.leaves + self.now.later ≡ length all →
            self.now.peaks ≡ peaks_at F.shape H.hash all self.now.leaves →
            self.now.nodes ≡ nodes_from F.shape H.hash all self.now.leaves self.now.later →
            result ≡ root F.shape H.hash all inactive hasher.now }
        ensures marked { (ps : List D) × IsMarkBehind F.shape self.now (self.now.leaves + self.now.later) ps ×
            (result ≡ root_over H.hash (self.now.leaves + self.now.later) (reverse ps) inactive hasher.now) }
    {
        let leaves = self.before.leaves + self.later;
        root_from::<F, H, Segment<F, D>>(self, hasher, leaves, inactive)
    }

    /// Whether this mark stands before it.
    fn is_behind(&self, mark: &Mark<F, D>) -> bool
        ensures { IsTrue result ↔ ((self.now.leaves ≡ mark.now.leaves) × (self.now.peaks ≡ mark.now.peaks.items)) }
    {
        self.before.is_same(mark)
    }

    /// The mark behind it.
    pub(crate) fn mark_behind(&self, alloc: Global) -> Result<Mark<F, D>, AllocError>
        ensures leaves { IfOk result (λ m. m.leaves ≡ self.now.leaves + self.now.later) }
        ensures mark { IfOk result (λ m. IsMarkBehind F.shape self.now m.leaves m.peaks.items) }
        ensures peaks { IfOk result (λ m. (h : Hashing D) (all : List D) →
            self.now.peaks ≡ peaks_at F.shape h all self.now.leaves →
            self.now.nodes ≡ nodes_from F.shape h all self.now.leaves self.now.later →
            m.peaks.items ≡ peaks_at F.shape h all (self.now.leaves + self.now.later)) }
    {
        let leaves = self.before.leaves + self.later;
        let mark = mark_of::<F, D, Segment<F, D>>(alloc, self, leaves)?;
        Ok(mark)
    }
}

/// The first segment with this mark before it.
pub(crate) fn place_of<F: Family, D: Digest>(
    segments: &[Rc<Segment<F, D>>],
    mark: &Mark<F, D>,
) -> Option<usize>
    ensures some { IfSome result (λ i.
        HasMark (map (λ g. g.value) segments.now) i mark.now.leaves mark.now.peaks.items) }
    ensures none { result ≡ None → (i : ℕ) →
        HasMark (map (λ g. g.value) segments.now) i mark.now.leaves mark.now.peaks.items → ⊥ }
{
    for i in 0..segments.len() {
        if segments[i].is_behind(mark) {
            return Some(i);
        }
    }
    None
}

/// Puts the nodes of the segments from this one on behind others, or none.
pub(crate) fn push_nodes<F: Family, D: Digest>(
    nodes: &mut Vec<D>,
    segments: &[Rc<Segment<F, D>>],
    place: usize,
) -> Result<(), AllocError>
    requires { place ≤ length segments.now }
    ensures ok { OnOk result (nodes.new.items ≡ nodes.old.items ++
        joined_nodes (drop place (map (λ g. g.value) segments.now))) }
    ensures err { OnErr result (nodes.new.items ≡ nodes.old.items) }
{
    let before = nodes.len();
    for i in place..segments.len() {
        match nodes.extend_from_slice(segments[i].nodes()) {
            Ok(()) => {}
            Err(_) => {
                nodes.truncate(before);
                return Err(AllocError);
            }
        }
    }
    Ok(())
}

/// The leaves before the segments from this one on, the last of which ends at `end`.
pub(crate) fn first_of<F: Family, D: Digest>(
    segments: &[Rc<Segment<F, D>>],
    place: usize,
    end: u64,
) -> u64
    ensures { result ≡ first_leaves (drop place (map (λ g. g.value) segments.now)) end }
{
    if place < segments.len() {
        segments[place].first()
    } else {
        end
    }
}

/// Keeps the segments from this one on, and lets go of those before it.
pub(crate) fn keep_from<F: Family, D: Digest>(segments: &mut Vec<Rc<Segment<F, D>>>, place: usize)
    requires { place ≤ length segments.old.items }
    ensures { map {B = ChainSegment D} (λ g. g.value) segments.new.items ≡
        drop place (map (λ g. g.value) segments.old.items) }
{
    let kept = segments.len() - place;
    segments.rotate_left(place);
    segments.truncate(kept);
}

/// Another handle to each of these segments.
pub(crate) fn share_all<F: Family, D: Digest>(
    alloc: Global,
    segments: &[Rc<Segment<F, D>>],
) -> Result<Vec<Rc<Segment<F, D>>>, AllocError>
    ensures { IfOk result (λ v. map {B = ChainSegment D} (λ g. g.value) v.items ≡ map (λ g. g.value) segments.now) }
{
    let mut shared = Vec::with_capacity(alloc, segments.len().saturating_add(1))?;
    for i in 0..segments.len() {
        shared.push(segments[i].clone()?)?;
    }
    Ok(shared)
}

/// Adds a segment behind the others.
pub(crate) fn push_own<F: Family, D: Digest>(
    segments: &mut Vec<Rc<Segment<F, D>>>,
    own: Rc<Segment<F, D>>,
) -> Result<(), AllocError>
    ensures { OnOk result (segments.new.items ≡ segments.old.items ++ own ∷ []) }
{
    segments.push(own)?;
    Ok(())
}

/// The node of the segments at this place, where they are read one after another.
pub(crate) fn node_in<F: Family, D: Digest>(segments: &[Rc<Segment<F, D>>], index: u64) -> Option<D>
    ensures { result ≡ slice_get (joined_nodes (map (λ g. g.value) segments.now)) index }
{
    let mut left = index;
    for i in 0..segments.len() {
        let nodes = segments[i].nodes();
        if left < nodes.len() as u64 {
            return Some(nodes[left as usize]);
        }
        left -= nodes.len() as u64;
    }
    None
}
