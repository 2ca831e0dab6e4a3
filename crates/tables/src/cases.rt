//! Proofs with what they are to show.
use crate::elements::elements_of;
use crate::error::TableError;
use codec_base::{Bytes, ListOf};
use std::alloc::Global;
use tree_core::verification::verify_proof_and_pinned_nodes;
use tree_core::{
    Digest, Family, Hasher, Location, Proof, Sha256Digest, Sha256Hasher, Standard, verify,
};

/// No element is damaged.
pub(crate) const WHOLE: u64 = u64::MAX;

/// The proof of the numbers from `start` up to `end`, in the tree with a root.
#[derive(Drop)]
pub(crate) struct Case<F> {
    pub(crate) hasher: Standard<Sha256Hasher>,
    pub(crate) proof: Proof<F, Sha256Digest>,
    pub(crate) start: u64,
    pub(crate) end: u64,
    pub(crate) root: Sha256Digest,
}

/// The digests, with another in the place of `damaged`.
pub(crate) fn digests_of(
    alloc: Global,
    hasher: &Standard<Sha256Hasher>,
    digests: &[Sha256Digest],
    damaged: u64,
) -> Result<Vec<Sha256Digest>, TableError> {
    let mut copies = Vec::new(alloc);
    for i in 0..digests.len() {
        let digest = &digests[i];
        if i as u64 == damaged {
            copies.push(hasher.fold(digest, digest))?;
        } else {
            copies.push(*digest)?;
        }
    }
    Ok(copies)
}

/// Adds the leaves, the inactive peaks, the number of digests and the digests.
pub(crate) fn add_proof<F>(all: &mut Sha256Hasher, proof: &Proof<F, Sha256Digest>) {
    all.update(&proof.leaves.as_u64().to_be_bytes());
    all.update(&proof.inactive_peaks.to_be_bytes());
    all.update(&proof.digests.len().to_be_bytes());
    for digest in proof.digests.as_slice() {
        all.update(digest.as_slice());
    }
}

impl<F: Family> Case<F> {
    /// Whether the proof shows these elements from a leaf on.
    pub(crate) fn shows(
        &self,
        alloc: Global,
        start: u64,
        elements: &[Bytes],
    ) -> Result<bool, TableError> {
        let start = Location::new(start);
        Ok(verify(
            alloc,
            &self.hasher,
            &self.proof,
            start,
            elements,
            &self.root,
        )?)
    }

    /// The case with so many leaves in the proof, and another digest in the place of `damaged`.
    pub(crate) fn with(
        &self,
        alloc: Global,
        leaves: u64,
        damaged: u64,
    ) -> Result<Self, TableError> {
        let digests = digests_of(alloc, &self.hasher, self.proof.digests.as_slice(), damaged)?;
        Ok(Case {
            hasher: Standard::new(self.hasher.root_bagging()),
            proof: Proof {
                leaves: Location::new(leaves),
                inactive_peaks: self.proof.inactive_peaks,
                digests: ListOf::from_vec(digests),
            },
            start: self.start,
            end: self.end,
            root: self.root,
        })
    }

    /// Whether the proof shows the numbers of its range.
    pub(crate) fn holds(&self, alloc: Global) -> Result<bool, TableError> {
        let elements = elements_of(alloc, self.start, self.end, WHOLE)?;
        self.shows(alloc, self.start, &elements)
    }

    /// Whether the proof shows the numbers of its range behind these pins.
    pub(crate) fn holds_behind(
        &self,
        alloc: Global,
        pins: &[Sha256Digest],
    ) -> Result<bool, TableError> {
        let elements = elements_of(alloc, self.start, self.end, WHOLE)?;
        Ok(verify_proof_and_pinned_nodes(
            alloc,
            &self.hasher,
            &self.proof,
            Location::new(self.start),
            &elements,
            pins,
            &self.root,
        )?)
    }
}
