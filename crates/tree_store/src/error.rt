ghost use Rattle.std.specs.Prelude.{◌≡◌, codes};
ghost use Rattle.std.specs.Bool.{Decides};
ghost use Rattle.tree_store.specs.Errors.{from_journal, from_volume};
ghost use Rattle.tree_store.specs.declared.error.Error.{Error};
ghost use Rattle.tree_store.specs.declared.error.Error.TheVariants.{Memory};
ghost use Rattle.tree_store.specs.declared.error.TreeData.{TreeData};

use std::alloc::{AllocError, AllocFailed};
use tree_shape::{Location, Position};
use volume_base::{JournalError, VolumeError};

/// What is wrong with the data of a stored tree.
#[derive(Clone, Copy, Debug, PartialEq, Eq)]
pub enum TreeData {
    /// The pruning boundary isn't one.
    Boundary,
    /// The digest at a position can't be read.
    Digest,
}

impl TreeData {
    /// What went wrong, in words.
    pub fn text(&self) -> &'static str
        ensures boundary { self.now ≡ TreeData.Boundary → result.now ≡ codes "invalid Merkle pruning boundary" }
        ensures digest { self.now ≡ TreeData.Digest → result.now ≡ codes "could not read digest at requested pos" }
    {
        match self {
            TreeData::Boundary => "invalid Merkle pruning boundary",
            TreeData::Digest => "could not read digest at requested pos",
        }
    }
}

/// Why a call of a tree wasn't done.
#[derive_where(Clone, Copy, Debug, PartialEq, Eq)]
pub enum Error<F> {
    /// The location is past what a tree may have.
    LocationOverflow(Location<F>),
    /// The number of leaves, the range's end or the location is past the tree.
    RangeOutOfBounds(Location<F>),
    /// The leaf lies past the tree.
    LeafOutOfBounds(Location<F>),
    /// There is no leaf in the range.
    Empty,
    /// The node was pruned.
    ElementPruned(Position<F>),
    /// The location was named before.
    DuplicateLocation(Location<F>),
    /// The location is below the one before it.
    UnsortedLocation(Location<F>),
    /// The node isn't there.
    MissingNode(Position<F>),
    /// The number of pins isn't that of the peaks, or that of a proof's digests isn't that of its cover's nodes.
    InvalidPinnedNodes,
    /// The batch doesn't go on from this tree.
    StaleBatch,
    /// The batch began at this tree, but no longer has what stands behind it.
    AncestorDropped {
        /// The number of nodes before what the batch has.
        expected: Position<F>,
        /// The number of nodes of the tree.
        actual: Position<F>,
    },
    /// The data of a stored tree is wrong.
    DataCorrupted(TreeData),
    /// The journal below refused, not for want of memory and not by its volume.
    Journal(JournalError),
    /// The volume failed.
    Volume,
    /// There is no memory.
    Memory,
}

impl<F> From<AllocError> for Error<F> {
    ghost from_gives = { λ _ e. e ≡ Memory };

    fn from(_: AllocError) -> Self {
        Error::Memory
    }
}

impl<F, T: Drop> From<AllocFailed<T>> for Error<F> {
    ghost from_gives = { λ _ e. e ≡ Memory };

    fn from(_: AllocFailed<T>) -> Self {
        Error::Memory
    }
}

impl<F> From<JournalError> for Error<F> {
    ghost from_gives = { λ error e. e ≡ from_journal error };

    fn from(error: JournalError) -> Self {
        match error {
            JournalError::Volume => Error::Volume,
            JournalError::Memory => Error::Memory,
            other => Error::Journal(other),
        }
    }
}

impl<F> From<VolumeError> for Error<F> {
    ghost from_gives = { λ error e. e ≡ from_volume error };

    fn from(error: VolumeError) -> Self {
        Error::from(JournalError::from(error))
    }
}

/// Two errors are equal exactly where they are one: one variant with the same fields.
pub fn equality_laws<F>()
    ensures error { (a b : Error F) → Decides (⟦<Error<F> as PartialEq>⟧.eq a b) (a ≡ b) }
    ensures data { (a b : TreeData) → Decides (⟦<TreeData as PartialEq>⟧.eq a b) (a ≡ b) }
{}
