ghost use Rattle.std.specs.Prelude.{◌≡◌};
ghost use Rattle.std.specs.Bool.{Decides};
ghost use Rattle.volume_base.specs.Errors.{as_journal_error};
ghost use Rattle.volume_base.specs.declared.error.VolumeError.TheVariants as volume_error;
ghost use Rattle.volume_base.specs.declared.error.JournalError.TheVariants as journal_error;
ghost use Rattle.volume_base.specs.declared.error.VolumeError.{VolumeError};
ghost use Rattle.volume_base.specs.declared.error.TreeCause.{TreeCause};
ghost use Rattle.volume_base.specs.declared.error.JournalError.{JournalError};

use std::alloc::{AllocError, AllocFailed};

/// Why a call of a volume wasn't done.
#[derive(Clone, Copy, Debug, PartialEq, Eq)]
pub enum VolumeError {
    /// The outside has failed, and the volume has counted it.
    Failed,
    /// The position lies below the log's start.
    ItemPruned(u64),
    /// The position lies at or past the log's end.
    ItemOutOfRange(u64),
    /// There was no room in memory.
    Memory,
}

impl From<AllocError> for VolumeError {
    ghost from_gives = { λ _ e. e ≡ volume_error.Memory };

    fn from(_: AllocError) -> Self {
        VolumeError::Memory
    }
}

impl<T: Drop> From<AllocFailed<T>> for VolumeError {
    ghost from_gives = { λ _ e. e ≡ volume_error.Memory };

    fn from(_: AllocFailed<T>) -> Self {
        VolumeError::Memory
    }
}

/// Why a call of a tree failed below a journal.
#[derive(Clone, Copy, Debug, PartialEq, Eq)]
pub enum TreeCause {
    /// The location is past the greatest number of leaves.
    LocationOverflow(u64),
    /// The node at the position was pruned.
    ElementPruned(u64),
}

/// Why a call of a journal wasn't done.
#[derive(Clone, Copy, Debug, PartialEq, Eq)]
pub enum JournalError {
    /// The position lies below the start.
    ItemPruned(u64),
    /// The position lies at or past the end.
    ItemOutOfRange(u64),
    /// There was no item to append.
    EmptyAppend,
    /// The end would pass 2^64 - 1.
    SizeOverflow,
    /// The bytes at the position aren't an encoding of an item.
    Corruption(u64),
    /// A call of a tree has failed.
    Tree(TreeCause),
    /// The outside has failed, or an earlier failure is kept.
    Volume,
    /// There was no room in memory.
    Memory,
}

impl From<AllocError> for JournalError {
    ghost from_gives = { λ _ e. e ≡ journal_error.Memory };

    fn from(_: AllocError) -> Self {
        JournalError::Memory
    }
}

impl<T: Drop> From<AllocFailed<T>> for JournalError {
    ghost from_gives = { λ _ e. e ≡ journal_error.Memory };

    fn from(_: AllocFailed<T>) -> Self {
        JournalError::Memory
    }
}

impl From<VolumeError> for JournalError {
    ghost from_gives = { λ error e. e ≡ as_journal_error error };

    fn from(error: VolumeError) -> Self {
        match error {
            VolumeError::Failed => JournalError::Volume,
            VolumeError::ItemPruned(position) => JournalError::ItemPruned(position),
            VolumeError::ItemOutOfRange(position) => JournalError::ItemOutOfRange(position),
            VolumeError::Memory => JournalError::Memory,
        }
    }
}

/// Two errors are equal exactly where they are one: one variant with the same fields.
pub fn equality_laws()
    ensures volume { (a b : VolumeError) → Decides (⟦<VolumeError as PartialEq>⟧.eq a b) (a ≡ b) }
    ensures cause { (a b : TreeCause) → Decides (⟦<TreeCause as PartialEq>⟧.eq a b) (a ≡ b) }
    ensures journal { (a b : JournalError) → Decides (⟦<JournalError as PartialEq>⟧.eq a b) (a ≡ b) }
{}
