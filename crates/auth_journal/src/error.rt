ghost use Rattle.std.specs.Prelude.{◌≡◌};
ghost use Rattle.auth_journal.specs.declared.error.Error.TheVariants.{Memory};

use std::alloc::{AllocError, AllocFailed};
use volume_base::JournalError;

/// Why a call of the journal wasn't done.
#[derive_where(Clone, Copy, Debug, PartialEq, Eq)]
pub enum Error<F> {
    /// The tree refused, not for want of memory and not by its volume.
    Merkle(tree_core::Error<F>),
    /// The log refused, not for want of memory and not by its volume.
    Journal(JournalError),
    /// The volume failed.
    Volume,
    /// There is no memory.
    Memory,
}

impl<F> From<JournalError> for Error<F> {
    ghost use Rattle.auth_journal.specs.Errors.{from_journal};

    ghost from_gives = { λ error e. e ≡ from_journal error };

    fn from(error: JournalError) -> Self {
        match error {
            JournalError::Volume => Error::Volume,
            JournalError::Memory => Error::Memory,
            other => Error::Journal(other),
        }
    }
}

impl<F> From<tree_core::Error<F>> for Error<F> {
    ghost use Rattle.auth_journal.specs.Errors.{from_tree};

    ghost from_gives = { λ error e. e ≡ from_tree error };

    fn from(error: tree_core::Error<F>) -> Self {
        match error {
            tree_core::Error::Volume => Error::Volume,
            tree_core::Error::Memory => Error::Memory,
            other => Error::Merkle(other),
        }
    }
}

impl<F> From<AllocError> for Error<F> {
    ghost from_gives = { λ _ e. e ≡ Memory };

    fn from(_: AllocError) -> Self {
        Error::Memory
    }
}

impl<F, T: Drop> From<AllocFailed<T>> for Error<F> {
    ghost from_gives = { λ _ e. e ≡ Memory };

    fn from(_: AllocFailed<T>) -> Self {
        Error::Memory
    }
}
