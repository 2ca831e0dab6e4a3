use auth_journal::Error;
use codec_base::CodecError;
use std::alloc::{AllocError, AllocFailed};
use std::io;
use volume_base::{JournalError, VolumeError};

/// Why a table couldn't be printed.
#[derive(Debug, Drop)]
pub(crate) enum TableError {
    Journal,
    Tree,
    Volume,
    Output,
    Memory,
}

impl<F> From<Error<F>> for TableError {
    fn from(error: Error<F>) -> Self {
        match error {
            Error::Volume => TableError::Volume,
            Error::Memory => TableError::Memory,
            _ => TableError::Journal,
        }
    }
}

impl<F> From<tree_core::Error<F>> for TableError {
    fn from(error: tree_core::Error<F>) -> Self {
        match error {
            tree_core::Error::Volume => TableError::Volume,
            tree_core::Error::Memory => TableError::Memory,
            _ => TableError::Tree,
        }
    }
}

impl From<JournalError> for TableError {
    fn from(error: JournalError) -> Self {
        match error {
            JournalError::Volume => TableError::Volume,
            JournalError::Memory => TableError::Memory,
            _ => TableError::Journal,
        }
    }
}

impl From<VolumeError> for TableError {
    fn from(_: VolumeError) -> Self {
        TableError::Volume
    }
}

impl From<CodecError> for TableError {
    fn from(_: CodecError) -> Self {
        TableError::Memory
    }
}

impl From<io::Error> for TableError {
    fn from(_: io::Error) -> Self {
        TableError::Output
    }
}

impl From<AllocError> for TableError {
    fn from(_: AllocError) -> Self {
        TableError::Memory
    }
}

impl<T: Drop> From<AllocFailed<T>> for TableError {
    fn from(_: AllocFailed<T>) -> Self {
        TableError::Memory
    }
}
