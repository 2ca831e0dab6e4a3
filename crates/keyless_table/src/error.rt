use codec_base::CodecError;
use std::alloc::{AllocError, AllocFailed};
use std::io;
use volume_base::VolumeError;

/// Why a table couldn't be printed.
#[derive(Debug, Drop)]
pub(crate) enum TableError {
    /// A database answered what the table has no word for.
    Database,
    Volume,
    Output,
    Memory,
}

impl<F> From<chain_core::Error<F>> for TableError {
    fn from(error: chain_core::Error<F>) -> Self {
        match error {
            chain_core::Error::Volume => TableError::Volume,
            chain_core::Error::Memory => TableError::Memory,
            _ => TableError::Database,
        }
    }
}

impl From<VolumeError> for TableError {
    fn from(_: VolumeError) -> Self {
        TableError::Volume
    }
}

impl From<CodecError> for TableError {
    fn from(_: CodecError) -> Self {
        TableError::Memory
    }
}

impl From<io::Error> for TableError {
    fn from(_: io::Error) -> Self {
        TableError::Output
    }
}

impl From<AllocError> for TableError {
    fn from(_: AllocError) -> Self {
        TableError::Memory
    }
}

impl<T: Drop> From<AllocFailed<T>> for TableError {
    fn from(_: AllocFailed<T>) -> Self {
        TableError::Memory
    }
}
