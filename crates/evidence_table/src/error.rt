use codec_base::CodecError;
use std::alloc::{AllocError, AllocFailed};
use std::io;
use tree_store::Error;

/// Why the table couldn't be printed.
#[derive(Debug, Drop)]
pub(crate) enum TableError {
    Lists,
    Tree,
    Output,
    Memory,
}

impl<F> From<Error<F>> for TableError {
    fn from(_: Error<F>) -> Self {
        TableError::Tree
    }
}

impl From<CodecError> for TableError {
    fn from(_: CodecError) -> Self {
        TableError::Memory
    }
}

impl From<io::Error> for TableError {
    fn from(_: io::Error) -> Self {
        TableError::Output
    }
}

impl From<AllocError> for TableError {
    fn from(_: AllocError) -> Self {
        TableError::Memory
    }
}

impl<T: Drop> From<AllocFailed<T>> for TableError {
    fn from(_: AllocFailed<T>) -> Self {
        TableError::Memory
    }
}
