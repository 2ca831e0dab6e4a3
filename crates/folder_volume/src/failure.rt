use std::alloc::{AllocError, AllocFailed};
use std::io;

/// Why a call on the files of a folder wasn't done.
#[derive(Clone, Copy, Debug, PartialEq, Eq)]
pub(crate) enum Failure {
    /// The outside failed, or holds what no volume writes.
    Outside,
    /// There is no memory.
    Memory,
}

impl From<io::Error> for Failure {
    fn from(_: io::Error) -> Self {
        Failure::Outside
    }
}

impl From<AllocError> for Failure {
    fn from(_: AllocError) -> Self {
        Failure::Memory
    }
}

impl<T: Drop> From<AllocFailed<T>> for Failure {
    fn from(_: AllocFailed<T>) -> Self {
        Failure::Memory
    }
}
