ghost use Rattle.std.specs.Prelude.{◌≡◌};
ghost use Rattle.twin_run.specs.Faults.{full_fault, compact_fault};

use chain_core::Error;
use command_text::Replies;
use tree_shape::{Mmr, Sha256Digest};

/// What of a volume's contents is no state of the log.
#[derive(Debug, PartialEq, Eq, Drop)]
pub enum CorruptAt {
    /// What the full database keeps, by its error.
    Full(Error<Mmr>),
    /// What the compact database keeps, by its error.
    Compact(Error<Mmr>),
    /// The sizes of the full and of the compact database, which differ.
    Sizes(u64, u64),
    /// The roots of the full and of the compact database, which differ.
    Roots(Sha256Digest, Sha256Digest),
}

/// What ends a run.
#[derive(Debug, PartialEq, Eq, Drop)]
pub enum Fault {
    /// The volume failed.
    Volume,
    /// The volume holds no valid state.
    Corrupt(CorruptAt),
    /// There is no memory.
    Memory,
}

/// The fault that an error of the full database is: what comes from outside, or what lies in the contents.
pub(crate) fn full_fault(error: Error<Mmr>) -> Fault
    ensures { result ≡ full_fault error }
{
    match error {
        Error::Volume => Fault::Volume,
        Error::Memory => Fault::Memory,
        other => Fault::Corrupt(CorruptAt::Full(other)),
    }
}

/// The fault that an error of the compact database is.
pub(crate) fn compact_fault(error: Error<Mmr>) -> Fault
    ensures { result ≡ compact_fault error }
{
    match error {
        Error::Volume => Fault::Volume,
        Error::Memory => Fault::Memory,
        other => Fault::Corrupt(CorruptAt::Compact(other)),
    }
}

/// A run that a fault ended, with the replies before it.
#[derive(Drop)]
pub struct Stopped {
    pub fault: Fault,
    pub replies: Replies,
}

/// How the program ends.
#[derive(Clone, Copy, Debug, PartialEq, Eq)]
pub enum Status {
    /// The input was read and run, and all replies were written.
    Done,
    /// The words have no known form.
    BadWords,
    /// This line, counted from 1, isn't a command.
    BadLine(u64),
    /// The input couldn't be read.
    ReadFault,
    /// The output couldn't be written.
    WriteFault,
    /// The volume failed.
    Volume,
    /// The volume holds no valid state.
    Corrupt,
    /// There is no memory.
    Memory,
    /// The input is too long.
    TooLong,
}
