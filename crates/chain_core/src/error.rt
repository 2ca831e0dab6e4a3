ghost use Rattle.std.specs.Prelude.{◌≡◌};
ghost use Rattle.chain_core.specs.Texts.{fault_text};
ghost use Rattle.chain_core.specs.Sealing.{refusal_of};
ghost use Rattle.chain_core.specs.declared.error.Error.TheVariants.{Memory};

use log_model::Refusal;
use std::alloc::{AllocError, AllocFailed};
use tree_shape::Location;
use volume_base::JournalError;

/// Which data of a database is not what it has to be.
#[derive(Clone, Copy, Debug, PartialEq, Eq)]
pub enum DataFault {
    /// The bytes of a commit are no encoding of an operation.
    CommitOperation,
    NotACommit,
    /// A witness that stands for no state.
    Witness,
    /// The witness log is empty past its beginning.
    NoTip,
    ImportNotApplied,
}

impl DataFault {
    /// What is wrong, in words.
    #[tactic(auto, unfolding(crate::specs::Texts::fault_text))]
    pub fn text(&self) -> &'static str
        ensures { result.now ≡ fault_text self.now }
    {
        match self {
            DataFault::CommitOperation => "invalid commit operation",
            DataFault::NotACommit => "last operation was not a commit",
            DataFault::Witness => "invalid compact witness",
            DataFault::NoTip => "witness journal has no tip",
            DataFault::ImportNotApplied => "compact-sync import not applied",
        }
    }
}

/// Why a call of a database or of a batch wasn't done.
#[derive_where(Clone, Copy, Debug, PartialEq, Eq)]
pub enum Error<F> {
    Journal(JournalError),
    Merkle(tree_store::Error<F>),
    /// The location, and the size that it reaches or passes.
    LocationOutOfBounds(Location<F>, Location<F>),
    /// A location, and the next one, which isn't above it.
    LocationOutOfOrder(Location<F>, Location<F>),
    /// The location lies below the floor of the batch that is read.
    BelowInactivityFloor(Location<F>),
    /// The batch can't be sealed or applied at the state of the database.
    StaleBatch,
    /// The batch can't be read at the state of the database.
    StaleRead,
    /// The floor, and the floor built on, which is above it.
    FloorRegressed(Location<F>, Location<F>),
    /// The floor, and the location of the commit, which is below it.
    FloorBeyondSize(Location<F>, Location<F>),
    /// The location of a prune, and the floor, which is below it.
    PruneBeyondMinRequired(Location<F>, Location<F>),
    /// No commit ends at the size; of an opening, none that is kept ends at or below it.
    HistoricalFloorPruned(Location<F>),
    /// The operation for the location is of another kind than asked for.
    UnexpectedData(Location<F>),
    DataCorrupted(DataFault),
    InvalidInitializationBound,
    Volume,
    Memory,
}

impl<F> Error<F> {
    /// The refusal of a seal or an apply that it is, where it is one.
    pub fn refusal(&self) -> Option<Refusal>
        ensures { result ≡ refusal_of self.now }
    {
        match self {
            Error::StaleBatch => Some(Refusal::StaleBatch),
            Error::Merkle(tree_store::Error::LocationOverflow(size)) => {
                Some(Refusal::LocationOverflow(size.as_u64()))
            }
            Error::FloorRegressed(floor, below) => {
                Some(Refusal::FloorRegressed(floor.as_u64(), below.as_u64()))
            }
            Error::FloorBeyondSize(floor, location) => {
                Some(Refusal::FloorBeyondSize(floor.as_u64(), location.as_u64()))
            }
            _ => None,
        }
    }
}

impl<F> From<AllocError> for Error<F> {
    ghost from_gives = { λ _ e. e ≡ Memory };

    fn from(_: AllocError) -> Self {
        Error::Memory
    }
}

impl<F, T: Drop> From<AllocFailed<T>> for Error<F> {
    ghost from_gives = { λ _ e. e ≡ Memory };

    fn from(_: AllocFailed<T>) -> Self {
        Error::Memory
    }
}

impl<F> From<JournalError> for Error<F> {
    ghost use Rattle.chain_core.specs.Errors.{from_journal};

    ghost from_gives = { λ error e. e ≡ from_journal error };

    fn from(error: JournalError) -> Self {
        match error {
            JournalError::Volume => Error::Volume,
            JournalError::Memory => Error::Memory,
            other => Error::Journal(other),
        }
    }
}

impl<F> From<tree_store::Error<F>> for Error<F> {
    ghost use Rattle.chain_core.specs.Errors.{from_tree};

    ghost from_gives = { λ error e. e ≡ from_tree error };

    fn from(error: tree_store::Error<F>) -> Self {
        match error {
            tree_store::Error::Volume => Error::Volume,
            tree_store::Error::Memory => Error::Memory,
            other => Error::Merkle(other),
        }
    }
}
