use codec_base::{Bytes, ListOf};
use log_model::Refusal;
use std::num::NonZeroU64;
use tree_proof::Proof;
use tree_shape::{Mmr, Sha256Digest};

/// Locations of operations, in their order.
pub type Locations = ListOf<u64>;

/// A command of the program, one line of its input.
#[derive(PartialEq, Eq, Drop)]
pub enum Command {
    /// Makes an unsealed batch on the present state, or on a sealed batch.
    New(Option<u64>),
    /// Adds a value to an unsealed batch.
    Append(u64, Bytes),
    /// Closes an unsealed batch by a commit, with metadata or without, and a floor.
    Seal(u64, Option<Bytes>, u64),
    /// Makes the list of a sealed batch the list.
    Apply(u64),
    /// Holds a sealed batch once more.
    Hold(u64),
    /// Holds a sealed batch once less, or gives up an unsealed one.
    Release(u64),
    /// Makes a sealed batch of the present state.
    Snapshot,
    /// Asks for the value at a location.
    Get(u64),
    /// Asks for the values at several locations.
    GetMany(Locations),
    /// Asks for the value at a location of a batch.
    BatchGet(u64, u64),
    /// Asks for the values at several locations of a batch.
    BatchGetMany(u64, Locations),
    /// Asks for the size.
    Size,
    /// Asks for the metadata of the last commit.
    Metadata,
    /// Asks, at a size, for a proof of the operations from a location on, at most so many.
    Proof(u64, u64, NonZeroU64),
    /// Asks for a proof of the commit that ends the list at a size.
    CommitProof(u64),
    /// Makes the operations durable.
    Commit,
    /// Makes the operations and the nodes durable.
    Sync,
    /// The same, by a sync that is started and ends within the command.
    StartSync,
    /// Gives up what lies below a location, as far as whole blobs go.
    Prune(u64),
}

/// Values in their order; of a commit without metadata, none.
pub type ValueList = ListOf<Option<Bytes>>;

/// The encodings of operations, in their order.
pub type OpList = ListOf<Bytes>;

/// A proof, from which location on it shows operations, and the encodings of these.
#[derive(Debug, PartialEq, Eq, Drop)]
pub struct ProofAnswer {
    pub proof: Proof<Mmr, Sha256Digest>,
    pub start: u64,
    pub operations: OpList,
}

/// What a command answers.
#[derive(Debug, PartialEq, Eq, Drop)]
pub enum Answer {
    /// The opening: the size and the first location that is kept.
    Opened { size: u64, start: u64 },
    /// The number of a new batch.
    Batch(u64),
    /// A value was added, a batch held, or one released.
    Done,
    /// The size and the root of a sealed batch.
    Sealed { size: u64, root: Sha256Digest },
    /// A batch was applied.
    Applied,
    /// The value at a location; of a commit, its metadata.
    Value(Option<Bytes>),
    /// The values at several locations.
    Values(ValueList),
    /// The size, the first location that is kept and the floor of the last commit.
    Size { size: u64, start: u64, floor: u64 },
    /// The metadata of the last commit.
    Metadata(Option<Bytes>),
    /// A proof of operations, or of a commit.
    Proof(ProofAnswer),
    /// The operations are durable.
    Committed,
    /// The operations and the nodes are durable.
    Synced,
    /// The same, by a sync that was started and has ended.
    SyncStarted,
    /// What lies below a location was given up. This is the first location that is kept.
    Pruned(u64),
    /// Nothing was done, for this reason.
    Refused(Refusal),
}

/// An answer, with the size and both roots after the command.
#[derive(Debug, PartialEq, Eq, Drop)]
pub struct Reply {
    pub answer: Answer,
    pub size: u64,
    pub full_root: Sha256Digest,
    pub compact_root: Sha256Digest,
}

/// The replies of a run, the one to the opening first.
pub type Replies = ListOf<Reply>;
