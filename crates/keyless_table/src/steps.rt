//! What a history calls, step by step.

/// The values of a batch, from one number to another, and the floor of the commit behind them.
#[derive(Clone, Copy)]
pub(crate) struct Values(pub(crate) u8, pub(crate) u8, pub(crate) u64);

/// A call that only reads.
#[derive(Clone, Copy)]
pub(crate) enum Ask {
    Get(u64),
    GetMany(&'static [u64]),
    /// The proof of a size, from a place on, of at most so many operations.
    Proof(u64, u64, u64),
    Pins(u64),
    /// From where on a follower needs the operations.
    Boundary,
    /// The proof of the present size, from a place on, of at most so many operations.
    Present(u64, u64),
    /// What a follower is given of a size, from a place on, of at most so many operations.
    Serve(u64, u64, u64),
    /// What a follower is given of a size and a place, with the nodes before it.
    ServeBoundary(u64, u64),
    /// A call of a batch, which is named by how many were sealed before it.
    Batch(usize, BatchAsk),
}

/// A call of a sealed batch.
#[derive(Clone, Copy)]
pub(crate) enum BatchAsk {
    Get(u64),
    GetMany(&'static [u64]),
    Proof,
    Pins,
}

/// A call that changes the database.
#[derive(Clone, Copy)]
pub(crate) enum Change {
    Apply(usize),
    Commit,
    Sync,
    StartSync,
    Prune(u64),
    /// It is opened again, under a cap if there is one.
    Open(Option<u64>),
    /// It is taken away, and another one opened in its place.
    Destroy,
}

/// A step of a history.
#[derive(Clone, Copy)]
pub(crate) enum Step {
    /// A batch is sealed, on another if there is one.
    Seal(Option<usize>, Values),
    /// A batch is sealed on the database, and applied.
    Batch(Values),
    Ask(Ask),
    Change(Change),
}
