ghost use Rattle.std.specs.Prelude.{◌≡◌};
ghost use Rattle.target_codec.specs.Request.{size_of, start_of, max_ops_of, IsFieldwise};

use std::num::NonZeroU64;
use tree_shape::Location;

/// What a follower asks of the one that it syncs from.
#[derive_where(Clone, Copy, Debug, PartialEq, Eq)]
pub enum Request<F> {
    /// Operations with their proof.
    Operations {
        /// The number of operations of the log that the proof is of.
        size: Location<F>,
        /// The first operation that is asked for.
        start: Location<F>,
        /// The most operations that are asked for.
        max_ops: NonZeroU64,
    },
    /// One operation with the nodes before it.
    Boundary {
        /// The number of operations of the log that the proof is of.
        size: Location<F>,
        /// The operation that is asked for.
        start: Location<F>,
        /// The most operations that are asked for.
        max_ops: NonZeroU64,
    },
}

impl<F> Request<F> {
    /// The size of the log that the proof is of.
    pub fn size(&self) -> Location<F>
        ensures { result ≡ size_of self.now }
    {
        match self {
            Request::Operations { size, .. } | Request::Boundary { size, .. } => {
                Location::new(size.as_u64())
            }
        }
    }

    /// The first operation that is asked for.
    pub fn start(&self) -> Location<F>
        ensures { result ≡ start_of self.now }
    {
        match self {
            Request::Operations { start, .. } | Request::Boundary { start, .. } => {
                Location::new(start.as_u64())
            }
        }
    }

    /// The most operations that are asked for.
    pub fn max_ops(&self) -> NonZeroU64
        ensures { result ≡ max_ops_of self.now }
    {
        match self {
            Request::Operations { max_ops, .. } | Request::Boundary { max_ops, .. } => *max_ops,
        }
    }
}

/// Two requests are equal where their kinds and their numbers are.
pub fn request_equality_law<F>()
    ensures { IsFieldwise (⟦<Request<F> as PartialEq>⟧.eq) }
{}
