//! What a compact database asks of its operations.
ghost use Rattle.std.specs.Prelude.{◌≡◌, [], List, length, Some, IfOk, IsOkUnless};
ghost use Rattle.log_model.specs.Good.{AreAppends};

use codec_base::{CodecError, Duplicate, EncodeSize, Read};
use log_model::Logged;
use std::alloc::Global;

/// An operation that a compact database can hold: how its commits are made, and what a batch has of it before it is
/// sealed.
pub trait CompactOperation: Logged + EncodeSize + Read + Duplicate + Drop {
    /// What a batch collects.
    type Pending: Drop;

    /// The operations that it stands for, in their order.
    ghost collected: { Self.Pending → List Self };

    /// Nothing yet. It takes no memory.
    fn none(alloc: Global) -> Self::Pending
        ensures { collected result ≡ [] };

    /// How many operations there are.
    fn count(pending: &Self::Pending) -> u64
        ensures { result ≡ length (collected pending.now) };

    /// The operations, in their order.
    fn into_operations(pending: Self::Pending) -> Result<Vec<Self>, CodecError>
        ensures same { IfOk result (λ ops. ops.items ≡ collected pending) }
        ensures memory { IsOkUnless result CodecError.Memory };

    /// A commit of this metadata and floor.
    fn commit(metadata: Option<Self::Value>, floor: u64) -> Self
        ensures floor { Self.meaning.floor result ≡ Some floor }
        ensures value { Self.meaning.value result ≡ metadata };

    /// A copy of the value; of a commit, of its metadata.
    fn copied_value(&self) -> Result<Option<Self::Value>, CodecError>
        ensures value { IfOk result (λ value. value ≡ Self.meaning.value self.now) }
        ensures memory { IsOkUnless result CodecError.Memory };

    /// None of what is collected is a commit.
    ghost appends: { (pending : Self.Pending) → AreAppends Self.meaning (collected pending) };
}
