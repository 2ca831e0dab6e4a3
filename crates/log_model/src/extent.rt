ghost use Rattle.std.specs.Prelude.{◌≡◌, ◌*◌, ◌≤◌, ℕ, length, IfOk, OnOk, OnErr, IsOkUnless};
ghost use Rattle.std.specs.NonZero.{non_zero_u64_get};
ghost use Rattle.volume_base.specs.Log.{end_of};
ghost use Rattle.volume_base.specs.Moments.{Image};
ghost use Rattle.log_model.specs.StateBatches.{SealedBatch};
ghost use Rattle.log_model.specs.Machine.{State, applied, by_blobs, committed, fresh, pruned, synced};
ghost use Rattle.log_model.specs.Extent.{IsExtentOf};
ghost use Rattle.log_model.specs.Opening.{opens_at};
ghost use Rattle.log_model.specs.Stored.{DatabaseNames};

use crate::sizes::{first_at_least, last_kept};
use codec_base::CodecError;
use std::alloc::Global;
use std::num::NonZeroU64;

/// The numbers of a state of a log: a plain program for what each kind of step makes of them.
#[derive(Drop)]
pub struct Extent {
    /// How many operations there are.
    pub size: u64,
    /// The applied sizes, strictly rising.
    pub sizes: Vec<u64>,
    /// The size up to which operations and witnesses are durable.
    pub durable: u64,
    /// The size up to which nodes are durable.
    pub node_durable: u64,
    /// The greatest location to which it was pruned.
    pub prune: u64,
    /// Where the operation log begins.
    pub start: u64,
    /// Where the witness log begins.
    pub witness_start: u64,
}

/// The greatest multiple of a blob's items that is at most n.
fn by_blobs(blob: NonZeroU64, n: u64) -> u64
    ensures { result ≡ by_blobs (non_zero_u64_get blob) n }
{
    blob.get() * (n / blob.get())
}

impl Extent {
    /// The numbers of a fresh volume's state.
    pub fn fresh<O>(alloc: Global) -> Result<Self, CodecError>
        ensures fresh { IfOk result (λ e. (commit : O) → IsExtentOf e (fresh commit)) }
        ensures memory { IsOkUnless result CodecError.Memory }
    {
        let mut sizes = Vec::new(alloc);
        sizes.push(1)?;
        Ok(Extent {
            size: 1,
            sizes,
            durable: 0,
            node_durable: 0,
            prune: 0,
            start: 0,
            witness_start: 0,
        })
    }

    /// A batch of this length is applied.
    pub fn apply<O>(&mut self, size: u64) -> Result<(), CodecError>
        ensures applied { OnOk result ((s : State O) (c : SealedBatch O) → length c.list ≡ size →
            IsExtentOf self.old s → IsExtentOf self.new (applied s c)) }
        ensures err { OnErr result ((s : State O) → IsExtentOf self.old s → IsExtentOf self.new s) }
        ensures memory { IsOkUnless result CodecError.Memory }
    {
        if size > self.size {
            self.sizes.push(size)?;
        }
        self.size = size;
        Ok(())
    }

    /// Operations and witnesses become durable.
    pub fn commit<O>(&mut self)
        ensures { (s : State O) → IsExtentOf self.old s → IsExtentOf self.new (committed s) }
    {
        self.durable = self.size;
    }

    /// So do nodes.
    pub fn sync<O>(&mut self)
        ensures { (s : State O) → IsExtentOf self.old s → IsExtentOf self.new (synced s) }
    {
        self.node_durable = self.size;
        self.durable = self.node_durable;
    }

    /// All becomes durable, and what lies below a location is given up, by blobs of so many operations and witnesses.
    pub fn prune<O>(&mut self, location: u64, log_blob: NonZeroU64, witness_blob: NonZeroU64)
        ensures { (s : State O) → IsExtentOf self.old s →
            IsExtentOf self.new (pruned (non_zero_u64_get log_blob) (non_zero_u64_get witness_blob) s location) }
    {
        let index = first_at_least(&self.sizes, location);
        self.node_durable = self.size;
        self.durable = self.node_durable;
        self.prune = self.prune.max(location);
        self.start = self.start.max(by_blobs(log_blob, location));
        self.witness_start = self.witness_start.max(by_blobs(witness_blob, index));
    }

    /// The size at which an image is opened whose operation log ends here, and whose witness log has these bounds.
    pub fn opens_at<O>(&self, end: u64, witness_start: u64, witness_end: u64) -> u64
        ensures { (names : DatabaseNames) (s : State O) (image : Image) → IsExtentOf self.now s →
            end ≡ end_of (image.log names.log) → witness_start ≡ (image.log names.witness).start →
            witness_end ≡ end_of (image.log names.witness) → result ≡ opens_at names s image }
    {
        last_kept(&self.sizes, end, witness_start, witness_end)
    }
}
