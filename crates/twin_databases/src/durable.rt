//! A database of the run that is made durable and gives up old operations.
ghost use Rattle.std.specs.Prelude.{◌≤◌, length, IfOk, IfErr};
ghost use Rattle.log_model.specs.AppliedSizes.{AreSizes};
ghost use Rattle.log_model.specs.Good.{IsGoodLog};
ghost use Rattle.log_model.specs.Machine.{State, committed, synced, pruned};
ghost use Rattle.log_model.specs.Operations.{floor_of};
ghost use Rattle.chain_core.specs.Answers.{IsOutside};
ghost use Rattle.volume_base.specs.Moments.{present};
ghost use Rattle.volume_base.specs.Names.{NamesCall};
ghost use Rattle.volume_base.specs.Volume.{Writes, Changes};
ghost use Rattle.list_machine.specs.Config.{Config};
ghost use Rattle.list_machine.specs.Operation.{Operation, meaning};
ghost use Rattle.twin_batches.specs.Durability.{IsSettled};
ghost use Rattle.twin_batches.specs.Kind.{Kept, kept_of, kept_pruned, kept_synced};
ghost use Rattle.twin_batches.specs.Standing.{StepsTo};

use crate::database::Database;
use chain_core::Error;
use tree_shape::Mmr;
use volume_base::Volume;

/// A database of the run that is made durable. Where it keeps no failed sync and is that of a list, each call fails by
/// the volume or for want of memory alone.
pub trait Durable: Database {
    /// Makes the operations durable.
    fn commit<V: Volume>(self, volume: &mut V) -> Result<Self, Error<Mmr>>
        requires { Self.kind.is_sound self }
        ensures list { IfOk result (λ made. V.tells → (kept : Kept) →
            Self.kind.is_of kept (present (V.state volume.old)) self →
            Self.kind.is_of kept (present (V.state volume.new)) made) }
        ensures settled { IfOk result (IsSettled Self.kind self) }
        ensures durable { IfOk result (λ made. V.tells → Self.kind.is_durable made (V.state volume.new)) }
        ensures errors { IfErr result (λ e. V.tells → (kept : Kept) →
            Self.kind.is_of kept (present (V.state volume.old)) self → IsOutside e) }
        // Whatever a crash leaves at a moment stands for the state before, or for that which the list machine leaves.
        ensures images { V.tells → (s : State Operation) → IsGoodLog meaning s →
            Self.kind.is_of (kept_of s) (present (V.state volume.old)) self →
            StepsTo Self.kind s (committed s) self (V.state volume.old) (V.state volume.new) result }
        ensures names { V.tells → NamesCall (Self.kind.names self) (V.state volume.old) (V.state volume.new) }
        ensures writes { Writes V.tells Error.Volume (V.state volume.old) (V.state volume.new) result };

    /// Makes the operations and their nodes durable.
    fn sync<V: Volume>(self, volume: &mut V) -> Result<Self, Error<Mmr>>
        requires { Self.kind.is_sound self }
        ensures list { IfOk result (λ made. V.tells → (kept : Kept) →
            Self.kind.is_of kept (present (V.state volume.old)) self →
            Self.kind.is_of (kept_synced kept) (present (V.state volume.new)) made) }
        ensures settled { IfOk result (IsSettled Self.kind self) }
        ensures durable { IfOk result (λ made. V.tells → Self.kind.is_synced made (V.state volume.new)) }
        ensures errors { IfErr result (λ e. V.tells → (kept : Kept) →
            Self.kind.is_of kept (present (V.state volume.old)) self → IsOutside e) }
        // Whatever a crash leaves at a moment stands for the state before, or for that which the list machine leaves.
        ensures images { V.tells → (s : State Operation) → IsGoodLog meaning s →
            Self.kind.is_of (kept_of s) (present (V.state volume.old)) self →
            StepsTo Self.kind s (synced s) self (V.state volume.old) (V.state volume.new) result }
        ensures names { V.tells → NamesCall (Self.kind.names self) (V.state volume.old) (V.state volume.new) }
        ensures writes { Writes V.tells Error.Volume (V.state volume.old) (V.state volume.new) result };

    /// As `sync`, by a sync that is started, and has ended when this returns. It is refused as the volume's failure
    /// where that sync has failed.
    fn start_sync<V: Volume>(self, volume: &mut V) -> Result<Self, Error<Mmr>>
        requires { Self.kind.is_sound self }
        ensures list { IfOk result (λ made. V.tells → (kept : Kept) →
            Self.kind.is_of kept (present (V.state volume.old)) self →
            Self.kind.is_of (kept_synced kept) (present (V.state volume.new)) made) }
        ensures settled { IfOk result (IsSettled Self.kind self) }
        ensures durable { IfOk result (λ made. V.tells → Self.kind.is_synced made (V.state volume.new)) }
        ensures errors { IfErr result (λ e. V.tells → (kept : Kept) →
            Self.kind.is_of kept (present (V.state volume.old)) self → IsOutside e) }
        // Whatever a crash leaves at a moment stands for the state before, or for that which the list machine leaves.
        ensures images { V.tells → (s : State Operation) → IsGoodLog meaning s →
            Self.kind.is_of (kept_of s) (present (V.state volume.old)) self →
            StepsTo Self.kind s (synced s) self (V.state volume.old) (V.state volume.new) result }
        ensures names { V.tells → NamesCall (Self.kind.names self) (V.state volume.old) (V.state volume.new) }
        ensures writes { Writes V.tells Error.Volume (V.state volume.old) (V.state volume.new) result };

    /// Gives up what lies below a location, at most the floor, as far as whole blobs go.
    fn prune<V: Volume>(self, volume: &mut V, location: u64) -> Result<Self, Error<Mmr>>
        requires sound { Self.kind.is_sound self }
        requires low { location ≤ Self.kind.floor self }
        // It stays the database of its list, pruned under each configuration that it was opened under.
        ensures list { IfOk result (λ made. V.tells → (kept : Kept) (config : Config) →
            Self.kind.is_of kept (present (V.state volume.old)) self → Self.kind.is_under config self →
            AreSizes (length kept.ops) kept.sizes → floor_of meaning kept.ops ≤ length kept.ops →
            Self.kind.is_of (kept_pruned config kept location) (present (V.state volume.new)) made) }
        ensures settled { IfOk result (IsSettled Self.kind self) }
        ensures durable { IfOk result (λ made. V.tells → (kept : Kept) →
            Self.kind.is_of kept (present (V.state volume.old)) self →
            Self.kind.is_durable made (V.state volume.new)) }
        ensures errors { IfErr result (λ e. V.tells → (kept : Kept) →
            Self.kind.is_of kept (present (V.state volume.old)) self → IsOutside e) }
        // Where all was durable whatever a crash leaves at a moment stands for the state before, or for that which the
        // list machine leaves.
        ensures images { V.tells → Self.kind.is_durable self (V.state volume.old) →
            (config : Config) (s : State Operation) → IsGoodLog meaning s →
            Self.kind.is_of (kept_of s) (present (V.state volume.old)) self →
            StepsTo Self.kind s (pruned config.log_blob config.witness_blob s location) self (V.state volume.old)
            (V.state volume.new) result }
        ensures names { V.tells → NamesCall (Self.kind.names self) (V.state volume.old) (V.state volume.new) }
        ensures changes { Changes V.tells Error.Volume (V.state volume.old) (V.state volume.new) result };
}
