//! A database of the run: what a side asks of it.
ghost use Rattle.std.specs.Prelude.{◌≡◌, ℕ, ◌↔◌, ◌<◌, ◌+◌, ◌-◌, ◌^◌, ◌++◌, ◌∷◌, [], List, length, Some, None, IsOk, IfOk, IfErr, OnOk, OnErr, IsOkUnless, Contains};
ghost use Rattle.std.specs.Option.{ForSome};
ghost use Rattle.log_model.specs.Good.{IsGoodLog};
ghost use Rattle.log_model.specs.Machine.{State};
ghost use Rattle.log_model.specs.Operations.{last_value};
ghost use Rattle.chain_core.specs.Answers.{IsOutside};
ghost use Rattle.chain_core.specs.Chains.{IsPoolOf, IsSealedAt, WhyUnsealed};
ghost use Rattle.chain_core.specs.Marks.{marks_of, IsMarkedOn};
ghost use Rattle.chain_core.specs.Reached.{item_at};
ghost use Rattle.chain_core.specs.Slots.{IsAlive, holds_of, link_held, link_released};
ghost use Rattle.op_codec.specs.declared.keyless.Operation.TheVariants.{Append, Commit};
ghost use Rattle.tree_shape.specs.Mmr.{mmr};
ghost use Rattle.tree_shape.specs.Sha256Codec.{bytes_of};
ghost use Rattle.volume_base.specs.Moments.{Image, present};
ghost use Rattle.volume_base.specs.Names.{NamesCall};
ghost use Rattle.volume_base.specs.Volume.{Writes};
ghost use Rattle.list_machine.specs.Config.{Config};
ghost use Rattle.list_machine.specs.Operation.{Operation, meaning, sha};
ghost use Rattle.twin_batches.specs.Kind.{Kind, Kept, kept_of, with_list, size_of, sealing_of, snapshot_of};
ghost use Rattle.twin_batches.specs.Standing.{KeepsTo, with_ops};

use chain_core::{BatchId, Bounds, Commitment, Error, Pool};
use codec_base::Bytes;
use tree_shape::{Mmr, Sha256Digest};
use volume_base::Volume;

/// A database of the run with its batches. No call asks what is stored, so each is total over any contents; what it
/// answers is said where the database is that of a list.
pub trait Database: Drop + Sized {
    type Sealed: Drop;

    type Unsealed: Drop;

    /// What it and its batches stand for.
    ghost kind: { Kind Self Self.Sealed Self.Unsealed };

    /// The state of the log.
    fn commitment(&self) -> Commitment<Mmr, Sha256Digest>
        ensures { result ≡ kind.state self.now };

    /// The floor of the log.
    fn floor(&self) -> u64
        ensures { result ≡ kind.floor self.now };

    /// A copy of the last commit's metadata. The volume isn't touched.
    fn metadata<V: Volume>(&self, volume: &mut V) -> Result<Option<Bytes>, Error<Mmr>>
        ensures value { IfOk result (λ value. (kept : Kept) (image : Image) → kind.is_of kept image self.now →
            value ≡ last_value meaning kept.ops) }
        ensures still { volume.new ≡ volume.old }
        ensures memory { IsOkUnless result Error.Memory };

    /// A batch on the log.
    fn new_batch(&self) -> Result<Self::Unsealed, Error<Mmr>>
        ensures pending { IfOk result (λ u. kind.pending u ≡ []) }
        ensures parent { IfOk result (λ u. kind.parent u ≡ None) }
        ensures list { IfOk result (λ u. (kept : Kept) (image : Image) → kind.is_of kept image self.now →
            kind.is_unsealed kept.ops u) }
        ensures marks { IfOk result (kind.is_marked []) }
        ensures memory { IsOkUnless result Error.Memory };

    /// A batch on a sealed one, which it holds.
    fn child(pool: &mut Pool<Self::Sealed>, id: BatchId) -> Result<Self::Unsealed, Error<Mmr>>
        requires alive { IsAlive pool.old id }
        requires room { holds_of pool.old id < 2 ^ 64 - 1 }
        ensures held { OnOk result (pool.new ≡ link_held pool.old (Some id)) }
        ensures err { OnErr result (pool.new ≡ pool.old) }
        ensures pending { IfOk result (λ u. kind.pending u ≡ []) }
        ensures parent { IfOk result (λ u. kind.parent u ≡ Some id) }
        ensures list { IfOk result (λ u. (x : Self.Sealed) → item_at pool.old id ≡ Some x →
            (list : List Operation) → kind.is_sealed list x → kind.is_unsealed list u) }
        // It has its parent's marks.
        ensures marks { IfOk result (λ u. (x : Self.Sealed) → item_at pool.old id ≡ Some x →
            (list : List Operation) → kind.is_sealed list x → kind.is_marked (marks_of (kind.bounds x)) u) }
        ensures memory { IsOkUnless result Error.Memory };

    /// How many operations a batch has, with its appends. The coming commit isn't counted.
    fn size(batch: &Self::Unsealed) -> u64
        ensures size { result ≡ size_of kind batch.now }
        ensures within { result < 2 ^ 64 - 1 };

    /// Adds a value to a batch, which has room for it.
    fn append(batch: &mut Self::Unsealed, value: &Bytes) -> Result<(), Error<Mmr>>
        requires { size_of kind batch.old < 2 ^ 62 }
        ensures pending { OnOk result (kind.pending batch.new ≡ kind.pending batch.old ++ Append value.now ∷ []) }
        ensures list { OnOk result ((list : List Operation) → kind.is_unsealed list batch.old →
            kind.is_unsealed list batch.new) }
        ensures marks { OnOk result ((marks : List ℕ) → kind.is_marked marks batch.old →
            kind.is_marked marks batch.new) }
        ensures parent { OnOk result (kind.parent batch.new ≡ kind.parent batch.old) }
        ensures memory { IsOkUnless result Error.Memory };

    /// Gives up a batch, and its hold on its parent.
    fn discard(batch: Self::Unsealed, pool: &mut Pool<Self::Sealed>)
        requires { ForSome (kind.parent batch) (IsAlive pool.old) }
        ensures { pool.new ≡ link_released pool.old (kind.parent batch) };

    /// Seals a batch by a commit, and puts it into the pool. Its hold on its parent ends, whatever is answered.
    /// Refuses, in this order: `StaleBatch`, `Merkle(LocationOverflow)`, `FloorRegressed`, `FloorBeyondSize`; or with
    /// `Memory`.
    fn seal(
        &self,
        batch: Self::Unsealed,
        pool: &mut Pool<Self::Sealed>,
        metadata: Option<Bytes>,
        floor: u64,
    ) -> Result<BatchId, Error<Mmr>>
        requires parent { ForSome (kind.parent batch) (IsAlive pool.old) }
        requires room { length pool.old < 2 ^ 64 - 1 }
        ensures number { IfOk result (λ id. id ≡ length pool.old) }
        ensures inserted { OnOk result ((x : Self.Sealed)
            × (pool.new ≡ link_released pool.old (kind.parent batch) ++
            Some (record { item = x; parent = kind.parent batch; holds = 1 }) ∷ [])
            × IsSealedAt kind.bounds bytes_of pool.old (sealing_of kind batch) (kind.state self.now)
            (kind.floor self.now) floor (kind.bounds x)
            × ((list : List Operation) (marks : List ℕ) → kind.is_unsealed list batch → kind.is_marked marks batch →
            IsPoolOf kind.bounds mmr sha meaning pool.old (kind.parent batch) list →
            IsMarkedOn kind.bounds pool.old (kind.parent batch) (kind.base batch) marks →
            kind.is_sealed (list ++ (kind.pending batch ++ Commit metadata floor ∷ [])) x)) }
        ensures released { OnErr result (pool.new ≡ link_released pool.old (kind.parent batch)) }
        ensures refused { IfErr result (WhyUnsealed kind.bounds bytes_of pool.old (sealing_of kind batch)
            (kind.state self.now) (kind.floor self.now) floor) };

    /// The states of a sealed batch.
    fn bounds(batch: &Self::Sealed) -> &Bounds<Mmr, Sha256Digest>
        ensures { result.now ≡ kind.bounds batch.now };

    /// A sealed batch of the log, without operations of its own.
    fn snapshot(&self, pool: &mut Pool<Self::Sealed>) -> Result<BatchId, Error<Mmr>>
        requires { length pool.old < 2 ^ 64 - 1 }
        ensures number { IfOk result (λ id. id ≡ length pool.old) }
        ensures inserted { OnOk result ((x : Self.Sealed)
            × (pool.new ≡ pool.old ++ Some (record { item = x; parent = None; holds = 1 }) ∷ [])
            × (kind.bounds x ≡ snapshot_of kind self.now)
            × ((kept : Kept) (image : Image) → kind.is_of kept image self.now → kind.is_sealed kept.ops x)) }
        ensures err { OnErr result (pool.new ≡ pool.old) }
        ensures memory { IsOkUnless result Error.Memory };

    /// Whether a sealed batch may be applied here: at its boundary, or at the tip of an ancestor. It refuses with
    /// `StaleBatch`.
    fn validate(&self, pool: &Pool<Self::Sealed>, id: BatchId) -> Result<(), Error<Mmr>>
        requires { IsAlive pool.now id }
        ensures stands { (x : Self.Sealed) → item_at pool.now id ≡ Some x →
            (IsOk result ↔ Contains ((kind.bounds x).db ∷ (kind.bounds x).ancestors) (kind.state self.now)) }
        ensures stale { IsOkUnless result Error.StaleBatch };

    /// The database whose list is that of a sealed batch. Of contents it says something where the volume tells them.
    fn apply<V: Volume>(
        self,
        volume: &mut V,
        pool: &Pool<Self::Sealed>,
        id: BatchId,
    ) -> Result<Self, Error<Mmr>>
        requires { IsAlive pool.now id }
        // Of a batch of a list that begins with the database's it makes that list's database, which keeps what it kept.
        ensures list { IfOk result (λ made. V.tells → (x : Self.Sealed) → item_at pool.now id ≡ Some x →
            (kept : Kept) (more : List Operation) → kind.is_of kept (present (V.state volume.old)) self →
            kind.is_sealed (kept.ops ++ more) x →
            kind.is_of (with_list kept (kept.ops ++ more)) (present (V.state volume.new)) made) }
        // Of such a batch, where it may be applied, it fails by the volume or for want of memory alone.
        ensures errors { IfErr result (λ e. V.tells → (x : Self.Sealed) → item_at pool.now id ≡ Some x →
            (kept : Kept) (more : List Operation) → kind.is_of kept (present (V.state volume.old)) self →
            kind.is_sealed (kept.ops ++ more) x →
            Contains ((kind.bounds x).db ∷ (kind.bounds x).ancestors) (kind.state self) → IsOutside e) }
        // Whatever a crash leaves at a moment then stands for the longer list, of which no more is durable than before.
        ensures images { V.tells → (x : Self.Sealed) → item_at pool.now id ≡ Some x →
            (s : State Operation) (more : List Operation) → IsGoodLog meaning s →
            kind.is_of (kept_of s) (present (V.state volume.old)) self → kind.is_sealed (s.ops ++ more) x →
            KeepsTo kind s (with_ops s (s.ops ++ more)) self (V.state volume.old) (V.state volume.new) }
        // Whatever it answers, it touches its own logs and maps alone.
        ensures names { V.tells → NamesCall (kind.names self) (V.state volume.old) (V.state volume.new) }
        ensures same_names { IfOk result (λ made. kind.names made ≡ kind.names self) }
        ensures sound { IfOk result (λ made. kind.is_sound self → kind.is_sound made) }
        ensures under { IfOk result (λ made. (config : Config) → kind.is_under config self →
            kind.is_under config made) }
        ensures writes { Writes V.tells Error.Volume (V.state volume.old) (V.state volume.new) result };
}
