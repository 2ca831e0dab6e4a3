//! When errors, numbers of batches and states are equal, and how a pool keeps its batches' marks.
ghost use Rattle.std.specs.Prelude.{◌≡◌, ℕ, ◌<◌, ◌≤◌, length, List, [], ◌∷◌, ◌++◌, Option, Some, None};
ghost use Rattle.std.specs.Bool.{Decides};
ghost use Rattle.std.specs.Option.{ForSome};
ghost use Rattle.chain_core.specs.Chains.{Sealing, IsSealedAt};
ghost use Rattle.chain_core.specs.MarkedPool.{KeepsItems, IsMarkedAt, AreMarked};
ghost use Rattle.chain_core.specs.Marks.{marks_of, IsMarkedOn};
ghost use Rattle.chain_core.specs.Reached.{item_at, linked_item};
ghost use Rattle.chain_core.specs.Slots.{IsAlive, link_held, link_released};
ghost use Rattle.chain_core.specs.declared.bounds.Bounds.{Bounds};
ghost use Rattle.chain_core.specs.declared.commitment.Commitment.{Commitment};
ghost use Rattle.chain_core.specs.declared.error.DataFault.{DataFault};
ghost use Rattle.chain_core.specs.declared.error.Error.{Error};
ghost use Rattle.chain_core.specs.declared.pool.HeldBatch.{HeldBatch};
ghost use Rattle.chain_core.specs.declared.pool.PoolError.{PoolError};

use crate::{BatchId, Commitment, DataFault, Error, PoolError};
use tree_shape::Digest;

/// Two errors are equal exactly where they are one, with the same fields; so are two numbers of batches, and two states.
pub fn equality_laws<F, D: Digest>()
    ensures error { (a b : Error F) → Decides (⟦<Error<F> as PartialEq>⟧.eq a b) (a ≡ b) }
    ensures fault { (a b : DataFault) → Decides (⟦<DataFault as PartialEq>⟧.eq a b) (a ≡ b) }
    ensures pool { (a b : PoolError) → Decides (⟦<PoolError as PartialEq>⟧.eq a b) (a ≡ b) }
    ensures batch { (a b : ℕ) → Decides (⟦<BatchId as PartialEq>⟧.eq a b) (a ≡ b) }
    ensures state { (a b : Commitment F D) → Decides (⟦<Commitment<F, D> as PartialEq>⟧.eq a b) (a ≡ b) }
{}

/// Each batch of a pool has its marks where each that was put into it had them: no hold and no release takes them. A batch
/// has them that is alone, or that is sealed in its place, on the tip of its parent. So a batch that is to be sealed is
/// marked: it has no parent, or one that is alive, with the parent's marks, on its tip; and it stays so.
pub fn marks_laws<T, F, D: Digest>()
    ensures empty { (bounds : T → Bounds F D) → AreMarked bounds [] }
    ensures held { (bounds : T → Bounds F D) (pool : List (Option (HeldBatch T))) (link : Option ℕ) →
        AreMarked bounds pool → AreMarked bounds (link_held pool link) × KeepsItems pool (link_held pool link) }
    ensures released { (bounds : T → Bounds F D) (pool : List (Option (HeldBatch T))) (link : Option ℕ) →
        AreMarked bounds pool → AreMarked bounds (link_released pool link) × KeepsItems pool (link_released pool link) }
    ensures inserted { (bounds : T → Bounds F D) (pool : List (Option (HeldBatch T))) (link : Option ℕ)
        (e : HeldBatch T) → AreMarked bounds pool → IsMarkedAt bounds pool e.parent (bounds e.item) →
        AreMarked bounds (link_released pool link ++ Some e ∷ [])
        × KeepsItems pool (link_released pool link ++ Some e ∷ []) }
    ensures alone { (bounds : T → Bounds F D) (pool : List (Option (HeldBatch T))) (b : Bounds F D) →
        b.ancestors ≡ [] → b.db ≡ b.base → b.base.size ≤ b.tip.size → IsMarkedAt bounds pool None b }
    ensures sealed { (bounds : T → Bounds F D) (pool : List (Option (HeldBatch T))) (b : Sealing F D)
        (current : Commitment F D) (below floor : ℕ) (made : Bounds F D) → AreMarked bounds pool →
        ForSome b.parent (IsAlive pool) → b.base.size ≤ b.size →
        ((p : T) → linked_item pool b.parent ≡ Some p → b.base.size ≡ (bounds p).tip.size) →
        IsSealedAt bounds D.bytes pool b current below floor made → IsMarkedAt bounds pool b.parent made }
    ensures first { (bounds : T → Bounds F D) (pool : List (Option (HeldBatch T))) (base : Commitment F D) →
        IsMarkedOn bounds pool None base [] }
    ensures child { (bounds : T → Bounds F D) (pool : List (Option (HeldBatch T))) (id : ℕ) (p : T)
        (base : Commitment F D) → AreMarked bounds pool → item_at pool id ≡ Some p → base.size ≡ (bounds p).tip.size →
        IsMarkedOn bounds pool (Some id) base (marks_of (bounds p)) }
    ensures stays { (bounds : T → Bounds F D) (pool later : List (Option (HeldBatch T))) (parent : Option ℕ)
        (base : Commitment F D) (marks : List ℕ) → AreMarked bounds later → KeepsItems pool later →
        ForSome parent (λ p. p < length pool) → IsMarkedOn bounds pool parent base marks →
        IsMarkedOn bounds later parent base marks }
{}
