//! The items that a tree lacks, replayed from the log.
ghost use Rattle.std.specs.Prelude.{◌≡◌, ◌≤◌, ◌^◌, max, ℕ, List, ◌++◌, length, take, false, IfOk, IfErr, OnOk};
ghost use Rattle.journal_base.specs.Items.{items_of, Spells};
ghost use Rattle.journal_base.specs.View.{log_of, IsDurable};
ghost use Rattle.tree_core.specs.Applied.{IsLonger};
ghost use Rattle.volume_base.specs.Moments.{Image, present};
ghost use Rattle.volume_base.specs.Names.{log_alone, NamesCall};
ghost use Rattle.volume_base.specs.Volume.{Reads, Changes};
ghost use Rattle.merkle_full.specs.Flushing.{AllStand, AllKeepStanding};
ghost use Rattle.merkle_full.specs.Full.{IsBeside, IsSeated, Rests};
ghost use Rattle.merkle_full.specs.Lists.{IsFullOf};
ghost use Rattle.auth_journal.specs.Aligning.{IsAligned, NotAligned};
ghost use Rattle.auth_journal.specs.Errors.{IsLifted};
ghost use Rattle.auth_journal.specs.Joined.{leaves_of};
ghost use Rattle.auth_journal.specs.Reading.{AreReadable};

use crate::Error;
use crate::leaves::with_leaves;
use crate::reading::read_range;
use journal_base::Contiguous;
use merkle_full::Merkle;
use std::alloc::Global;
use std::num::NonZeroU64;
use tree_core::{Family, Hasher, Standard};
use volume_base::{JournalError, Volume};

/// The tree with a leaf for each item of the log from its own leaves up to an end. The items are read so many at a
/// time.
pub(crate) fn align<F: Family, C: Contiguous, H: Hasher, V: Volume>(
    alloc: Global,
    vol: &mut V,
    merkle: Merkle<F, H::Digest>,
    journal: &C,
    hasher: &Standard<H>,
    end: u64,
    apply_batch: NonZeroU64,
) -> Result<Merkle<F, H::Digest>, Error<F>>
    requires few { end ≤ 2 ^ 62 }
    ensures beside { IfOk result (λ t. IsBeside merkle t) }
    ensures longer { IfOk result (λ t. IsLonger F.shape (max merkle.tree.leaves end) merkle.tree t.tree) }
    ensures replayed { let items = items_of C.Item.spelling C.Item.admits (C.view journal.now) (V.state vol.old) in
        OnOk result (V.tells → AreReadable items merkle.tree.leaves end) }
    // For each list of which the log is a run and whose first leaves make the tree, so still, with more leaves.
    ensures full { let admits = H.Digest.Read.admits tt in
        let log = log_of (C.view journal.now) (V.state vol.old) in
        IfOk result (λ t. V.tells → (list : List C.Item) (image : Image) →
        Spells C.Item.spelling list log → end ≤ length list →
        IsFullOf F.shape H.hash H.Digest.spelling admits
        (leaves_of F.shape H.hash C.Item.spelling (take merkle.tree.leaves list)) merkle image →
        IsFullOf F.shape H.hash H.Digest.spelling admits
        (leaves_of F.shape H.hash C.Item.spelling (take t.tree.leaves list)) t image) }
    ensures refused { let items = items_of C.Item.spelling C.Item.admits (C.view journal.now) (V.state vol.old) in
        IfErr result (NotAligned V.tells items merkle.tree.leaves end) }
    ensures reads { Reads V.tells Error.Volume (V.state vol.old) (V.state vol.new) result }
{
    let mut merkle = merkle;
    let mut leaves = merkle.leaves().as_u64();
    while leaves < end {
        let next = leaves + apply_batch.get().min(end - leaves);
        let items = read_range(alloc, journal, vol, leaves, next)?;
        merkle = with_leaves(alloc, merkle, hasher, &items)?;
        leaves = next;
    }
    Ok(merkle)
}

/// The tree with a leaf for each item of the log up to an end, and its own log durable. Where the tree would then have
/// another number of leaves than the log has items, it refuses with `Corruption` of the tree's leaves, under `Journal`,
/// before anything is read.
pub(crate) fn catch_up<F: Family, C: Contiguous, H: Hasher, V: Volume>(
    alloc: Global,
    vol: &mut V,
    merkle: Merkle<F, H::Digest>,
    journal: &C,
    hasher: &Standard<H>,
    end: u64,
    apply_batch: NonZeroU64,
) -> Result<Merkle<F, H::Digest>, Error<F>>
    requires few { end ≤ 2 ^ 62 }
    requires fresh { merkle.log.failed ≡ false }
    ensures aligned { IfOk result (λ t. IsAligned merkle (max merkle.tree.leaves end) t) }
    // Whatever the volume tells, the tree has a leaf for each item of the log, and no more.
    ensures whole { IfOk result (λ t. t.tree.leaves ≡ (C.view journal.now).end) }
    // Each item that the tree lacked can be read.
    ensures replayed { let items = items_of C.Item.spelling C.Item.admits (C.view journal.now) (V.state vol.old) in
        OnOk result (V.tells → AreReadable items merkle.tree.leaves end) }
    ensures rests { IfOk result (λ t. Rests F.shape t) }
    ensures begins { let name = merkle.log.name in OnOk result (V.tells →
        ((V.state vol.new).log name).start ≡ ((V.state vol.old).log name).start) }
    ensures seated { IfOk result (λ t. V.tells → IsSeated F.shape merkle (present (V.state vol.old)) →
        IsSeated F.shape t (present (V.state vol.new))) }
    ensures full { let admits = H.Digest.Read.admits tt in
        let log = log_of (C.view journal.now) (V.state vol.old) in
        IfOk result (λ t. V.tells → (list : List C.Item) → Spells C.Item.spelling list log → end ≤ length list →
        IsFullOf F.shape H.hash H.Digest.spelling admits
        (leaves_of F.shape H.hash C.Item.spelling (take merkle.tree.leaves list)) merkle (present (V.state vol.old)) →
        IsFullOf F.shape H.hash H.Digest.spelling admits
        (leaves_of F.shape H.hash C.Item.spelling (take t.tree.leaves list)) t (present (V.state vol.new))) }
    ensures refused { let items = items_of C.Item.spelling C.Item.admits (C.view journal.now) (V.state vol.old) in
        V.tells → IsSeated F.shape merkle (present (V.state vol.old)) →
        (C.view journal.now).end ≡ max merkle.tree.leaves end →
        IfErr result (NotAligned V.tells items merkle.tree.leaves end) }
    // Whatever the volume tells.
    ensures lifted { IfErr result IsLifted }
    ensures durable { OnOk result (V.tells → IsDurable merkle.log (V.state vol.new)) }
    // After it all leaves are durable.
    ensures settled { let log = log_of (C.view journal.now) (V.state vol.old) in
        OnOk result (V.tells → (list : List C.Item) (durable top : ℕ) →
        Spells C.Item.spelling list log → end ≤ length list →
        IsFullOf F.shape H.hash H.Digest.spelling (H.Digest.Read.admits tt)
        (leaves_of F.shape H.hash C.Item.spelling (take merkle.tree.leaves list)) merkle (present (V.state vol.old)) →
        let all = leaves_of F.shape H.hash C.Item.spelling (take (max merkle.tree.leaves end) list) in
        AllStand F.shape H.hash H.Digest.spelling all durable top merkle (V.state vol.old) →
        AllStand F.shape H.hash H.Digest.spelling all (length all) top merkle (V.state vol.new)) }
    ensures names { V.tells → NamesCall (log_alone merkle.log.name) (V.state vol.old) (V.state vol.new) }
    // Each image goes on standing for the list, or for a longer one.
    ensures images { let log = log_of (C.view journal.now) (V.state vol.old) in
        V.tells → (list : List C.Item) (rest : List H.Digest) (durable top : ℕ) →
        Spells C.Item.spelling list log → end ≤ length list →
        IsFullOf F.shape H.hash H.Digest.spelling (H.Digest.Read.admits tt)
        (leaves_of F.shape H.hash C.Item.spelling (take merkle.tree.leaves list)) merkle (present (V.state vol.old)) →
        let all = leaves_of F.shape H.hash C.Item.spelling (take (max merkle.tree.leaves end) list) ++ rest in
        AllStand F.shape H.hash H.Digest.spelling all durable top merkle (V.state vol.old) →
        AllKeepStanding F.shape H.hash H.Digest.spelling all durable top merkle (V.state vol.old) (V.state vol.new) }
    ensures changes { Changes V.tells Error.Volume (V.state vol.old) (V.state vol.new) result }
{
    let (_, last) = journal.bounds();
    let leaves = merkle.leaves().as_u64();
    let reached = leaves.max(end);
    if last != reached {
        return Err(Error::Journal(JournalError::Corruption(leaves)));
    }
    let aligned = align(alloc, vol, merkle, journal, hasher, end, apply_batch)?;
    let synced = aligned.sync(vol)?;
    Ok(synced)
}
