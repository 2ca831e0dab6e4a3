//! A journal of a log and a tree that are there.
use crate::align::catch_up;
use crate::{Error, Journal};
use journal_base::Backing;
use merkle_full::Merkle;
use std::alloc::Global;
use std::num::NonZeroU64;
use tree_core::{Family, Hasher, Location, MAX_LEAVES, Standard};
use volume_base::{JournalError, Volume};

impl<F: Family, C: Backing, H: Hasher> Journal<F, C, H> {
    ghost use Rattle.std.specs.Prelude.{◌≡◌, ◌≢◌, ◌⊎◌, ◌<◌, ◌≤◌, ◌^◌, ℕ, List, length, take, true, false, Err, IfOk, IfErr, OnOk};
    ghost use Rattle.journal_base.specs.Items.{items_of, Spells};
    ghost use Rattle.journal_base.specs.View.{log_of, IsHeld, IsDurable};
    ghost use Rattle.tree_store.specs.declared.error.Error.TheVariants.{LocationOverflow};
    ghost use Rattle.volume_base.specs.Moments.{present};
    ghost use Rattle.volume_base.specs.Names.{log_alone, NamesCall};
    ghost use Rattle.volume_base.specs.Volume.{Changes};
    ghost use Rattle.volume_base.specs.declared.error.JournalError.TheVariants.{Corruption};
    ghost use Rattle.merkle_full.specs.Flushing.{AllStand, AllKeepStanding};
    ghost use Rattle.merkle_full.specs.Full.{IsSeated, Rests};
    ghost use Rattle.merkle_full.specs.Lists.{IsFullOf};
    ghost use Rattle.auth_journal.specs.Aligning.{IsAligned, NotAligned};
    ghost use Rattle.auth_journal.specs.Errors.{IsLifted};
    ghost use Rattle.auth_journal.specs.Joined.{IsJoinedOf, leaves_of};
    ghost use Rattle.auth_journal.specs.Reading.{AreReadable};

    /// Joins a log with a tree. The leaves that the tree lacks are made of the log's items, which are read so many at a
    /// time, and the tree is synced. Where the log or the tree keeps a failed sync it refuses with `Volume`. Else it
    /// refuses a tree with more leaves than the log has items with `Corruption`, under `Journal`, and more than
    /// `MAX_LEAVES` items with `LocationOverflow`, all before anything is written; and an item that it can't read as
    /// `read`, under `Journal`.
    pub fn from_components<V: Volume>(
        alloc: Global,
        vol: &mut V,
        merkle: Merkle<F, H::Digest>,
        journal: C,
        hasher: Standard<H>,
        apply_batch: NonZeroU64,
    ) -> Result<Self, Error<F>>
        requires apart { (C.view journal).name ≢ merkle.log.name }
        ensures kept { ((C.view journal).failed ≡ true) ⊎ (merkle.log.failed ≡ true) →
            (result ≡ Err Error.Volume) × (vol.new ≡ vol.old) }
        ensures ahead { (C.view journal).failed ≡ false → merkle.log.failed ≡ false →
            (C.view journal).end < merkle.tree.leaves →
            (result ≡ Err (Error.Journal (Corruption merkle.tree.leaves))) × (vol.new ≡ vol.old) }
        ensures full { (C.view journal).failed ≡ false → merkle.log.failed ≡ false →
            merkle.tree.leaves ≤ (C.view journal).end → 2 ^ 62 < (C.view journal).end →
            (result ≡ Err (Error.Merkle (LocationOverflow (C.view journal).end))) × (vol.new ≡ vol.old) }
        // Else, where the node log has the tree's bounds, it is refused by the outside, or for the first item that can't be read.
        ensures refused { let items = items_of C.Item.spelling C.Item.admits (C.view journal) (V.state vol.old) in
            V.tells → (C.view journal).failed ≡ false → merkle.log.failed ≡ false →
            merkle.tree.leaves ≤ (C.view journal).end → (C.view journal).end ≤ 2 ^ 62 →
            IsSeated F.shape merkle (present (V.state vol.old)) →
            IfErr result (NotAligned V.tells items merkle.tree.leaves (C.view journal).end) }
        // Whatever the volume tells, and whatever it holds.
        ensures lifted { IfErr result IsLifted }
        ensures made { IfOk result (λ t. (t.items ≡ C.view journal) × (t.bagging ≡ hasher) × (t.failed ≡ false)) }
        ensures tree { IfOk result (λ t. IsAligned merkle (C.view journal).end t.tree × Rests F.shape t.tree) }
        // Each item that the tree lacked can be read.
        ensures replayed { let items = items_of C.Item.spelling C.Item.admits (C.view journal) (V.state vol.old) in
            OnOk result (V.tells → AreReadable items merkle.tree.leaves (C.view journal).end) }
        ensures seated { IfOk result (λ t. V.tells → IsSeated F.shape merkle (present (V.state vol.old)) →
            IsSeated F.shape t.tree (present (V.state vol.new))) }
        // Where the log is a run of a list, and the tree is that of its first leaves, it is the journal of the list.
        ensures joined { let admits = H.Digest.Read.admits tt in
            IfOk result (λ t. V.tells → (list : List C.Item) →
            Spells C.Item.spelling list (log_of (C.view journal) (V.state vol.old)) →
            IsHeld (C.view journal) (V.state vol.old) →
            IsFullOf F.shape H.hash H.Digest.spelling admits
            (leaves_of F.shape H.hash C.Item.spelling (take merkle.tree.leaves list))
            merkle (present (V.state vol.old)) →
            IsJoinedOf F.shape H.hash H.Digest.spelling admits C.Item.spelling list t (present (V.state vol.new))) }
        ensures durable { OnOk result (V.tells → IsDurable merkle.log (V.state vol.new)) }
        // After it all leaves are durable.
        ensures settled { OnOk result (V.tells → (list : List C.Item) (durable top : ℕ) →
            Spells C.Item.spelling list (log_of (C.view journal) (V.state vol.old)) →
            IsHeld (C.view journal) (V.state vol.old) →
            IsFullOf F.shape H.hash H.Digest.spelling (H.Digest.Read.admits tt)
            (leaves_of F.shape H.hash C.Item.spelling (take merkle.tree.leaves list))
            merkle (present (V.state vol.old)) →
            let all = leaves_of F.shape H.hash C.Item.spelling list in
            AllStand F.shape H.hash H.Digest.spelling all durable top merkle (V.state vol.old) →
            AllStand F.shape H.hash H.Digest.spelling all (length all) top merkle (V.state vol.new)) }
        // Every other log and every map stays, and so does what a crash leaves of it.
        ensures names { V.tells → NamesCall (log_alone merkle.log.name) (V.state vol.old) (V.state vol.new) }
        ensures images { V.tells → (list : List C.Item) (durable top : ℕ) →
            Spells C.Item.spelling list (log_of (C.view journal) (V.state vol.old)) →
            IsHeld (C.view journal) (V.state vol.old) →
            IsFullOf F.shape H.hash H.Digest.spelling (H.Digest.Read.admits tt)
            (leaves_of F.shape H.hash C.Item.spelling (take merkle.tree.leaves list))
            merkle (present (V.state vol.old)) →
            let all = leaves_of F.shape H.hash C.Item.spelling list in
            AllStand F.shape H.hash H.Digest.spelling all durable top merkle (V.state vol.old) →
            AllKeepStanding F.shape H.hash H.Digest.spelling all durable top merkle
            (V.state vol.old) (V.state vol.new) }
        ensures changes { (C.view journal).failed ≡ false → merkle.log.failed ≡ false →
            Changes V.tells Error.Volume (V.state vol.old) (V.state vol.new) result }
    {
        if journal.keeps_failure() || merkle.keeps_failure() {
            return Err(Error::Volume);
        }
        let (_, end) = journal.bounds();
        let leaves = merkle.leaves().as_u64();
        if end < leaves {
            return Err(Error::Journal(JournalError::Corruption(leaves)));
        }
        if end > MAX_LEAVES {
            return Err(Error::Merkle(tree_core::Error::LocationOverflow(Location::new(end))));
        }
        let merkle = catch_up(alloc, vol, merkle, &journal, &hasher, end, apply_batch)?;
        Ok(Journal {
            alloc,
            journal,
            merkle,
            hasher,
            failed: false,
        })
    }
}
