//! A journal that stands ready is opened.
use crate::align::catch_up;
use crate::{Error, Journal, Recovery};
use journal_base::{Backing, BackingRecovery};
use tree_core::{Family, Hasher};
use volume_base::Volume;

impl<F: Family, C: Backing, H: Hasher> Recovery<F, C, H> {
    ghost use Rattle.std.specs.Prelude.{◌≡◌, ◌≤◌, ◌^◌, ◌++◌, ℕ, List, length, max, take, IfOk, IfErr, OnOk};
    ghost use Rattle.journal_base.specs.Blobs.{blob_start};
    ghost use Rattle.journal_base.specs.Items.{items_of, Spells};
    ghost use Rattle.journal_base.specs.View.{log_of, IsHeld, IsDurable};
    ghost use Rattle.tree_core.specs.Tree.{IsOf};
    ghost use Rattle.tree_store.specs.Stored.{TreeStands, size};
    ghost use Rattle.volume_base.specs.Log.{cut_to, Shrinks};
    ghost use Rattle.volume_base.specs.Moments.{present, LogKeeps};
    ghost use Rattle.volume_base.specs.Names.{two_logs_and_map, NamesCall};
    ghost use Rattle.volume_base.specs.Volume.{Follows, Changes};
    ghost use Rattle.merkle_full.specs.Full.{IsSeated, Rests};
    ghost use Rattle.auth_journal.specs.Aligning.{NotAligned};
    ghost use Rattle.auth_journal.specs.Errors.{IsLifted};
    ghost use Rattle.auth_journal.specs.Joined.{IsJoinedOf, leaves_of};
    ghost use Rattle.auth_journal.specs.Opening.{IsReadyIn, IsOpenedFrom, StandsWhileOpened, SettlesOpened};
    ghost use Rattle.auth_journal.specs.Reading.{AreReadable};
    ghost use Rattle.auth_journal.specs.Standing.{Marks};

    /// Cuts the log to the end and makes it durable. Then the tree is opened, the leaves that it lacks are made of the
    /// log's items, which are read so many at a time, and it is synced. It refuses an item that it can't read as
    /// `read`. Where the log is cut to another number of items than the tree gets leaves, which no volume that tells its
    /// contents brings about, it refuses with `Corruption` of the tree's leaves, under `Journal`.
    pub fn finish<V: Volume>(self, vol: &mut V) -> Result<Journal<F, C, H>, Error<F>>
        ensures from { IfOk result (λ t. IsOpenedFrom self t) }
        ensures reached { IfOk result (λ t. V.tells → IsReadyIn self (V.state vol.old) →
            (t.items.end ≡ self.end) × (t.tree.tree.leaves ≡ self.end)) }
        // Whatever the volume tells, the tree has a leaf for each item, and no more.
        ensures whole { IfOk result (λ t. t.tree.tree.leaves ≡ t.items.end) }
        ensures rests { IfOk result (λ t. Rests F.shape t.tree) }
        // Each item that the tree lacked can be read.
        ensures replayed { let items = items_of C.Item.spelling C.Item.admits self.items (V.state vol.old) in
            OnOk result (V.tells → IsReadyIn self (V.state vol.old) → AreReadable items self.tree.tree.leaves self.end) }
        // The contents are those of the journal's logs and map, and the log is the one of before up to the end.
        ensures held { IfOk result (λ t. V.tells → IsHeld t.items (V.state vol.new)) }
        ensures cut { OnOk result (V.tells →
            log_of self.items (V.state vol.new) ≡ cut_to (log_of self.items (V.state vol.old)) self.end) }
        ensures seated { IfOk result (λ t. V.tells → IsReadyIn self (V.state vol.old) →
            IsSeated F.shape t.tree (present (V.state vol.new))) }
        // The map of the tree is the one that was read.
        ensures map { OnOk result (V.tells → IsReadyIn self (V.state vol.old) →
            (V.state vol.new).map self.tree.metadata ≡ self.tree.read) }
        // The node log begins where it did, or with the blob of the stored boundary's position.
        ensures nodes { let log = (V.state vol.old).log self.tree.log.name in
            let point = blob_start self.tree.log.blob (size F.shape self.tree.boundary) in
            IfOk result (λ t. V.tells → IsReadyIn self (V.state vol.old) → t.tree.log.start ≡ max log.start point) }
        // For each list that the log stood for, and the tree with perhaps more items behind it, it is the journal of
        // the list's first items.
        ensures joined { let admits = H.Digest.Read.admits tt in
            IfOk result (λ t. V.tells → (list rest : List C.Item) (durable top : ℕ) →
            IsReadyIn self (V.state vol.old) →
            Spells C.Item.spelling list (log_of self.items (V.state vol.old)) → length (list ++ rest) ≤ 2 ^ 62 →
            TreeStands F.shape H.hash H.Digest.spelling (leaves_of F.shape H.hash C.Item.spelling (list ++ rest))
            durable top ((V.state vol.old).log self.tree.log.name) self.tree.read →
            IsOf F.shape H.hash
            (leaves_of F.shape H.hash C.Item.spelling (take self.tree.tree.leaves (list ++ rest))) self.tree.tree →
            IsJoinedOf F.shape H.hash H.Digest.spelling admits C.Item.spelling
            (take self.end list) t (present (V.state vol.new))) }
        ensures durable { OnOk result (V.tells →
            IsDurable self.items (V.state vol.new) × IsDurable self.tree.log (V.state vol.new)) }
        // It is refused by the outside, or for the first item behind the tree that can't be read.
        ensures refused { let items = items_of C.Item.spelling C.Item.admits self.items (V.state vol.old) in
            V.tells → IsReadyIn self (V.state vol.old) →
            IfErr result (NotAligned V.tells items self.tree.tree.leaves self.end) }
        // Whatever the volume tells, and whatever it holds.
        ensures lifted { IfErr result IsLifted }
        ensures names { let names = two_logs_and_map self.items.name self.tree.log.name self.tree.metadata in
            V.tells → NamesCall names (V.state vol.old) (V.state vol.new) }
        // An image of the log loses at most what is behind the end.
        ensures log { let old = V.state vol.old in V.tells → IsReadyIn self old →
            LogKeeps self.items.name (Follows (old.log_left old.clock self.items.name) (Shrinks self.end))
            old (V.state vol.new) }
        // Where no more is durable than what stays, each image of all three goes on standing for the list, or for a
        // longer one.
        ensures images { V.tells → (list rest : List C.Item) (marks : Marks) → StandsWhileOpened F.shape H.hash
            H.Digest.spelling C.Item.spelling list rest marks self (V.state vol.old) (V.state vol.new) }
        // What is then left of it stands for the items up to the end, and all of these are durable.
        ensures settled { OnOk result (V.tells → (list rest : List C.Item) (marks : Marks) → SettlesOpened F.shape
            H.hash H.Digest.spelling C.Item.spelling list rest marks self (V.state vol.old) (V.state vol.new)) }
        ensures changes { Changes V.tells Error.Volume (V.state vol.old) (V.state vol.new) result }
    {
        let journal = self.journal.finish(vol, self.end)?;
        let opened = self.merkle.finish(vol)?;
        let merkle = catch_up(
            self.alloc,
            vol,
            opened,
            &journal,
            &self.hasher,
            self.end,
            self.apply_batch,
        )?;
        Ok(Journal {
            alloc: self.alloc,
            journal,
            merkle,
            hasher: self.hasher,
            failed: false,
        })
    }
}
