//! Items put behind a journal's, each with its leaf.
ghost use Rattle.std.specs.Prelude.{◌≡◌, ◌+◌, ◌-◌, ◌<◌, ◌≤◌, ◌^◌, List, ◌∷◌, [], ◌++◌, length, map, drop, OnOk, IfOk, IfErr, IsErrOf};
ghost use Rattle.journal_base.specs.Answers.{IsOfSize, RefusesUnwritten};
ghost use Rattle.journal_base.specs.View.{log_of, SameButBounds, IsHeld};
ghost use Rattle.volume_base.specs.Log.{end_of, Grows};
ghost use Rattle.volume_base.specs.Volume.{LogCall};
ghost use Rattle.volume_base.specs.declared.error.JournalError.{JournalError};
ghost use Rattle.volume_base.specs.declared.error.JournalError.TheVariants.{SizeOverflow};
ghost use Rattle.auth_journal.specs.Appending.{Appends};
ghost use Rattle.auth_journal.specs.Batched.{joined_items};

use crate::items::encodings_from;
use crate::leaves::sealed_leaves;
use crate::segment::Segment;
use crate::{Error, Journal, MerkleizedBatch};
use codec_base::Bytes;
use journal_base::{Backing, encode_all, encode_one};
use std::alloc::Global;
use std::rc::Rc;
use tree_core::{Family, Hasher, Location, MAX_LEAVES};
use volume_base::{JournalError, Volume};

/// The journal with the items of which these are the encodings behind its own, by one append, and where the first of
/// them stands; of none nothing is written. It refuses with `SizeOverflow` where the end would pass 2^64 - 1.
fn append_to<C: Backing, V: Volume>(
    journal: C,
    vol: &mut V,
    encodings: &[Bytes],
) -> Result<(C, u64), JournalError>
    ensures appends { (items : List C.Item) → map C.Item.spelling items ≡ encodings.now →
        Appends V.tells JournalError.Volume C.Item.spelling (C.view journal) (λ made. C.view made.0) items
        (V.state vol.old) (V.state vol.new) result }
    ensures position { IfOk result (λ made. V.tells → 0 < length encodings.now →
        made.1 ≡ end_of (log_of (C.view journal) (V.state vol.old))) }
    ensures room { IfOk result (λ made. 0 < length encodings.now → made.1 + length encodings.now ≤ 2 ^ 64 - 1) }
    ensures made { IfOk result (λ made. SameButBounds (C.view journal) (C.view made.0)) }
    ensures held { IfOk result (λ made. V.tells → 0 < length encodings.now → IsHeld (C.view made.0) (V.state vol.new)) }
    ensures overflow { let end = end_of (log_of (C.view journal) (V.state vol.old)) in
        V.tells → IsErrOf result SizeOverflow → (end ≤ 2 ^ 64 - 1) × (2 ^ 64 - 1 < end + length encodings.now) }
    ensures log { let step = Grows (log_of (C.view journal) (V.state vol.old)) encodings.now in
        V.tells → LogCall (C.view journal).name step (V.state vol.old) (V.state vol.new) }
    ensures refused { RefusesUnwritten (V.state vol.old) (V.state vol.new) result }
    ensures errors { IfErr result IsOfSize }
{
    journal.append_encoded(vol, encodings)
}

/// The journal with the items of which these are the encodings behind its own, by one append; of none nothing is
/// written. It refuses with `SizeOverflow` where the end would pass 2^64 - 1.
fn appended<C: Backing, V: Volume>(
    journal: C,
    vol: &mut V,
    encodings: &[Bytes],
) -> Result<C, JournalError>
    ensures appends { (items : List C.Item) → map C.Item.spelling items ≡ encodings.now →
        Appends V.tells JournalError.Volume C.Item.spelling (C.view journal) (λ made. C.view made) items
        (V.state vol.old) (V.state vol.new) result }
    ensures overflow { let end = end_of (log_of (C.view journal) (V.state vol.old)) in
        V.tells → IsErrOf result SizeOverflow → 2 ^ 64 - 1 < end + length encodings.now }
    ensures refused { RefusesUnwritten (V.state vol.old) (V.state vol.new) result }
    ensures errors { IfErr result IsOfSize }
{
    let (journal, _) = append_to(journal, vol, encodings)?;
    Ok(journal)
}

/// The journal with the items of the lists from this one on behind its own, by one append; of no items nothing is
/// written. It refuses with `SizeOverflow` where the end would pass 2^64 - 1.
fn append_from<C: Backing, V: Volume>(
    alloc: Global,
    journal: C,
    vol: &mut V,
    lists: &[Rc<Segment<C::Item>>],
    place: usize,
) -> Result<C, JournalError>
    ensures appends { let items = joined_items (drop place (map {B = List C.Item} (λ l. l.value) lists.now)) in
        Appends V.tells JournalError.Volume C.Item.spelling (C.view journal) (λ made. C.view made) items
        (V.state vol.old) (V.state vol.new) result }
    ensures overflow { let items = joined_items (drop place (map {B = List C.Item} (λ l. l.value) lists.now)) in
        let end = end_of (log_of (C.view journal) (V.state vol.old)) in
        V.tells → IsErrOf result SizeOverflow → 2 ^ 64 - 1 < end + length items }
    ensures refused { RefusesUnwritten (V.state vol.old) (V.state vol.new) result }
    ensures errors { IfErr result IsOfSize }
{
    if lists.len().saturating_sub(place) == 1 {
        return appended(journal, vol, lists[place].encodings());
    }
    match encodings_from(alloc, lists, place) {
        Ok(encodings) => appended(journal, vol, &encodings),
        Err(_) => Err(JournalError::Memory),
    }
}

impl<F: Family, C: Backing, H: Hasher> Journal<F, C, H> {
    ghost use Rattle.std.specs.Prelude.{◌⊎◌, ℕ, Err};
    ghost use Rattle.tree_core.specs.Applied.{IsLonger, FitsTree, EndsAtTree, Refused, RefusedByTree};
    ghost use Rattle.tree_core.specs.Batches.{sealed_node};
    ghost use Rattle.tree_core.specs.Tree.{node_at, IsOf};
    ghost use Rattle.tree_store.specs.Stored.{size};
    ghost use Rattle.tree_store.specs.declared.error.Error as tree_error;
    ghost use Rattle.tree_store.specs.declared.error.Error.TheVariants.{LocationOverflow};
    ghost use Rattle.volume_base.specs.Moments.{present};
    ghost use Rattle.volume_base.specs.declared.error.JournalError.TheVariants.{EmptyAppend};
    ghost use Rattle.merkle_full.specs.Full.{IsBeside, IsSeated};
    ghost use Rattle.auth_journal.specs.Appending.{unapplied, NamesUnwritten};
    ghost use Rattle.auth_journal.specs.Batched.{IsSealedOfItems};
    ghost use Rattle.auth_journal.specs.Errors.{IsLifted};
    ghost use Rattle.auth_journal.specs.Joined.{IsJoinedOf, IsSameJoin};
    ghost use Rattle.auth_journal.specs.Standing.{Marks, KeepsStanding};
    ghost use Rattle.auth_journal.specs.declared.error.Error.{Error};

    /// Refuses with `LocationOverflow` so many more items that there would be more than `MAX_LEAVES`.
    fn check_room(&self, count: u64) -> Result<(), Error<F>>
        ensures full { 2 ^ 62 < self.now.tree.tree.leaves + count →
            result ≡ Err (Error.Merkle (LocationOverflow (2 ^ 62 + 1))) }
        ensures few { OnOk result (self.now.tree.tree.leaves + count ≤ 2 ^ 62) }
        ensures refused { IfErr result (λ e. (e ≡ Error.Merkle (LocationOverflow (2 ^ 62 + 1)))
            × (2 ^ 62 < self.now.tree.tree.leaves + count)) }
    {
        if count > MAX_LEAVES - self.merkle.leaves().as_u64() {
            let past = Location::new(MAX_LEAVES + 1);
            return Err(Error::Merkle(tree_core::Error::LocationOverflow(past)));
        }
        Ok(())
    }

    /// Puts the items of which these are the encodings, of which there are some, behind the others, each with its leaf,
    /// by one append, and answers where the first of them stands. It refuses with `Journal(SizeOverflow)` where the log
    /// would end past 2^64 - 1, before anything is written.
    fn put<V: Volume>(self, vol: &mut V, encodings: &[Bytes]) -> Result<(Self, u64), Error<F>>
        requires some { 0 < length encodings.now }
        requires few { self.tree.tree.leaves + length encodings.now ≤ 2 ^ 62 }
        ensures refused { (e : tree_error.Error F) → IsErrOf result (Error.Merkle e) → ⊥ }
        ensures overflow { let end = end_of (log_of self.items (V.state vol.old)) in
            (e : JournalError) → IsErrOf result (Error.Journal e) → (e ≡ SizeOverflow)
            × (V.tells → (end ≤ 2 ^ 64 - 1) × (2 ^ 64 - 1 < end + length encodings.now)) }
        ensures unwritten { NamesUnwritten (V.state vol.old) (V.state vol.new) result }
        ensures position { IfOk result (λ made. V.tells → made.1 ≡ end_of (log_of self.items (V.state vol.old))) }
        ensures room { IfOk result (λ made. made.1 + length encodings.now ≤ 2 ^ 64 - 1) }
        ensures appends { (items : List C.Item) → map C.Item.spelling items ≡ encodings.now →
            Appends V.tells Error.Volume C.Item.spelling self.items (λ made. made.0.items) items
            (V.state vol.old) (V.state vol.new) result }
        ensures held { IfOk result (λ made. V.tells → IsHeld made.0.items (V.state vol.new)) }
        ensures seated { IfOk result (λ made. V.tells → IsSeated F.shape self.tree (present (V.state vol.old)) →
            IsSeated F.shape made.0.tree (present (V.state vol.new))) }
        ensures same { IfOk result (λ made. IsBeside self.tree made.0.tree × IsSameJoin self made.0) }
        ensures longer { IfOk result (λ made.
            IsLonger F.shape (self.tree.tree.leaves + length encodings.now) self.tree.tree made.0.tree.tree) }
        ensures joined { let admits = H.Digest.Read.admits tt in
            IfOk result (λ made. V.tells → (list items : List C.Item) → map C.Item.spelling items ≡ encodings.now →
            IsJoinedOf F.shape H.hash H.Digest.spelling admits C.Item.spelling list self (present (V.state vol.old)) →
            IsJoinedOf F.shape H.hash H.Digest.spelling admits C.Item.spelling
            (list ++ items) made.0 (present (V.state vol.new))) }
        // At each moment whatever a crash leaves stands for the longer list, of which no more is durable than before.
        ensures images { V.tells → (list items : List C.Item) (marks : Marks) →
            map C.Item.spelling items ≡ encodings.now →
            IsJoinedOf F.shape H.hash H.Digest.spelling (H.Digest.Read.admits tt) C.Item.spelling list self
            (present (V.state vol.old)) →
            KeepsStanding F.shape H.hash H.Digest.spelling C.Item.spelling list (list ++ items) marks
            self (V.state vol.old) (V.state vol.new) }
    {
        let batch = sealed_leaves(&self.merkle, &self.hasher, encodings)?;
        let merkle = self.merkle.apply_batch(&batch)?;
        let (journal, first) = append_to(self.journal, vol, encodings)?;
        let made = Journal {
            alloc: self.alloc,
            journal,
            merkle,
            hasher: self.hasher,
            failed: self.failed,
        };
        Ok((made, first))
    }

    /// Puts an item behind the others, and its leaf, and answers its position. It refuses with `LocationOverflow` a journal of
    /// `MAX_LEAVES` items, and with `Journal(SizeOverflow)` where the log would end past 2^64 - 1, before anything is
    /// written.
    pub fn append<V: Volume>(
        self,
        vol: &mut V,
        item: &C::Item,
    ) -> Result<(Self, Location<F>), Error<F>>
        ensures full { self.tree.tree.leaves ≡ 2 ^ 62 →
            (result ≡ Err (Error.Merkle (LocationOverflow (2 ^ 62 + 1)))) × (vol.new ≡ vol.old) }
        ensures refused { (e : tree_error.Error F) → IsErrOf result (Error.Merkle e) → self.tree.tree.leaves ≡ 2 ^ 62 }
        ensures overflow { (e : JournalError) → IsErrOf result (Error.Journal e) →
            (e ≡ SizeOverflow) × (V.tells → end_of (log_of self.items (V.state vol.old)) ≡ 2 ^ 64 - 1) }
        ensures unwritten { NamesUnwritten (V.state vol.old) (V.state vol.new) result }
        ensures position { IfOk result (λ made. V.tells → made.1 ≡ end_of (log_of self.items (V.state vol.old))) }
        ensures appends { Appends V.tells Error.Volume C.Item.spelling self.items (λ made. made.0.items)
            (item.now ∷ []) (V.state vol.old) (V.state vol.new) result }
        ensures held { IfOk result (λ made. V.tells → IsHeld made.0.items (V.state vol.new)) }
        // Where the node log has the tree's bounds it has them afterwards.
        ensures seated { IfOk result (λ made. V.tells → IsSeated F.shape self.tree (present (V.state vol.old)) →
            IsSeated F.shape made.0.tree (present (V.state vol.new))) }
        ensures same { IfOk result (λ made. IsBeside self.tree made.0.tree × IsSameJoin self made.0) }
        ensures longer { IfOk result (λ made.
            IsLonger F.shape (self.tree.tree.leaves + 1) self.tree.tree made.0.tree.tree) }
        ensures joined { let admits = H.Digest.Read.admits tt in
            IfOk result (λ made. V.tells → (list : List C.Item) →
            IsJoinedOf F.shape H.hash H.Digest.spelling admits C.Item.spelling list self (present (V.state vol.old)) →
            IsJoinedOf F.shape H.hash H.Digest.spelling admits C.Item.spelling
            (list ++ item.now ∷ []) made.0 (present (V.state vol.new))) }
        // At each moment whatever a crash leaves stands for the longer list, of which no more is durable than before.
        ensures images { let admits = H.Digest.Read.admits tt in V.tells → (list : List C.Item) (marks : Marks) →
            IsJoinedOf F.shape H.hash H.Digest.spelling admits C.Item.spelling list self (present (V.state vol.old)) →
            KeepsStanding F.shape H.hash H.Digest.spelling C.Item.spelling list (list ++ item.now ∷ []) marks
            self (V.state vol.old) (V.state vol.new) }
    {
        self.check_room(1)?;
        let encoding = encode_one(self.alloc, item)?;
        let (made, position) = self.put(vol, &[encoding])?;
        Ok((made, Location::new(position)))
    }

    /// Puts items behind the others, each with its leaf, by one append, and answers the position of the last. It refuses no items
    /// with `EmptyAppend`, then with `LocationOverflow` more than `MAX_LEAVES` in all, and with `Journal(SizeOverflow)` where the
    /// log would end past 2^64 - 1, before anything is written.
    pub fn append_many<V: Volume>(
        self,
        vol: &mut V,
        items: &[C::Item],
    ) -> Result<(Self, u64), Error<F>>
        ensures empty { length items.now ≡ 0 → (result ≡ Err (Error.Journal EmptyAppend)) × (vol.new ≡ vol.old) }
        ensures full { 0 < length items.now → 2 ^ 62 < self.tree.tree.leaves + length items.now →
            (result ≡ Err (Error.Merkle (LocationOverflow (2 ^ 62 + 1)))) × (vol.new ≡ vol.old) }
        ensures refused { (e : tree_error.Error F) → IsErrOf result (Error.Merkle e) →
            2 ^ 62 < self.tree.tree.leaves + length items.now }
        ensures overflow { let end = end_of (log_of self.items (V.state vol.old)) in
            (e : JournalError) → IsErrOf result (Error.Journal e) → ((e ≡ EmptyAppend) × (length items.now ≡ 0))
            ⊎ ((e ≡ SizeOverflow) × (V.tells → 2 ^ 64 - 1 < end + length items.now)) }
        ensures unwritten { NamesUnwritten (V.state vol.old) (V.state vol.new) result }
        ensures position { let end = end_of (log_of self.items (V.state vol.old)) in
            IfOk result (λ made. V.tells → made.1 + 1 ≡ end + length items.now) }
        ensures appends { Appends V.tells Error.Volume C.Item.spelling self.items (λ made. made.0.items)
            items.now (V.state vol.old) (V.state vol.new) result }
        ensures held { IfOk result (λ made. V.tells → IsHeld made.0.items (V.state vol.new)) }
        ensures same { IfOk result (λ made. IsBeside self.tree made.0.tree × IsSameJoin self made.0) }
        ensures longer { IfOk result (λ made.
            IsLonger F.shape (self.tree.tree.leaves + length items.now) self.tree.tree made.0.tree.tree) }
        ensures joined { let admits = H.Digest.Read.admits tt in
            IfOk result (λ made. V.tells → (list : List C.Item) →
            IsJoinedOf F.shape H.hash H.Digest.spelling admits C.Item.spelling list self (present (V.state vol.old)) →
            IsJoinedOf F.shape H.hash H.Digest.spelling admits C.Item.spelling
            (list ++ items.now) made.0 (present (V.state vol.new))) }
        // At each moment whatever a crash leaves stands for the longer list, of which no more is durable than before.
        ensures images { let admits = H.Digest.Read.admits tt in V.tells → (list : List C.Item) (marks : Marks) →
            IsJoinedOf F.shape H.hash H.Digest.spelling admits C.Item.spelling list self (present (V.state vol.old)) →
            KeepsStanding F.shape H.hash H.Digest.spelling C.Item.spelling list (list ++ items.now) marks
            self (V.state vol.old) (V.state vol.new) }
    {
        if items.is_empty() {
            return Err(Error::Journal(JournalError::EmptyAppend));
        }
        self.check_room(items.len() as u64)?;
        let encodings = encode_all(self.alloc, items)?;
        let (made, first) = self.put(vol, &encodings)?;
        Ok((made, first + (encodings.len() as u64 - 1)))
    }

    /// Puts the items that the batch has behind this journal's, and their leaves, by one append; where it has none nothing is
    /// written. It refuses a batch that doesn't go on from the tree as `Mem::apply_batch`, and with `Journal(SizeOverflow)` where
    /// the log would end past 2^64 - 1, before anything is written.
    pub fn apply_batch<V: Volume>(
        self,
        vol: &mut V,
        batch: &MerkleizedBatch<F, H::Digest, C::Item>,
    ) -> Result<Self, Error<F>>
        ensures marked { OnOk result ((i : ℕ) × FitsTree F.shape self.tree.tree batch.now.nodes i) }
        ensures refused { (e : tree_error.Error F) → IsErrOf result (Error.Merkle e) →
            RefusedByTree F.shape self.tree.tree batch.now.nodes e × (vol.new ≡ vol.old) }
        // Of a list's tree it refuses no batch that has the mark of that list.
        ensures misfit { (e : tree_error.Error F) → IsErrOf result (Error.Merkle e) → (all : List H.Digest) →
            IsOf F.shape H.hash all self.tree.tree →
            Refused F.shape H.hash all self.tree.tree.leaves batch.now.nodes e }
        // Of any journal, whatever the volume holds.
        ensures lifted { IfErr result IsLifted }
        ensures overflow { (e : JournalError) → IsErrOf result (Error.Journal e) →
            (e ≡ SizeOverflow) × (V.tells → 2 ^ 64 - 1 < end_of (log_of self.items (V.state vol.old)) + batch.now.nodes.leaves) }
        // That is by what the journal lacks of the batch.
        ensures beyond { let lacking = unapplied batch.now self.tree.tree.leaves in
            (e : JournalError) → IsErrOf result (Error.Journal e) → V.tells →
            2 ^ 64 - 1 < end_of (log_of self.items (V.state vol.old)) + length lacking }
        ensures unwritten { NamesUnwritten (V.state vol.old) (V.state vol.new) result }
        ensures appends { Appends V.tells Error.Volume C.Item.spelling self.items (λ made. made.items)
            (unapplied batch.now self.tree.tree.leaves) (V.state vol.old) (V.state vol.new) result }
        ensures same { IfOk result (λ made. IsBeside self.tree made.tree × IsSameJoin self made) }
        ensures longer { IfOk result (λ made. IsLonger F.shape batch.now.nodes.leaves self.tree.tree made.tree.tree) }
        // Of no list either: its new nodes are the batch's, and the mark behind the batch is then the tree's.
        ensures since { IfOk result (λ made. (p : ℕ) → size F.shape self.tree.tree.leaves ≤ p →
            node_at made.tree.tree p ≡ sealed_node F.shape batch.now.nodes p) }
        ensures behind { IfOk result (λ made. EndsAtTree F.shape batch.now.nodes made.tree.tree) }
        ensures joined { let admits = H.Digest.Read.admits tt in
            IfOk result (λ made. V.tells → (list more : List C.Item) →
            IsJoinedOf F.shape H.hash H.Digest.spelling admits C.Item.spelling list self (present (V.state vol.old)) →
            IsSealedOfItems F.shape H.hash C.Item.spelling more batch.now →
            IsJoinedOf F.shape H.hash H.Digest.spelling admits C.Item.spelling
            (list ++ drop (length list) more) made (present (V.state vol.new))) }
        // At each moment whatever a crash leaves stands for the longer list, of which no more is durable than before.
        ensures images { let admits = H.Digest.Read.admits tt in V.tells → (list : List C.Item) (marks : Marks) →
            IsJoinedOf F.shape H.hash H.Digest.spelling admits C.Item.spelling list self (present (V.state vol.old)) →
            KeepsStanding F.shape H.hash H.Digest.spelling C.Item.spelling list (list ++ unapplied batch.now self.tree.tree.leaves) marks
            self (V.state vol.old) (V.state vol.new) }
    {
        // Its leaves tell that the batch is sound.
        let _leaves = batch.nodes.leaves();
        let place = self.merkle.mem().place_of(&batch.nodes)?;
        let merkle = self.merkle.apply_batch(&batch.nodes)?;
        let journal = append_from(self.alloc, self.journal, vol, &batch.items, place as usize)?;
        Ok(Journal {
            alloc: self.alloc,
            journal,
            merkle,
            hasher: self.hasher,
            failed: self.failed,
        })
    }
}
