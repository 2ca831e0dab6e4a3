//! A journal that stands ready to be opened.
use crate::Error;
use journal_base::{Backing, BackingRecovery};
use std::alloc::Global;
use std::marker::Model;
use std::num::NonZeroU64;
use tree_core::{Family, Hasher, Standard};
use volume_base::{JournalError, Volume};

/// A log and a tree that stand ready to be opened, and the end at which they will be. Nothing is cut yet.
#[derive(Drop)]
pub struct Recovery<F: Family, C: Backing, H: Hasher> {
    pub(crate) alloc: Global,
    pub(crate) journal: C::Recovery,
    pub(crate) merkle: merkle_full::Recovery<F, H::Digest>,
    pub(crate) hasher: Standard<H>,
    pub(crate) end: u64,
    pub(crate) apply_batch: NonZeroU64,
}

impl<F: Family, C: Backing, H: Hasher> Model for Recovery<F, C, H> {
    ghost use Rattle.std.specs.Coded.{codes};
    ghost use Rattle.merkle_full.specs.Preparing.{map_code};
    ghost use Rattle.auth_journal.specs.Opening.{Readied, IsSoundReady};

    ghost Value = { Readied H.Digest C.Item.Cfg };

    ghost coded = { Prim.hlevel (codes, map_code) };

    ghost view = { λ r. record {
      items = C.Recovery.view r.journal;
      end = r.end;
      tree = r.merkle;
      bagging = r.hasher;
    } };

    ghost invariant = { λ r. IsSoundReady (record {
      items = C.Recovery.view r.journal;
      end = r.end;
      tree = r.merkle;
      bagging = r.hasher;
    }) };
}

impl<F: Family, C: Backing, H: Hasher> Recovery<F, C, H> {
    ghost use Rattle.std.specs.Prelude.{◌≡◌, ◌⊎◌, ◌↔◌, ◌+◌, ◌≤◌, ◌<◌, List, Some, slice_get, IsTrue, IfOk, IfErr, OnOk};
    ghost use Rattle.journal_base.specs.Items.{items_of, Holds, Spells};
    ghost use Rattle.journal_base.specs.View.{log_of, IsHeld};
    ghost use Rattle.volume_base.specs.Volume.{Reads};
    ghost use Rattle.volume_base.specs.declared.error.JournalError.{JournalError};
    ghost use Rattle.auth_journal.specs.Errors.{IsOutside, IsLifted};
    ghost use Rattle.auth_journal.specs.Searching.{IsUnreadWithin};

    /// The start, and the end at which it will be opened.
    pub fn bounds(&self) -> (u64, u64)
        ensures start { result.0 ≡ self.now.items.start }
        ensures end { result.1 ≡ self.now.end }
        ensures within { result.0 ≤ result.1 }
    {
        let (start, _) = self.journal.bounds();
        (start, self.end)
    }

    /// Whether the log has no item and begins at 0.
    pub fn is_fresh(&self) -> bool
        ensures { IsTrue result ↔ ((self.now.items.start ≡ 0) × (self.now.items.end ≡ 0)) }
    {
        let (start, end) = self.journal.bounds();
        start == 0 && end == 0
    }

    /// The item at a position. It refuses with `ItemPruned` below the start, with `ItemOutOfRange` at or past the end
    /// at which it will be opened, and with `Corruption` where the bytes are no item, each under `Journal`.
    pub fn read<V: Volume>(&self, vol: &mut V, position: u64) -> Result<C::Item, Error<F>>
        ensures item { let items = items_of C.Item.spelling C.Item.admits self.now.items (V.state vol.old) in
            IfOk result (λ item. V.tells → Holds items position item) }
        ensures admitted { IfOk result (λ item. C.Item.admits self.now.items.codec item) }
        ensures within { OnOk result ((self.now.items.start ≤ position) × (position < self.now.end)) }
        ensures refused { let items = items_of C.Item.spelling C.Item.admits self.now.items (V.state vol.old) in
            V.tells → IsHeld self.now.items (V.state vol.old) → IfErr result (λ e. IsOutside e ⊎
            ((d : JournalError) × IsUnreadWithin items self.now.end position d × (e ≡ Error.Journal d))) }
        // Whatever the volume tells, and whatever it holds.
        ensures lifted { IfErr result IsLifted }
        // Where the log is a run of a list, an item that is read is the list's.
        ensures listed { let log = log_of self.now.items (V.state vol.old) in
            V.tells → IsHeld self.now.items (V.state vol.old) →
            (list : List C.Item) (x : C.Item) → Spells C.Item.spelling list log → log.start ≤ position →
            slice_get list position ≡ Some x → C.Item.admits self.now.items.codec x → IfOk result (λ item. item ≡ x) }
        ensures answers { Reads V.tells Error.Volume (V.state vol.old) (V.state vol.new) result }
        ensures reads { (V.state vol.new).reads ≤ (V.state vol.old).reads + 1 }
    {
        if position >= self.end {
            return Err(Error::Journal(JournalError::ItemOutOfRange(position)));
        }
        let item = self.journal.read(vol, position)?;
        Ok(item)
    }
}
