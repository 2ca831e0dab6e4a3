//! Proofs of leaves, at the present leaves and at fewer.
use crate::Merkle;
use tree_core::{Digest, Error, Family, Location, MAX_LEAVES, Proof};
use tree_verification::historical_range_proof;
use volume_base::Volume;

impl<F: Family, D: Digest> Merkle<F, D> {
    ghost use Rattle.std.specs.Prelude.{◌≡◌, ◌+◌, ◌≤◌, length, Err};
    ghost use Rattle.volume_base.specs.Moments.{present};
    ghost use Rattle.volume_base.specs.Volume.{Reads};
    ghost use Rattle.tree_store.specs.declared.error.Error.{Error};
    ghost use Rattle.merkle_full.specs.Proving.{history_answer, leaf_history, IsProved};

    /// The proof of one leaf. It refuses `LocationOverflow` at or past `MAX_LEAVES`, and else as `range_proof` of one
    /// leaf.
    pub fn proof<V: Volume>(
        &self,
        vol: &mut V,
        loc: Location<F>,
        inactive_peaks: u64,
    ) -> Result<Proof<F, D>, Error<F>>
        requires { inactive_peaks ≤ length (F.shape.heights self.now.tree.leaves) }
        ensures proves { let leaves = self.now.tree.leaves in
            IsProved V.tells F.shape D.spelling (D.Read.admits tt) (D.Read.reads tt) self.now
            (present (V.state vol.old))
            (leaf_history leaves leaves loc) leaves inactive_peaks loc (loc + 1) result }
        ensures uncalled { (e : Error F) →
            leaf_history self.now.tree.leaves self.now.tree.leaves loc ≡ Err e → vol.new ≡ vol.old }
        ensures reads { Reads V.tells Error.Volume (V.state vol.old) (V.state vol.new) result }
    {
        let leaves = self.mem.leaves();
        self.historical_proof(vol, leaves, loc, inactive_peaks)
    }

    /// The proof of the leaves from `start` up to `end`. It refuses, in this order: `Empty`, `LocationOverflow`,
    /// `RangeOutOfBounds`; then `ElementPruned` the first node that isn't there.
    pub fn range_proof<V: Volume>(
        &self,
        vol: &mut V,
        start: Location<F>,
        end: Location<F>,
        inactive_peaks: u64,
    ) -> Result<Proof<F, D>, Error<F>>
        requires { inactive_peaks ≤ length (F.shape.heights self.now.tree.leaves) }
        ensures proves { let leaves = self.now.tree.leaves in
            IsProved V.tells F.shape D.spelling (D.Read.admits tt) (D.Read.reads tt) self.now
            (present (V.state vol.old))
            (history_answer leaves leaves start end) leaves inactive_peaks start end result }
        ensures uncalled { (e : Error F) →
            history_answer self.now.tree.leaves self.now.tree.leaves start end ≡ Err e → vol.new ≡ vol.old }
        ensures reads { Reads V.tells Error.Volume (V.state vol.old) (V.state vol.new) result }
    {
        let leaves = self.mem.leaves();
        self.historical_range_proof(vol, leaves, start, end, inactive_peaks)
    }

    /// The proof of one leaf of the tree as it was at `leaves`. It refuses `LocationOverflow` at or past `MAX_LEAVES`,
    /// and else as `historical_range_proof` of one leaf.
    pub fn historical_proof<V: Volume>(
        &self,
        vol: &mut V,
        leaves: Location<F>,
        loc: Location<F>,
        inactive_peaks: u64,
    ) -> Result<Proof<F, D>, Error<F>>
        requires { inactive_peaks ≤ length (F.shape.heights leaves) }
        ensures proves { IsProved V.tells F.shape D.spelling (D.Read.admits tt) (D.Read.reads tt) self.now
            (present (V.state vol.old))
            (leaf_history self.now.tree.leaves leaves loc) leaves inactive_peaks loc (loc + 1) result }
        ensures uncalled { (e : Error F) →
            leaf_history self.now.tree.leaves leaves loc ≡ Err e → vol.new ≡ vol.old }
        ensures reads { Reads V.tells Error.Volume (V.state vol.old) (V.state vol.new) result }
    {
        let start = loc.as_u64();
        if start >= MAX_LEAVES {
            return Err(Error::LocationOverflow(Location::new(start)));
        }
        let end = Location::new(start + 1);
        self.historical_range_proof(vol, leaves, Location::new(start), end, inactive_peaks)
    }

    /// The proof of the leaves from `start` up to `end` of the tree as it was at `leaves`. It refuses, in this order:
    /// `RangeOutOfBounds` where the tree has fewer leaves; `Empty`, `LocationOverflow`, `RangeOutOfBounds` of the end;
    /// then `ElementPruned` the first node that isn't there.
    pub fn historical_range_proof<V: Volume>(
        &self,
        vol: &mut V,
        leaves: Location<F>,
        start: Location<F>,
        end: Location<F>,
        inactive_peaks: u64,
    ) -> Result<Proof<F, D>, Error<F>>
        requires { inactive_peaks ≤ length (F.shape.heights leaves) }
        ensures proves { IsProved V.tells F.shape D.spelling (D.Read.admits tt) (D.Read.reads tt) self.now
            (present (V.state vol.old))
            (history_answer self.now.tree.leaves leaves start end) leaves inactive_peaks start end result }
        ensures uncalled { (e : Error F) →
            history_answer self.now.tree.leaves leaves start end ≡ Err e → vol.new ≡ vol.old }
        ensures reads { Reads V.tells Error.Volume (V.state vol.old) (V.state vol.new) result }
    {
        let count = leaves.as_u64();
        if count > self.mem.leaves().as_u64() {
            return Err(Error::RangeOutOfBounds(Location::new(count)));
        }
        let alloc = *self.metadata.allocator();
        historical_range_proof(alloc, vol, self, leaves, start, end, inactive_peaks)
    }
}
