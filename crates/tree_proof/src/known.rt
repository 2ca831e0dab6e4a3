//! What is known of a tree besides digests.
ghost use Rattle.std.specs.Prelude.{◌≡◌, ◌≤◌, ◌+◌, ◌^◌, ℕ, true, length};
ghost use Rattle.tree_proof.specs.Cover.{meets};
ghost use Rattle.tree_proof.specs.Check.{item_leaf};

use crate::wanted::{LeafRange, Wanted};
use codec_base::Bytes;
use tree_shape::{Family, Hasher, Position, Standard};

/// Leaves that are known: a node is made from them where one of them stands under it.
pub trait Known<F: Family, H: Hasher>: Wanted {
    /// The digest of a leaf that is known.
    ghost leaf_of: { Self → ℕ → H.Digest };

    /// The digest of a leaf that is known.
    fn leaf(&self, hasher: &Standard<H>, x: u64) -> H::Digest
        requires ready { Self.Wanted.ready self.now }
        requires here { Self.Wanted.met self.now x 0 ≡ true }
        requires room { x + 1 ≤ 2 ^ 62 }
        ensures { result ≡ leaf_of self.now x };
}

/// The items of the leaves from one on.
#[derive(Drop)]
pub struct Items<'a> {
    pub start: u64,
    pub items: &'a [Bytes],
}

impl Wanted for Items<'_> {
    ghost met = { λ k. meets k.start (k.start + length k.items.now) };

    ghost ready = { λ k. k.start + length k.items.now ≤ 2 ^ 62 };

    fn is_met(&self, x: u64, height: u32) -> bool {
        let start = self.start;
        let end = start + self.items.len() as u64;
        LeafRange { start, end }.is_met(x, height)
    }
}

impl<F: Family, H: Hasher> Known<F, H> for Items<'_> {
    ghost leaf_of = { λ k x. item_leaf F.shape H.hash k.start k.items.now x };

    fn leaf(&self, hasher: &Standard<H>, x: u64) -> H::Digest {
        let pos = Position::<F>::new(F::position(x, 0));
        hasher.leaf_digest(pos, self.items[(x - self.start) as usize].as_slice())
    }
}
