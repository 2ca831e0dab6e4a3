ghost use Rattle.std.specs.Prelude.{◌≡◌, ℕ, List, [], ◌∷◌, ◌++◌};
ghost use Rattle.tree_shape.specs.Hashing.{number, leaf_input, node_input, fold_input};

use crate::{Bagging, Digest, Hasher, Position};
use std::marker::{Model, PhantomData};

/// A hasher that holds one byte.
pub(crate) fn begin<H: Hasher>(tag: u8) -> H
    ensures { H.holds result (tag ∷ []) }
{
    let mut hasher = H::new();
    hasher.update(&[tag]);
    hasher
}

/// Adds a number in 8 bytes, the high one first.
#[tactic(auto, unfolding(crate::specs::Hashing::number))]
pub(crate) fn update_number<H: Hasher>(hasher: &mut H, n: u64)
    ensures { (m : List ℕ) → H.holds hasher.old m → H.holds hasher.new (m ++ number n) }
{
    hasher.update(&n.to_be_bytes());
}

/// The digests of leaves, nodes and folds. It remembers no message; contracts see it as its bagging.
#[derive_where(Clone, Copy)]
pub struct Standard<H> {
    bagging: Bagging,
    of: PhantomData<H>,
}

impl<H> Model for Standard<H> {
    ghost use Rattle.tree_shape.specs.declared.bagging.Bagging.{Bagging};

    ghost Value = { Bagging };

    ghost view = { λ s. s.bagging };

    ghost inverse = { λ b. record { bagging = b; of = record {} } };
}

impl<H: Hasher> Standard<H> {
    /// A hasher for trees whose peaks are folded so.
    pub fn new(bagging: Bagging) -> Self
        ensures { result ≡ bagging }
    {
        Standard {
            bagging,
            of: PhantomData,
        }
    }

    /// How the peaks are folded.
    pub fn root_bagging(&self) -> Bagging
        ensures { result ≡ self.now }
    {
        self.bagging
    }

    /// The digest of the leaf at a position: that of 00, the position in 8 bytes, and the element.
    pub fn leaf_digest<F>(&self, pos: Position<F>, element: &[u8]) -> H::Digest
        ensures { result ≡ H.hash.digest (leaf_input pos element.now) }
    {
        let mut hasher = begin::<H>(0);
        update_number(&mut hasher, pos.as_u64());
        hasher.update(element);
        hasher.finish()
    }

    /// The digest of the node at a position: that of 01, the position in 8 bytes, and its children.
    pub fn node_digest<F>(&self, pos: Position<F>, left: &H::Digest, right: &H::Digest) -> H::Digest
        ensures { result ≡ H.hash.digest (node_input H.hash pos left.now right.now) }
    {
        let mut hasher = begin::<H>(1);
        let place = pos.as_u64();
        update_number(&mut hasher, place);
        hasher.update(left.as_slice());
        hasher.update(right.as_slice());
        hasher.finish()
    }

    /// The digest of two peaks: that of 02 and the two.
    pub fn fold(&self, a: &H::Digest, b: &H::Digest) -> H::Digest
        ensures { result ≡ H.hash.digest (fold_input H.hash a.now b.now) }
    {
        let mut hasher = begin::<H>(2);
        hasher.update(a.as_slice());
        hasher.update(b.as_slice());
        hasher.finish()
    }
}
