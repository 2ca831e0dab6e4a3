ghost use Rattle.std.specs.Prelude.{◌≡◌, ℕ};

use std::cmp::Ordering;
use std::hash::{Hash, Hasher};
use std::marker::{Model, PhantomData};

/// The most leaves that a tree may have.
pub const MAX_LEAVES: u64 = 1 << 62;

/// The most peaks that a tree may have.
pub const MAX_PINNED_NODES: u64 = 64;

/// What a place is one of: a number of leaves, or the place of a leaf.
pub struct Leaf;

/// What a place is one of: a number of nodes, or the place of a node.
pub struct Node;

/// A number of leaves or of nodes of a tree, or the place of one of them. Contracts see it as its number.
#[derive_where(Clone, Copy, Debug)]
pub struct Place<F, K> {
    value: u64,
    family: PhantomData<F>,
    kind: PhantomData<K>,
}

/// A number of leaves, or the place of a leaf.
pub type Location<F> = Place<F, Leaf>;

/// A number of nodes, or the place of a node.
pub type Position<F> = Place<F, Node>;

impl<F, K> Model for Place<F, K> {
    ghost Value = { ℕ };

    ghost view = { λ l. l.value };

    ghost inverse = { λ n. record { value = n; family = record {}; kind = record {} } };
}

impl<F, K> Place<F, K> {
    /// The place of this number.
    pub fn new(value: u64) -> Self
        ensures { result ≡ value }
    {
        Place {
            value,
            family: PhantomData,
            kind: PhantomData,
        }
    }

    /// Its number.
    pub fn as_u64(&self) -> u64
        ensures { result ≡ self.now }
    {
        self.value
    }
}

impl<F, K> PartialEq for Place<F, K> {
    ghost use Rattle.std.specs.Prelude.{nat_eq};
    ghost use Rattle.std.specs.Cmp.{partial_equiv_from_equiv, nat_eq_equiv};

    ghost eq = { nat_eq };

    ghost laws = { partial_equiv_from_equiv nat_eq_equiv };

    fn eq(&self, other: &Self) -> bool {
        self.value == other.value
    }
}

impl<F, K> Eq for Place<F, K> {
    ghost use Rattle.std.specs.Cmp.{nat_eq_equiv};

    ghost laws = { nat_eq_equiv };
}

impl<F, K> PartialOrd for Place<F, K> {
    ghost use Rattle.std.specs.Prelude.{Some};
    ghost use Rattle.std.specs.Ordering.{nat_cmp};
    ghost use Rattle.std.proofs.Common.{rules};
    ghost use Rattle.std.specs.Cmp.Rules.{comparing};

    ghost partial_cmp = { λ x y. Some (nat_cmp x y) };

    ghost laws = { Prim.search (comparing, rules) };

    fn partial_cmp(&self, other: &Self) -> Option<Ordering> {
        Some(self.cmp(other))
    }
}

impl<F, K> Ord for Place<F, K> {
    ghost use Rattle.std.proofs.Common.{rules};
    ghost use Rattle.std.specs.Ordering.{nat_cmp};
    ghost use Rattle.std.specs.Cmp.Rules.{comparing};

    ghost cmp = { nat_cmp };

    ghost total = { Prim.search (comparing, rules) };

    ghost matches_partial_cmp = { Prim.search (comparing, rules) };

    ghost matches_eq = { Prim.search (comparing, rules) };

    fn cmp(&self, other: &Self) -> Ordering {
        self.value.cmp(&other.value)
    }
}

impl<F, K> Hash for Place<F, K> {
    ghost use Rattle.std.proofs.Common.{rules};
    ghost use Rattle.std.specs.Hash as fed;
    ghost use Rattle.std.specs.Cmp.Rules.{hashing};

    ghost hash_input = { fed.u64 };

    ghost respects_eq = { Prim.search (hashing, rules) };

    fn hash<H: Hasher>(&self, state: &mut H) {
        self.value.hash(state);
    }
}
