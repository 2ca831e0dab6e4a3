ghost use Rattle.std.specs.Prelude.{◌≡◌, ◌&&◌, nat_eq};
ghost use Rattle.std.specs.Cmp.Lexicographic.{pointwise};
ghost use Rattle.tree_proof.specs.declared.proof.Proof.{Proof};

use codec_base::ListOf;
use tree_shape::Location;

/// What shows that items stand in a tree: its size, how its root is folded, and the nodes of the cover.
#[derive(Drop)]
#[derive_where(Debug, PartialEq, Eq; D)]
pub struct Proof<F, D> {
    /// The number of leaves of the tree.
    pub leaves: Location<F>,
    /// How many leading peaks are folded first.
    pub inactive_peaks: u64,
    /// The nodes of the cover, from the left.
    pub digests: ListOf<D>,
}

/// Two proofs are equal where their fields are, and of the digests each pair.
pub fn equality_law<F, D: PartialEq>()
    ensures { (p q : Proof F D) → ⟦<Proof<F, D> as PartialEq>⟧.eq p q ≡
        (nat_eq p.leaves q.leaves && (nat_eq p.inactive_peaks q.inactive_peaks && pointwise D.eq p.digests q.digests)) }
{}
