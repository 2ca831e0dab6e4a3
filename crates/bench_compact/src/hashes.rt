//! The hash calls that batches make, and nothing else.
ghost use Rattle.std.specs.Prelude.{◌≤◌};

use sha2::{Digest, Sha256};
use tree_core::{Family, Mmr};

/// The bytes that are hashed for a leaf, a node, a fold and a root. Those for a leaf here are fewer than these, in as
/// many blocks of SHA-256.
const LEAF: usize = 43;

const NODE: usize = 73;

const FOLD: usize = 65;

const ROOT: usize = 50;

/// What came out of the last call.
#[derive(Drop)]
struct Chain {
    last: [u8; 32],
}

impl Chain {
    /// Hashes this many bytes, as many times, each time with what came out before.
    fn hash(&mut self, bytes: usize, times: u64)
        requires { 32 ≤ bytes × bytes ≤ 73 }
    {
        let rest = [7u8; 41];
        for _ in 0..times {
            let mut state = Sha256::new();
            state.update(&self.last);
            state.update(&rest[..bytes - 32]);
            self.last = state.finalize();
        }
    }
}

/// The hash calls of so many batches of one value, each with its commit and its root.
pub(crate) fn hash_all(batches: u64) -> [u8; 32]
    requires { batches ≤ 1000000 }
{
    let mut chain = Chain { last: [7u8; 32] };
    for batch in 0..batches {
        let before = 2 * batch + 1;
        let parents = Mmr::size(before + 2)
            .saturating_sub(Mmr::size(before))
            .saturating_sub(2);
        let folds = u64::from(Mmr::peak_count(before + 2)).saturating_sub(1);
        chain.hash(LEAF, 2);
        chain.hash(NODE, parents);
        chain.hash(FOLD, folds);
        chain.hash(ROOT, 1);
    }
    chain.last
}
