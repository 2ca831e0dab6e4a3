//! How many nodes a cover has.
ghost use Rattle.std.specs.Prelude.{◌≡◌, ◌↔◌, ◌+◌, ◌≤◌, ◌<◌, ◌^◌, length, IsTrue, IfSome, IfNone};
ghost use Rattle.tree_proof.specs.Cover.{cover_in, cover};

use tree_proof::Wanted;
use tree_shape::{Family, half_width, width};

/// One less, where there is one.
fn one_less(digests: u64) -> Option<u64>
    ensures some { IfSome result (λ left. digests ≡ 1 + left) }
    ensures none { IfNone result (digests < 1) }
{
    digests.checked_sub(1)
}

/// How many of so many digests are left behind those of the cover inside a node; none where there are too few.
fn left_behind<W: Wanted>(wanted: &W, x: u64, height: u32, digests: u64) -> Option<u64>
    requires ready { W.ready wanted.now }
    requires few { x + 2 ^ height ≤ 2 ^ 62 }
    requires low { height < 63 }
    ensures some { IfSome result (λ left. digests ≡ length (cover_in (W.met wanted.now) x height) + left) }
    ensures none { IfNone result (digests < length (cover_in (W.met wanted.now) x height)) }
{
    if wanted.is_whole(x, height) {
        return Some(digests);
    }
    if !wanted.is_met(x, height) {
        return one_less(digests);
    }
    if height == 0 {
        return Some(digests);
    }
    let half = half_width(height);
    match left_behind(wanted, x, height - 1, digests) {
        None => None,
        Some(left) => left_behind(wanted, x + half, height - 1, left),
    }
}

/// Whether the cover in a tree of so many leaves has so many nodes. It goes no further than these.
pub(crate) fn is_cover_count<F: Family, W: Wanted>(wanted: &W, leaves: u64, digests: u64) -> bool
    requires ready { W.ready wanted.now }
    requires few { leaves ≤ 2 ^ 62 }
    ensures { IsTrue result ↔ (digests ≡ length (cover F.shape (W.met wanted.now) leaves)) }
{
    let mut left = digests;
    let mut x = 0;
    let count = F::peak_count(leaves);
    for i in 0..count {
        let height = F::peak_height(leaves, count - 1 - i);
        let Some(behind) = left_behind(wanted, x, height, left) else {
            return false;
        };
        left = behind;
        x += width(height);
    }
    left == 0
}
