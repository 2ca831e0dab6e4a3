ghost use Rattle.std.specs.Prelude.{◌≡◌, ◌≤◌, ◌^◌};
ghost use Rattle.tree_shape.specs.Mmr.{mmr_size};

use crate::Family;

/// The Merkle mountain range: the newest two peaks are joined as long as their heights are equal.
#[derive(Clone, Copy, Debug, PartialEq, Eq, PartialOrd, Ord, Hash)]
pub struct Mmr {}

fn size(n: u64) -> u64
    requires { n ≤ 2 ^ 62 }
    ensures { result ≡ mmr_size n }
{
    2 * n - u64::from(n.count_ones())
}

impl Family for Mmr {
    ghost use Rattle.tree_shape.specs.Mmr.{mmr};
    ghost use Rattle.tree_shape.specs.MmrPlaces.{mmr_lawful};
    ghost use Rattle.tree_shape.specs.MmrKept.{mmr_keeps};
    ghost use Rattle.tree_shape.specs.MmrSize.{mmr_small, mmr_few_peaks};

    ghost shape = { mmr };

    ghost lawful = { mmr_lawful };

    ghost keeps = { mmr_keeps };

    ghost small = { mmr_small };

    ghost few_peaks = { mmr_few_peaks };

    fn position(start: u64, height: u32) -> u64 {
        size(start + (1 << height) - 1) + u64::from(height)
    }

    fn parent(n: u64, i: u32) -> Option<(u64, u32)> {
        if i < n.trailing_ones() {
            Some((n + 1 - (2 << i), i + 1))
        } else {
            None
        }
    }

    fn size(n: u64) -> u64 {
        size(n)
    }

    fn peak_count(n: u64) -> u32 {
        n.count_ones()
    }

    fn peak_height(n: u64, i: u32) -> u32 {
        let mut rest = n;
        let mut left = i;
        for height in 0..63 {
            if rest % 2 == 1 {
                if left == 0 {
                    return height;
                }
                left -= 1;
            }
            rest /= 2;
        }
        0
    }
}
