ghost use Rattle.std.specs.Prelude.{◌≡◌, ◌<◌, ◌+◌, ◌-◌, ◌^◌};
ghost use Rattle.tree_shape.specs.Mmb.{mmb_size};

use crate::{Family, half_width};

/// The Merkle mountain belt: an append joins the newest pair of neighbouring peaks of equal height, once.
#[derive(Clone, Copy, Debug, PartialEq, Eq, PartialOrd, Ord, Hash)]
pub struct Mmb {}

fn size(n: u64) -> u64
    requires { n < 2 ^ 63 }
    ensures { result ≡ mmb_size n }
{
    2 * n - u64::from(63 - (n + 1).leading_zeros())
}

impl Family for Mmb {
    ghost use Rattle.tree_shape.specs.Mmb.{mmb};
    ghost use Rattle.tree_shape.specs.MmbPlaces.{mmb_lawful, mmb_small};
    ghost use Rattle.tree_shape.specs.MmbSize.{mmb_few_peaks};
    ghost use Rattle.tree_shape.specs.MmbKept.{mmb_keeps};

    ghost shape = { mmb };

    ghost lawful = { mmb_lawful };

    ghost keeps = { mmb_keeps };

    ghost small = { mmb_small };

    ghost few_peaks = { mmb_few_peaks };

    fn position(start: u64, height: u32) -> u64 {
        if height == 0 {
            size(start)
        } else {
            let half = half_width(height);
            size(start + half + half + half - 2) + 1
        }
    }

    fn parent(n: u64, i: u32) -> Option<(u64, u32)> {
        let ones = (n + 1).trailing_ones();
        let width = 1u64 << ones;
        if i > 0 {
            return None;
        }
        if n + 2 == width {
            return None;
        }
        Some((n + 2 - width - 2 * width, ones + 1))
    }

    fn size(n: u64) -> u64 {
        size(n)
    }

    fn peak_count(n: u64) -> u32 {
        63 - (n + 1).leading_zeros()
    }

    fn peak_height(n: u64, i: u32) -> u32 {
        let mut rest = n;
        let mut left = i;
        for height in 0..63 {
            if rest % 2 == 1 {
                if left == 0 {
                    return height;
                }
                left -= 1;
                rest = (rest - 1) / 2;
            } else if rest > 0 {
                if left == 0 {
                    return height + 1;
                }
                left -= 1;
                rest = (rest - 2) / 2;
            }
        }
        0
    }
}
