//! Which peak a leaf stands under.
ghost use Rattle.std.specs.Prelude.{◌≡◌, ◌≤◌, ◌<◌, ◌+◌, ◌^◌, length};
ghost use Rattle.std.specs.List.{Contains};
ghost use Rattle.tree_shape.specs.Shape.{peaks};

use tree_shape::{Family, width};

/// The peak of so many leaves over the leaf at a place: its first leaf and its height.
pub(crate) fn peak_over<F: Family>(leaves: u64, place: u64) -> (u64, u32)
    requires { (place < leaves) × (leaves ≤ 2 ^ 62) }
    ensures peak { Contains (peaks F.shape leaves) (result.0, result.1) }
    ensures over { (result.0 ≤ place) × (place < result.0 + 2 ^ result.1) }
    ensures within { result.0 + 2 ^ result.1 ≤ leaves }
    ensures low { result.1 < 63 }
{
    let mut end = leaves;
    for i in 0..F::peak_count(leaves) {
        let height = F::peak_height(leaves, i);
        end -= width(height);
        if end <= place {
            return (end, height);
        }
    }
    unreachable!()
}
