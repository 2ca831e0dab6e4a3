//! The root's input over the peaks of one tree.
ghost use Rattle.std.specs.Prelude.{◌≡◌, ◌≤◌, length, IfOk};
ghost use Rattle.tree_shape.specs.Root.{folded_bytes, root_input};

use crate::inputs::root_bytes;
use codec_base::Bytes;
use std::alloc::{AllocError, Global};
use tree_shape::{Digest, Hasher, Standard, fold_peaks};

/// The root's input, over these peaks, the oldest first, of which the first `inactive` are inactive.
pub(crate) fn root_input_of<H: Hasher>(
    alloc: Global,
    hasher: &Standard<H>,
    leaves: u64,
    inactive: u64,
    peaks: &[H::Digest],
) -> Result<Bytes, AllocError>
    requires { inactive ≤ length peaks.now }
    ensures { IfOk result (λ bytes.
        bytes ≡ root_input leaves inactive hasher.now (folded_bytes H.hash hasher.now inactive peaks.now)) }
{
    let bagging = hasher.root_bagging();
    match peaks {
        [] => root_bytes(alloc, leaves, inactive, bagging, &[]),
        [first, others @ ..] => {
            let folded = fold_peaks(hasher, inactive as usize, *first, others);
            root_bytes(alloc, leaves, inactive, bagging, folded.as_slice())
        }
    }
}
