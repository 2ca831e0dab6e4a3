//! The walk over the peaks that finds the nodes of a proof.
ghost use Rattle.std.specs.Prelude.{◌≡◌, ◌≤◌, ◌<◌, ◌+◌, ◌^◌, List, [], ◌∷◌, ◌++◌, map, OnOk, IfOk};
ghost use Rattle.tree_shape.specs.Pins.{position_of};
ghost use Rattle.tree_proof.specs.Cover.{cover_in};
ghost use Rattle.tree_verification.specs.Ranges.{cover_positions};

use std::alloc::{AllocError, Global};
use tree_proof::Wanted;
use tree_shape::{Family, Position, half_width, peak_nodes};

/// Adds the position of a node.
fn push_position<F: Family>(
    positions: &mut Vec<Position<F>>,
    x: u64,
    height: u32,
) -> Result<(), AllocError>
    requires { x + 2 ^ height ≤ 2 ^ 62 }
    ensures { OnOk result (positions.new.items ≡ positions.old.items ++ map (position_of F.shape) ((x, height) ∷ [])) }
{
    positions.push(Position::new(F::position(x, height)))?;
    Ok(())
}

/// Adds the positions of the cover inside a node, from the left.
fn push_cover<F: Family, W: Wanted>(
    positions: &mut Vec<Position<F>>,
    wanted: &W,
    x: u64,
    height: u32,
) -> Result<(), AllocError>
    requires ready { W.ready wanted.now }
    requires few { x + 2 ^ height ≤ 2 ^ 62 }
    requires low { height < 63 }
    ensures { OnOk result (positions.new.items ≡ positions.old.items ++
        map (position_of F.shape) (cover_in (W.met wanted.now) x height)) }
{
    if wanted.is_whole(x, height) {
        return Ok(());
    }
    if !wanted.is_met(x, height) {
        push_position(positions, x, height)?;
        return Ok(());
    }
    if height == 0 {
        return Ok(());
    }
    let half = half_width(height);
    push_cover(positions, wanted, x, height - 1)?;
    push_cover(positions, wanted, x + half, height - 1)?;
    Ok(())
}

/// The positions of the cover in a tree of so many leaves.
pub(crate) fn find_cover<F: Family, W: Wanted>(
    alloc: Global,
    wanted: &W,
    leaves: u64,
) -> Result<Vec<Position<F>>, AllocError>
    requires ready { W.ready wanted.now }
    requires few { leaves ≤ 2 ^ 62 }
    ensures { IfOk result (λ positions. positions.items ≡ cover_positions F.shape (W.met wanted.now) leaves) }
{
    let peaks = peak_nodes::<F>(alloc, leaves)?;
    let mut positions = Vec::new(alloc);
    for i in 0..peaks.len() {
        let (x, height) = peaks[i];
        push_cover(&mut positions, wanted, x, height)?;
    }
    Ok(positions)
}
