//! Prints what a tree in a volume keeps: of twenty leaves, pruned at each number of leaves, with its openings under caps and the
//! proofs that it makes as memory does; of a small history of which each call of the volume fails in turn, how what a crash leaves is
//! opened again; and how a tree begins in a sync, on nothing and in the place of another.
#![tactic(auto)]

mod begun;
mod error;
mod failing;
mod pruned;
mod reckoned;
mod trees;

use crate::begun::print_syncs;
use crate::error::TableError;
use crate::failing::print_history;
use crate::pruned::print_pruned;
use tree_core::{Mmb, Mmr};

fn main(rt: HostRuntime) -> Result<(), TableError> {
    print_pruned::<Mmr>(&rt, rt.alloc(), "mmr")?;
    print_pruned::<Mmb>(&rt, rt.alloc(), "mmb")?;
    print_history::<Mmr>(&rt, rt.alloc(), "mmr")?;
    print_history::<Mmb>(&rt, rt.alloc(), "mmb")?;
    print_syncs::<Mmr>(&rt, rt.alloc(), "mmr")?;
    print_syncs::<Mmb>(&rt, rt.alloc(), "mmb")
}
