//! Prints three tables, each of which a program of its own computes apart: which image of a log each choice of a crash picks;
//! sizes, peaks and positions of both families of trees, with digests over nodes and roots; and how many digests the proof of
//! each range of each small tree has, with digests over the proofs, how many of them are accepted, and how many damaged copies
//! of them, and of the pins before them, are refused.
#![tactic(auto)]

mod cases;
mod crashes;
mod damage;
mod digests;
mod elements;
mod error;
mod pins;
mod proofs;
mod shapes;
mod trees;

use crate::crashes::print_crashes;
use crate::error::TableError;
use crate::proofs::print_proofs;
use crate::trees::{print_digests, print_lines};
use tree_core::{Mmb, Mmr};

fn main(rt: HostRuntime) -> Result<(), TableError> {
    print_crashes(&rt, rt.alloc())?;
    print_lines::<Mmr>(&rt, "mmr")?;
    print_lines::<Mmb>(&rt, "mmb")?;
    print_digests::<Mmr>(&rt, rt.alloc(), "mmr")?;
    print_digests::<Mmb>(&rt, rt.alloc(), "mmb")?;
    print_proofs::<Mmr>(&rt, rt.alloc(), "mmr")?;
    print_proofs::<Mmb>(&rt, rt.alloc(), "mmb")
}
