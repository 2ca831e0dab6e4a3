//! The table of one family: all ranges of all trees up to a number of leaves.
ghost use Rattle.std.specs.Prelude.{◌≤◌, ◌^◌};

use crate::cases::{Case, add_proof};
use crate::damage::refused;
use crate::elements::append;
use crate::error::TableError;
use crate::pins::{Pinned, pins_of};
use memory_volume::MemoryVolume;
use std::alloc::Global;
use tree_core::verification::{historical_range_proof, range_proof};
use tree_core::{
    Bagging, Digest, Family, Hasher, Location, Mem, Sha256Digest, Sha256Hasher, Standard,
};

/// How many leaves the greatest tree has.
const LEAVES: u64 = 20;

/// What was found of the proofs so far.
#[derive(Drop)]
struct Totals {
    proofs: Sha256Hasher,
    history: Sha256Hasher,
    accepted: u64,
    refused: u64,
    pinned: Pinned,
}

/// The bagging of a tree of so many leaves.
fn bagging_of(leaves: u64) -> Bagging {
    if leaves % 2 == 0 {
        Bagging::ForwardFold
    } else {
        Bagging::BackwardFold
    }
}

/// The proof of a range of a tree, with what it is to show.
fn case_of<F: Family>(
    alloc: Global,
    vol: &mut MemoryVolume,
    tree: &Mem<F, Sha256Digest>,
    start: u64,
    end: u64,
) -> Result<Case<F>, TableError> {
    let hasher = Standard::<Sha256Hasher>::new(bagging_of(tree.leaves().as_u64()));
    let inactive = start.min(tree.peak_count());
    let root = tree.root(&hasher, inactive)?;
    let from = Location::new(start);
    let proof = range_proof(alloc, vol, tree, from, Location::new(end), inactive)?;
    Ok(Case {
        hasher,
        proof,
        start,
        end,
        root,
    })
}

impl Totals {
    fn new() -> Self {
        Totals {
            proofs: Sha256Hasher::new(),
            history: Sha256Hasher::new(),
            accepted: 0,
            refused: 0,
            pinned: Pinned::new(),
        }
    }

    /// Adds a proof, whether it is accepted, and how many damaged copies are refused.
    fn add<F: Family>(&mut self, alloc: Global, case: &Case<F>) -> Result<(), TableError> {
        add_proof(&mut self.proofs, &case.proof);
        if case.holds(alloc)? {
            self.accepted = self.accepted.saturating_add(1);
        }
        self.refused = self.refused.saturating_add(refused(alloc, case)?);
        Ok(())
    }

    /// Prints what was found.
    fn print(self, rt: &impl Print, alloc: Global, name: &str) -> Result<(), TableError> {
        let proofs = self.proofs.finish();
        let history = self.history.finish();
        println!(rt;
            "{name} proofs {}",
            hex::encode(alloc, proofs.as_slice())?.as_str()
        )?;
        println!(rt;
            "{name} history {}",
            hex::encode(alloc, history.as_slice())?.as_str()
        )?;
        println!(rt; "{name} accepted {}", self.accepted)?;
        println!(rt; "{name} refused {}", self.refused)?;
        self.pinned.print(rt, alloc, name)
    }
}

/// Prints the numbers of digests of the proofs of the ranges that begin at a leaf.
fn print_from<F: Family>(
    rt: &impl Print,
    alloc: Global,
    tree: &Mem<F, Sha256Digest>,
    totals: &mut Totals,
    start: u64,
) -> Result<(), TableError>
    requires { start ≤ 2 ^ 62 }
{
    let mut vol = MemoryVolume::new(alloc);
    let pins = pins_of(alloc, tree, start)?;
    print!(rt; " :")?;
    for last in start..tree.leaves().as_u64() {
        let case = case_of(alloc, &mut vol, tree, start, last.saturating_add(1))?;
        print!(rt; " {}", case.proof.digests.len())?;
        totals.add(alloc, &case)?;
        totals.pinned.add(alloc, &case, &pins)?;
    }
    Ok(())
}

/// Prints the line of a tree.
fn print_tree<F: Family>(
    rt: &impl Print,
    alloc: Global,
    name: &str,
    tree: &Mem<F, Sha256Digest>,
    totals: &mut Totals,
) -> Result<(), TableError> {
    let leaves = tree.leaves().as_u64();
    print!(rt; "{name} {leaves}")?;
    for start in 0..leaves {
        print_from(rt, alloc, tree, totals, start)?;
    }
    println!(rt)?;
    Ok(())
}

/// Adds the proofs of the ranges that begin at a leaf, in the tree of so many leaves that a store had.
fn add_history<F: Family>(
    alloc: Global,
    tree: &Mem<F, Sha256Digest>,
    totals: &mut Totals,
    leaves: u64,
    start: u64,
) -> Result<(), TableError>
    requires { leaves ≤ 2 ^ 62 }
{
    let mut vol = MemoryVolume::new(alloc);
    let inactive = start.min(u64::from(F::peak_count(leaves)));
    for last in start..leaves {
        let at = Location::new(leaves);
        let from = Location::new(start);
        let end = Location::new(last.saturating_add(1));
        let proof = historical_range_proof(alloc, &mut vol, tree, at, from, end, inactive)?;
        add_proof(&mut totals.history, &proof);
    }
    Ok(())
}

/// Adds the proofs of all ranges in the trees of up to so many leaves that a store had.
fn add_histories<F: Family>(
    alloc: Global,
    tree: &Mem<F, Sha256Digest>,
    totals: &mut Totals,
    leaves: u64,
) -> Result<(), TableError>
    requires { leaves ≤ 2 ^ 62 }
{
    for start in 0..leaves {
        add_history(alloc, tree, totals, leaves, start)?;
    }
    Ok(())
}

/// Adds what is found of the histories of a tree.
fn add_all_histories<F: Family>(
    alloc: Global,
    tree: &Mem<F, Sha256Digest>,
    totals: &mut Totals,
) -> Result<(), TableError> {
    for fewer in 0..LEAVES {
        add_histories(alloc, tree, totals, fewer + 1)?;
    }
    Ok(())
}

/// Prints the lines of the small trees, and what was found.
pub(crate) fn print_proofs<F: Family>(
    rt: &impl Print,
    alloc: Global,
    name: &str,
) -> Result<(), TableError> {
    let mut totals = Totals::new();
    let mut tree = Mem::<F, Sha256Digest>::new(alloc)?;
    for element in 0..LEAVES {
        append(&mut tree, element)?;
        print_tree(rt, alloc, name, &tree, &mut totals)?;
    }
    add_all_histories(alloc, &tree, &mut totals)?;
    totals.print(rt, alloc, name)
}
