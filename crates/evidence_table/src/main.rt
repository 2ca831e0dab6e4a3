//! Prints what `find_clash` answers: of lists that are equal or differ, under SHA-256; and, for both families and both ways to
//! fold, of all lists of up to twelve elements that differ in one element, in length or in the number of inactive peaks, under a
//! hash of one byte, with which many inputs clash.
#![tactic(auto)]

mod answers;
mod byte_hash;
mod error;
mod lists;
mod table;

use crate::error::TableError;
use crate::table::{print_family, print_rows};
use tree_shape::{Mmb, Mmr};

fn main(rt: HostRuntime) -> Result<(), TableError> {
    print_rows(&rt, rt.alloc())?;
    print_family::<Mmr>(&rt, rt.alloc(), "mmr")?;
    print_family::<Mmb>(&rt, rt.alloc(), "mmb")
}
