//! Prints at which end a journal is opened, under each cap, of logs of five items of which some match; and of a small history of
//! which each call of the volume fails in turn, how what a crash leaves is opened again. Between the two, a journal as any
//! log of items, its proofs, and logs that are made ready for items from a place on.
#![tactic(auto)]

mod calls;
mod error;
mod failing;
mod images;
mod rows;
mod stores;

use crate::calls::print_calls;
use crate::error::TableError;
use crate::failing::print_history;
use crate::rows::print_rows;
use codec_base::Bytes;
use journal_base::{FixedJournal, VariableJournal};
use tree_core::{Mmb, Mmr};

fn main(rt: HostRuntime) -> Result<(), TableError> {
    print_rows::<Mmr, FixedJournal<u64>>(&rt, rt.alloc(), "mmr fixed")?;
    print_rows::<Mmr, VariableJournal<Bytes>>(&rt, rt.alloc(), "mmr variable")?;
    print_rows::<Mmb, FixedJournal<u64>>(&rt, rt.alloc(), "mmb fixed")?;
    print_rows::<Mmb, VariableJournal<Bytes>>(&rt, rt.alloc(), "mmb variable")?;
    print_calls::<Mmr, FixedJournal<u64>>(&rt, rt.alloc(), "mmr fixed")?;
    print_calls::<Mmr, VariableJournal<Bytes>>(&rt, rt.alloc(), "mmr variable")?;
    print_calls::<Mmb, FixedJournal<u64>>(&rt, rt.alloc(), "mmb fixed")?;
    print_calls::<Mmb, VariableJournal<Bytes>>(&rt, rt.alloc(), "mmb variable")?;
    print_history::<Mmr, FixedJournal<u64>>(&rt, rt.alloc(), "mmr fixed")?;
    print_history::<Mmr, VariableJournal<Bytes>>(&rt, rt.alloc(), "mmr variable")?;
    print_history::<Mmb, FixedJournal<u64>>(&rt, rt.alloc(), "mmb fixed")?;
    print_history::<Mmb, VariableJournal<Bytes>>(&rt, rt.alloc(), "mmb variable")
}
