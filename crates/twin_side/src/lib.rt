//! One side of the run: a database, with the batches of its numbers; and the reads and proofs of each of the two.
#![tactic(auto)]

mod commands;
mod compact_proofs;
mod durability;
mod encoded_proof;
mod full_proofs;
mod full_reads;
mod read_refusals;
mod side;

pub use side::Side;
