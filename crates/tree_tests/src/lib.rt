//! Tests of trees, also of those that keep their frontier alone, of their proofs, of operations and what a log is synced to, and of
//! the places of batches in a chain, over their public calls alone.
#![tactic(auto)]

#[cfg(test)]
mod batches;
#[cfg(test)]
mod chains;
#[cfg(test)]
mod example;
#[cfg(test)]
mod frontiers;
#[cfg(test)]
mod lists;
#[cfg(test)]
mod operations;
#[cfg(test)]
mod places;
#[cfg(test)]
mod proofs;
#[cfg(test)]
mod shapes;
#[cfg(test)]
mod spelled;
#[cfg(test)]
mod stores;
#[cfg(test)]
mod targets;
#[cfg(test)]
mod trees;
