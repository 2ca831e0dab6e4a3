//! Tests of the tree whose nodes stand in a log, over its public calls alone.
#![tactic(auto)]

#[cfg(test)]
mod calls;
#[cfg(test)]
mod openings;
#[cfg(test)]
mod shared;
