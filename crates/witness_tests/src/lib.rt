//! Tests of logs of witnesses, over their public calls alone.
#![tactic(auto)]

#[cfg(test)]
mod damage;
#[cfg(test)]
mod failing;
#[cfg(test)]
mod imports;
#[cfg(test)]
mod openings;
#[cfg(test)]
mod shared;
