//! Tests of codecs, streams, volumes and journals, over their public calls alone.
#![tactic(auto)]

#[cfg(test)]
mod codecs;
#[cfg(test)]
mod edges;
#[cfg(test)]
mod journals;
#[cfg(test)]
mod marks;
#[cfg(test)]
mod streams;
#[cfg(test)]
mod volumes;
