use std::num::NonZeroU64;

/// Where the log of a tree's nodes and the map of its pins lie, and how many nodes a blob of the log has.
#[derive(Drop)]
pub struct Config {
    /// The name of the node log.
    pub nodes: String,
    /// How many nodes a blob of it has.
    pub items_per_blob: NonZeroU64,
    /// The name of the map of pins.
    pub metadata: String,
}
