use crate::Config;
use tree_core::{Digest, Family, Location};

/// From what a tree begins in a sync.
#[derive(Drop)]
pub struct SyncConfig<F: Family, D: Digest> {
    /// Where its log and its map lie.
    pub config: Config,
    /// The leaves at which it is pruned.
    pub start: Location<F>,
    /// The most leaves that are kept of the log.
    pub end: Location<F>,
    /// The peaks of `start`, the oldest first. Without them they are read from map and log.
    pub pinned_nodes: Option<Vec<D>>,
}
