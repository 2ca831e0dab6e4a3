//! Hashers, locations and positions, and the shapes of append-only trees.
#![tactic(auto)]

mod bagging;
mod digest;
mod family;
mod hasher;
mod inactive;
mod location_codec;
mod mmb;
mod mmr;
mod needed;
mod peaks;
mod pins;
mod places;
mod root;
mod sha256;
mod sizes;
mod slow;
mod standard;
mod table;
mod valid;
mod widths;

pub use bagging::Bagging;
pub use digest::Digest;
pub use family::Family;
pub use hasher::Hasher;
pub use inactive::inactive_law;
pub use mmb::Mmb;
pub use mmr::Mmr;
pub use needed::needed_nodes;
pub use peaks::{is_peak, peak_nodes};
pub use pins::{Pins, few_peaks_law};
pub use places::{Leaf, Location, MAX_LEAVES, MAX_PINNED_NODES, Node, Place, Position};
pub use root::{backward_fold, fold_peaks, forward_fold, root_digest, root_of_peaks};
pub use sha256::{Sha256Digest, Sha256Hasher};
pub use slow::{slow_node, slow_peaks, slow_root};
pub use standard::Standard;
pub use table::table_laws;
pub use widths::{half_width, width};
