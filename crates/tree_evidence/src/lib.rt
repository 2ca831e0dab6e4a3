//! What two lists of elements and the roots of their trees show of each other: two lists with one root are one list, or
//! two different hash inputs have one digest.
#![tactic(auto)]

mod answer;
mod difference;
mod evidence;
mod fold_pairs;
mod folds;
mod inputs;
mod laws;
mod nodes;
mod pair;
mod peaks;
mod tree;

pub use answer::Clash;
pub use evidence::find_clash;
pub use laws::clash_law;
