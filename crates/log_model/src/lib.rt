//! What the log means: operations, batches and the list machine.
#![tactic(auto)]

mod extent;
mod laws;
mod logged;
mod refusal;
mod root;
mod sizes;

pub use extent::Extent;
pub use laws::{
    encodings_law, fresh_law, no_clash_law, openings_are_good, stands_laws, steps_stay_good,
};
pub use logged::Logged;
pub use refusal::{Refusal, equality_law};
pub use root::{floor_of_operations, push_leaves, root_of_leaves};
pub use sizes::{first_at_least, last_kept};
