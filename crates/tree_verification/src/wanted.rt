//! Several leaves that are to be proved.
ghost use Rattle.std.specs.Prelude.{◌<◌, AllPairs};
ghost use Rattle.tree_proof.specs.Cover.{holds_one};

use crate::order::first_from;
use tree_proof::Wanted;
use tree_shape::{Location, width};

/// These leaves, each past the one before it.
#[derive(Drop)]
pub(crate) struct Several<'a, F> {
    pub(crate) locations: &'a [Location<F>],
}

impl<F> Wanted for Several<'_, F> {
    ghost met = { λ s. holds_one s.locations.now };

    ghost ready = { λ s. AllPairs (λ l m. l < m) s.locations.now };

    fn is_met(&self, x: u64, height: u32) -> bool {
        let at = first_from(self.locations, x);
        at < self.locations.len() && self.locations[at].as_u64() < x + width(height)
    }
}
