ghost use Rattle.std.specs.Prelude.{◌≡◌, ◌↔◌, IsTrue, IsOk, IfOk, IsOkUnless};

use crate::Error;
use tree_shape::{Digest, Location};

/// A state of a database: how many operations it has, and its root.
#[derive_where(Clone, Copy; D)]
pub struct Commitment<F, D> {
    /// How many operations there are.
    pub size: Location<F>,
    /// The root of their tree.
    pub root: D,
}

/// A database whose state a batch may be read at, or sealed at. The checks of this crate answer one; a value alone shows nothing, since its field is public.
#[derive_where(Clone, Copy)]
pub struct Compatible<'a, T> {
    pub db: &'a T,
}

impl<F, D: Digest> Commitment<F, D> {
    /// The state of this size and root.
    pub fn new(size: Location<F>, root: D) -> Self
        ensures size { result.size ≡ size }
        ensures root { result.root ≡ root }
    {
        Commitment { size, root }
    }

    /// The same state once more, from behind a reference.
    pub fn copied(&self) -> Self
        ensures { result ≡ self.now }
    {
        let size = Location::new(self.size.as_u64());
        let root = self.root;
        Commitment { size, root }
    }

    /// The database, where its state `current` is this one; otherwise it refuses with `StaleRead`.
    pub fn compatible<'a, T>(
        &self,
        db: &'a T,
        current: Commitment<F, D>,
    ) -> Result<Compatible<'a, T>, Error<F>>
        ensures same { IsOk result ↔ (current ≡ self.now) }
        ensures lent { IfOk result (λ lent. lent.db.now ≡ db.now) }
        ensures stale { IsOkUnless result Error.StaleRead }
    {
        if current == *self {
            Ok(Compatible { db })
        } else {
            Err(Error::StaleRead)
        }
    }
}

impl<F, D: Digest> PartialEq for Commitment<F, D> {
    ghost use Rattle.chain_core.specs.Commitments.{is_same, is_same_per};

    ghost eq = { is_same D.bytes };

    ghost laws = { is_same_per D.bytes };

    fn eq(&self, other: &Self) -> bool
        ensures value { result ≡ is_same D.bytes self.now other.now }
        ensures same { IsTrue result ↔ (self.now ≡ other.now) }
    {
        self.size == other.size && self.root.as_slice() == other.root.as_slice()
    }
}

impl<F, D: Digest> Eq for Commitment<F, D> {
    ghost use Rattle.chain_core.specs.Commitments.{is_same_equivalence};

    ghost laws = { is_same_equivalence D.bytes };
}
