ghost use Rattle.std.specs.Prelude.{◌≡◌, ◌↔◌, [], ◌∷◌, IsTrue, IsOk, IfOk, Ok, IsOkUnless, Contains};
ghost use Rattle.chain_core.specs.Commitments.{later_state};

use crate::{Commitment, Compatible, Error};
use codec_base::ListOf;
use std::alloc::Global;
use tree_shape::{Digest, Location};

/// The states of a sealed batch: before its own operations, where its chain began, and after them.
#[derive(Drop)]
pub struct Bounds<F, D> {
    /// Before the batch's own operations.
    pub base: Commitment<F, D>,
    /// The oldest state from which on the chain keeps its operations.
    pub db: Commitment<F, D>,
    /// After the batch's own operations.
    pub tip: Commitment<F, D>,
    /// The tips of the batch's ancestors, the newest first.
    pub ancestors: ListOf<Commitment<F, D>>,
    /// The floor of the batch's commit: no operation below it is active.
    pub inactivity_floor: Location<F>,
}

impl<F: Drop, D: Digest> Bounds<F, D> {
    /// The bounds of a batch with no operations on a state.
    pub fn from_db(
        alloc: Global,
        state: Commitment<F, D>,
        inactivity_floor: Location<F>,
    ) -> Result<Self, Error<F>>
        ensures { result ≡
            Ok (record { base = state; db = state; tip = state; ancestors = []; inactivity_floor = inactivity_floor }) }
    {
        Ok(Bounds {
            base: state.copied(),
            db: state.copied(),
            tip: state,
            ancestors: ListOf::new(alloc),
            inactivity_floor,
        })
    }

    /// The database, where its state `current` is one of the chain; otherwise it refuses with `StaleRead`.
    pub fn compatible<'a, T>(
        &self,
        db: &'a T,
        current: Commitment<F, D>,
    ) -> Result<Compatible<'a, T>, Error<F>>
        ensures in_chain { IsOk result ↔ Contains (self.now.tip ∷ self.now.db ∷ self.now.ancestors) current }
        ensures at_tip { current ≡ self.now.tip → IsOk result }
        ensures lent { IfOk result (λ lent. lent.db.now ≡ db.now) }
        ensures stale { IsOkUnless result Error.StaleRead }
    {
        if is_in_chain(&current, &self.tip, &self.db, self.ancestors.as_slice()) {
            Ok(Compatible { db })
        } else {
            Err(Error::StaleRead)
        }
    }

    /// Whether the batch may be applied at the state `current`. It refuses with `StaleBatch` where it may not.
    pub fn validate_apply_to(&self, current: Commitment<F, D>) -> Result<(), Error<F>>
        ensures at_boundary_or_ancestor { IsOk result ↔ Contains (self.now.db ∷ self.now.ancestors) current }
        ensures stale { IsOkUnless result Error.StaleBatch }
    {
        validate_batch_applicable(current, self.db.copied(), self.ancestors.as_slice())
    }
}

/// Whether the state is one of these.
fn is_among<F, D: Digest>(state: &Commitment<F, D>, states: &[Commitment<F, D>]) -> bool
    ensures { IsTrue result ↔ Contains states.now state.now }
{
    states.contains(state)
}

/// Whether the state is the one where the chain began, or an ancestor's tip.
fn stands_at<F, D: Digest>(
    current: &Commitment<F, D>,
    db: &Commitment<F, D>,
    ancestors: &[Commitment<F, D>],
) -> bool
    ensures { IsTrue result ↔ Contains (db.now ∷ ancestors.now) current.now }
{
    *current == *db || is_among(current, ancestors)
}

/// Whether the state is the batch's tip, or one of those before.
fn is_in_chain<F, D: Digest>(
    current: &Commitment<F, D>,
    tip: &Commitment<F, D>,
    db: &Commitment<F, D>,
    ancestors: &[Commitment<F, D>],
) -> bool
    ensures { IsTrue result ↔ Contains (tip.now ∷ db.now ∷ ancestors.now) current.now }
{
    *current == *tip || stands_at(current, db, ancestors)
}

/// Whether a batch whose chain began at `db`, with these tips of ancestors, may be applied at the state `current`. It
/// refuses with `StaleBatch` where it may not.
pub fn validate_batch_applicable<F, D: Digest>(
    current: Commitment<F, D>,
    db: Commitment<F, D>,
    ancestors: &[Commitment<F, D>],
) -> Result<(), Error<F>>
    ensures at_boundary_or_ancestor { IsOk result ↔ Contains (db ∷ ancestors.now) current }
    ensures stale { IsOkUnless result Error.StaleBatch }
{
    if stands_at(&current, &db, ancestors) {
        Ok(())
    } else {
        Err(Error::StaleBatch)
    }
}

/// Where the chain of a batch begins that is sealed now: at the base of its oldest ancestor that is alive, or where its
/// parent's chain begins if that is no lower.
pub fn effective_boundary<F, D: Digest>(
    inherited: Commitment<F, D>,
    oldest_live_base: Option<Commitment<F, D>>,
) -> Commitment<F, D>
    ensures { result ≡ later_state inherited oldest_live_base }
{
    match oldest_live_base {
        Some(base) if base.size > inherited.size => base,
        _ => inherited,
    }
}

/// The database, where a batch may be sealed at its state `current`; otherwise it refuses with `StaleBatch`.
pub fn merkleizable<'a, T, F, D: Digest>(
    db: &'a T,
    current: Commitment<F, D>,
    boundary: Commitment<F, D>,
    ancestors: &[Commitment<F, D>],
) -> Result<Compatible<'a, T>, Error<F>>
    ensures at_boundary_or_ancestor { IsOk result ↔ Contains (boundary ∷ ancestors.now) current }
    ensures lent { IfOk result (λ lent. lent.db.now ≡ db.now) }
    ensures stale { IsOkUnless result Error.StaleBatch }
{
    validate_batch_applicable(current, boundary, ancestors)?;
    Ok(Compatible { db })
}
