//! What a batch reaches through its parents.
ghost use Rattle.std.specs.Prelude.{◌≡◌, map, IfOk, IsOkUnless};
ghost use Rattle.std.specs.List.{All};
ghost use Rattle.chain_core.specs.Slots.{IsAlive};
ghost use Rattle.chain_core.specs.Reached.{items_at, oldest_in, Reaches};

use crate::{BatchId, Bounds, Commitment, Pool, PoolError};
use codec_base::{CodecError, ListOf};
use tree_shape::Digest;

/// A sealed batch that tells its bounds.
pub trait Chained<F: Drop, D: Digest>: Drop {
    ghost use Rattle.chain_core.specs.declared.bounds.Bounds.{Bounds};

    /// Its bounds.
    ghost bounds_of: { Self → Bounds F D };

    /// Its bounds.
    fn bounds(&self) -> &Bounds<F, D>
        ensures { result.now ≡ bounds_of self.now };
}

/// What is reached from a batch on, from parent to parent, up to the last one before the first that isn't alive.
#[derive(Drop)]
pub struct Reach<F, D> {
    /// The tips, the newest first.
    pub tips: ListOf<Commitment<F, D>>,
    /// The base of the oldest.
    pub oldest: Option<Commitment<F, D>>,
}

/// The tips and the oldest base of the batches under these numbers, which are alive.
fn collected<F: Drop, D: Digest, T: Chained<F, D>>(
    pool: &Pool<T>,
    ids: &[BatchId],
) -> Result<Reach<F, D>, CodecError>
    requires { All (IsAlive pool.now) ids.now }
    ensures tips { IfOk result (λ r. r.tips ≡ map (λ c. (T.bounds_of c).tip) (items_at pool.now ids.now)) }
    ensures oldest { IfOk result (λ r. r.oldest ≡ oldest_in T.bounds_of (items_at pool.now ids.now)) }
    ensures memory { IsOkUnless result CodecError.Memory }
{
    let mut tips = Vec::with_capacity(pool.allocator(), ids.len())?;
    let mut oldest = None;
    for id in ids {
        let bounds = pool.item(*id).bounds();
        tips.push(bounds.tip.copied())?;
        oldest = Some(bounds.base.copied());
    }
    let tips = ListOf::from_vec(tips);
    Ok(Reach { tips, oldest })
}

/// What is reached from a link on. It is nothing where the link names no batch, or a dead one.
pub fn reach_of<F: Drop, D: Digest, T: Chained<F, D>>(
    pool: &Pool<T>,
    link: Option<BatchId>,
) -> Result<Reach<F, D>, PoolError>
    ensures reach { IfOk result (λ r. Reaches T.bounds_of pool.now link r.tips r.oldest) }
    ensures memory { IsOkUnless result PoolError.Memory }
{
    let ids = pool.reach_from(link)?;
    match collected(pool, &ids) {
        Ok(reach) => Ok(reach),
        Err(_) => Err(PoolError::Memory),
    }
}
