//! How a compact database begins in an empty log: with the witness of the first commit.
ghost use Rattle.std.specs.Prelude.{◌≡◌, ◌⊎◌, ◌<◌, ◌^◌, ◌∷◌, [], ℕ, length, false, Option, Some, IfOk, IfErr, OnOk, IsOkUnless};
ghost use Rattle.codec_base.specs.Parts.{whole};
ghost use Rattle.journal_base.specs.Answers.{IsOfVolume, IsOfStart, IsOfSize};
ghost use Rattle.journal_base.specs.View.{seen_of, log_of, SameButBounds, IsHeld, IsDurable};
ghost use Rattle.volume_base.specs.Log.{no_log, appended};
ghost use Rattle.volume_base.specs.Volume.{LogCall, Writes};
ghost use Rattle.volume_base.specs.declared.error.JournalError.TheVariants as journal_error;
ghost use Rattle.merkle_compact.specs.Frontier.{IsFrontier};
ghost use Rattle.witness_store.specs.Witness.{text_of, IsAllowed};
ghost use Rattle.witness_store.specs.Witnesses.{Keeps};
ghost use Rattle.compact_db.specs.Opening.{witnesses_in, BeginsWith, Opens};
ghost use Rattle.compact_db.specs.StateOf.{IsStateOf};

use crate::rebuilding::{Rebuilt, restored};
use crate::{CompactDb, CompactOperation, WitnessLog};
use chain_core::Error;
use codec_base::encode;
use journal_base::Recovery;
use std::alloc::Global;
use tree_core::{Digest, Family, Hasher, Location};
use volume_base::{JournalError, Volume};
use witness_store::{Store, Witness};

/// The state of a list of one commit, whose floor is 0. It refuses with `Memory` alone.
fn first_state<F: Family, O: CompactOperation, H: Hasher>(
    alloc: Global,
    commit: O,
) -> Result<Rebuilt<F, O, H::Digest>, Error<F>>
    requires floored { O.meaning.floor commit ≡ Some 0 }
    ensures commit { IfOk result (λ r. r.commit ≡ commit) }
    ensures leaves { IfOk result (λ r. r.merkle.leaves ≡ 1) }
    ensures size { IfOk result (λ r. r.tip.witness.size ≡ 1) }
    ensures frontier { IfOk result (λ r. IsFrontier F.shape r.merkle) }
    ensures list { IfOk result (λ r.
        IsStateOf F.shape H.hash O.meaning (commit ∷ []) r.tip r.merkle commit) }
    ensures memory { IsOkUnless result Error.Memory }
{
    let Ok(op_bytes) = encode(alloc, &commit) else {
        return Err(Error::Memory);
    };
    let (tip, merkle) = restored::<F, H>(alloc, 0, Vec::new(alloc), op_bytes, Location::new(0))?;
    Ok(Rebuilt {
        tip,
        merkle,
        commit,
    })
}

/// An empty log at 0 with its first witness, which is made durable.
fn first_kept<F: Family, D: Digest, V: Volume>(
    recovery: Recovery<Witness<F, D>>,
    vol: &mut V,
    witness: &Witness<F, D>,
) -> Result<Store<F, D>, JournalError>
    requires empty { V.tells → log_of (seen_of recovery) (V.state vol.old) ≡ no_log }
    requires fresh { (seen_of recovery).failed ≡ false }
    ensures short { OnOk result (length witness.now.op_bytes < 2 ^ 64) }
    ensures made { IfOk result (λ made. SameButBounds (seen_of recovery) made.log × (made.uncommitted ≡ false)) }
    ensures held { IfOk result (λ made. V.tells → IsHeld made.log (V.state vol.new)) }
    ensures written { OnOk result (V.tells → log_of (seen_of recovery) (V.state vol.new)
        ≡ appended no_log (text_of D.spelling witness.now ∷ [])) }
    ensures keeps { OnOk result (V.tells → IsAllowed (D.admits tt) witness.now →
        Keeps (witnesses_in D.spelling (D.admits tt) (log_of (seen_of recovery) (V.state vol.new)))
        (witness.now ∷ [])) }
    ensures durable { OnOk result (V.tells → IsDurable (seen_of recovery) (V.state vol.new)) }
    ensures log { V.tells → LogCall (seen_of recovery).name (BeginsWith (text_of D.spelling witness.now))
        (V.state vol.old) (V.state vol.new) }
    ensures errors { V.tells → IfErr result IsOfVolume }
    ensures any { IfErr result (λ e. IsOfStart e ⊎ IsOfSize e) }
    ensures writes { Writes V.tells journal_error.Volume (V.state vol.old) (V.state vol.new) result }
{
    // Its length tells that it is one of 64 bits.
    let _short = witness.op_bytes.len();
    let store = Store::open(recovery, vol, 0)?;
    let store = store.append(vol, witness)?;
    store.sync(vol)
}

impl<F: Family, O: CompactOperation, H: Hasher> CompactDb<F, O, H> {
    /// The database of the first commit alone, whose witness an empty log at 0 gets.
    pub(crate) fn begun<V: Volume>(
        alloc: Global,
        vol: &mut V,
        recovery: Recovery<Witness<F, H::Digest>>,
        codec: O::Cfg,
    ) -> Result<Self, Error<F>>
        requires empty { V.tells → log_of (seen_of recovery) (V.state vol.old) ≡ no_log }
        requires fresh { (seen_of recovery).failed ≡ false }
        ensures codec { IfOk result (λ db. db.codec ≡ codec) }
        ensures opens { (cap : Option ℕ) → Opens F.shape H.hash O.meaning H.Digest.spelling (H.Digest.admits tt)
            (λ bytes. whole (O.reads codec bytes)) (O.admits codec) (seen_of recovery) cap V.tells
            (V.state vol.old) (V.state vol.new) result }
    {
        let first = first_state::<F, O, H>(alloc, O::commit(None, 0))?;
        let Rebuilt {
            tip,
            merkle,
            commit,
        } = first;
        let store = first_kept(recovery, vol, &tip.witness)?;
        Ok(CompactDb {
            alloc,
            log: WitnessLog::Open(store),
            tip,
            merkle,
            last_commit: commit,
            codec,
        })
    }
}
