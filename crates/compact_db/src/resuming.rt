//! How a compact database is opened at a witness that its log has.
ghost use Rattle.std.specs.Prelude.{◌≡◌, ◌⊎◌, ◌<◌, ℕ, false, Some, IfOk, IfErr};
ghost use Rattle.codec_base.specs.Parts.{whole};
ghost use Rattle.journal_base.specs.Answers.{IsOfRead};
ghost use Rattle.journal_base.specs.View.{seen_of, log_of, IsHeld};
ghost use Rattle.volume_base.specs.Volume.{Reads};
ghost use Rattle.volume_base.specs.declared.error.JournalError.{JournalError};
ghost use Rattle.chain_core.specs.Errors.{from_journal};
ghost use Rattle.chain_core.specs.declared.error.Error.TheVariants as error;
ghost use Rattle.compact_db.specs.Opening.{witnesses_in, IsChosen, WhyNoneChosen, Opens};

use crate::rebuilding::{Rebuilt, rebuild};
use crate::{CompactDb, CompactOperation, WitnessLog};
use chain_core::Error;
use journal_base::Recovery;
use std::alloc::Global;
use tree_core::{Digest, Family, Hasher, Location};
use volume_base::Volume;
use witness_store::{Store, Witness, select};

/// The number of a cap, if there is one.
fn number_of<F: Family>(cap: &Option<Location<F>>) -> u64
    ensures { (number : ℕ) → cap.now ≡ Some number → result ≡ number }
{
    match cap {
        Some(cap) => cap.as_u64(),
        None => 0,
    }
}

/// The witness that is selected under a cap, and the end behind it. It refuses with `HistoricalFloorPruned` where the
/// first witness is above the cap.
fn chosen<F: Family, D: Digest, V: Volume>(
    recovery: &Recovery<Witness<F, D>>,
    vol: &mut V,
    cap: Option<Location<F>>,
) -> Result<(u64, Witness<F, D>), Error<F>>
    requires some { (seen_of recovery.now).start < (seen_of recovery.now).end }
    requires held { V.tells → IsHeld (seen_of recovery.now) (V.state vol.old) }
    ensures chosen { let log = log_of (seen_of recovery.now) (V.state vol.old) in
        IfOk result (λ s. V.tells → IsChosen (witnesses_in D.spelling (D.admits tt) log) cap (Some (s.0, s.1))) }
    ensures refused { let log = log_of (seen_of recovery.now) (V.state vol.old) in
        V.tells → IfErr result (WhyNoneChosen (witnesses_in {F = F} D.spelling (D.admits tt) log) cap) }
    ensures errors { IfErr result (λ e. ((p : ℕ) × (cap ≡ Some p) × (e ≡ error.HistoricalFloorPruned p))
        ⊎ ((cause : JournalError) × IsOfRead cause × (e ≡ from_journal cause))) }
    ensures answers { Reads V.tells error.Volume (V.state vol.old) (V.state vol.new) result }
{
    let number = number_of(&cap);
    match select(recovery, vol, cap)? {
        Some(found) => Ok(found),
        None => Err(Error::HistoricalFloorPruned(Location::new(number))),
    }
}

impl<F: Family, O: CompactOperation, H: Hasher> CompactDb<F, O, H> {
    /// The database at the witness that is selected under a cap, of a log that isn't empty. The witness is verified
    /// before newer ones are cut off. It refuses as `chosen`, and as `rebuild`.
    pub(crate) fn resumed<V: Volume>(
        alloc: Global,
        vol: &mut V,
        recovery: Recovery<Witness<F, H::Digest>>,
        codec: O::Cfg,
        cap: Option<Location<F>>,
    ) -> Result<Self, Error<F>>
        requires some { (seen_of recovery).start < (seen_of recovery).end }
        requires held { V.tells → IsHeld (seen_of recovery) (V.state vol.old) }
        requires fresh { (seen_of recovery).failed ≡ false }
        ensures codec { IfOk result (λ db. db.codec ≡ codec) }
        ensures opens { Opens F.shape H.hash O.meaning H.Digest.spelling (H.Digest.admits tt)
            (λ bytes. whole (O.reads codec bytes)) (O.admits codec) (seen_of recovery) cap V.tells
            (V.state vol.old) (V.state vol.new) result }
    {
        let (end, witness) = chosen(&recovery, vol, cap)?;
        let rebuilt = rebuild::<F, O, H>(alloc, &codec, witness)?;
        let store = Store::open(recovery, vol, end)?;
        let Rebuilt {
            tip,
            merkle,
            commit,
        } = rebuilt;
        Ok(CompactDb {
            alloc,
            log: WitnessLog::Open(store),
            tip,
            merkle,
            last_commit: commit,
            codec,
        })
    }
}
