//! Where the witness of a state is kept.
ghost use Rattle.std.specs.Prelude.{◌≡◌, ◌-◌, ℕ, List, true, false, None, Ok, IfOk, IfErr, IfSome};
ghost use Rattle.journal_base.specs.View.{IsHeld, IsWithin};
ghost use Rattle.volume_base.specs.Volume.{Reads};
ghost use Rattle.chain_core.specs.Answers.{IsOutside};
ghost use Rattle.chain_core.specs.declared.error.Error.TheVariants as error;
ghost use Rattle.witness_store.specs.Searched.{IsWitnessAt, LooksFew};
ghost use Rattle.witness_store.specs.Witnesses.{witnesses_of, Keeps, IsKept};
ghost use Rattle.compact_db.specs.DbView.{seen_log, waits};
ghost use Rattle.compact_db.specs.Held.{IsHeldFor};
ghost use Rattle.compact_db.specs.Serving.{IsKeptAt, IsLogFault};

use crate::{CompactDb, CompactOperation, WitnessLog};
use chain_core::Error;
use tree_core::{Digest, Family, Hasher, Location};
use volume_base::Volume;
use witness_store::Witness;

/// The kept witness of exactly so many operations, and its position; nothing where none is kept, and while an import
/// waits. It searches by halving.
pub(crate) fn kept_at<F: Family, D: Digest, V: Volume>(
    log: &WitnessLog<F, D>,
    vol: &mut V,
    size: Location<F>,
) -> Result<Option<(u64, Witness<F, D>)>, Error<F>>
    ensures waiting { waits log.now ≡ true → (result ≡ Ok None) × (vol.new ≡ vol.old) }
    ensures stands { let items = witnesses_of D.spelling (D.admits tt) (seen_log log.now) (V.state vol.old) in
        IfOk result (λ found. V.tells → IsWithin (seen_log log.now) (V.state vol.old) →
        IfSome found (λ s. IsWitnessAt items s.0 s.1 × (s.1.size ≡ size))) }
    ensures kept { let items = witnesses_of D.spelling (D.admits tt) (seen_log log.now) (V.state vol.old) in
        IfOk result (λ found. waits log.now ≡ false → V.tells → IsHeld (seen_log log.now) (V.state vol.old) →
        (ws : List (Witness F D)) → Keeps items ws → IsKept ws (seen_log log.now).start size found) }
    ensures fault { let items = witnesses_of {F = F} D.spelling (D.admits tt) (seen_log log.now) (V.state vol.old) in
        IfErr result (IsLogFault V.tells (IsWithin (seen_log log.now) (V.state vol.old)) items) }
    ensures answers { Reads V.tells error.Volume (V.state vol.old) (V.state vol.new) result }
    ensures few { let log = seen_log log.now in LooksFew (log.end - log.start) (V.state vol.old) (V.state vol.new) }
{
    match log {
        WitnessLog::Open(store) => match store.place_at(vol, size) {
            Ok(found) => Ok(found),
            Err(error) => Err(Error::from(error)),
        },
        WitnessLog::Import(_) => Ok(None),
    }
}

impl<F: Family, O: CompactOperation, H: Hasher> CompactDb<F, O, H> {
    /// The position of the kept witness of exactly so many operations; none where no such witness is kept, and while an
    /// import waits. It searches by halving.
    pub fn retained_position<V: Volume>(
        &self,
        vol: &mut V,
        size: Location<F>,
    ) -> Result<Option<u64>, Error<F>>
        ensures waiting { waits self.now.log ≡ true → (result ≡ Ok None) × (vol.new ≡ vol.old) }
        // On any contents a witness of this size stands where it is found.
        ensures stands { let view = seen_log self.now.log in
            let items = witnesses_of H.Digest.spelling (H.Digest.admits tt) view (V.state vol.old) in
            IfOk result (λ place. V.tells → IsWithin view (V.state vol.old) →
            IfSome place (λ p. (w : Witness F H.Digest) × IsWitnessAt items p w × (w.size ≡ size))) }
        ensures kept { IfOk result (λ place. V.tells → (ops : List O) (sizes : List ℕ) →
            IsHeldFor F.shape H.hash O.meaning H.Digest.spelling (H.Digest.admits tt) ops sizes self.now
            (V.state vol.old) →
            IsKeptAt sizes (seen_log self.now.log).start size place) }
        // Where the witnesses of a list are held, it fails by the volume or for want of memory alone.
        ensures held { IfErr result (λ e. V.tells → (ops : List O) (sizes : List ℕ) →
            IsHeldFor F.shape H.hash O.meaning H.Digest.spelling (H.Digest.admits tt) ops sizes self.now
            (V.state vol.old) →
            IsOutside e) }
        ensures fault { let view = seen_log self.now.log in
            let items = witnesses_of {F = F} H.Digest.spelling (H.Digest.admits tt) view (V.state vol.old) in
            IfErr result (IsLogFault V.tells (IsWithin view (V.state vol.old)) items) }
        ensures answers { Reads V.tells Error.Volume (V.state vol.old) (V.state vol.new) result }
        ensures few { let log = seen_log self.now.log in
            LooksFew (log.end - log.start) (V.state vol.old) (V.state vol.new) }
    {
        match kept_at(&self.log, vol, size) {
            Ok(Some((position, _))) => Ok(Some(position)),
            Ok(None) => Ok(None),
            Err(error) => Err(error),
        }
    }
}
