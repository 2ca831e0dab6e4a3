//! How the witness log of a compact database grows, and is opened by the first write after an import.
ghost use Rattle.std.specs.Prelude.{◌≡◌, ◌<◌, ◌-◌, ◌^◌, ◌++◌, ◌∷◌, [], ℕ, List, length, true, false, Ok, IsOk, IfOk, IfErr, OnOk, IsErrOf};
ghost use Rattle.journal_base.specs.Answers.{IsOfVolume, IsOfSize, RefusesUnwritten};
ghost use Rattle.journal_base.specs.Items.{Spells};
ghost use Rattle.journal_base.specs.View.{IsHeld, SameButBounds, log_of, left_of};
ghost use Rattle.volume_base.specs.Log.{end_of, no_log, Vanishes};
ghost use Rattle.volume_base.specs.Moments.{LogHas, LogKeeps};
ghost use Rattle.volume_base.specs.Volume.{OnlyLeft, LogCall, Writes};
ghost use Rattle.volume_base.specs.declared.error.JournalError.TheVariants as journal_error;
ghost use Rattle.witness_store.specs.StoreView.{HasWitnesses, IsRestarted};
ghost use Rattle.witness_store.specs.Witness.{IsAllowed, text_of};
ghost use Rattle.witness_store.specs.Witnesses.{witnesses_of, Keeps, LastIsBelow};
ghost use Rattle.compact_db.specs.DbView.{seen_log, waits, is_uncommitted};
ghost use Rattle.compact_db.specs.Writing.{place_in, written_log, Extends, Settles};

use crate::WitnessLog;
use tree_core::{Digest, Family};
use volume_base::{JournalError, Volume};
use witness_store::{Store, Witness};

/// The log with one more witness. Where an import waits, the log is made with this witness alone. It refuses with
/// `SizeOverflow` where its end would pass 2^64 - 1.
pub(crate) fn extended<F: Family, D: Digest, V: Volume>(
    log: WitnessLog<F, D>,
    vol: &mut V,
    witness: &Witness<F, D>,
) -> Result<Store<F, D>, JournalError>
    ensures short { OnOk result (length witness.now.op_bytes < 2 ^ 64) }
    ensures same { IfOk result (λ made. SameButBounds (seen_log log) made.log × (made.uncommitted ≡ true)) }
    ensures held { IfOk result (λ made. V.tells → IsHeld made.log (V.state vol.new)) }
    ensures overflow { V.tells → IsErrOf result journal_error.SizeOverflow →
        end_of (log_of (seen_log log) (V.state vol.old)) ≡ 2 ^ 64 - 1 }
    ensures fits { OnOk result (V.tells → end_of (log_of (seen_log log) (V.state vol.old)) < 2 ^ 64 - 1) }
    ensures written { OnOk result (V.tells →
        log_of (seen_log log) (V.state vol.new) ≡ written_log D.spelling log witness.now (V.state vol.old)) }
    // An open log keeps the witness behind those that it kept.
    ensures keeps { waits log ≡ false → OnOk result (V.tells → IsHeld (seen_log log) (V.state vol.old) →
        (ws : List (Witness F D)) → Keeps (witnesses_of D.spelling (D.admits tt) (seen_log log) (V.state vol.old)) ws →
        IsAllowed (D.admits tt) witness.now → LastIsBelow ws (seen_log log).start witness.now.size →
        Keeps (witnesses_of D.spelling (D.admits tt) (seen_log log) (V.state vol.new)) (ws ++ witness.now ∷ [])) }
    // One that is made keeps it behind any others.
    ensures begins { waits log ≡ true → OnOk result (V.tells → (ws : List (Witness F D)) →
        length ws ≡ place_in log (V.state vol.old) → IsAllowed (D.admits tt) witness.now →
        Keeps (witnesses_of D.spelling (D.admits tt) (seen_log log) (V.state vol.new)) (ws ++ witness.now ∷ [])) }
    ensures log { V.tells → LogCall (seen_log log).name (Extends D.spelling log witness.now (V.state vol.old))
        (V.state vol.old) (V.state vol.new) }
    // At each moment a crash leaves of an open log a part of the longer list, within the bounds of before.
    ensures images { waits log ≡ false → V.tells → (ws : List (Witness F D)) (greatest least : ℕ) →
        Spells (text_of D.spelling) ws (log_of (seen_log log) (V.state vol.old)) →
        LogHas (V.state vol.old) (seen_log log).name (HasWitnesses D.spelling ws greatest least) →
        LogKeeps (seen_log log).name (HasWitnesses D.spelling (ws ++ witness.now ∷ []) greatest least) (V.state vol.old)
        (V.state vol.new) }
    // Of one that is made none of before is left.
    ensures left { waits log ≡ true → OnOk result (V.tells → LogHas (V.state vol.new) (seen_log log).name
        (IsRestarted (place_in log (V.state vol.old)) (text_of D.spelling witness.now))) }
    ensures refused { V.tells → RefusesUnwritten (V.state vol.old) (V.state vol.new) result }
    ensures errors { IfErr result IsOfSize }
    ensures writes { Writes V.tells journal_error.Volume (V.state vol.old) (V.state vol.new) result }
{
    // Its length tells that it is one of 64 bits.
    let _short = witness.op_bytes.len();
    match log {
        WitnessLog::Open(store) => store.append(vol, witness),
        WitnessLog::Import(cfg) => Store::write_import(vol, cfg, witness),
    }
}

/// The log, open. Where an import waits, it is made with this witness. It refuses with `SizeOverflow` where the log's
/// end is then 2^64 - 1.
pub(crate) fn opened<F: Family, D: Digest, V: Volume>(
    log: WitnessLog<F, D>,
    vol: &mut V,
    tip: &Witness<F, D>,
) -> Result<Store<F, D>, JournalError>
    ensures idle { waits log ≡ false → IsOk result × (vol.new ≡ vol.old) }
    ensures same_log { waits log ≡ false →
        IfOk result (λ made. (made.log ≡ seen_log log) × (made.uncommitted ≡ is_uncommitted log)) }
    ensures made { waits log ≡ true → IfOk result (λ made. made.uncommitted ≡ true) }
    ensures short { waits log ≡ true → OnOk result (length tip.now.op_bytes < 2 ^ 64) }
    ensures same { IfOk result (λ made. SameButBounds (seen_log log) made.log) }
    ensures held { waits log ≡ true → IfOk result (λ made. V.tells → IsHeld made.log (V.state vol.new)) }
    ensures overflow { V.tells → IsErrOf result journal_error.SizeOverflow →
        (waits log ≡ true) × (end_of (log_of (seen_log log) (V.state vol.old)) ≡ 2 ^ 64 - 1) }
    ensures fits { waits log ≡ true →
        OnOk result (V.tells → end_of (log_of (seen_log log) (V.state vol.old)) < 2 ^ 64 - 1) }
    ensures written { waits log ≡ true → OnOk result (V.tells →
        log_of (seen_log log) (V.state vol.new) ≡ written_log D.spelling log tip.now (V.state vol.old)) }
    ensures begins { waits log ≡ true → OnOk result (V.tells → (ws : List (Witness F D)) →
        length ws ≡ place_in log (V.state vol.old) → IsAllowed (D.admits tt) tip.now →
        Keeps (witnesses_of D.spelling (D.admits tt) (seen_log log) (V.state vol.new)) (ws ++ tip.now ∷ [])) }
    ensures log { V.tells → LogCall (seen_log log).name (Settles D.spelling log tip.now (V.state vol.old))
        (V.state vol.old) (V.state vol.new) }
    ensures left { waits log ≡ true → OnOk result (V.tells → LogHas (V.state vol.new) (seen_log log).name
        (IsRestarted (place_in log (V.state vol.old)) (text_of D.spelling tip.now))) }
    ensures refused { V.tells → RefusesUnwritten (V.state vol.old) (V.state vol.new) result }
    ensures errors { IfErr result IsOfSize }
    ensures writes { Writes V.tells journal_error.Volume (V.state vol.old) (V.state vol.new) result }
{
    // Its length tells that it is one of 64 bits.
    let _short = tip.op_bytes.len();
    match log {
        WitnessLog::Open(store) => Ok(store),
        WitnessLog::Import(cfg) => Store::write_import(vol, cfg, tip),
    }
}

/// Takes the log away; where an import waits, what stands in its place.
pub(crate) fn removed<F: Family, D: Digest, V: Volume>(
    log: WitnessLog<F, D>,
    vol: &mut V,
) -> Result<(), JournalError>
    ensures removed { OnOk result (V.tells → log_of (seen_log log) (V.state vol.new) ≡ no_log) }
    ensures durable { OnOk result (V.tells → OnlyLeft (left_of (seen_log log) (V.state vol.new)) no_log) }
    ensures log { V.tells → LogCall (seen_log log).name Vanishes (V.state vol.old) (V.state vol.new) }
    ensures errors { IfErr result IsOfVolume }
    ensures writes { Writes V.tells journal_error.Volume (V.state vol.old) (V.state vol.new) result }
{
    match log {
        WitnessLog::Open(store) => store.destroy(vol),
        WitnessLog::Import(cfg) => {
            vol.log_remove(cfg.name.as_str())?;
            Ok(())
        }
    }
}
