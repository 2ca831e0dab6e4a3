//! Proofs of the operations of the side that has the full database.
ghost use Rattle.std.specs.Prelude.{◌≡◌, ℕ, Option, Some, None, Ok, IfOk, IfErr};
ghost use Rattle.std.specs.NonZero.{non_zero_u64_get};
ghost use Rattle.std.specs.Option.{option_map};
ghost use Rattle.volume_base.specs.Moments.{present};
ghost use Rattle.volume_base.specs.Volume.{Reads};
ghost use Rattle.log_model.specs.Machine.{State};
ghost use Rattle.log_model.specs.declared.refusal.Refusal.{Refusal};
ghost use Rattle.chain_core.specs.Answers.{IsOutside};
ghost use Rattle.keyless_db.specs.Reading.{late_refusal};
ghost use Rattle.command_text.specs.declared.command.Answer.TheVariants as answer;
ghost use Rattle.list_machine.specs.Config.{Config};
ghost use Rattle.list_machine.specs.Operation.{Operation};
ghost use Rattle.list_machine.specs.Step.{prove};
ghost use Rattle.twin_batches.specs.StateOf.{StandsGood};
ghost use Rattle.twin_databases.specs.FullKind.{full_kind};
ghost use Rattle.twin_side.specs.Proving.{known_refusal, says_no_commit, shown};

use crate::encoded_proof::proof_answer;
use crate::side::Side;
use chain_core::Error;
use command_text::{Answer, Refusal};
use list_machine::Operation;
use std::num::NonZeroU64;
use tree_proof::Proof;
use tree_shape::{Location, Mmr, Sha256Digest};
use twin_databases::Full;
use volume_base::Volume;

/// Why nothing is proved in the first `s` of a log of so many operations, as far as its size and its start tell.
fn known_refusal(start: u64, size: u64, s: u64) -> Option<Refusal>
    ensures { result ≡ known_refusal start size s }
{
    if s == 0 || s > size {
        return Some(Refusal::RangeOutOfBounds(s));
    }
    if s - 1 < start {
        return Some(Refusal::ItemPruned(s - 1));
    }
    None
}

/// Why operations from `a` on aren't proved in the first `s`, which a commit ends.
fn late_refusal(start: u64, s: u64, a: u64) -> Option<Refusal>
    ensures { result ≡ late_refusal start s a }
{
    if a >= s {
        return Some(Refusal::RangeOutOfBounds(a));
    }
    if a < start {
        return Some(Refusal::ItemPruned(a));
    }
    None
}

/// Whether an error says that no commit ends a size.
fn says_no_commit(error: &Error<Mmr>) -> bool
    ensures { result ≡ says_no_commit error.now }
{
    matches!(error, Error::HistoricalFloorPruned(_))
}

impl Side<Full> {
    /// The proof of the operations from `a` on, at most `n`, in the first `s` of the log, and these operations; nothing
    /// where no commit ends the first `s`. Nothing else refuses it.
    fn shown<V: Volume>(
        &self,
        volume: &mut V,
        s: u64,
        a: u64,
        n: NonZeroU64,
    ) -> Result<Option<(Proof<Mmr, Sha256Digest>, Vec<Operation>)>, Error<Mmr>>
        requires known { known_refusal self.now.db.journal.items.start self.now.db.state.size s ≡ None }
        requires late { late_refusal self.now.db.journal.items.start s a ≡ None }
        ensures shown { IfOk result (λ found. V.tells → (c : Config) (state : State Operation) →
            StandsGood full_kind c (present (V.state volume.old)) self.now.db self.now.numbers state →
            option_map (λ made. (made.0, made.1.items)) found ≡ shown state.ops s a (non_zero_u64_get n)) }
        ensures errors { IfErr result (λ e. V.tells → (c : Config) (state : State Operation) →
            StandsGood full_kind c (present (V.state volume.old)) self.now.db self.now.numbers state → IsOutside e) }
        ensures reads { Reads V.tells Error.Volume (V.state volume.old) (V.state volume.new) result }
    {
        match self
            .db
            .historical_proof(volume, Location::new(s), Location::new(a), n)
        {
            Ok(made) => Ok(Some(made)),
            Err(error) => {
                if says_no_commit(&error) {
                    return Ok(None);
                }
                Err(error)
            }
        }
    }

    /// The answer to a proof that nothing refuses but that no commit ends the first `s`.
    fn proved<V: Volume>(
        &self,
        volume: &mut V,
        s: u64,
        a: u64,
        n: NonZeroU64,
    ) -> Result<Answer, Error<Mmr>>
        requires known { known_refusal self.now.db.journal.items.start self.now.db.state.size s ≡ None }
        requires late { late_refusal self.now.db.journal.items.start s a ≡ None }
        ensures ok { IfOk result (λ made. V.tells → (c : Config) (state : State Operation) →
            StandsGood full_kind c (present (V.state volume.old)) self.now.db self.now.numbers state →
            made ≡ (prove state s a (non_zero_u64_get n)).0) }
        ensures errors { IfErr result (λ e. V.tells → (c : Config) (state : State Operation) →
            StandsGood full_kind c (present (V.state volume.old)) self.now.db self.now.numbers state → IsOutside e) }
        ensures reads { Reads V.tells Error.Volume (V.state volume.old) (V.state volume.new) result }
    {
        match self.shown(volume, s, a, n) {
            Ok(Some((proof, operations))) => {
                proof_answer(*operations.allocator(), proof, a, &operations)
            }
            Ok(None) => Ok(Answer::Refused(Refusal::HistoricalFloorPruned(s))),
            Err(error) => Err(error),
        }
    }

    /// The answer to a proof whose first operation is refused: that refusal, unless no commit ends the first `s`, which
    /// a proof of the last of them tells.
    fn refused_late<V: Volume>(
        &self,
        volume: &mut V,
        s: u64,
        refusal: Refusal,
    ) -> Result<Answer, Error<Mmr>>
        requires { known_refusal self.now.db.journal.items.start self.now.db.state.size s ≡ None }
        ensures ok { IfOk result (λ made. V.tells → (c : Config) (state : State Operation) →
            StandsGood full_kind c (present (V.state volume.old)) self.now.db self.now.numbers state →
            (a count : ℕ) →
            late_refusal self.now.db.journal.items.start s a ≡ Some refusal → made ≡ (prove state s a count).0) }
        ensures errors { IfErr result (λ e. V.tells → (c : Config) (state : State Operation) →
            StandsGood full_kind c (present (V.state volume.old)) self.now.db self.now.numbers state → IsOutside e) }
        ensures reads { Reads V.tells Error.Volume (V.state volume.old) (V.state volume.new) result }
    {
        match self.shown(volume, s, s - 1, NonZeroU64::MIN) {
            Ok(Some(_)) => Ok(Answer::Refused(refusal)),
            Ok(None) => Ok(Answer::Refused(Refusal::HistoricalFloorPruned(s))),
            Err(error) => Err(error),
        }
    }

    /// The proof of the operations from `a` on, at most `n`, in the first `s` of the log, with their encodings. It
    /// refuses, in this order: a size of 0 or past the end, one whose last operation isn't kept, one that no commit
    /// ends, a location at or past the size, and one whose operation isn't kept.
    pub fn prove<V: Volume>(
        &self,
        volume: &mut V,
        s: u64,
        a: u64,
        n: NonZeroU64,
    ) -> Result<Answer, Error<Mmr>>
        ensures ok { IfOk result (λ made. V.tells → (c : Config) (state : State Operation) →
            StandsGood full_kind c (present (V.state volume.old)) self.now.db self.now.numbers state →
            made ≡ (prove state s a (non_zero_u64_get n)).0) }
        ensures errors { IfErr result (λ e. V.tells → (c : Config) (state : State Operation) →
            StandsGood full_kind c (present (V.state volume.old)) self.now.db self.now.numbers state → IsOutside e) }
        // Over any contents, what the size and the start alone tell to be refused is refused before any read.
        ensures known { let db = self.now.db in (why : Refusal) →
            known_refusal db.journal.items.start db.state.size s ≡ Some why →
            (result ≡ Ok (answer.Refused why)) × (volume.new ≡ volume.old) }
        ensures reads { Reads V.tells Error.Volume (V.state volume.old) (V.state volume.new) result }
    {
        let (start, size) = self.db.bounds();
        let (start, size) = (start.as_u64(), size.as_u64());
        if let Some(refusal) = known_refusal(start, size, s) {
            return Ok(Answer::Refused(refusal));
        }
        match late_refusal(start, s, a) {
            None => self.proved(volume, s, a, n),
            Some(refusal) => self.refused_late(volume, s, refusal),
        }
    }
}
