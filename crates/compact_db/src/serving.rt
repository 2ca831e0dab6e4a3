//! What a compact database serves: the kept states, their commits and the proofs of these.
ghost use Rattle.std.specs.Prelude.{◌≡◌, ◌≢◌, ◌⊎◌, ◌<◌, ◌-◌, ℕ, List, [], drop, take, true, false, Some, Ok, Err, slice_get, IsOk, IfOk, IfErr, IsOkUnless};
ghost use Rattle.codec_base.specs.Parts.{whole};
ghost use Rattle.journal_base.specs.View.{IsWithin};
ghost use Rattle.volume_base.specs.Volume.{Reads};
ghost use Rattle.volume_base.specs.declared.error.JournalError.TheVariants as journal_error;
ghost use Rattle.chain_core.specs.Answers.{IsOutside};
ghost use Rattle.target_codec.specs.Request.{size_of, start_of};
ghost use Rattle.witness_store.specs.Searched.{LooksFew};
ghost use Rattle.witness_store.specs.Witnesses.{witnesses_of};
ghost use Rattle.compact_db.specs.DbView.{seen_log, waits};
ghost use Rattle.compact_db.specs.Held.{IsHeldFor};
ghost use Rattle.compact_db.specs.Pinned.{ProvesCommit};
ghost use Rattle.compact_db.specs.Rebuild.{rebuild_answer};
ghost use Rattle.compact_db.specs.Serving.{has_size, is_kept, kept_answer, serve_answer, response_to, AnswersAs, IsDamaged, IsLogFault, IsRebuiltAt};
ghost use Rattle.compact_db.specs.StateOf.{verified_of};
ghost use Rattle.compact_db.specs.Verified.{IsShownOf};
ghost use Rattle.compact_db.specs.WitnessOf.{witness_of};

use crate::places::kept_at;
use crate::rebuilding::shown_of;
use crate::verified::Shown;
use crate::{CompactDb, CompactOperation, VerifiedWitness};
use chain_core::Error;
use codec_base::{Duplicate, ListOf};
use op_codec::{Request, Response};
use std::alloc::Global;
use tree_core::{Digest, Family, Hasher, Location, Proof};
use volume_base::{JournalError, Volume};

/// Whether the commit of a state is asked for, where the last state has `tip` operations.
fn check_request<F: Family>(tip: u64, request: &Request<F>) -> Result<(), Error<F>>
    ensures { result ≡ serve_answer tip (size_of request.now) (start_of request.now) true }
{
    let size = request.size().as_u64();
    let start = request.start().as_u64();
    if size == 0 || size > tip {
        let outside = tree_core::Error::RangeOutOfBounds(Location::new(size));
        return Err(Error::Merkle(outside));
    }
    if start >= size {
        let outside = tree_core::Error::RangeOutOfBounds(Location::new(start));
        return Err(Error::Merkle(outside));
    }
    if start < size - 1 {
        return Err(Error::Journal(JournalError::ItemPruned(start)));
    }
    Ok(())
}

/// The answer to a request of a state with this proof and these pins, and of its commit.
fn response<F: Family, O: CompactOperation, D: Digest>(
    alloc: Global,
    request: &Request<F>,
    proof: Proof<F, D>,
    pinned_nodes: ListOf<D>,
    commit: O,
) -> Result<Response<F, O, D>, Error<F>>
    ensures response { IfOk result (λ r. (v : VerifiedWitness F D) → proof ≡ v.proof →
        pinned_nodes ≡ v.witness.pinned_nodes → r ≡ response_to request.now v commit) }
    ensures memory { IsOkUnless result Error.Memory }
{
    match request {
        Request::Operations { .. } => {
            let mut operations = ListOf::new(alloc);
            let Ok(()) = operations.push(commit) else {
                return Err(Error::Memory);
            };
            Ok(Response::Operations { proof, operations })
        }
        Request::Boundary { .. } => Ok(Response::Boundary {
            proof,
            op: commit,
            pinned_nodes,
        }),
    }
}

/// A copy of a proof.
fn copied<F: Family, D: Digest>(proof: &Proof<F, D>) -> Result<Proof<F, D>, Error<F>>
    ensures same { IfOk result (λ copy. copy ≡ proof.now) }
    ensures memory { IsOkUnless result Error.Memory }
{
    let Ok(digests) = proof.digests.duplicate() else {
        return Err(Error::Memory);
    };
    Ok(Proof {
        leaves: Location::new(proof.leaves.as_u64()),
        inactive_peaks: proof.inactive_peaks,
        digests,
    })
}

impl<F: Family, O: CompactOperation, H: Hasher> CompactDb<F, O, H> {
    /// What is shown of the kept state of exactly so many operations, and its commit. It refuses with
    /// `Journal(ItemPruned)` of its commit where no such witness is kept, and while an import waits; with a fault of
    /// the log; or as `rebuild` does.
    fn state_at<V: Volume>(
        &self,
        vol: &mut V,
        size: u64,
    ) -> Result<(Shown<F, H::Digest>, O), Error<F>>
        requires { 0 < size }
        ensures waiting { waits self.now.log ≡ true →
            (result ≡ Err (Error.Journal (journal_error.ItemPruned (size - 1)))) × (vol.new ≡ vol.old) }
        ensures kept { V.tells → (ops : List O) (sizes : List ℕ) →
            IsHeldFor F.shape H.hash O.meaning H.Digest.spelling (H.Digest.admits tt) ops sizes self.now
            (V.state vol.old) →
            AnswersAs (kept_answer size (has_size (drop (seen_log self.now.log).start sizes) size))
            (rebuild_answer {F = F} F.shape O.meaning (λ bytes. whole (O.reads self.now.codec bytes))
            (witness_of F.shape H.hash O.meaning ops size)) result }
        // It answers only where the list's witness of this size rebuilds.
        ensures rebuilds { IfOk result (λ r. V.tells → (ops : List O) (sizes : List ℕ) →
            IsHeldFor F.shape H.hash O.meaning H.Digest.spelling (H.Digest.admits tt) ops sizes self.now
            (V.state vol.old) →
            IsOk (rebuild_answer {F = F} F.shape O.meaning (λ bytes. whole (O.reads self.now.codec bytes))
            (witness_of F.shape H.hash O.meaning ops size))) }
        // On any contents it is what a witness of this size, which stands in the log, rebuilds.
        ensures rebuilt { let view = seen_log self.now.log in
            let items = witnesses_of {F = F} H.Digest.spelling (H.Digest.admits tt) view (V.state vol.old) in
            IfOk result (λ r. V.tells → IsWithin view (V.state vol.old) →
            (v : VerifiedWitness F H.Digest) → v.witness ≡ r.0.witness →
            IsRebuiltAt F.shape O.meaning (λ bytes. whole (O.reads self.now.codec bytes)) items size v r.1) }
        // On any contents its proof is of that witness's commit, by the witness's pins.
        ensures proof { IfOk result (λ r. (floor : ℕ) → O.meaning.floor r.1 ≡ Some floor →
            ProvesCommit F.shape H.hash r.0.witness floor r.0.proof) }
        ensures list { IfOk result (λ r. V.tells → (ops : List O) (sizes : List ℕ) →
            IsHeldFor F.shape H.hash O.meaning H.Digest.spelling (H.Digest.admits tt) ops sizes self.now
            (V.state vol.old) →
            ((op : O) → slice_get ops (size - 1) ≡ Some op → O.admits self.now.codec op) →
            IsShownOf r.0.witness r.0.proof (verified_of F.shape H.hash O.meaning (take size ops))
            × (slice_get ops (size - 1) ≡ Some r.1)) }
        ensures errors { let view = seen_log self.now.log in
            let within = IsWithin view (V.state vol.old) in
            let items = witnesses_of {F = F} H.Digest.spelling (H.Digest.admits tt) view (V.state vol.old) in
            IfErr result (λ e. (kept_answer size false ≡ Err e) ⊎ (IsOutside e ⊎ (IsLogFault V.tells within items e ⊎
            IsDamaged F.shape O.meaning (λ bytes. whole (O.reads self.now.codec bytes)) V.tells within items size e))) }
        ensures answers { Reads V.tells Error.Volume (V.state vol.old) (V.state vol.new) result }
        ensures few { let log = seen_log self.now.log in
            LooksFew (log.end - log.start) (V.state vol.old) (V.state vol.new) }
    {
        match kept_at(&self.log, vol, Location::new(size)) {
            Ok(Some((_, witness))) => shown_of::<F, O, H>(self.alloc, &self.codec, witness),
            Ok(None) => Err(Error::Journal(JournalError::ItemPruned(size - 1))),
            Err(error) => Err(error),
        }
    }

    /// The answer to a request of the last state, from memory.
    fn serve_tip(&self, request: &Request<F>) -> Result<Response<F, O, H::Digest>, Error<F>>
        ensures response { IfOk result (λ r. r ≡ response_to request.now self.now.tip self.now.commit) }
        ensures memory { IsOkUnless result Error.Memory }
    {
        let proof = copied(&self.tip.proof)?;
        let Ok(pins) = self.tip.witness.pinned_nodes.duplicate() else {
            return Err(Error::Memory);
        };
        let Ok(commit) = self.last_commit.duplicate() else {
            return Err(Error::Memory);
        };
        response(self.alloc, request, proof, pins, commit)
    }

    /// The commit of a kept state with its proof, and to a boundary request the nodes before it. Refuses, in this
    /// order: `Merkle(RangeOutOfBounds)` of a size past the last state's, or 0; `Merkle(RangeOutOfBounds)` of a start
    /// at or past the size; `Journal(ItemPruned)` of a start before the commit; `Journal(ItemPruned)` of the commit
    /// where no witness of the size is kept. While an import waits the imported state alone is kept. The last state
    /// is served from memory. Another is searched for by halving; where the bytes of a witness on the way are none it
    /// is `Journal(Corruption)`.
    pub fn serve<V: Volume>(
        &self,
        vol: &mut V,
        request: Request<F>,
    ) -> Result<Response<F, O, H::Digest>, Error<F>>
        ensures may { let last = self.now.tip.witness.size in
            IfOk result (λ r. serve_answer {F = F} last (size_of request) (start_of request) true ≡ Ok tt) }
        ensures refused { let last = self.now.tip.witness.size in
            (e : Error F) → serve_answer last (size_of request) (start_of request) true ≡ Err e →
            (result ≡ Err e) × (vol.new ≡ vol.old) }
        // The last state is served from memory.
        ensures tip { let last = self.now.tip.witness.size in
            serve_answer {F = F} last (size_of request) (start_of request) true ≡ Ok tt → size_of request ≡ last →
            (vol.new ≡ vol.old) × IsOkUnless result Error.Memory ×
            IfOk result (λ r. r ≡ response_to request self.now.tip self.now.commit) }
        ensures waiting { waits self.now.log ≡ true → let last = self.now.tip.witness.size in
            let kept = is_kept last [] (size_of request) in
            (vol.new ≡ vol.old) × ((e : Error F) →
            serve_answer last (size_of request) (start_of request) kept ≡ Err e → result ≡ Err e) }
        // Where the witnesses of a list are held, it answers by these, unless the one of this size doesn't rebuild.
        ensures kept { V.tells → (ops : List O) (sizes : List ℕ) →
            IsHeldFor F.shape H.hash O.meaning H.Digest.spelling (H.Digest.admits tt) ops sizes self.now
            (V.state vol.old) →
            let last = self.now.tip.witness.size in
            let kept = is_kept last (drop (seen_log self.now.log).start sizes) (size_of request) in
            AnswersAs (serve_answer last (size_of request) (start_of request) kept)
            (rebuild_answer {F = F} F.shape O.meaning (λ bytes. whole (O.reads self.now.codec bytes))
            (witness_of F.shape H.hash O.meaning ops (size_of request))) result }
        // Of another state than the last it answers only where the list's witness of this size rebuilds.
        ensures rebuilds { IfOk result (λ r. V.tells → (ops : List O) (sizes : List ℕ) →
            IsHeldFor F.shape H.hash O.meaning H.Digest.spelling (H.Digest.admits tt) ops sizes self.now
            (V.state vol.old) →
            size_of request ≢ self.now.tip.witness.size →
            IsOk (rebuild_answer {F = F} F.shape O.meaning (λ bytes. whole (O.reads self.now.codec bytes))
            (witness_of F.shape H.hash O.meaning ops (size_of request)))) }
        // On any contents it is the answer of a witness of this size that stands in the log, and rebuilds: its proof is
        // that of its commit, by its pins.
        ensures rebuilt { let view = seen_log self.now.log in
            let items = witnesses_of {F = F} H.Digest.spelling (H.Digest.admits tt) view (V.state vol.old) in
            IfOk result (λ r. size_of request ≢ self.now.tip.witness.size → V.tells → IsWithin view (V.state vol.old) →
            (v : VerifiedWitness F H.Digest) × (commit : O)
            × IsRebuiltAt F.shape O.meaning (λ bytes. whole (O.reads self.now.codec bytes)) items (size_of request) v
            commit × ((floor : ℕ) → O.meaning.floor commit ≡ Some floor →
            ProvesCommit F.shape H.hash v.witness floor v.proof) × (r ≡ response_to request v commit)) }
        // It is the answer of the state of so many of the list's operations, where the commit is allowed.
        ensures list { IfOk result (λ r. V.tells → (ops : List O) (sizes : List ℕ) →
            IsHeldFor F.shape H.hash O.meaning H.Digest.spelling (H.Digest.admits tt) ops sizes self.now
            (V.state vol.old) →
            (commit : O) → slice_get ops (size_of request - 1) ≡ Some commit → O.admits self.now.codec commit →
            r ≡ response_to request (verified_of F.shape H.hash O.meaning (take (size_of request) ops)) commit) }
        ensures errors { let view = seen_log self.now.log in
            let within = IsWithin view (V.state vol.old) in
            let items = witnesses_of {F = F} H.Digest.spelling (H.Digest.admits tt) view (V.state vol.old) in
            let refusal = serve_answer self.now.tip.witness.size (size_of request) (start_of request) false in
            IfErr result (λ e. (refusal ≡ Err e) ⊎ (IsOutside e ⊎ (IsLogFault V.tells within items e ⊎
            IsDamaged F.shape O.meaning (λ bytes. whole (O.reads self.now.codec bytes)) V.tells within items
            (size_of request) e))) }
        ensures answers { Reads V.tells Error.Volume (V.state vol.old) (V.state vol.new) result }
        ensures few { let log = seen_log self.now.log in
            LooksFew (log.end - log.start) (V.state vol.old) (V.state vol.new) }
    {
        let tip = self.tip.witness.size.as_u64();
        match check_request(tip, &request) {
            Ok(()) => {}
            Err(error) => return Err(error),
        }
        let size = request.size().as_u64();
        if size == tip {
            return self.serve_tip(&request);
        }
        let (shown, commit) = match self.state_at(vol, size) {
            Ok(kept) => kept,
            Err(error) => return Err(error),
        };
        response(
            self.alloc,
            &request,
            shown.proof,
            shown.witness.pinned_nodes,
            commit,
        )
    }
}
