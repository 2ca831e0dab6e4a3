//! What a database serves a follower.
ghost use Rattle.std.specs.Prelude.{◌≡◌, ◌∷◌, [], Ok, IfErr};
ghost use Rattle.volume_base.specs.declared.error.JournalError.TheVariants.{Corruption, ItemOutOfRange};
ghost use Rattle.target_codec.specs.declared.response.Response.TheVariants.{Boundary};
ghost use Rattle.chain_core.specs.declared.error.Error.{Error};

use crate::{Keyless, KeylessOperation};
use chain_core::Error;
use codec_base::ListOf;
use journal_base::Backing;
use op_codec::{Request, Response};
use std::num::NonZeroU64;
use tree_core::{Digest, Family, Hasher, Location, Proof};
use volume_base::{JournalError, Volume};

/// The answer of one operation with its proof, and the nodes before it.
fn boundary<F: Family, O: KeylessOperation, D: Digest>(
    place: u64,
    made: (Proof<F, D>, Vec<O>),
    pinned_nodes: Vec<D>,
) -> Result<Response<F, O, D>, Error<F>>
    ensures one { (op : O) → made.1.items ≡ op ∷ [] → result ≡ Ok (Boundary made.0 op pinned_nodes.items) }
    ensures none { IfErr result (λ e. e ≡ Error.Journal (ItemOutOfRange place)) }
{
    let (proof, mut operations) = made;
    match operations.pop() {
        Some(op) => Ok(Response::Boundary {
            proof,
            op,
            pinned_nodes: ListOf::from_vec(pinned_nodes),
        }),
        None => Err(Error::Journal(JournalError::ItemOutOfRange(place))),
    }
}

impl<F: Family, O: KeylessOperation, C: Backing<Item = O>, H: Hasher> Keyless<F, O, C, H> {
    ghost use Rattle.std.specs.Prelude.{◌⊎◌, ℕ, ◌<◌, ◌-◌, List, Err, IsErrOf};
    ghost use Rattle.journal_base.specs.Items.{items_of};
    ghost use Rattle.volume_base.specs.Moments.{present};
    ghost use Rattle.volume_base.specs.Volume.{Reads};
    ghost use Rattle.tree_store.specs.declared.error.Error.TheVariants.{RangeOutOfBounds};
    ghost use Rattle.target_codec.specs.Request.{size_of, start_of};
    ghost use Rattle.log_model.specs.Proofs.{proof_refusal};
    ghost use Rattle.keyless_db.specs.DbView.{IsHeldFor};
    ghost use Rattle.keyless_db.specs.Reading.{AreAdmittedFor, IsCorruptFor, IsNoCommitAt, ServesAs};
    ghost use Rattle.keyless_db.specs.Serving.{IsBoundaryAt, IsResponseTo, most_of};

    /// The operation at `start` with its proof in the tree as it was at `size`, and the peaks of the operations before
    /// it. It refuses as `historical_proof`, and then as `pinned_nodes_at`.
    fn serve_boundary<V: Volume>(
        &self,
        vol: &mut V,
        size: Location<F>,
        start: Location<F>,
    ) -> Result<Response<F, O, H::Digest>, Error<F>>
        ensures answer { let admits = H.Digest.Read.admits tt in V.tells → (ops : List O) →
            IsHeldFor F.shape H.hash O.meaning H.Digest.spelling admits O.spelling ops self.now
            (present (V.state vol.old)) →
            AreAdmittedFor (O.admits self.now.journal.items.codec) ops size start 1 →
            ServesAs (proof_refusal O.meaning ops self.now.journal.items.start size start)
            (IsBoundaryAt F.shape H.hash O.meaning ops size start) result }
        ensures corrupt { let admits = H.Digest.Read.admits tt in
            let items = items_of O.spelling O.admits self.now.journal.items (V.state vol.old) in V.tells →
            (ops : List O) →
            IsHeldFor F.shape H.hash O.meaning H.Digest.spelling admits O.spelling ops self.now
            (present (V.state vol.old)) →
            (p : ℕ) → IsErrOf result (Error.Journal (Corruption p)) →
            IsCorruptFor items size start 1 p }
        ensures no_commit { let items = items_of O.spelling O.admits self.now.journal.items (V.state vol.old) in
            (n : ℕ) → IsErrOf result (Error.HistoricalFloorPruned n) →
            (n ≡ size) × (V.tells → IsNoCommitAt O.meaning items (size - 1)) }
        ensures size { (size ≡ 0) ⊎ (self.now.state.size < size) →
            (result ≡ Err (Error.Merkle (RangeOutOfBounds size))) × (vol.new ≡ vol.old) }
        ensures reads { Reads V.tells Error.Volume (V.state vol.old) (V.state vol.new) result }
    {
        let place = start.as_u64();
        let made = match self.historical_proof(vol, size, start, NonZeroU64::MIN) {
            Ok(made) => made,
            Err(error) => return Err(error),
        };
        let pinned_nodes = match self.pinned_nodes_at(vol, Location::new(place)) {
            Ok(pinned_nodes) => pinned_nodes,
            Err(error) => return Err(error),
        };
        boundary(place, made, pinned_nodes)
    }

    /// The answer to a request: operations with their proof, as by `historical_proof`; or one operation with its proof,
    /// and the peaks of those before it. It refuses as `historical_proof`, and then as `pinned_nodes_at`.
    pub fn serve<V: Volume>(
        &self,
        vol: &mut V,
        request: Request<F>,
    ) -> Result<Response<F, O, H::Digest>, Error<F>>
        // Of a held database, whose operations that are read may be such, it is the list's answer.
        ensures answer { let admits = H.Digest.Read.admits tt in V.tells → (ops : List O) →
            IsHeldFor F.shape H.hash O.meaning H.Digest.spelling admits O.spelling ops self.now
            (present (V.state vol.old)) →
            AreAdmittedFor (O.admits self.now.journal.items.codec) ops (size_of request) (start_of request)
            (most_of request) →
            ServesAs (proof_refusal O.meaning ops self.now.journal.items.start (size_of request) (start_of request))
            (IsResponseTo F.shape H.hash O.meaning ops request) result }
        // Of a held database, that bytes are no operation is said only of some that are read and are none.
        ensures corrupt { let admits = H.Digest.Read.admits tt in
            let items = items_of O.spelling O.admits self.now.journal.items (V.state vol.old) in V.tells →
            (ops : List O) →
            IsHeldFor F.shape H.hash O.meaning H.Digest.spelling admits O.spelling ops self.now
            (present (V.state vol.old)) →
            (p : ℕ) → IsErrOf result (Error.Journal (Corruption p)) →
            IsCorruptFor items (size_of request) (start_of request) (most_of request) p }
        // Of any contents, a size that no commit ends ends with an operation that is none.
        ensures no_commit { let items = items_of O.spelling O.admits self.now.journal.items (V.state vol.old) in
            (n : ℕ) → IsErrOf result (Error.HistoricalFloorPruned n) →
            (n ≡ size_of request) × (V.tells → IsNoCommitAt O.meaning items ((size_of request) - 1)) }
        ensures size { (size_of request ≡ 0) ⊎ (self.now.state.size < size_of request) →
            (result ≡ Err (Error.Merkle (RangeOutOfBounds (size_of request)))) × (vol.new ≡ vol.old) }
        ensures reads { Reads V.tells Error.Volume (V.state vol.old) (V.state vol.new) result }
    {
        match request {
            Request::Operations {
                size,
                start,
                max_ops,
            } => match self.historical_proof(vol, size, start, max_ops) {
                Ok((proof, operations)) => Ok(Response::Operations {
                    proof,
                    operations: ListOf::from_vec(operations),
                }),
                Err(error) => Err(error),
            },
            Request::Boundary { size, start, .. } => self.serve_boundary(vol, size, start),
        }
    }
}
