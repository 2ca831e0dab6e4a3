//! Proofs of the commits of the side that has the compact database.
ghost use Rattle.std.specs.Prelude.{◌≡◌, ◌∷◌, [], true, Some, None, Ok, IfOk, IfErr, IsOkUnless};
ghost use Rattle.volume_base.specs.Moments.{present};
ghost use Rattle.volume_base.specs.Volume.{Reads};
ghost use Rattle.log_model.specs.Machine.{State};
ghost use Rattle.log_model.specs.declared.refusal.Refusal.{Refusal};
ghost use Rattle.chain_core.specs.Answers.{IsOutside};
ghost use Rattle.tree_shape.specs.declared.mmr.Mmr.{Mmr};
ghost use Rattle.tree_shape.specs.declared.sha256.Sha256Digest.{Sha256Digest};
ghost use Rattle.tree_proof.specs.declared.proof.Proof.{Proof};
ghost use Rattle.target_codec.specs.declared.response.Response.TheVariants as response;
ghost use Rattle.command_text.specs.declared.command.Answer.TheVariants as answer;
ghost use Rattle.list_machine.specs.Config.{Config};
ghost use Rattle.list_machine.specs.Operation.{Operation, meaning};
ghost use Rattle.list_machine.specs.Step.{prove_commit};
ghost use Rattle.twin_batches.specs.StateOf.{StandsGood};
ghost use Rattle.twin_databases.specs.CompactKind.{compact_kind};
ghost use Rattle.twin_side.specs.Proving.{outside_refusal, has_witness};

use crate::encoded_proof::proof_answer;
use crate::side::Side;
use chain_core::Error;
use codec_base::ListOf;
use command_text::{Answer, Refusal};
use list_machine::Operation;
use op_codec::{Request, Response};
use std::alloc::Global;
use std::num::NonZeroU64;
use tree_shape::{Location, Mmr, Sha256Digest};
use twin_databases::Compact;
use volume_base::Volume;

/// Why nothing is proved in the first `n` of a log of so many operations, as far as its size tells.
fn outside_refusal(size: u64, n: u64) -> Option<Refusal>
    ensures { result ≡ outside_refusal size n }
{
    if n == 0 || n > size {
        return Some(Refusal::RangeOutOfBounds(n));
    }
    None
}

/// The answer of what is served of the commit at a location.
fn commit_answer(
    alloc: Global,
    location: u64,
    served: Response<Mmr, Operation, Sha256Digest>,
) -> Result<Answer, Error<Mmr>>
    ensures answer { IfOk result (λ made. (proof : Proof Mmr Sha256Digest) (commit : Operation) →
        served ≡ response.Operations proof (commit ∷ []) → made ≡ answer.Proof
        (record { proof = proof; start = location; operations = meaning.encoding commit ∷ [] })) }
    ensures memory { IsOkUnless result Error.Memory }
{
    match served {
        Response::Operations { proof, operations } => {
            proof_answer(alloc, proof, location, operations.as_slice())
        }
        Response::Boundary { proof, op, .. } => {
            let mut operations = ListOf::new(alloc);
            let Ok(()) = operations.push(op) else {
                return Err(Error::Memory);
            };
            proof_answer(alloc, proof, location, operations.as_slice())
        }
    }
}

impl Side<Compact> {
    /// Whether the witness of so many operations is kept. That of all of them is, which needs no read.
    fn keeps<V: Volume>(&self, volume: &mut V, n: u64) -> Result<bool, Error<Mmr>>
        ensures kept { IfOk result (λ kept. V.tells → (c : Config) (state : State Operation) →
            StandsGood compact_kind c (present (V.state volume.old)) self.now.db self.now.numbers state →
            kept ≡ has_witness state n) }
        ensures errors { IfErr result (λ e. V.tells → (c : Config) (state : State Operation) →
            StandsGood compact_kind c (present (V.state volume.old)) self.now.db self.now.numbers state → IsOutside e) }
        ensures last { n ≡ self.now.db.tip.witness.size → (result ≡ Ok true) × (volume.new ≡ volume.old) }
        ensures reads { Reads V.tells Error.Volume (V.state volume.old) (V.state volume.new) result }
    {
        if n == self.db.size().as_u64() {
            return Ok(true);
        }
        match self.db.retained_position(volume, Location::new(n)) {
            Ok(position) => Ok(position.is_some()),
            Err(error) => Err(error),
        }
    }

    /// The answer to a proof of the commit that ends the first `n` operations, whose witness is kept.
    fn served<V: Volume>(&self, volume: &mut V, n: u64) -> Result<Answer, Error<Mmr>>
        requires { outside_refusal self.now.db.tip.witness.size n ≡ None }
        ensures ok { IfOk result (λ made. V.tells → (c : Config) (state : State Operation) →
            StandsGood compact_kind c (present (V.state volume.old)) self.now.db self.now.numbers state →
            made ≡ (prove_commit state n).0) }
        ensures errors { IfErr result (λ e. V.tells → (c : Config) (state : State Operation) →
            StandsGood compact_kind c (present (V.state volume.old)) self.now.db self.now.numbers state →
            has_witness state n ≡ true → IsOutside e) }
        ensures last { n ≡ self.now.db.tip.witness.size → volume.new ≡ volume.old }
        ensures reads { Reads V.tells Error.Volume (V.state volume.old) (V.state volume.new) result }
    {
        let request = Request::Operations {
            size: Location::new(n),
            start: Location::new(n - 1),
            max_ops: NonZeroU64::MIN,
        };
        match self.db.serve(volume, request) {
            Ok(served) => commit_answer(*self.numbers.batches.allocator(), n - 1, served),
            Err(error) => Err(error),
        }
    }

    /// The answer to a proof of the commit that ends the first `n` operations, of which there are so many.
    fn proved<V: Volume>(&self, volume: &mut V, n: u64) -> Result<Answer, Error<Mmr>>
        requires { outside_refusal self.now.db.tip.witness.size n ≡ None }
        ensures ok { IfOk result (λ made. V.tells → (c : Config) (state : State Operation) →
            StandsGood compact_kind c (present (V.state volume.old)) self.now.db self.now.numbers state →
            made ≡ (prove_commit state n).0) }
        ensures errors { IfErr result (λ e. V.tells → (c : Config) (state : State Operation) →
            StandsGood compact_kind c (present (V.state volume.old)) self.now.db self.now.numbers state → IsOutside e) }
        ensures last { n ≡ self.now.db.tip.witness.size → volume.new ≡ volume.old }
        ensures reads { Reads V.tells Error.Volume (V.state volume.old) (V.state volume.new) result }
    {
        match self.keeps(volume, n) {
            Ok(true) => self.served(volume, n),
            Ok(false) => Ok(Answer::Refused(Refusal::ItemPruned(n - 1))),
            Err(error) => Err(error),
        }
    }

    /// The proof of the commit that ends the first `n` operations, with its encoding. It refuses, in this order: a size
    /// of 0 or past the end, and one whose witness isn't kept. The last size's proof needs no read.
    pub fn prove_commit<V: Volume>(&self, volume: &mut V, n: u64) -> Result<Answer, Error<Mmr>>
        ensures ok { IfOk result (λ made. V.tells → (c : Config) (state : State Operation) →
            StandsGood compact_kind c (present (V.state volume.old)) self.now.db self.now.numbers state →
            made ≡ (prove_commit state n).0) }
        ensures errors { IfErr result (λ e. V.tells → (c : Config) (state : State Operation) →
            StandsGood compact_kind c (present (V.state volume.old)) self.now.db self.now.numbers state → IsOutside e) }
        // Over any contents, a size of 0 or past the end is refused before any read, and the last one needs none.
        ensures outside { (why : Refusal) → outside_refusal self.now.db.tip.witness.size n ≡ Some why →
            (result ≡ Ok (answer.Refused why)) × (volume.new ≡ volume.old) }
        ensures last { n ≡ self.now.db.tip.witness.size → volume.new ≡ volume.old }
        ensures reads { Reads V.tells Error.Volume (V.state volume.old) (V.state volume.new) result }
    {
        if let Some(refusal) = outside_refusal(self.db.size().as_u64(), n) {
            return Ok(Answer::Refused(refusal));
        }
        self.proved(volume, n)
    }
}
