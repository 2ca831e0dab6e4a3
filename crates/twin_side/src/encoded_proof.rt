//! The answer of a proof, which shows operations by their encodings.
ghost use Rattle.std.specs.Prelude.{◌≡◌, map, IfOk, IsOkUnless};
ghost use Rattle.command_text.specs.declared.command.Answer.TheVariants as answer;
ghost use Rattle.list_machine.specs.Operation.{meaning};

use chain_core::Error;
use codec_base::{CodecError, ListOf, encode};
use command_text::{Answer, OpList, ProofAnswer};
use list_machine::Operation;
use std::alloc::Global;
use tree_proof::Proof;
use tree_shape::{Mmr, Sha256Digest};

/// The encodings of operations, in their order.
fn encoded(alloc: Global, operations: &[Operation]) -> Result<OpList, CodecError>
    ensures list { IfOk result (λ list. list ≡ map meaning.encoding operations.now) }
    ensures memory { IsOkUnless result CodecError.Memory }
{
    let mut list = ListOf::new(alloc);
    for operation in operations {
        list.push(encode(alloc, operation)?)?;
    }
    Ok(list)
}

/// The answer of a proof, with the location from which on it shows operations, and these.
pub fn proof_answer(
    alloc: Global,
    proof: Proof<Mmr, Sha256Digest>,
    start: u64,
    operations: &[Operation],
) -> Result<Answer, Error<Mmr>>
    ensures answer { IfOk result (λ made. made ≡
        answer.Proof (record { proof = proof; start = start; operations = map meaning.encoding operations.now })) }
    ensures memory { IsOkUnless result Error.Memory }
{
    match encoded(alloc, operations) {
        Ok(operations) => Ok(Answer::Proof(ProofAnswer {
            proof,
            start,
            operations,
        })),
        Err(_) => Err(Error::Memory),
    }
}
