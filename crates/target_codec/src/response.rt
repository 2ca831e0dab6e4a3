ghost use Rattle.target_codec.specs.Response.{IsFieldwise};

use codec_base::ListOf;
use tree_proof::Proof;

/// What is answered to a request.
#[derive(Drop)]
#[derive_where(Debug, PartialEq, Eq; Op, D)]
pub enum Response<F, Op, D> {
    /// Operations with their proof.
    Operations {
        proof: Proof<F, D>,
        operations: ListOf<Op>,
    },
    /// One operation with its proof, and the nodes before it from the left.
    Boundary {
        proof: Proof<F, D>,
        op: Op,
        pinned_nodes: ListOf<D>,
    },
}

/// Two answers are equal where their kinds and their fields are.
pub fn response_equality_law<F, Op: PartialEq, D: PartialEq>()
    ensures { IsFieldwise (⟦<Proof<F, D> as PartialEq>⟧.eq) Op.eq D.eq (⟦<Response<F, Op, D> as PartialEq>⟧.eq) }
{}
