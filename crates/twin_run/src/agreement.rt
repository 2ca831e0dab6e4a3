//! Whether both databases of a run answer alike, and the fault where they don't.
ghost use Rattle.std.specs.Prelude.{◌≡◌, IsOk, IfOk, IfErr, OnOk, IsErrOf};
ghost use Rattle.log_model.specs.declared.refusal.Refusal.{Refusal};
ghost use Rattle.command_text.specs.declared.command.Answer.TheVariants as answer;
ghost use Rattle.list_machine.specs.Step.{refusal_in};
ghost use Rattle.twin_run.specs.Faults.{AreAlike, IsOwnFault, error_of, TellsUnlike};

use crate::ending::{CorruptAt, Fault};
use chain_core::{Commitment, Error};
use command_text::{Answer, Refusal};
use log_model::equality_law;
use tree_shape::{Location, Mmr, Sha256Digest};

/// The error of a database that a refusal is.
fn error_of(refusal: Refusal) -> Error<Mmr>
    ensures { result ≡ error_of refusal }
{
    match refusal {
        Refusal::LocationOverflow(size) => {
            Error::Merkle(tree_store::Error::LocationOverflow(Location::new(size)))
        }
        Refusal::FloorRegressed(floor, below) => {
            Error::FloorRegressed(Location::new(floor), Location::new(below))
        }
        Refusal::FloorBeyondSize(floor, location) => {
            Error::FloorBeyondSize(Location::new(floor), Location::new(location))
        }
        Refusal::PruneBeyondMinRequired(location, floor) => {
            Error::PruneBeyondMinRequired(Location::new(location), Location::new(floor))
        }
        _ => Error::StaleBatch,
    }
}

/// The refusal of both databases, or nothing where neither refuses. What one refuses alone is that database's fault, and
/// where each refuses for a reason of its own it is the compact one's.
pub(crate) fn refusal_of_both(
    full: Option<Refusal>,
    compact: Option<Refusal>,
) -> Result<Option<Refusal>, Fault>
    ensures { AreAlike full compact result }
{
    equality_law();
    match (full, compact) {
        (None, None) => Ok(None),
        (Some(refusal), None) => Err(Fault::Corrupt(CorruptAt::Full(error_of(refusal)))),
        (None, Some(refusal)) => Err(Fault::Corrupt(CorruptAt::Compact(error_of(refusal)))),
        (Some(refusal), Some(other)) => {
            if refusal == other {
                Ok(Some(refusal))
            } else {
                Err(Fault::Corrupt(CorruptAt::Compact(error_of(other))))
            }
        }
    }
}

/// Refuses states of two sizes with `Sizes`, and of two roots with `Roots`.
pub(crate) fn check_same(
    full: &Commitment<Mmr, Sha256Digest>,
    compact: &Commitment<Mmr, Sha256Digest>,
) -> Result<(), Fault>
    ensures same { OnOk result (full.now ≡ compact.now) }
    ensures unlike { IfErr result (TellsUnlike full.now compact.now) }
{
    let (size, other) = (full.size.as_u64(), compact.size.as_u64());
    if size != other {
        return Err(Fault::Corrupt(CorruptAt::Sizes(size, other)));
    }
    if full.root != compact.root {
        return Err(Fault::Corrupt(CorruptAt::Roots(full.root, compact.root)));
    }
    Ok(())
}

/// The refusal that an answer is, where it is one.
fn refusal_in(answer: &Answer) -> Option<Refusal>
    ensures { result ≡ refusal_in answer.now }
{
    match answer {
        Answer::Refused(refusal) => Some(*refusal),
        _ => None,
    }
}

/// The answer of both databases to a command on batches: the full one's. It is a fault where they don't refuse alike, or
/// sealed batches of different states.
pub(crate) fn agreed(full: Answer, compact: &Answer) -> Result<Answer, Fault>
    ensures full { IfOk result (λ answer. answer ≡ full) }
    // Both refuse alike.
    ensures both { IfOk result (λ a. refusal_in full ≡ refusal_in compact.now) }
    ensures same { full ≡ compact.now → IsOk result }
    ensures own { IfErr result IsOwnFault }
    ensures unfailed { IsErrOf result Fault.Volume → ⊥ }
{
    refusal_of_both(refusal_in(&full), refusal_in(compact))?;
    if let (
        Answer::Sealed { size, root },
        Answer::Sealed {
            size: other_size,
            root: other_root,
        },
    ) = (&full, compact)
    {
        let sealed = Commitment::new(Location::new(*size), *root);
        let other = Commitment::new(Location::new(*other_size), *other_root);
        check_same(&sealed, &other)?;
    }
    Ok(full)
}
