//! Errors of a journal where it is used as a log of items.
ghost use Rattle.std.specs.Prelude.{◌≡◌, Some, IsSome};
ghost use Rattle.auth_journal.specs.Errors.{lowered, lowered_tree};

use crate::Error;
use volume_base::{JournalError, TreeCause};

/// What stands for an error of the tree.
fn lower_tree<F>(error: tree_core::Error<F>) -> JournalError
    requires { IsSome (lowered_tree error) }
    ensures { lowered_tree error ≡ Some result }
{
    match error {
        tree_core::Error::LocationOverflow(location) => {
            JournalError::Tree(TreeCause::LocationOverflow(location.as_u64()))
        }
        tree_core::Error::ElementPruned(position) | tree_core::Error::MissingNode(position) => {
            JournalError::Tree(TreeCause::ElementPruned(position.as_u64()))
        }
        tree_core::Error::LeafOutOfBounds(location) => {
            JournalError::ItemOutOfRange(location.as_u64())
        }
        tree_core::Error::Journal(inner) => inner,
        _ => unreachable!(),
    }
}

/// What stands for an error of the journal.
pub(crate) fn lower<F>(error: Error<F>) -> JournalError
    requires { IsSome (lowered error) }
    ensures { lowered error ≡ Some result }
{
    match error {
        Error::Merkle(inner) => lower_tree(inner),
        Error::Journal(inner) => inner,
        Error::Volume => JournalError::Volume,
        Error::Memory => JournalError::Memory,
    }
}
