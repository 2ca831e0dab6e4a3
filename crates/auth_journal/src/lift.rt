//! Answers of a tree, with its errors as the journal's.
ghost use Rattle.std.specs.Prelude.{◌≡◌};
ghost use Rattle.auth_journal.specs.Errors.{lifted};

use crate::Error;

/// A tree's answer, with its error as the journal's.
pub(crate) fn lift<F, T>(answer: Result<T, tree_core::Error<F>>) -> Result<T, Error<F>>
    ensures { result ≡ lifted answer }
{
    match answer {
        Ok(made) => Ok(made),
        Err(error) => Err(Error::from(error)),
    }
}
