//! Errors of a journal, as a database's.
ghost use Rattle.std.specs.Prelude.{◌≡◌};
ghost use Rattle.keyless_db.specs.Errors.{from_joined, from_apply};

use chain_core::Error;

/// A journal's error, as a database's.
pub(crate) fn from_joined<F>(error: auth_journal::Error<F>) -> Error<F>
    ensures { result ≡ from_joined error }
{
    match error {
        auth_journal::Error::Merkle(error) => Error::Merkle(error),
        auth_journal::Error::Journal(error) => Error::Journal(error),
        auth_journal::Error::Volume => Error::Volume,
        auth_journal::Error::Memory => Error::Memory,
    }
}

/// A journal's error of an apply, as a database's: what the tree refuses is stale.
pub(crate) fn from_apply<F>(error: auth_journal::Error<F>) -> Error<F>
    ensures { result ≡ from_apply error }
{
    match error {
        auth_journal::Error::Merkle(_) => Error::StaleBatch,
        other => from_joined(other),
    }
}
