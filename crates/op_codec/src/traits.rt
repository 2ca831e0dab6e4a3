//! What operations of both kinds tell of themselves.
ghost use Rattle.std.specs.Prelude.{◌≡◌, ℕ, Option, Bool, option_copied};

use crate::Key;
use tree_shape::{Family, Location};

/// What may set a floor.
pub trait Floored<F: Family> {
    /// The floor that it sets, where it is a commit.
    ghost floor: { Self → Option ℕ };

    /// The floor of a commit. It takes no memory.
    fn has_floor(&self) -> Option<Location<F>>
        ensures { result ≡ floor self.now };
}

/// What may be a commit.
pub trait Committable {
    /// Whether it is a commit.
    ghost commits: { Self → Bool };

    /// Whether it is a commit. It takes no memory.
    fn is_commit(&self) -> bool
        ensures { result ≡ commits self.now };
}

/// What may have a key.
pub trait OperationTrait<F: Family> {
    /// What its keys are.
    type Key: Key;

    /// The key, where it has one.
    ghost key_of: { Self → Option Self.Key };

    /// Whether it takes its key away.
    ghost deletes: { Self → Bool };

    /// Whether it gives its key a value.
    ghost updates: { Self → Bool };

    /// The key, where it has one. It takes no memory.
    fn key(&self) -> Option<&Self::Key>
        ensures { option_copied result ≡ key_of self.now };

    /// The key, where it has one.
    fn into_key(self) -> Option<Self::Key>
        ensures { result ≡ key_of self };

    /// Whether it takes its key away. It takes no memory.
    fn is_delete(&self) -> bool
        ensures { result ≡ deletes self.now };

    /// Whether it gives its key a value. It takes no memory.
    fn is_update(&self) -> bool
        ensures { result ≡ updates self.now };
}
