ghost use Rattle.std.specs.Prelude.{◌≡◌};
ghost use Rattle.log_model.specs.Meaning.{Meaning};

use codec_base::Write;

/// An operation that a log can hold: what it means there. That two operations are one is no part of it.
pub trait Logged: Write {
    type Value;

    /// Its bytes, its floor where it is a commit, and its value.
    ghost meaning: { Meaning Self Self.Value };

    /// The floor that it sets, where it is a commit.
    fn commit_floor(&self) -> Option<u64>
        ensures { result ≡ meaning.floor self.now };

    /// Its bytes are its spelling.
    ghost spelled: { (op : Self) → meaning.encoding op ≡ Self.spelling op };
}
