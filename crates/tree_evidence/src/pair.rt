ghost use Rattle.std.specs.Prelude.{◌≡◌, ◌↔◌, length, IsTrue};

use tree_shape::Digest;

/// What stands at one place in the first tree and in the second.
#[derive(Clone, Copy)]
pub(crate) struct Pair<D> {
    pub(crate) one: D,
    pub(crate) other: D,
}

impl<D: Digest> Pair<D> {
    /// Whether the two are one.
    pub(crate) fn is_same(&self) -> bool
        ensures same { IsTrue result ↔ (self.now.one ≡ self.now.other) }
        ensures sized { length (D.bytes self.now.one) ≡ length (D.bytes self.now.other) }
    {
        self.one.as_slice() == self.other.as_slice()
    }
}
