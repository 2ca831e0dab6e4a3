ghost use Rattle.std.specs.Prelude.{◌≡◌};
ghost use Rattle.tree_shape.specs.Root.{bagging_byte};

/// How a list of peaks is folded to one digest.
#[derive(Clone, Copy, Debug, PartialEq, Eq, Hash)]
pub enum Bagging {
    /// From the left: fold(fold(p1, p2), p3).
    ForwardFold,
    /// From the right: fold(p1, fold(p2, p3)).
    BackwardFold,
}

impl Bagging {
    /// The byte that stands for it in the input of a root.
    pub fn byte(self) -> u8
        ensures { result ≡ bagging_byte self }
    {
        match self {
            Bagging::ForwardFold => 0,
            Bagging::BackwardFold => 1,
        }
    }
}
