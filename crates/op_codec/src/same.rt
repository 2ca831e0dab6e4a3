ghost use Rattle.std.specs.Prelude.{◌≡◌};
ghost use Rattle.std.specs.Bool.{Decides};

use codec_base::{Bytes, U64};

/// Equality that holds of a value and itself alone: for a reader that compares values or operations. What an operation means to
/// the log (`log_model::Logged`) asks for none.
pub trait Same: PartialEq {
    /// The comparison tells whether two values are one.
    ghost decides: { (a b : Self) → Decides (Self.eq a b) (a ≡ b) };
}

impl Same for Bytes {
    ghost use Rattle.op_codec.specs.Same.{bytes_decide};

    ghost decides = { bytes_decide };
}

impl Same for U64 {
    ghost use Rattle.op_codec.specs.Same.{number_decide};

    ghost decides = { number_decide };
}
