ghost use Rattle.std.specs.Prelude.{◌≡◌};
ghost use Rattle.std.specs.Bool.{Decides};
ghost use Rattle.codec_base.specs.declared.error.CodecError.{CodecError};
ghost use Rattle.codec_base.specs.declared.error.CodecError.TheVariants.{Memory};
ghost use Rattle.codec_base.specs.declared.error.InvalidAt.{InvalidAt};
ghost use Rattle.codec_base.specs.Texts.{place_text, fault_text};

use std::alloc::{AllocError, AllocFailed};

/// What is invalid in a byte string.
#[derive(Clone, Copy, Debug, PartialEq, Eq, Hash)]
pub enum InvalidAt {
    /// A varint of more groups than its number needs, or of a number past 2^64 - 1.
    Varint,
    /// An option byte other than 0 and 1.
    Option,
    /// More bytes or items than are allowed.
    Length,
    /// A byte other than 0 where zeros stand.
    Padding,
    /// A location above `MAX_LEAVES`.
    Location,
    /// A range whose start isn't below its end.
    NonEmptyRange,
    /// A target whose end is above `MAX_LEAVES`.
    Target,
    /// A compact target whose size is 0 or above `MAX_LEAVES`.
    CompactTarget,
    /// A witness that stands for no state.
    Witness,
    /// Bytes behind the value.
    ExtraData,
}

/// Why a value couldn't be read or written.
#[derive(Clone, Copy, Debug, PartialEq, Eq, Hash)]
pub enum CodecError {
    /// The bytes end before the value does.
    EndOfBuffer,
    /// A tag that no variant has.
    InvalidEnum(u8),
    /// Bytes that spell no value that is allowed.
    Invalid(InvalidAt),
    /// Want of memory.
    Memory,
}

impl InvalidAt {
    /// Where it was found, and what is wrong there.
    #[tactic(auto, unfolding(crate::specs::Texts::place_text, crate::specs::Texts::fault_text))]
    pub fn texts(self) -> (&'static str, &'static str)
        ensures place { result.0.now ≡ place_text self }
        ensures fault { result.1.now ≡ fault_text self }
    {
        match self {
            InvalidAt::Varint => ("Varint", "Varint"),
            InvalidAt::Option => ("Option", "Option"),
            InvalidAt::Length => ("Length", "Length"),
            InvalidAt::Padding => ("Padding", "Padding"),
            InvalidAt::Location => ("Location", "Location"),
            InvalidAt::NonEmptyRange => ("NonEmptyRange", "start must be < end"),
            InvalidAt::Target => (
                "storage::qmdb::sync::Target",
                "range bounds out of valid range",
            ),
            InvalidAt::CompactTarget => (
                "storage::qmdb::sync::CompactTarget",
                "size must be in 1..=MAX_LEAVES",
            ),
            InvalidAt::Witness => ("Witness", "Witness"),
            InvalidAt::ExtraData => ("ExtraData", "ExtraData"),
        }
    }
}

impl From<AllocError> for CodecError {
    ghost from_gives = { λ _ e. e ≡ Memory };

    fn from(_: AllocError) -> Self {
        CodecError::Memory
    }
}

impl<T: Drop> From<AllocFailed<T>> for CodecError {
    ghost from_gives = { λ _ e. e ≡ Memory };

    fn from(_: AllocFailed<T>) -> Self {
        CodecError::Memory
    }
}

/// Two errors are equal exactly where they are one: one variant with the same fields.
pub fn equality_laws()
    ensures codec { (a b : CodecError) → Decides (⟦<CodecError as PartialEq>⟧.eq a b) (a ≡ b) }
    ensures place { (a b : InvalidAt) → Decides (⟦<InvalidAt as PartialEq>⟧.eq a b) (a ≡ b) }
{}
