ghost use Rattle.std.specs.Prelude.{◌≡◌, ℕ, List, [], ◌∷◌, ◌++◌, length, OnOk, OnErr, IfOk, IsOkUnless};
ghost use Rattle.codec_base.specs.Codec.{Reading, Takes, IsLawful, held};

use crate::{Bytes, CodecError, Cursor};
use std::alloc::Global;

/// What has a spelling.
pub trait Spelled {
    /// The one spelling of a value.
    ghost spelling: { Self → List ℕ };
}

/// What can be written as its spelling.
pub trait Write: Spelled {
    /// Adds the spelling.
    fn write(&self, out: &mut Bytes) -> Result<(), CodecError>
        ensures ok { OnOk result (out.new ≡ out.old ++ Self.spelling self.now) }
        ensures err { OnErr result (out.new ≡ out.old) }
        ensures memory { IsOkUnless result CodecError.Memory };
}

/// What tells the length of its spelling.
pub trait EncodeSize: Spelled {
    /// The length of the spelling, held at 2^64 - 1.
    fn encode_size(&self) -> u64
        ensures { result ≡ held (length (Self.spelling self.now)) };
}

/// What can be read from its spelling.
pub trait Read: Spelled + Sized {
    /// What is allowed.
    type Cfg: Drop;

    /// Whether a value is allowed.
    ghost admits: { Self.Cfg → Self → Type 0 };

    /// The value at the front of a byte string, and what is left; or the first fault.
    ghost reads: { Self.Cfg → List ℕ → Reading Self };

    /// Takes a value from the front.
    fn read(alloc: Global, buf: &mut Cursor<'_>, cfg: &Self::Cfg) -> Result<Self, CodecError>
        ensures taken { Takes result buf.new (reads cfg.now buf.old) }
        ensures err { OnErr result (buf.new ≡ buf.old) };

    /// What is read stood there, and what is allowed is read wherever it stands.
    ghost lawful: { (cfg : Self.Cfg) → IsLawful Self.spelling (admits cfg) (reads cfg) };
}

/// What has spellings of one length.
pub trait FixedSize: Read {
    /// The length of each spelling.
    ghost width: { ℕ };

    /// The length of each spelling, held at 2^64 - 1.
    fn size() -> u64
        ensures { result ≡ held width };

    /// Each spelling has this length.
    ghost one_width: { (cfg : Self.Cfg) (x : Self) → Self.admits cfg x → length (Self.spelling x) ≡ width };
}
