ghost use Rattle.std.specs.Prelude.{◌≡◌, length};

use crate::{Digest, Hasher};
use codec_base::{
    Bytes, CodecError, Cursor, Duplicate, EncodeSize, FixedSize, Read, Spelled, Write,
};
use sha2::{Digest as _, Sha256};
use std::alloc::Global;

/// A SHA-256 digest (FIPS 180-4).
#[derive(Clone, Copy, Debug, PartialEq, Eq, PartialOrd, Ord, Hash)]
pub struct Sha256Digest {
    bytes: [u8; 32],
}

impl Spelled for Sha256Digest {
    ghost use Rattle.tree_shape.specs.Sha256Codec.{bytes_of};

    ghost spelling = { bytes_of };
}

impl Write for Sha256Digest {
    fn write(&self, out: &mut Bytes) -> Result<(), CodecError> {
        out.extend_from_slice(&self.bytes)?;
        Ok(())
    }
}

impl EncodeSize for Sha256Digest {
    fn encode_size(&self) -> u64 {
        32
    }
}

impl Read for Sha256Digest {
    type Cfg = ();

    ghost use Rattle.tree_shape.specs.Sha256Codec.{IsDigest, digest_at, digest_lawful};

    ghost admits = { λ _. IsDigest };

    ghost reads = { λ _. digest_at };

    ghost lawful = { λ _. digest_lawful };

    fn read(_alloc: Global, buf: &mut Cursor<'_>, _cfg: &()) -> Result<Self, CodecError> {
        let mut bytes = [0u8; 32];
        let taken = buf.slice(32)?;
        bytes.copy_from_slice(taken);
        Ok(Sha256Digest { bytes })
    }
}

impl FixedSize for Sha256Digest {
    ghost use Rattle.tree_shape.specs.Sha256Codec.{digest_width};

    ghost width = { 32 };

    ghost one_width = { λ _. digest_width };

    fn size() -> u64 {
        32
    }
}

impl Duplicate for Sha256Digest {
    fn duplicate(&self) -> Result<Self, CodecError> {
        Ok(*self)
    }
}

impl Digest for Sha256Digest {
    ghost use Rattle.std.specs.Prelude.{refl};
    ghost use Rattle.std.proofs.Common.{ap};
    ghost use Rattle.tree_shape.specs.Sha256Codec.{bytes_of};

    ghost bytes = { bytes_of };

    ghost exact = { λ a b e. ap (λ xs. record { bytes = xs }) e };

    ghost spelled = { λ d. refl };

    ghost allowed = { λ d e. e };

    fn as_slice(&self) -> &[u8] {
        &self.bytes
    }
}

/// SHA-256 (FIPS 180-4).
#[derive(Drop)]
pub struct Sha256Hasher {
    state: Sha256,
}

impl Hasher for Sha256Hasher {
    type Digest = Sha256Digest;

    ghost use Rattle.std.specs.Prelude.{refl};
    ghost use Rattle.sha2.specs.Sha256.{sha256};
    ghost use Rattle.sha2.specs.Hashers.{Holds256};
    ghost use Rattle.sha2.proofs.Facts256.{length-sha256};

    ghost hash = { record { digest = λ m. record { bytes = sha256 m }; bytes = λ d. d.bytes } };

    ghost holds = { λ s m. Holds256 s.state m };

    ghost same_bytes = { λ d. refl };

    ghost one_size = { length-sha256 };

    fn new() -> Self {
        Sha256Hasher {
            state: Sha256::new(),
        }
    }

    fn update(&mut self, bytes: &[u8]) {
        self.state.update(bytes);
    }

    fn finish(self) -> Sha256Digest {
        Sha256Digest {
            bytes: self.state.finalize(),
        }
    }
}
