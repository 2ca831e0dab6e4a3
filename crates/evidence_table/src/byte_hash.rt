//! A hash of one byte, with which many inputs clash.
ghost use Rattle.std.specs.Prelude.{◌≡◌, ◌<◌, ◌*◌, ◌+◌};
ghost use Rattle.evidence_table.specs.ByteHash.{absorbed, absorbed_all};

use codec_base::{
    Bytes, CodecError, Cursor, Duplicate, EncodeSize, FixedSize, Read, Spelled, Write,
};
use std::alloc::Global;
use tree_shape::{Digest, Hasher};

/// A digest of one byte.
#[derive(Clone, Copy, Debug, PartialEq, Eq)]
pub(crate) struct ByteDigest {
    bytes: [u8; 1],
}

impl Spelled for ByteDigest {
    ghost use Rattle.evidence_table.specs.ByteHash.{bytes_of};

    ghost spelling = { bytes_of };
}

impl Write for ByteDigest {
    fn write(&self, out: &mut Bytes) -> Result<(), CodecError> {
        out.extend_from_slice(&self.bytes)?;
        Ok(())
    }
}

impl EncodeSize for ByteDigest {
    fn encode_size(&self) -> u64 {
        1
    }
}

impl Read for ByteDigest {
    type Cfg = ();

    ghost use Rattle.evidence_table.specs.ByteHash.{IsDigest, digest_at, digest_lawful};

    ghost admits = { λ _. IsDigest };

    ghost reads = { λ _. digest_at };

    ghost lawful = { λ _. digest_lawful };

    fn read(_alloc: Global, buf: &mut Cursor<'_>, _cfg: &()) -> Result<Self, CodecError> {
        let mut bytes = [0u8; 1];
        let taken = buf.slice(1)?;
        bytes.copy_from_slice(taken);
        Ok(ByteDigest { bytes })
    }
}

impl FixedSize for ByteDigest {
    ghost use Rattle.evidence_table.specs.ByteHash.{digest_width};

    ghost width = { 1 };

    ghost one_width = { λ _. digest_width };

    fn size() -> u64 {
        1
    }
}

impl Duplicate for ByteDigest {
    fn duplicate(&self) -> Result<Self, CodecError> {
        Ok(*self)
    }
}

impl Digest for ByteDigest {
    ghost use Rattle.std.specs.Prelude.{refl};
    ghost use Rattle.std.proofs.Common.{ap};
    ghost use Rattle.evidence_table.specs.ByteHash.{bytes_of};

    ghost bytes = { bytes_of };

    ghost exact = { λ a b e. ap (λ xs. record { bytes = xs }) e };

    ghost spelled = { λ d. refl };

    ghost allowed = { λ d e. e };

    fn as_slice(&self) -> &[u8] {
        &self.bytes
    }
}

/// A byte that took one more byte in: a middle square.
fn mixed(state: u8, byte: u8) -> u8
    ensures { result ≡ absorbed state byte }
{
    let sum = u64::from(state) * 3 + u64::from(byte) + 7;
    (sum * sum / 16 % 256) as u8
}

/// A byte that took these bytes in, one after another.
fn mixed_all(state: u8, bytes: &[u8]) -> u8
    ensures { result ≡ absorbed_all state bytes.now }
{
    let mut mixture = state;
    for byte in bytes {
        mixture = mixed(mixture, *byte);
    }
    mixture
}

/// The hash of one byte.
#[derive(Drop)]
pub(crate) struct ByteHasher {
    state: u8,
}

impl Hasher for ByteHasher {
    type Digest = ByteDigest;

    ghost use Rattle.std.specs.Prelude.{◌≡◌, ◌∷◌, [], refl};
    ghost use Rattle.evidence_table.specs.ByteHash.{byte_hash};

    ghost hash = { record { digest = λ m. record { bytes = byte_hash m ∷ [] }; bytes = λ d. d.bytes } };

    ghost holds = { λ s m. s.state ≡ byte_hash m };

    ghost same_bytes = { λ d. refl };

    ghost one_size = { λ m. refl };

    fn new() -> Self {
        ByteHasher { state: 0 }
    }

    fn update(&mut self, bytes: &[u8]) {
        self.state = mixed_all(self.state, bytes);
    }

    fn finish(self) -> ByteDigest {
        ByteDigest {
            bytes: [self.state],
        }
    }
}
