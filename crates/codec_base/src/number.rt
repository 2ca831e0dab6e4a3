//! A number that holds its eight bytes.
ghost use Rattle.std.specs.Prelude.{◌≡◌, ◌<◌, ◌^◌, ℕ, List};
ghost use Rattle.std.specs.Int.{w64, from_be_bytes};
ghost use Rattle.codec_base.specs.Codec.{Takes, IsBytes};
ghost use Rattle.codec_base.specs.Numbers.{u64_at};
ghost use Rattle.codec_base.specs.Laws.{eight_bytes, below_64, u64_lawful};

use crate::{Bytes, CodecError, Cursor, Duplicate, EncodeSize, FixedSize, Read, Spelled, Write};
use std::alloc::Global;
use std::cmp::Ordering;
use std::hash::{Hash, Hasher};
use std::marker::Model;

/// A number, high byte first.
#[derive(Debug, Drop)]
pub struct U64 {
    bytes: [u8; 8],
}

impl Model for U64 {
    ghost Value = { ℕ };

    ghost view = { λ n. from_be_bytes w64 n.bytes };

    ghost invariant = { λ n. IsBytes n.bytes };
}

impl U64 {
    /// The number of this value.
    pub fn new(value: u64) -> U64
        ensures { result ≡ value }
    {
        U64 {
            bytes: value.to_be_bytes(),
        }
    }

    /// Its value.
    pub fn get(&self) -> u64
        ensures { result ≡ self.now }
    {
        u64::from_be_bytes(self.bytes)
    }

    /// Its eight bytes, the high one first.
    pub fn as_slice(&self) -> &[u8]
        ensures { result.now ≡ eight_bytes self.now }
    {
        &self.bytes
    }
}

impl Spelled for U64 {
    ghost spelling = { eight_bytes };
}

impl Write for U64 {
    fn write(&self, out: &mut Bytes) -> Result<(), CodecError> {
        self.get().write(out)
    }
}

impl EncodeSize for U64 {
    fn encode_size(&self) -> u64 {
        8
    }
}

impl Read for U64 {
    type Cfg = ();

    ghost admits = { λ _. below_64 };

    ghost reads = { λ _. u64_at };

    ghost lawful = { λ _. u64_lawful };

    fn read(_alloc: Global, buf: &mut Cursor<'_>, _cfg: &()) -> Result<Self, CodecError> {
        let value = buf.number()?;
        Ok(U64::new(value))
    }
}

impl FixedSize for U64 {
    ghost use Rattle.std.specs.Prelude.{refl};

    ghost width = { 8 };

    ghost one_width = { λ _ x h. refl };

    fn size() -> u64 {
        8
    }
}

impl PartialEq for U64 {
    ghost use Rattle.std.specs.Prelude.{nat_eq};
    ghost use Rattle.std.specs.Cmp.{partial_equiv_from_equiv, nat_eq_equiv};

    ghost eq = { nat_eq };

    ghost laws = { partial_equiv_from_equiv nat_eq_equiv };

    fn eq(&self, other: &Self) -> bool {
        self.get() == other.get()
    }
}

impl Eq for U64 {
    ghost use Rattle.std.specs.Cmp.{nat_eq_equiv};

    ghost laws = { nat_eq_equiv };
}

impl PartialOrd for U64 {
    ghost use Rattle.std.specs.Prelude.{Some};
    ghost use Rattle.std.specs.Ordering.{nat_cmp};
    ghost use Rattle.std.proofs.Common.{rules};
    ghost use Rattle.std.specs.Cmp.Rules.{comparing};

    ghost partial_cmp = { λ x y. Some (nat_cmp x y) };

    ghost laws = { Prim.search (comparing, rules) };

    fn partial_cmp(&self, other: &Self) -> Option<Ordering> {
        Some(self.cmp(other))
    }
}

impl Ord for U64 {
    ghost use Rattle.std.proofs.Common.{rules};
    ghost use Rattle.std.specs.Ordering.{nat_cmp};
    ghost use Rattle.std.specs.Cmp.Rules.{comparing};

    ghost cmp = { nat_cmp };

    ghost total = { Prim.search (comparing, rules) };

    ghost matches_partial_cmp = { Prim.search (comparing, rules) };

    ghost matches_eq = { Prim.search (comparing, rules) };

    fn cmp(&self, other: &Self) -> Ordering {
        self.get().cmp(&other.get())
    }
}

impl Hash for U64 {
    ghost use Rattle.std.proofs.Common.{rules};
    ghost use Rattle.std.specs.Hash as fed;
    ghost use Rattle.std.specs.Cmp.Rules.{hashing};

    ghost hash_input = { fed.u64 };

    ghost respects_eq = { Prim.search (hashing, rules) };

    fn hash<H: Hasher>(&self, state: &mut H) {
        self.get().hash(state);
    }
}

impl Duplicate for U64 {
    fn duplicate(&self) -> Result<Self, CodecError> {
        Ok(U64::new(self.get()))
    }
}
