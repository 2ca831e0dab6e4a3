ghost use Rattle.std.specs.Prelude.{◌≡◌, ◌⊎◌, ℕ, List};
ghost use Rattle.std.proofs.Common.{inl, inr, refl};
ghost use Rattle.codec_base.specs.Parts.{byte_list};

use codec_base::{Bytes, Duplicate, EncodeSize, Read, U64, Write};

/// What can be a key.
pub trait Key: Ord + Write + EncodeSize + Read + Duplicate + Drop {
    /// The raw bytes.
    ghost raw: { Self → List ℕ };

    /// The raw bytes: the spelling, without the length in front where the key is a byte list. It takes no memory.
    fn raw(&self) -> &[u8]
        ensures { result.now ≡ raw self.now };

    /// A key is spelled as its raw bytes, or as the byte list of them.
    ghost of_spelling: { (k : Self) → (Self.spelling k ≡ raw k) ⊎ (Self.spelling k ≡ byte_list (raw k)) };
}

impl Key for U64 {
    ghost use Rattle.codec_base.specs.Laws.{eight_bytes};

    ghost raw = { eight_bytes };

    ghost of_spelling = { λ k. inl refl };

    fn raw(&self) -> &[u8] {
        self.as_slice()
    }
}

impl Key for Bytes {
    ghost raw = { λ bytes. bytes };

    ghost of_spelling = { λ k. inr refl };

    fn raw(&self) -> &[u8] {
        self.as_slice()
    }
}
