ghost use Rattle.std.specs.Prelude.{◌≡◌, ℕ, List, length};

use codec_base::{Duplicate, EncodeSize, FixedSize, Read, Write};

/// What a hash function answers.
pub trait Digest: Copy + Eq + Drop + Duplicate + Write + EncodeSize + FixedSize + Read<Cfg = ()> {
    /// Its bytes.
    ghost bytes: { Self → List ℕ };

    /// Its bytes.
    fn as_slice(&self) -> &[u8]
        ensures bytes { result.now ≡ bytes self.now }
        ensures one_size { length result.now ≡ Self.FixedSize.width };

    /// Two digests with the same bytes are equal.
    ghost exact: { (a b : Self) → bytes a ≡ bytes b → a ≡ b };

    /// A digest is spelled as its bytes.
    ghost spelled: { (d : Self) → Self.spelling d ≡ bytes d };

    /// What has the length of a digest is allowed as one.
    ghost allowed: { (d : Self) → length (bytes d) ≡ Self.FixedSize.width → Self.Read.admits tt d };
}
