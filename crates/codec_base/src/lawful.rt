//! What holds of every codec, for callers that are generic over it.
ghost use Rattle.std.specs.Prelude.{◌≡◌, ◌++◌, ℕ, List, [], length, Ok, Err};
ghost use Rattle.codec_base.specs.declared.error.CodecError.{CodecError};
ghost use Rattle.codec_base.specs.Codec.{IsBytes};
ghost use Rattle.codec_base.specs.Parts.{whole};

use crate::{FixedSize, Read};

/// The laws of spellings, for the values that a configuration allows.
pub fn spelling_laws<T: Read>(cfg: &T::Cfg)
    // No byte string is the spelling of two values.
    ensures one_value { (x y : T) → T.admits cfg.now x → T.admits cfg.now y → T.spelling x ≡ T.spelling y → x ≡ y }
    // No spelling begins another.
    ensures no_front { (x y : T) (more : List ℕ) → T.admits cfg.now x → T.admits cfg.now y →
        T.spelling y ≡ T.spelling x ++ more → (x ≡ y) × (more ≡ []) }
    // What is spelled is read back, and exactly it is taken.
    ensures read_back { (x : T) (rest : List ℕ) → T.admits cfg.now x →
        T.reads cfg.now (T.spelling x ++ rest) ≡ Ok (x, rest) }
    // What is read stood there, and is allowed.
    ensures exact { (bytes : List ℕ) (x : T) (rest : List ℕ) → IsBytes bytes → T.reads cfg.now bytes ≡ Ok (x, rest) →
        (bytes ≡ T.spelling x ++ rest) × T.admits cfg.now x }
    // A refusal comes only where no front of the input is a spelling.
    ensures refused { (bytes : List ℕ) (e : CodecError) → T.reads cfg.now bytes ≡ Err e → (x : T) (rest : List ℕ) →
        T.admits cfg.now x → bytes ≡ T.spelling x ++ rest → ⊥ }
    // A whole spelling is the one of its value.
    ensures decoded { (x : T) → T.admits cfg.now x → whole (T.reads cfg.now (T.spelling x)) ≡ Ok x }
{}

/// Spellings of one length have it.
pub fn width_law<T: FixedSize>(cfg: &T::Cfg)
    ensures { (x : T) → T.admits cfg.now x → length (T.spelling x) ≡ T.width }
{}
