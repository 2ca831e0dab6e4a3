ghost use Rattle.std.specs.Prelude.{◌≡◌, slice_get, IfSome, IfNone, ◌↔◌, IsTrue};

use codec_base::Bytes;

/// Whether two byte lists are one.
pub(crate) fn is_equal(one: &Bytes, other: &Bytes) -> bool
    ensures { IsTrue result ↔ (one.now ≡ other.now) }
{
    one.as_slice() == other.as_slice()
}

/// The first place where two lists differ: in one of them another item stands there, or none.
pub(crate) fn first_difference(one: &[Bytes], other: &[Bytes]) -> Option<u64>
    ensures some { IfSome result (λ i. slice_get one.now i ≡ slice_get other.now i → ⊥) }
    ensures none { IfNone result (one.now ≡ other.now) }
{
    for i in 0..one.len() {
        if i >= other.len() || !is_equal(&one[i], &other[i]) {
            return Some(i as u64);
        }
    }
    if one.len() < other.len() {
        return Some(one.len() as u64);
    }
    None
}
