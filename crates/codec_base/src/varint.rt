//! Numbers in groups of seven bits.
ghost use Rattle.std.specs.Prelude.{◌≡◌, ℕ, ◌+◌, ◌<◌, ◌≤◌, ◌^◌, List, [], ◌∷◌, ◌++◌, length, take, OnOk, OnErr, IfOk, IsErrOf, IsOkUnless};
ghost use Rattle.codec_base.specs.Codec.{Takes};
ghost use Rattle.codec_base.specs.Varint.{limit, groups, last_group, groups_at, varint, varint_at};

use crate::error::InvalidAt;
use crate::{Bytes, CodecError, Cursor, undo_on_err};

/// Takes one group, of at least `low` where it is the last, and at most `more` behind it.
fn groups_of(buf: &mut Cursor<'_>, more: u8, low: u8) -> Result<u64, CodecError>
    requires few { more ≤ 9 }
    requires low { low ≤ 1 }
    ensures taken { Takes result buf.new (groups_at more low buf.old) }
    ensures no_memory { IsErrOf result CodecError.Memory → ⊥ }
    ensures below { IfOk result (λ n. n < limit more) }
{
    let byte = buf.byte()?;
    if byte >= 128 {
        if more == 0 {
            return Err(CodecError::Invalid(InvalidAt::Varint));
        }
        let high = groups_of(buf, more - 1, 1)?;
        return Ok(u64::from(byte - 128) + 128 * high);
    }
    last_of(byte, more, low)
}

/// The number of a group that is the last.
fn last_of(byte: u8, more: u8, low: u8) -> Result<u64, CodecError>
    requires last { byte < 128 }
    ensures taken { (rest : List ℕ) → Takes result rest (last_group more low byte rest) }
    ensures no_memory { IsErrOf result CodecError.Memory → ⊥ }
    ensures below { IfOk result (λ n. n < limit more) }
{
    if byte < low {
        return Err(CodecError::Invalid(InvalidAt::Varint));
    }
    if more > 0 {
        return Ok(u64::from(byte));
    }
    if byte < 2 {
        return Ok(u64::from(byte));
    }
    Err(CodecError::Invalid(InvalidAt::Varint))
}

/// Adds the groups of a number.
fn put_groups(value: u64, more: u8, out: &mut Bytes) -> Result<(), CodecError>
    requires few { more ≤ 9 }
    requires below { value < limit more }
    ensures ok { OnOk result (out.new ≡ out.old ++ groups more value) }
    ensures err { OnErr result (out.new ≡ out.old) }
    ensures memory { IsOkUnless result CodecError.Memory }
{
    if value < 128 {
        return out.push(value as u8);
    }
    let length = out.len();
    out.push((value % 128) as u8 + 128)?;
    undo_on_err(put_groups(value / 128, more - 1, out), length, out)
}

/// How many groups a number has.
fn count_groups(value: u64, more: u8) -> u64
    requires few { more ≤ 9 }
    requires below { value < limit more }
    ensures count { result ≡ length (groups more value) }
    ensures few { result ≤ more + 1 }
{
    if value < 128 {
        return 1;
    }
    1 + count_groups(value / 128, more - 1)
}

/// Takes a number, its low group first. An end inside it is `EndOfBuffer`; a last group of zero behind others, or a
/// number past 64 bits, is `Invalid` at the varint. On an error the cursor stays.
#[tactic(auto, unfolding(crate::specs::Varint::varint_at))]
pub fn read_varint(buf: &mut Cursor<'_>) -> Result<u64, CodecError>
    ensures taken { Takes result buf.new (varint_at buf.old) }
    ensures no_memory { IsErrOf result CodecError.Memory → ⊥ }
    ensures err { OnErr result (buf.new ≡ buf.old) }
{
    let mut ahead = buf.copy();
    let value = groups_of(&mut ahead, 9, 0)?;
    *buf = ahead;
    Ok(value)
}

/// Adds a number in its shortest spelling, the low group first: one byte to ten. It fails for want of memory alone,
/// and then adds nothing.
#[tactic(auto, unfolding(crate::specs::Varint::varint))]
pub fn write_varint(value: u64, out: &mut Bytes) -> Result<(), CodecError>
    ensures ok { OnOk result (out.new ≡ out.old ++ varint value) }
    ensures err { OnErr result (out.new ≡ out.old) }
    ensures memory { IsOkUnless result CodecError.Memory }
{
    put_groups(value, 9, out)
}

/// The length of a number's spelling, in bytes: one to ten.
#[tactic(auto, unfolding(crate::specs::Varint::varint))]
pub fn varint_size(value: u64) -> u64
    ensures size { result ≡ length (varint value) }
    ensures few { result ≤ 10 }
{
    count_groups(value, 9)
}
