//! A commit's metadata and floor, in both encodings.
ghost use Rattle.std.specs.Prelude.{◌≡◌, ◌+◌, ◌-◌, ◌<◌, ◌^◌, ◌++◌, length, OnOk, OnErr, IsOkUnless};
ghost use Rattle.codec_base.specs.Codec.{Takes, held};
ghost use Rattle.op_codec.specs.Commits.{variable_commit, variable_commit_at, floor_at, filled, filled_at, fixed_commit, fixed_commit_at, wide_floor_at};

use codec_base::{
    Bytes, CodecError, Cursor, EncodeSize, FixedSize, InvalidAt, Read, Write, read_varint,
    read_zeros, undo_on_err, varint_size, write_varint, write_zeros,
};
use std::alloc::Global;
use tree_shape::Location;

/// Adds the metadata, and the floor as a varint.
pub fn write_commit_variable<F, V: Write>(
    metadata: &Option<V>,
    floor: &Location<F>,
    out: &mut Bytes,
) -> Result<(), CodecError>
    ensures ok { OnOk result (out.new ≡ out.old ++ variable_commit V.spelling (metadata.now, floor.now)) }
    ensures err { OnErr result (out.new ≡ out.old) }
    ensures memory { IsOkUnless result CodecError.Memory }
{
    let length = out.len();
    metadata.write(out)?;
    undo_on_err(write_varint(floor.as_u64(), out), length, out)
}

/// The length of the metadata and of the floor as a varint.
pub fn commit_variable_size<F, V: EncodeSize>(metadata: &Option<V>, floor: &Location<F>) -> u64
    ensures { result ≡ held (length (variable_commit V.spelling (metadata.now, floor.now))) }
{
    metadata
        .encode_size()
        .saturating_add(varint_size(floor.as_u64()))
}

/// Takes the metadata, and the floor as a varint. It refuses at the first fault of the option byte, of the value and of
/// the varint, and with `Invalid` at the location where the floor is above `MAX_LEAVES`.
pub fn read_commit_variable<F, V: Read + Drop>(
    alloc: Global,
    buf: &mut Cursor<'_>,
    cfg: &V::Cfg,
) -> Result<(Option<V>, Location<F>), CodecError>
    ensures { Takes result buf.new (variable_commit_at (V.reads cfg.now) buf.old) }
{
    let metadata = Option::<V>::read(alloc, buf, cfg)?;
    let floor = floor_of(buf)?;
    Ok((metadata, floor))
}

/// Takes a floor as a varint.
fn floor_of<F>(buf: &mut Cursor<'_>) -> Result<Location<F>, CodecError>
    ensures { Takes result buf.new (floor_at buf.old) }
{
    let floor = Location::new(read_varint(buf)?);
    if !floor.is_valid() {
        return Err(CodecError::Invalid(InvalidAt::Location));
    }
    Ok(floor)
}

/// Adds the metadata or zeros in its place, and the floor in eight bytes.
pub fn write_commit_fixed<F, V: Write + FixedSize>(
    metadata: &Option<V>,
    floor: &Location<F>,
    out: &mut Bytes,
) -> Result<(), CodecError>
    ensures ok { OnOk result (out.new ≡ out.old ++ fixed_commit V.width V.spelling (metadata.now, floor.now)) }
    ensures err { OnErr result (out.new ≡ out.old) }
    ensures memory { IsOkUnless result CodecError.Memory }
{
    let length = out.len();
    write_filled(metadata, out)?;
    undo_on_err(floor.as_u64().write(out), length, out)
}

/// Adds a value, or zeros in its place.
fn write_filled<V: Write + FixedSize>(
    metadata: &Option<V>,
    out: &mut Bytes,
) -> Result<(), CodecError>
    ensures ok { OnOk result (out.new ≡ out.old ++ filled V.width V.spelling metadata.now) }
    ensures err { OnErr result (out.new ≡ out.old) }
    ensures memory { IsOkUnless result CodecError.Memory }
{
    let length = out.len();
    match metadata {
        None => {
            out.push(0)?;
            undo_on_err(write_zeros(V::size(), out), length, out)
        }
        Some(value) => {
            out.push(1)?;
            undo_on_err(value.write(out), length, out)
        }
    }
}

/// The length of the metadata or of the zeros in its place, and of the floor in eight bytes.
#[tactic(auto, using(crate::specs::Commits::lengths))]
pub fn commit_fixed_size<F, V: EncodeSize + FixedSize>(
    metadata: &Option<V>,
    _floor: &Location<F>,
) -> u64
    ensures { result ≡ held (length (fixed_commit V.width V.spelling (metadata.now, _floor.now))) }
{
    filled_size(metadata).saturating_add(8)
}

/// The length of a value, or of zeros in its place.
#[tactic(auto, using(crate::specs::Commits::lengths))]
fn filled_size<V: EncodeSize + FixedSize>(metadata: &Option<V>) -> u64
    ensures { result ≡ held (length (filled V.width V.spelling metadata.now)) }
{
    match metadata {
        None => V::size().saturating_add(1),
        Some(value) => value.encode_size().saturating_add(1),
    }
}

/// Takes the metadata or zeros in its place, and the floor in eight bytes. It refuses at the first fault of the option
/// byte, of the value or of the padding, and of the number, and with `Invalid` at the location where the floor is above
/// `MAX_LEAVES`.
pub fn read_commit_fixed<F, V: FixedSize + Drop>(
    alloc: Global,
    buf: &mut Cursor<'_>,
    cfg: &V::Cfg,
) -> Result<(Option<V>, Location<F>), CodecError>
    requires { V.width < 2 ^ 64 - 1 }
    ensures { Takes result buf.new (fixed_commit_at V.width (V.reads cfg.now) buf.old) }
{
    let metadata = filled_of(alloc, buf, cfg)?;
    let floor = wide_floor_of(buf)?;
    Ok((metadata, floor))
}

/// Takes a value, or zeros in its place.
fn filled_of<V: FixedSize>(
    alloc: Global,
    buf: &mut Cursor<'_>,
    cfg: &V::Cfg,
) -> Result<Option<V>, CodecError>
    requires { V.width < 2 ^ 64 - 1 }
    ensures { Takes result buf.new (filled_at V.width (V.reads cfg.now) buf.old) }
{
    match buf.byte()? {
        0 => {
            read_zeros(buf, V::size())?;
            Ok(None)
        }
        1 => {
            let value = V::read(alloc, buf, cfg)?;
            Ok(Some(value))
        }
        _ => Err(CodecError::Invalid(InvalidAt::Option)),
    }
}

/// Takes a floor in eight bytes.
fn wide_floor_of<F>(buf: &mut Cursor<'_>) -> Result<Location<F>, CodecError>
    ensures { Takes result buf.new (wide_floor_at buf.old) }
{
    let floor = Location::new(buf.number()?);
    if !floor.is_valid() {
        return Err(CodecError::Invalid(InvalidAt::Location));
    }
    Ok(floor)
}
