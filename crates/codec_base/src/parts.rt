//! Byte lists, options and lists.
ghost use Rattle.std.specs.Prelude.{◌≡◌, ℕ, ◌<◌, ◌≤◌, ◌^◌, List, [], ◌∷◌, ◌++◌, length, take, OnOk, OnErr, IsOkUnless};
ghost use Rattle.std.specs.List.{flat_map};
ghost use Rattle.codec_base.specs.Codec.{Takes, TakesAs, held};
ghost use Rattle.codec_base.specs.Parts.{byte_list, byte_list_at, admits_bytes, optional, optional_at, admits_optional, spelled_list, items_at, list_at, admits_list};
ghost use Rattle.codec_base.specs.PartsLaws.{byte_list_lawful, optional_lawful, list_lawful};

use crate::error::InvalidAt;
use crate::varint::{read_varint, varint_size, write_varint};
use crate::{Bytes, CodecError, Cursor, EncodeSize, ListOf, Read, Spelled, Write, undo_on_err};
use std::alloc::Global;

/// The longest byte list that is allowed.
#[derive(Clone, Copy, Debug, PartialEq, Eq)]
pub struct LengthCfg {
    /// The most bytes.
    pub max: u64,
}

/// The longest list that is allowed, and what its items may be.
#[derive(Drop)]
pub struct ListCfg<C> {
    /// The most items.
    pub max: u64,
    /// What is allowed of each item.
    pub item: C,
}

impl Spelled for Bytes {
    ghost spelling = { byte_list };
}

impl Write for Bytes {
    fn write(&self, out: &mut Bytes) -> Result<(), CodecError> {
        let length = out.len();
        write_varint(self.len(), out)?;
        undo_on_err(out.extend_from_slice(self.as_slice()), length, out)
    }
}

impl EncodeSize for Bytes {
    fn encode_size(&self) -> u64 {
        varint_size(self.len()).saturating_add(self.len())
    }
}

impl Read for Bytes {
    type Cfg = LengthCfg;

    ghost admits = { λ cfg. admits_bytes cfg.max };

    ghost reads = { λ cfg. byte_list_at cfg.max };

    ghost lawful = { λ cfg. byte_list_lawful cfg.max };

    #[tactic(auto, unfolding(crate::specs::Parts::byte_list_at))]
    fn read(alloc: Global, buf: &mut Cursor<'_>, cfg: &LengthCfg) -> Result<Self, CodecError> {
        let mut ahead = buf.copy();
        let length = read_varint(&mut ahead)?;
        if length > cfg.max {
            return Err(CodecError::Invalid(InvalidAt::Length));
        }
        let bytes = ahead.slice(length as usize)?;
        let bytes = Bytes::from_slice(alloc, bytes)?;
        *buf = ahead;
        Ok(bytes)
    }
}

impl<T: Spelled> Spelled for Option<T> {
    ghost spelling = { optional T.spelling };
}

impl<T: Write> Write for Option<T> {
    fn write(&self, out: &mut Bytes) -> Result<(), CodecError> {
        match self {
            None => out.push(0),
            Some(value) => {
                let length = out.len();
                out.push(1)?;
                undo_on_err(value.write(out), length, out)
            }
        }
    }
}

impl<T: EncodeSize> EncodeSize for Option<T> {
    fn encode_size(&self) -> u64 {
        match self {
            None => 1,
            Some(value) => value.encode_size().saturating_add(1),
        }
    }
}

impl<T: Read> Read for Option<T> {
    type Cfg = T::Cfg;

    ghost admits = { λ cfg. admits_optional (T.admits cfg) };

    ghost reads = { λ cfg. optional_at (T.reads cfg) };

    ghost lawful = { λ cfg. optional_lawful T.spelling (T.admits cfg) (T.reads cfg) (T.lawful cfg) };

    fn read(alloc: Global, buf: &mut Cursor<'_>, cfg: &T::Cfg) -> Result<Self, CodecError> {
        let mut ahead = buf.copy();
        match ahead.byte()? {
            0 => {
                *buf = ahead;
                Ok(None)
            }
            1 => {
                let value = T::read(alloc, &mut ahead, cfg)?;
                *buf = ahead;
                Ok(Some(value))
            }
            _ => Err(CodecError::Invalid(InvalidAt::Option)),
        }
    }
}

impl<T: Spelled> Spelled for ListOf<T> {
    ghost spelling = { spelled_list T.spelling };
}

impl<T: Write + Drop> Write for ListOf<T> {
    fn write(&self, out: &mut Bytes) -> Result<(), CodecError> {
        let length = out.len();
        write_varint(self.len(), out)?;
        undo_on_err(write_items(self.as_slice(), out), length, out)
    }
}

/// Adds the items one after another.
fn write_items<T: Write>(items: &[T], out: &mut Bytes) -> Result<(), CodecError>
    ensures ok { OnOk result (out.new ≡ out.old ++ flat_map T.spelling items.now) }
    ensures err { OnErr result (out.new ≡ out.old) }
    ensures memory { IsOkUnless result CodecError.Memory }
{
    let length = out.len();
    for item in items {
        undo_on_err(item.write(out), length, out)?;
    }
    Ok(())
}

impl<T: EncodeSize + Drop> EncodeSize for ListOf<T> {
    fn encode_size(&self) -> u64 {
        varint_size(self.len()).saturating_add(items_size(self.as_slice()))
    }
}

/// The length of the items' spellings.
fn items_size<T: EncodeSize>(items: &[T]) -> u64
    ensures { result ≡ held (length (flat_map T.spelling items.now)) }
{
    let mut size: u64 = 0;
    for item in items {
        size = size.saturating_add(item.encode_size());
    }
    size
}

impl<T: Read + Drop> Read for ListOf<T> {
    type Cfg = ListCfg<T::Cfg>;

    ghost admits = { λ cfg. admits_list cfg.max (T.admits cfg.item) };

    ghost reads = { λ cfg. list_at cfg.max (T.reads cfg.item) };

    ghost lawful = { λ cfg. list_lawful T.spelling (T.admits cfg.item) (T.reads cfg.item) (T.lawful cfg.item) cfg.max };

    #[tactic(auto, unfolding(crate::specs::Parts::list_at))]
    fn read(
        alloc: Global,
        buf: &mut Cursor<'_>,
        cfg: &ListCfg<T::Cfg>,
    ) -> Result<Self, CodecError> {
        let mut ahead = buf.copy();
        let count = read_varint(&mut ahead)?;
        if count > cfg.max {
            return Err(CodecError::Invalid(InvalidAt::Length));
        }
        let items = items_of(alloc, count, &cfg.item, &mut ahead)?;
        *buf = ahead;
        Ok(ListOf::from_vec(items))
    }
}

/// Takes this many items.
fn items_of<T: Read + Drop>(
    alloc: Global,
    count: u64,
    cfg: &T::Cfg,
    buf: &mut Cursor<'_>,
) -> Result<Vec<T>, CodecError>
    ensures { TakesAs (λ v. v.items) result buf.new (items_at (T.reads cfg.now) count buf.old) }
{
    let mut items = Vec::new(alloc);
    for _ in 0..count {
        let item = T::read(alloc, buf, cfg)?;
        items.push(item)?;
    }
    Ok(items)
}
