//! Spellings from outside, and each call that takes memory once.
use codec_base::{
    Bytes, CodecError, Cursor, Duplicate, EncodeSize, FixedSize, InvalidAt, LengthCfg, ListCfg,
    ListOf, Read, U64, Write, decode, encode, read_varint, read_zeros, spelling_laws, varint_size,
    width_law, write_varint, write_zeros,
};
use std::alloc::Global;
use std::test::Fail;

const NUMBERS: [(u64, &[u8]); 4] = [
    (0, &[0x00]),
    (8, &[0x08]),
    (300, &[0xac, 0x02]),
    (
        u64::MAX,
        &[0xff, 0xff, 0xff, 0xff, 0xff, 0xff, 0xff, 0xff, 0xff, 0x01],
    ),
];

const NO_NUMBERS: [(&[u8], CodecError); 4] = [
    (&[0x80], CodecError::EndOfBuffer),
    (&[0x80, 0x00], CodecError::Invalid(InvalidAt::Varint)),
    (
        &[0xff, 0xff, 0xff, 0xff, 0xff, 0xff, 0xff, 0xff, 0xff, 0x02],
        CodecError::Invalid(InvalidAt::Varint),
    ),
    (
        &[0x80, 0x80, 0x80, 0x80, 0x80, 0x80, 0x80, 0x80, 0x80, 0x80],
        CodecError::Invalid(InvalidAt::Varint),
    ),
];

/// Whether a number is written in these bytes.
fn is_varint(alloc: Global, value: u64, want: &[u8]) -> Result<bool, CodecError> {
    let mut out = Bytes::new(alloc);
    write_varint(value, &mut out)?;
    Ok(out.as_slice() == want)
}

#[test]
fn numbers_in_groups_of_seven_bits(rt: HostRuntime) -> Result<(), Fail> {
    for (value, bytes) in NUMBERS {
        assert!(rt; is_varint(rt.alloc(), value, bytes)?);
        assert!(rt; varint_size(value) == bytes.len() as u64);
        assert!(rt; read_varint(&mut Cursor::new(bytes)) == Ok(value));
    }
    Ok(())
}

#[test]
fn other_groups_are_no_numbers(rt: HostRuntime) -> Result<(), Fail> {
    for (bytes, want) in NO_NUMBERS {
        assert!(rt; read_varint(&mut Cursor::new(bytes)) == Err(want));
    }
    Ok(())
}

/// Whether a copy of a value is written in these bytes.
fn is_written<T: Write + EncodeSize + Duplicate + Drop>(
    alloc: Global,
    value: &T,
    want: &[u8],
) -> Result<bool, CodecError> {
    Ok(encode(alloc, &value.duplicate()?)?.as_slice() == want)
}

/// Whether a value is read from these bytes, of which it tells the number.
fn is_read<T: EncodeSize + Read + PartialEq + Drop>(
    alloc: Global,
    value: &T,
    cfg: &T::Cfg,
    bytes: &[u8],
) -> Result<bool, CodecError> {
    Ok(decode::<T>(alloc, bytes, cfg)? == *value && value.encode_size() == bytes.len() as u64)
}

/// Whether a value is written in these bytes and read from them.
fn is_spelled<T: Write + EncodeSize + Read + Duplicate + PartialEq + Drop>(
    alloc: Global,
    value: &T,
    cfg: &T::Cfg,
    bytes: &[u8],
) -> Result<bool, CodecError> {
    Ok(is_written(alloc, value, bytes)? && is_read(alloc, value, cfg, bytes)?)
}

#[test]
fn numbers_are_spelled(rt: HostRuntime) -> Result<(), Fail> {
    assert!(rt; is_spelled(rt.alloc(), &7u8, &(), &[7])?);
    assert!(rt; is_spelled(rt.alloc(), &258u64, &(), &[0, 0, 0, 0, 0, 0, 1, 2])?);
    assert!(rt; is_spelled(rt.alloc(), &U64::new(258), &(), &[0, 0, 0, 0, 0, 0, 1, 2])?);
    assert!(rt; is_spelled(rt.alloc(), &None::<u8>, &(), &[0])?);
    assert!(rt; U64::size() == 8);
    width_law::<U64>(&());
    Ok(())
}

/// Two bytes, made by each call that changes a byte list.
fn two_bytes(alloc: Global) -> Result<Bytes, CodecError> {
    let mut bytes = Bytes::new(alloc);
    bytes.push(0x61)?;
    bytes.extend_from_slice(b"bc")?;
    bytes.truncate(2);
    Ok(bytes)
}

#[test]
fn byte_lists_are_spelled(rt: HostRuntime) -> Result<(), Fail> {
    let cfg = LengthCfg { max: 2 };
    let text = Some(two_bytes(rt.alloc())?);
    assert!(rt; is_spelled(rt.alloc(), &text, &cfg, &[1, 2, 0x61, 0x62])?);
    spelling_laws::<Bytes>(&cfg);
    Ok(())
}

/// The list of one number.
fn list_of_one(alloc: Global) -> Result<ListOf<U64>, CodecError> {
    let mut list = ListOf::new(alloc);
    list.push(U64::new(1))?;
    Ok(list)
}

#[test]
fn lists_are_spelled(rt: HostRuntime) -> Result<(), Fail> {
    let cfg = ListCfg { max: 2, item: () };
    let list = list_of_one(rt.alloc())?;
    assert!(rt; is_spelled(rt.alloc(), &list, &cfg, &[1, 0, 0, 0, 0, 0, 0, 0, 1])?);
    Ok(())
}

/// Why bytes are no value.
fn refusal<T: Read + Drop>(alloc: Global, bytes: &[u8], cfg: &T::Cfg) -> Option<CodecError> {
    decode::<T>(alloc, bytes, cfg).err()
}

#[test]
fn other_spellings_are_refused(rt: HostRuntime) {
    let alloc = rt.alloc();
    let extra = Some(CodecError::Invalid(InvalidAt::ExtraData));
    let length = Some(CodecError::Invalid(InvalidAt::Length));
    let option = Some(CodecError::Invalid(InvalidAt::Option));
    let cfg = LengthCfg { max: 2 };
    assert!(rt; refusal::<u64>(alloc, &[0; 7], &()) == Some(CodecError::EndOfBuffer));
    assert!(rt; refusal::<u64>(alloc, &[0; 9], &()) == extra);
    assert!(rt; refusal::<Bytes>(alloc, &[3], &cfg) == length);
    assert!(rt; refusal::<Bytes>(alloc, &[2, 0x61], &cfg) == Some(CodecError::EndOfBuffer));
    assert!(rt; refusal::<Option<u8>>(alloc, &[2, 7], &()) == option);
    assert!(rt; refusal::<ListOf<u8>>(alloc, &[2], &ListCfg { max: 1, item: () }) == length);
}

#[test]
fn zeros_are_written_and_read(rt: HostRuntime) -> Result<(), Fail> {
    let mut zeros = Bytes::new(rt.alloc());
    write_zeros(3, &mut zeros)?;
    assert!(rt; zeros.as_slice() == [0, 0, 0].as_slice());
    let padding = Err(CodecError::Invalid(InvalidAt::Padding));
    assert!(rt; read_zeros(&mut Cursor::new(&[0, 1, 0]), 3) == padding);
    Ok(())
}
