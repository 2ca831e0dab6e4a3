//! Operations: examples written out by hand, and each call that takes memory once.
use crate::spelled::{refusal, spells};
use codec_base::{
    Bytes, CodecError, Duplicate, EncodeSize, FixedSize, InvalidAt, LengthCfg, Read, U64, Write,
};
use op_codec::{
    Committable, FixedEncoding, Floored, Key, OperationTrait, VariableEncoding, immutable, keyless,
};
use std::alloc::Global;
use std::hash::{DefaultHasher, Hash, Hasher};
use std::test::Fail;
use tree_shape::{Location, Mmb, Mmr};

type Words = keyless::Operation<Mmr, VariableEncoding<Bytes>>;

type Numbers = keyless::Operation<Mmr, FixedEncoding<U64>>;

type KeyedNumbers = immutable::Operation<Mmr, U64, FixedEncoding<U64>>;

type BeltWords = keyless::Operation<Mmb, VariableEncoding<Bytes>>;

type BeltKeyedWords = immutable::Operation<Mmb, Bytes, VariableEncoding<Bytes>>;

/// Two letters.
fn word(alloc: Global) -> Result<Bytes, CodecError> {
    Bytes::from_slice(alloc, b"ab")
}

/// Whether a copy of a value is spelled by these bytes.
fn copy_spells<T: Write + EncodeSize + Read + Duplicate + PartialEq + Drop>(
    alloc: Global,
    value: T,
    cfg: &T::Cfg,
    bytes: &[u8],
) -> Result<bool, CodecError> {
    spells(alloc, value.duplicate()?, cfg, bytes)
}

#[test]
fn keyless_operations_are_spelled(rt: HostRuntime) -> Result<(), Fail> {
    let (alloc, cfg) = (rt.alloc(), LengthCfg { max: 4 });
    let commit = BeltWords::Commit(Some(word(alloc)?), Location::new(300));
    assert!(rt; copy_spells(alloc, commit, &cfg, &[0, 1, 2, 0x61, 0x62, 0xac, 2])?);
    let bytes = [1, 0, 0, 0, 0, 0, 0, 1, 2, 0, 0, 0, 0, 0, 0, 0, 0, 0];
    assert!(rt; spells(alloc, Numbers::Append(U64::new(258)), &(), &bytes)?);
    assert!(rt; Numbers::size() == 18);
    Ok(())
}

#[test]
fn immutable_operations_are_spelled(rt: HostRuntime) -> Result<(), Fail> {
    let alloc = rt.alloc();
    let cfg = (LengthCfg { max: 1 }, LengthCfg { max: 4 });
    let set = BeltKeyedWords::Set(Bytes::from_slice(alloc, b"k")?, word(alloc)?);
    assert!(rt; copy_spells(alloc, set, &cfg, &[0, 1, 0x6b, 2, 0x61, 0x62])?);
    let commit = KeyedNumbers::Commit(Some(U64::new(5)), Location::new(3));
    let bytes = [1, 1, 0, 0, 0, 0, 0, 0, 0, 5, 0, 0, 0, 0, 0, 0, 0, 3];
    assert!(rt; spells(alloc, commit, &((), ()), &bytes)?);
    assert!(rt; KeyedNumbers::size() == 18);
    Ok(())
}

#[test]
fn each_variant_of_any_length_has_its_spelling(rt: HostRuntime) -> Result<(), Fail> {
    let (alloc, cfg) = (rt.alloc(), LengthCfg { max: 4 });
    assert!(rt;
        spells(
            alloc,
            Words::Append(word(alloc)?),
            &cfg,
            &[1, 2, 0x61, 0x62]
        )?
    );
    let commit = Words::Commit(Some(word(alloc)?), Location::new(7));
    assert!(rt; spells(alloc, commit, &cfg, &[0, 1, 2, 0x61, 0x62, 7])?);
    let bare = BeltKeyedWords::Commit(None, Location::new(7));
    let keyed = (LengthCfg { max: 1 }, LengthCfg { max: 4 });
    assert!(rt; spells(alloc, bare, &keyed, &[1, 0, 7])?);
    Ok(())
}

#[test]
fn each_variant_of_one_size_has_its_spelling(rt: HostRuntime) -> Result<(), Fail> {
    let none = Numbers::Commit(None, Location::new(3));
    let bytes = [0, 0, 0, 0, 0, 0, 0, 0, 0, 0, 0, 0, 0, 0, 0, 0, 0, 3];
    assert!(rt; spells(rt.alloc(), none, &(), &bytes)?);
    let set = KeyedNumbers::Set(U64::new(1), U64::new(2));
    let bytes = [0, 0, 0, 0, 0, 0, 0, 0, 1, 0, 0, 0, 0, 0, 0, 0, 2, 0];
    assert!(rt; spells(rt.alloc(), set, &((), ()), &bytes)?);
    Ok(())
}

#[test]
fn an_operation_may_have_no_value_and_a_key_has_bytes(rt: HostRuntime) -> Result<(), Fail> {
    assert!(rt; Numbers::Commit(None, Location::new(3)).into_value() == None);
    assert!(rt; word(rt.alloc())?.raw() == b"ab".as_slice());
    Ok(())
}

#[test]
fn keyless_operations_keep_their_laws(_rt: HostRuntime) {
    keyless::variable_laws::<Mmb, Bytes>(&LengthCfg { max: 4 });
    keyless::fixed_laws::<Mmb, U64>(&());
    keyless::equality_laws::<Mmr, FixedEncoding<U64>>();
    keyless::order_laws::<Mmr, FixedEncoding<U64>>();
    keyless::hash_laws::<Mmr, FixedEncoding<U64>>();
}

#[test]
fn immutable_operations_keep_their_laws(_rt: HostRuntime) {
    immutable::variable_laws::<Mmb, Bytes, Bytes>(&(LengthCfg { max: 1 }, LengthCfg { max: 4 }));
    immutable::fixed_laws::<Mmb, U64, U64>(&((), ()));
    immutable::equality_laws::<Mmr, U64, FixedEncoding<U64>>();
    immutable::order_laws::<Mmr, U64, FixedEncoding<U64>>();
    immutable::hash_laws::<Mmr, U64, FixedEncoding<U64>>();
}

/// The floor that an operation tells.
fn floor_of<T: Floored<Mmr>>(op: &T) -> Option<u64> {
    op.has_floor().map(|floor| floor.as_u64())
}

/// Whether an operation tells that it is a commit.
fn is_commit<T: Committable>(op: &T) -> bool {
    op.is_commit()
}

/// Whether an operation tells a key, and whether it says that it takes its key away or gives it a value.
fn told_of_key<T: OperationTrait<Mmr>>(op: T) -> (bool, bool, bool, bool) {
    (
        op.key().is_some(),
        op.is_delete(),
        op.is_update(),
        op.into_key().is_some(),
    )
}

#[test]
fn operations_tell_their_parts(rt: HostRuntime) {
    let append = Numbers::Append(U64::new(5));
    assert!(rt; floor_of(&append) == None && !is_commit(&append));
    assert!(rt; append.into_value() == Some(U64::new(5)));
    let commit = Numbers::Commit(Some(U64::new(6)), Location::new(7));
    assert!(rt; floor_of(&commit) == Some(7) && is_commit(&commit));
    assert!(rt; commit.into_value() == Some(U64::new(6)));
    let set = KeyedNumbers::Set(U64::new(1), U64::new(2));
    assert!(rt; floor_of(&set) == None && !set.is_commit());
    assert!(rt; told_of_key(set) == (true, false, true, true));
    let commit = KeyedNumbers::Commit(Some(U64::new(6)), Location::new(7));
    assert!(rt; floor_of(&commit) == Some(7) && commit.is_commit());
    assert!(rt; told_of_key(commit) == (false, false, false, false));
    assert!(rt; U64::new(1).raw() == [0, 0, 0, 0, 0, 0, 0, 1].as_slice());
}

/// What a hasher makes of a value.
fn hash_of<T: Hash>(value: &T) -> u64 {
    let mut hasher = DefaultHasher::new();
    value.hash(&mut hasher);
    hasher.finish()
}

/// Whether a value is below another, and has another hash.
fn is_below<T: Ord + Hash>(value: &T, other: &T) -> bool {
    value < other && hash_of(value) != hash_of(other)
}

#[test]
fn operations_are_ordered_and_hashed_by_their_fields(rt: HostRuntime) {
    let append = Numbers::Append(U64::new(9));
    let commit = Numbers::Commit(None, Location::new(3));
    assert!(rt; is_below(&append, &commit));
    assert!(rt; is_below(&commit, &Numbers::Commit(None, Location::new(4))));
    let set = KeyedNumbers::Set(U64::new(2), U64::new(8));
    assert!(rt; is_below(&set, &KeyedNumbers::Set(U64::new(2), U64::new(9))));
    assert!(rt; is_below(&set, &KeyedNumbers::Commit(None, Location::new(3))));
}

/// Of fixed commits the option byte, the first of eight zeros and the first byte of the floor, and the first fault.
const COMMITS: [(u8, u8, u8, InvalidAt); 6] = [
    (2, 0, 0, InvalidAt::Option),
    (0, 1, 0, InvalidAt::Padding),
    (0, 0, 0xff, InvalidAt::Location),
    (2, 1, 0, InvalidAt::Option),
    (2, 0, 0xff, InvalidAt::Option),
    (0, 1, 0xff, InvalidAt::Padding),
];

#[test]
fn fixed_encodings_are_refused_by_their_first_fault(rt: HostRuntime) {
    // The whole length goes before the tag, and the tag before all the rest.
    for (bytes, want) in [
        ([0].as_slice(), CodecError::EndOfBuffer),
        ([0xff].as_slice(), CodecError::EndOfBuffer),
        ([0xff; 18].as_slice(), CodecError::InvalidEnum(255)),
    ] {
        assert!(rt; refusal::<KeyedNumbers>(rt.alloc(), bytes, &((), ())) == Some(want));
    }
}

#[test]
fn fixed_commits_are_refused_by_their_first_fault(rt: HostRuntime) {
    for (option, zero, floor, want) in COMMITS {
        let mut bytes = [0u8; 18];
        bytes[1] = option;
        bytes[2] = zero;
        bytes[10] = floor;
        assert!(rt; refusal::<Numbers>(rt.alloc(), &bytes, &()) == Some(CodecError::Invalid(want)));
    }
}

const NO_WORDS: [(&[u8], CodecError); 6] = [
    (
        &[
            0, 0, 0xff, 0xff, 0xff, 0xff, 0xff, 0xff, 0xff, 0xff, 0xff, 1,
        ],
        CodecError::Invalid(InvalidAt::Location),
    ),
    (&[0, 0, 0x80, 0], CodecError::Invalid(InvalidAt::Varint)),
    (&[1], CodecError::EndOfBuffer),
    (
        &[1, 1, 0x61, 0x61],
        CodecError::Invalid(InvalidAt::ExtraData),
    ),
    (&[2], CodecError::InvalidEnum(2)),
    (&[1, 5], CodecError::Invalid(InvalidAt::Length)),
];

#[test]
fn variable_encodings_are_refused_by_their_first_fault(rt: HostRuntime) {
    for (bytes, want) in NO_WORDS {
        assert!(rt; refusal::<Words>(rt.alloc(), bytes, &LengthCfg { max: 4 }) == Some(want));
    }
}

#[test]
fn keyless_operations_have_texts(rt: HostRuntime) -> Result<(), Fail> {
    let append = Numbers::Append(U64::new(12345)).text(rt.alloc())?;
    assert!(rt; append.as_str() == "[append value:0000000000003039]");
    let commit = Numbers::Commit(Some(U64::new(42)), Location::new(7)).text(rt.alloc())?;
    assert!(rt; commit.as_str() == "[commit 000000000000002a floor:7]");
    Ok(())
}

#[test]
fn immutable_operations_have_texts(rt: HostRuntime) -> Result<(), Fail> {
    let none = KeyedNumbers::Commit(None, Location::new(3)).text(rt.alloc())?;
    assert!(rt; none.as_str() == "[commit floor:3]");
    let set = KeyedNumbers::Set(U64::new(1234), U64::new(56789)).text(rt.alloc())?;
    assert!(rt; set.as_str() == "[key:00000000000004d2 value:000000000000ddd5]");
    Ok(())
}
