//! Prints how often each answer comes when all byte strings of up to three bytes, bare or between zeros, are decoded by the readers of varints, byte lists, options, lists, operations and targets.
#![tactic(auto)]

ghost use Rattle.std.specs.Prelude.{◌≤◌};

mod counts;

use codec_base::{Bytes, LengthCfg, ListCfg, ListOf, Read, U64, decode};
use counts::Counts;
use op_codec::{CompactTarget, FixedEncoding, Target, VariableEncoding, immutable, keyless};
use std::alloc::Global;
use std::io;
use tree_shape::{Location, Mmb, Mmr, Sha256Digest};

type Words = keyless::Operation<Mmr, VariableEncoding<Bytes>>;

type Bits = keyless::Operation<Mmb, FixedEncoding<u8>>;

type KeyedWords = immutable::Operation<Mmb, Bytes, VariableEncoding<u8>>;

type KeyedBits = immutable::Operation<Mmr, U64, FixedEncoding<u8>>;

/// The most zeros before the bytes that vary.
const BEFORE: usize = 32;

/// The most bytes up to the end of those that vary.
const VARIED: usize = BEFORE + 3;

/// The most bytes with the zeros behind those that vary.
const ALL: usize = VARIED + 9;

/// Decodes each string of this many bytes, with so many zeros before them and behind.
fn counted<T: Read + Drop>(
    alloc: Global,
    cfg: &T::Cfg,
    before: usize,
    length: usize,
    behind: usize,
) -> Counts
    requires before { before ≤ 32 }
    requires length { length ≤ 3 }
    requires behind { behind ≤ 9 }
{
    let mut counts = Counts::new();
    let mut bytes = [0u8; ALL];
    for number in 0..1u32 << (8 * length) {
        let [_, high, middle, low] = number.to_be_bytes();
        bytes[VARIED - 3] = high;
        bytes[VARIED - 2] = middle;
        bytes[VARIED - 1] = low;
        let string = &bytes[VARIED - length - before..VARIED + behind];
        counts.add(&decode::<T>(alloc, string, cfg));
    }
    counts
}

/// Prints a reader's lines, one for each length.
fn print_reader<T: Read + Drop>(
    rt: &(impl Print + AllocGlobal),
    name: &str,
    cfg: &T::Cfg,
    before: usize,
    behind: usize,
) -> io::Result<()>
    requires before { before ≤ 32 }
    requires behind { behind ≤ 9 }
{
    for length in 0..4usize {
        let counts = counted::<T>(rt.alloc(), cfg, before, length, behind);
        print!(rt; "{name} {length}")?;
        counts.print(rt)?;
    }
    Ok(())
}

fn main(rt: HostRuntime) -> io::Result<()> {
    let two = LengthCfg { max: 2 };
    let list = ListCfg { max: 2, item: () };
    let keyed = (LengthCfg { max: 1 }, ());
    let none = ((), ());
    print_reader::<Location<Mmr>>(&rt, "varint", &(), 0, 0)?;
    print_reader::<Bytes>(&rt, "bytes", &two, 0, 0)?;
    print_reader::<Option<u8>>(&rt, "option", &(), 0, 0)?;
    print_reader::<ListOf<u8>>(&rt, "list", &list, 0, 0)?;
    print_reader::<Words>(&rt, "keyless-variable", &two, 0, 0)?;
    print_reader::<Bits>(&rt, "keyless-fixed", &(), 0, 8)?;
    print_reader::<Bits>(&rt, "keyless-fixed-floor", &(), 2, 6)?;
    print_reader::<KeyedWords>(&rt, "immutable-variable", &keyed, 0, 0)?;
    print_reader::<KeyedBits>(&rt, "immutable-fixed", &none, 0, 8)?;
    print_reader::<KeyedBits>(&rt, "immutable-fixed-end", &none, 8, 0)?;
    print_reader::<Target<Mmr, Sha256Digest>>(&rt, "target", &(), 32, 0)?;
    print_reader::<CompactTarget<Mmb, Sha256Digest>>(&rt, "compact-target", &(), 32, 0)
}
