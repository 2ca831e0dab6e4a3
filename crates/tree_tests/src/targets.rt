//! What a log is synced to and asked for: examples written out by hand, and each call that takes memory once.
use crate::spelled::{is_spelled, refusal};
use codec_base::{CodecError, InvalidAt, ListOf, U64, decode};
use std::alloc::Global;
use std::num::NonZeroU64;
use std::test::Fail;
use target_codec::{
    CompactTarget, EngineError, Request, Response, Target, advance_laws, equality_laws,
    request_equality_law, response_equality_law,
};
use tree_proof::Proof;
use tree_shape::{Location, Mmb, Mmr, Sha256Digest};

type RangeTarget = Target<Mmr, Sha256Digest>;

type Compact = CompactTarget<Mmr, Sha256Digest>;

/// The digest of 32 sevens.
fn sevens(alloc: Global) -> Result<Sha256Digest, CodecError> {
    decode::<Sha256Digest>(alloc, &[7; 32], &())
}

fn target(alloc: Global, start: u64, end: u64) -> Result<RangeTarget, CodecError> {
    Ok(Target {
        root: sevens(alloc)?,
        start: Location::new(start),
        end: Location::new(end),
    })
}

fn compact(alloc: Global, size: u64) -> Result<Compact, CodecError> {
    Ok(CompactTarget {
        root: sevens(alloc)?,
        size: Location::new(size),
    })
}

#[test]
fn targets_advance(rt: HostRuntime) -> Result<(), Fail> {
    let (start, end) = (Location::new(10), Location::new(100));
    let from = RangeTarget::new(sevens(rt.alloc())?, start, end);
    let rows = [
        (10, 101, true),
        (50, 200, true),
        (10, 100, false),
        (10, 50, false),
        (5, 200, false),
    ];
    for (start, end, want) in rows {
        assert!(rt; target(rt.alloc(), start, end)?.advances(&from) == want);
    }
    advance_laws::<Mmr, Sha256Digest>();
    equality_laws::<Mmr, Sha256Digest>();
    request_equality_law::<Mmr>();
    response_equality_law::<Mmr, U64, Sha256Digest>();
    Ok(())
}

#[test]
fn targets_are_spelled(rt: HostRuntime) -> Result<(), Fail> {
    let mut bytes = [7u8; 34];
    bytes[32] = 10;
    bytes[33] = 100;
    assert!(rt; is_spelled(rt.alloc(), &target(rt.alloc(), 10, 100)?, &(), &bytes)?);
    assert!(rt; is_spelled(rt.alloc(), &compact(rt.alloc(), 10)?, &(), &bytes[..33])?);
    Ok(())
}

#[test]
fn targets_are_refused_by_their_first_fault(rt: HostRuntime) {
    let range = Some(CodecError::Invalid(InvalidAt::NonEmptyRange));
    let target = Some(CodecError::Invalid(InvalidAt::Target));
    let size = Some(CodecError::Invalid(InvalidAt::CompactTarget));
    // Roots of zeros, and behind them 5 and 5, 0 and 2^62 + 1, 2^62 + 1 twice, and 0.
    let mut empty = [0u8; 34];
    empty[32] = 5;
    empty[33] = 5;
    assert!(rt; refusal::<RangeTarget>(rt.alloc(), &empty, &()) == range);
    let mut long = [0x80u8; 42];
    long[..33].copy_from_slice(&[0u8; 33]);
    long[33] = 0x81;
    long[41] = 0x40;
    assert!(rt; refusal::<RangeTarget>(rt.alloc(), &long, &()) == target);
    let mut both = [0x80u8; 50];
    both[..32].copy_from_slice(&[0u8; 32]);
    both[32] = 0x81;
    both[40] = 0x40;
    both[41] = 0x81;
    both[49] = 0x40;
    assert!(rt; refusal::<RangeTarget>(rt.alloc(), &both, &()) == range);
    assert!(rt; refusal::<Compact>(rt.alloc(), &[0u8; 33], &()) == size);
}

#[test]
fn compact_targets_are_the_last_operation(rt: HostRuntime) -> Result<(), Fail> {
    for (size, start) in [(100, 99), (1, 0)] {
        let made = Target::try_from(&compact(rt.alloc(), size)?);
        assert!(rt; made == Ok(target(rt.alloc(), start, size)?));
    }
    let none = EngineError::InvalidTarget {
        lower_bound_pos: Location::new(0),
        upper_bound_pos: Location::new(0),
    };
    assert!(rt; Target::try_from(&compact(rt.alloc(), 0)?) == Err(none));
    Ok(())
}

#[test]
fn requests_tell_what_they_ask(rt: HostRuntime) {
    let request = Request::<Mmb>::Operations {
        size: Location::new(9),
        start: Location::new(4),
        max_ops: NonZeroU64::MIN,
    };
    assert!(rt; request.size().as_u64() == 9);
    assert!(rt; request.start().as_u64() == 4);
    assert!(rt; request.max_ops().get() == 1);
}

/// The answer to a request for one operation, with one pin.
fn boundary_of(alloc: Global, pin: u8) -> Result<Response<Mmb, u8, u8>, CodecError> {
    let mut pinned_nodes = ListOf::new(alloc);
    pinned_nodes.push(pin)?;
    let proof = Proof {
        leaves: Location::new(2),
        inactive_peaks: 0,
        digests: ListOf::new(alloc),
    };
    Ok(Response::Boundary {
        proof,
        op: 7,
        pinned_nodes,
    })
}

#[test]
fn responses_differ_in_their_pins(rt: HostRuntime) -> Result<(), Fail> {
    let one = boundary_of(rt.alloc(), 1)?;
    assert!(rt; one == boundary_of(rt.alloc(), 1)?);
    assert!(rt; one != boundary_of(rt.alloc(), 2)?);
    Ok(())
}
