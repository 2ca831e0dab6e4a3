//! What a log is synced to.
ghost use Rattle.std.specs.Prelude.{◌≡◌, ◌↔◌, ◌<◌, ◌&&◌, nat_eq, IsTrue};
ghost use Rattle.std.specs.Bool.{Decides};
ghost use Rattle.target_codec.specs.Target.{Advances};
ghost use Rattle.target_codec.specs.declared.target.CompactTarget.{CompactTarget};
ghost use Rattle.target_codec.specs.declared.target.EngineError.{EngineError};
ghost use Rattle.target_codec.specs.declared.target.Target.{Target};

use codec_base::{
    Bytes, CodecError, Cursor, EncodeSize, InvalidAt, Read, Spelled, Write, read_varint,
    undo_on_err, varint_size, write_varint,
};
use std::alloc::Global;
use tree_shape::{Digest, Location, MAX_LEAVES};

/// The operations from a start to an end, under the root of the log of that end.
#[derive_where(Clone, Copy, Debug, PartialEq, Eq; D)]
pub struct Target<F, D> {
    /// The root.
    pub root: D,
    /// The first operation.
    pub start: Location<F>,
    /// The number of operations of the log.
    pub end: Location<F>,
}

/// The root of a log of a size.
#[derive_where(Clone, Copy, Debug, PartialEq, Eq; D)]
pub struct CompactTarget<F, D> {
    /// The root.
    pub root: D,
    /// The number of operations of the log.
    pub size: Location<F>,
}

/// Why a target can't be synced to.
#[derive_where(Clone, Copy, Debug, PartialEq, Eq)]
pub enum EngineError<F> {
    /// The size is 0 or above `MAX_LEAVES`; the bounds are 0 and that size.
    InvalidTarget {
        /// 0, in operations.
        lower_bound_pos: Location<F>,
        /// The size, in operations.
        upper_bound_pos: Location<F>,
    },
}

impl<F, D> Target<F, D> {
    /// The operations from `start` to `end`.
    pub fn new(root: D, start: Location<F>, end: Location<F>) -> Self
        requires { start < end }
        ensures { result ≡ record { root = root; start = start; end = end } }
    {
        Target { root, start, end }
    }

    /// Whether it goes on from another target of the same log. It takes no memory.
    pub fn advances(&self, from: &Target<F, D>) -> bool
        ensures { IsTrue result ↔ Advances self.now from.now }
    {
        self.end.is_valid()
            && self.end.as_u64() > from.end.as_u64()
            && self.start.as_u64() >= from.start.as_u64()
    }
}

/// No target goes on from itself, and going on leads on.
pub fn advance_laws<F, D>()
    ensures irreflexive { (t : Target F D) → Advances t t → ⊥ }
    ensures transitive { (a b c : Target F D) → Advances a b → Advances b c → Advances a c }
{}

/// Targets are equal where their fields are, and two refusals exactly where they are one.
pub fn equality_laws<F, D: Digest>()
    ensures target { (t u : Target F D) → ⟦<Target<F, D> as PartialEq>⟧.eq t u ≡
        (D.eq t.root u.root && (nat_eq t.start u.start && nat_eq t.end u.end)) }
    ensures compact { (t u : CompactTarget F D) → ⟦<CompactTarget<F, D> as PartialEq>⟧.eq t u ≡
        (D.eq t.root u.root && nat_eq t.size u.size) }
    ensures error { (a b : EngineError F) → Decides (⟦<EngineError<F> as PartialEq>⟧.eq a b) (a ≡ b) }
{}

impl<F, D: Copy> TryFrom<&CompactTarget<F, D>> for Target<F, D> {
    ghost use Rattle.target_codec.specs.Target.{target_of};

    type Error = EngineError<F>;

    ghost try_from_gives = { λ target result. result ≡ target_of target.now };

    fn try_from(target: &CompactTarget<F, D>) -> Result<Self, EngineError<F>> {
        let size = target.size.as_u64();
        if size == 0 || size > MAX_LEAVES {
            return Err(EngineError::InvalidTarget {
                lower_bound_pos: Location::new(0),
                upper_bound_pos: Location::new(size),
            });
        }
        Ok(Target {
            root: target.root,
            start: Location::new(size - 1),
            end: Location::new(size),
        })
    }
}

impl<F, D: Digest> Spelled for Target<F, D> {
    ghost use Rattle.codec_base.specs.Combine.{pair_spelling};
    ghost use Rattle.target_codec.specs.Target.{range_spelling, parts};

    ghost spelling = { λ t. pair_spelling D.spelling range_spelling (parts t) };
}

impl<F, D: Digest> Write for Target<F, D> {
    fn write(&self, out: &mut Bytes) -> Result<(), CodecError> {
        let length = out.len();
        self.root.write(out)?;
        undo_on_err(write_varint(self.start.as_u64(), out), length, out)?;
        undo_on_err(write_varint(self.end.as_u64(), out), length, out)
    }
}

impl<F, D: Digest> EncodeSize for Target<F, D> {
    #[tactic(auto, using(crate::specs::Target::lengths))]
    fn encode_size(&self) -> u64 {
        let range = varint_size(self.start.as_u64()) + varint_size(self.end.as_u64());
        self.root.encode_size().saturating_add(range)
    }
}

impl<F, D: Digest> Read for Target<F, D> {
    ghost use Rattle.codec_base.specs.Combine.{pair_admits, pair_at, through_at};
    ghost use Rattle.target_codec.specs.Target.{range_admits, range_at, parts, of_parts, target_lawful};

    type Cfg = ();

    ghost admits = { λ cfg t. pair_admits (D.admits cfg) range_admits (parts t) };

    ghost reads = { λ cfg. through_at of_parts (pair_at (D.reads cfg) range_at) };

    ghost lawful = { λ cfg. target_lawful D.spelling (D.admits cfg) (D.reads cfg) (D.lawful cfg) };

    fn read(alloc: Global, buf: &mut Cursor<'_>, cfg: &()) -> Result<Self, CodecError> {
        let mut ahead = buf.copy();
        let root = D::read(alloc, &mut ahead, cfg)?;
        let start = read_varint(&mut ahead)?;
        let end = read_varint(&mut ahead)?;
        if start >= end {
            return Err(CodecError::Invalid(InvalidAt::NonEmptyRange));
        }
        if end > MAX_LEAVES {
            return Err(CodecError::Invalid(InvalidAt::Target));
        }
        *buf = ahead;
        Ok(Target {
            root,
            start: Location::new(start),
            end: Location::new(end),
        })
    }
}

impl<F, D: Digest> Spelled for CompactTarget<F, D> {
    ghost use Rattle.codec_base.specs.Varint.{varint};
    ghost use Rattle.codec_base.specs.Combine.{pair_spelling};
    ghost use Rattle.target_codec.specs.Target.{compact_parts};

    ghost spelling = { λ t. pair_spelling D.spelling varint (compact_parts t) };
}

impl<F, D: Digest> Write for CompactTarget<F, D> {
    fn write(&self, out: &mut Bytes) -> Result<(), CodecError> {
        let length = out.len();
        self.root.write(out)?;
        undo_on_err(write_varint(self.size.as_u64(), out), length, out)
    }
}

impl<F, D: Digest> EncodeSize for CompactTarget<F, D> {
    #[tactic(auto, using(crate::specs::Target::lengths))]
    fn encode_size(&self) -> u64 {
        self.root
            .encode_size()
            .saturating_add(varint_size(self.size.as_u64()))
    }
}

impl<F, D: Digest> Read for CompactTarget<F, D> {
    ghost use Rattle.codec_base.specs.Combine.{pair_admits, pair_at, through_at};
    ghost use Rattle.target_codec.specs.Target.{size_admits, size_at, compact_parts, of_compact_parts, compact_lawful};

    type Cfg = ();

    ghost admits = { λ cfg t. pair_admits (D.admits cfg) size_admits (compact_parts t) };

    ghost reads = { λ cfg. through_at of_compact_parts (pair_at (D.reads cfg) size_at) };

    ghost lawful = { λ cfg. compact_lawful D.spelling (D.admits cfg) (D.reads cfg) (D.lawful cfg) };

    fn read(alloc: Global, buf: &mut Cursor<'_>, cfg: &()) -> Result<Self, CodecError> {
        let mut ahead = buf.copy();
        let root = D::read(alloc, &mut ahead, cfg)?;
        let size = read_varint(&mut ahead)?;
        if size == 0 {
            return Err(CodecError::Invalid(InvalidAt::CompactTarget));
        }
        if size > MAX_LEAVES {
            return Err(CodecError::Invalid(InvalidAt::CompactTarget));
        }
        *buf = ahead;
        Ok(CompactTarget {
            root,
            size: Location::new(size),
        })
    }
}
