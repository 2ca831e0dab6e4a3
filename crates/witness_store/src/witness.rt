use codec_base::{
    Bytes, CodecError, Cursor, Duplicate, EncodeSize, InvalidAt, LengthCfg, ListCfg, ListOf, Read,
    Spelled, Write, read_varint, undo_on_err, varint_size, write_varint,
};
use std::alloc::Global;
use tree_shape::{Digest, Location, MAX_LEAVES, MAX_PINNED_NODES};

/// What is kept of an applied state, so that its tree goes on from there without the operations before.
#[derive(Drop)]
#[derive_where(Debug, PartialEq, Eq; D)]
pub struct Witness<F, D> {
    /// The encoding of the commit that ends the state.
    pub op_bytes: Bytes,
    /// The number of operations, the commit counted.
    pub size: Location<F>,
    /// The peaks of the tree before the commit, the oldest first.
    pub pinned_nodes: ListOf<D>,
}

impl<F, D: Digest> Spelled for Witness<F, D> {
    ghost use Rattle.witness_store.specs.Witness.{text_of};

    ghost spelling = { text_of D.spelling };
}

impl<F, D: Digest> Write for Witness<F, D> {
    fn write(&self, out: &mut Bytes) -> Result<(), CodecError> {
        let length = out.len();
        self.op_bytes.write(out)?;
        undo_on_err(write_varint(self.size.as_u64(), out), length, out)?;
        undo_on_err(self.pinned_nodes.write(out), length, out)
    }
}

impl<F, D: Digest> EncodeSize for Witness<F, D> {
    #[tactic(auto, using(crate::specs::Witness::lengths))]
    fn encode_size(&self) -> u64 {
        let size = varint_size(self.size.as_u64());
        self.op_bytes
            .encode_size()
            .saturating_add(size.saturating_add(self.pinned_nodes.encode_size()))
    }
}

impl<F, D: Digest> Read for Witness<F, D> {
    ghost use Rattle.codec_base.specs.Combine.{through_at};
    ghost use Rattle.witness_store.specs.Witness.{of_parts, witness_at, witness_lawful, IsAllowed};

    type Cfg = ();

    ghost admits = { λ cfg. IsAllowed (D.admits tt) };

    ghost reads = { λ cfg. through_at of_parts (witness_at (D.reads tt)) };

    ghost lawful = { λ cfg. witness_lawful D.spelling (D.admits tt) (D.reads tt) (D.lawful tt) };

    fn read(alloc: Global, buf: &mut Cursor<'_>, _cfg: &()) -> Result<Self, CodecError> {
        let mut ahead = buf.copy();
        let op_bytes = Bytes::read(alloc, &mut ahead, &LengthCfg { max: u64::MAX })?;
        let size = read_varint(&mut ahead)?;
        if size > MAX_LEAVES {
            return Err(CodecError::Invalid(InvalidAt::Witness));
        }
        let pins = ListCfg {
            max: MAX_PINNED_NODES,
            item: (),
        };
        let pinned_nodes = ListOf::read(alloc, &mut ahead, &pins)?;
        *buf = ahead;
        Ok(Witness {
            op_bytes,
            size: Location::new(size),
            pinned_nodes,
        })
    }
}

impl<F, D: Digest> Duplicate for Witness<F, D> {
    fn duplicate(&self) -> Result<Self, CodecError> {
        let op_bytes = self.op_bytes.duplicate()?;
        let mut pins = Vec::new(self.op_bytes.allocator());
        pins.extend_from_slice(self.pinned_nodes.as_slice())?;
        Ok(Witness {
            op_bytes,
            size: Location::new(self.size.as_u64()),
            pinned_nodes: ListOf::from_vec(pins),
        })
    }
}
