use crate::items::keep_from;
use crate::segment::Segment;
use crate::{Error, MerkleizedBatch};
use codec_base::Write;
use journal_base::encode_one;
use std::marker::Model;
use std::rc::Rc;
use tree_core::{Family, Hasher, Location, MAX_LEAVES, Position, Standard};

/// A batch that still takes items: its nodes, how leaves are hashed and peaks folded, the lists of its kept ancestors,
/// and its own items, each list with the encodings of its items.
#[derive(Drop)]
pub struct UnmerkleizedBatch<F: Family, H: Hasher, Item: Write + Drop> {
    nodes: tree_core::UnmerkleizedBatch<F, H::Digest>,
    hasher: Standard<H>,
    kept: Vec<Rc<Segment<Item>>>,
    own: Segment<Item>,
}

impl<F: Family, H: Hasher, Item: Write + Drop> Model for UnmerkleizedBatch<F, H, Item> {
    ghost use Rattle.std.specs.Prelude.{List, map};
    ghost use Rattle.auth_journal.specs.Batched.{UnsealedItems, IsSoundUnsealedItems};

    ghost Value = { UnsealedItems H.Digest Item };

    ghost view = { λ b. record {
      nodes = b.nodes;
      bagging = b.hasher;
      kept = map {B = List Item} (λ l. l.value) b.kept.items;
      items = b.own;
    } };

    ghost invariant = { λ b. IsSoundUnsealedItems F.shape H.hash Item.spelling (record {
      nodes = b.nodes;
      bagging = b.hasher;
      kept = map {B = List Item} (λ l. l.value) b.kept.items;
      items = b.own;
    }) };
}

impl<F: Family, H: Hasher, Item: Write + Drop> UnmerkleizedBatch<F, H, Item> {
    ghost use Rattle.std.specs.Prelude.{◌≡◌, ◌+◌, ◌<◌, ◌≤◌, ◌^◌, ◌++◌, List, map, length, Err, OnOk, OnErr, IfOk, IsOkUnless};
    ghost use Rattle.tree_core.specs.Batches.{leaf_count};
    ghost use Rattle.auth_journal.specs.Batched.{IsSoundUnsealedItems, IsSealedOfItems, IsUnsealedOfItems, AreSealedFrom, with_item};
    ghost use Rattle.auth_journal.specs.declared.error.Error.{Error};
    ghost use Rattle.tree_store.specs.declared.error.Error.TheVariants.{LocationOverflow};

    /// An empty batch with these nodes, behind these lists.
    pub(crate) fn begin(
        nodes: tree_core::UnmerkleizedBatch<F, H::Digest>,
        hasher: Standard<H>,
        kept: Vec<Rc<Segment<Item>>>,
        own: Segment<Item>,
    ) -> Self
        requires { IsSoundUnsealedItems F.shape H.hash Item.spelling (record {
          nodes = nodes;
          bagging = hasher;
          kept = map {B = List Item} (λ l. l.value) kept.items;
          items = own;
        }) }
        ensures { result ≡ record {
          nodes = nodes;
          bagging = hasher;
          kept = map {B = List Item} (λ l. l.value) kept.items;
          items = own;
        } }
    {
        UnmerkleizedBatch {
            nodes,
            hasher,
            kept,
            own,
        }
    }

    /// The number of ancestors whose items are kept.
    pub fn segments(&self) -> u64
        ensures { result ≡ length self.now.kept }
    {
        self.kept.len() as u64
    }

    /// The batch's own items.
    pub fn items(&self) -> &[Item]
        ensures { result.now ≡ self.now.items }
    {
        self.own.items()
    }

    /// Adds an item, and its leaf. Its encoding is made for the leaf and kept for the log. It refuses with
    /// `LocationOverflow` where the batch has `MAX_LEAVES` leaves, and else only with `Memory`; the batch is then as
    /// before.
    pub fn add(&mut self, item: Item) -> Result<(), Error<F>>
        ensures ok { OnOk result (self.new ≡ with_item F.shape H.hash Item.spelling self.old item) }
        ensures err { OnErr result (self.new ≡ self.old) }
        ensures full { leaf_count self.old.nodes ≡ 2 ^ 62 → result ≡ Err (Error.Merkle (LocationOverflow (2 ^ 62 + 1))) }
        ensures memory { leaf_count self.old.nodes < 2 ^ 62 → IsOkUnless result Error.Memory }
    {
        let place = self.nodes.leaves().as_u64();
        if place == MAX_LEAVES {
            let past = Location::new(MAX_LEAVES + 1);
            return Err(Error::Merkle(tree_core::Error::LocationOverflow(past)));
        }
        let encoding = encode_one(self.own.allocator(), &item)?;
        let position = Position::<F>::new(F::position(place, 0));
        let leaf = self.hasher.leaf_digest(position, encoding.as_slice());
        self.own.push(item, encoding)?;
        match self.nodes.add_leaf_digest(leaf) {
            Ok(()) => Ok(()),
            Err(_) => {
                self.own.pop();
                Err(Error::Memory)
            }
        }
    }

    /// Seals the batch, with the newest `reached` ancestors. Each new node is hashed once.
    pub fn merkleize(self, reached: u64) -> Result<MerkleizedBatch<F, H::Digest, Item>, Error<F>>
        requires { reached ≤ length self.kept }
        ensures sealed { IfOk result (λ b. AreSealedFrom self reached b) }
        ensures batch { IfOk result (λ b. (list : List Item) →
            IsUnsealedOfItems F.shape H.hash Item.spelling list self →
            IsSealedOfItems F.shape H.hash Item.spelling (list ++ self.items) b) }
        ensures memory { IsOkUnless result Error.Memory }
    {
        let UnmerkleizedBatch {
            nodes,
            hasher,
            mut kept,
            own,
        } = self;
        let place = kept.len() - reached as usize;
        keep_from(&mut kept, place);
        let own = Rc::new(own.allocator(), own)?;
        kept.push(own)?;
        match nodes.merkleize(&hasher, reached) {
            Ok(nodes) => {
                // Its leaves tell that it is sound.
                let _leaves = nodes.leaves();
                Ok(MerkleizedBatch {
                    nodes,
                    bagging: hasher.root_bagging(),
                    items: kept,
                })
            }
            Err(error) => Err(Error::from(error)),
        }
    }
}
