use codec_base::{Bytes, Write};
use std::alloc::{AllocError, Global};
use std::marker::Model;

/// The items of one segment of a batch, in their order, and the encoding of each. Each encoding is made once, for the
/// leaf, and goes into the log. Contracts see the items.
#[derive(Drop)]
pub(crate) struct Segment<Item: Write + Drop> {
    items: Vec<Item>,
    encodings: Vec<Bytes>,
}

impl<Item: Write + Drop> Model for Segment<Item> {
    ghost use Rattle.std.specs.Prelude.{◌≡◌, List, map};

    ghost Value = { List Item };

    ghost view = { λ s. s.items.items };

    ghost invariant = { λ s. s.encodings.items ≡ map Item.spelling s.items.items };
}

impl<Item: Write + Drop> Segment<Item> {
    ghost use Rattle.std.specs.Prelude.{◌≡◌, ◌∷◌, [], ◌++◌, List, map, OnOk, OnErr};

    /// A segment of no items.
    pub(crate) fn new(alloc: Global) -> Self
        ensures { result ≡ [] }
    {
        Segment {
            items: Vec::new(alloc),
            encodings: Vec::new(alloc),
        }
    }

    /// The allocator of its lists.
    pub(crate) fn allocator(&self) -> Global {
        *self.items.allocator()
    }

    /// Its items.
    pub(crate) fn items(&self) -> &[Item]
        ensures { result.now ≡ self.now }
    {
        &self.items
    }

    /// The encodings of its items.
    pub(crate) fn encodings(&self) -> &[Bytes]
        ensures { result.now ≡ map Item.spelling self.now }
    {
        &self.encodings
    }

    /// Puts an item behind the others, with its encoding. Where there is no memory it stays as it is.
    pub(crate) fn push(&mut self, item: Item, encoding: Bytes) -> Result<(), AllocError>
        requires { encoding ≡ Item.spelling item }
        ensures ok { OnOk result (self.new ≡ self.old ++ item ∷ []) }
        ensures err { OnErr result (self.new ≡ self.old) }
    {
        self.items.push(item)?;
        match self.encodings.push(encoding) {
            Ok(()) => Ok(()),
            Err(error) => {
                let _ = self.items.pop();
                Err(error.into())
            }
        }
    }

    /// Lets go of its last item.
    pub(crate) fn pop(&mut self)
        ensures { (items : List Item) (last : Item) → self.old ≡ items ++ last ∷ [] → self.new ≡ items }
    {
        let _ = self.items.pop();
        let _ = self.encodings.pop();
    }
}
