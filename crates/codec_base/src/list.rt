ghost use Rattle.std.specs.Prelude.{◌≡◌, ℕ, List, [], ◌∷◌, ◌++◌, length, OnOk, OnErr, IsOkUnless, IfOk, ◌<◌, ◌^◌};

use crate::{CodecError, Duplicate};
use std::alloc::Global;
use std::marker::Model;

/// A list over a `Vec`, which contracts see as that list.
#[derive(Debug, Drop)]
pub struct ListOf<T> {
    items: Vec<T>,
}

impl<T> Model for ListOf<T> {
    ghost Value = { List T };

    ghost view = { λ l. l.items.items };
}

impl<T: Drop> ListOf<T> {
    /// The list of nothing. It takes no memory.
    pub fn new(alloc: Global) -> Self
        ensures { result ≡ [] }
    {
        ListOf {
            items: Vec::new(alloc),
        }
    }

    /// The list of these items. It takes no memory, and keeps their allocator.
    pub fn from_vec(items: Vec<T>) -> Self
        ensures { result ≡ items.items }
    {
        ListOf { items }
    }

    /// Gives the items back. It takes no memory.
    pub fn into_vec(self) -> Vec<T>
        ensures { result.items ≡ self }
    {
        self.items
    }

    /// The items, as a slice.
    pub fn as_slice(&self) -> &[T]
        ensures { result.now ≡ self.now }
    {
        &self.items
    }

    /// How many items there are.
    pub fn len(&self) -> u64
        ensures count { result ≡ length self.now }
        ensures few { result < 2 ^ 63 }
    {
        self.items.len() as u64
    }

    /// Adds an item at the end. Where memory runs out the list is as before, and the item is dropped.
    pub fn push(&mut self, item: T) -> Result<(), CodecError>
        ensures ok { OnOk result (self.new ≡ self.old ++ item ∷ []) }
        ensures err { OnErr result (self.new ≡ self.old) }
        ensures memory { IsOkUnless result CodecError.Memory }
    {
        self.items.push(item)?;
        Ok(())
    }
}

impl<T: Drop + Duplicate> Duplicate for ListOf<T> {
    fn duplicate(&self) -> Result<Self, CodecError> {
        let copy = copied(*self.items.allocator(), self.as_slice())?;
        Ok(ListOf::from_vec(copy))
    }
}

/// Copies of these items, in their order.
fn copied<T: Drop + Duplicate>(alloc: Global, items: &[T]) -> Result<Vec<T>, CodecError>
    ensures same { IfOk result (λ copy. copy.items ≡ items.now) }
    ensures memory { IsOkUnless result CodecError.Memory }
{
    let mut copy = Vec::new(alloc);
    for item in items {
        copy.push(item.duplicate()?)?;
    }
    Ok(copy)
}

impl<T: PartialEq> PartialEq for ListOf<T> {
    ghost use Rattle.std.specs.Cmp.Lexicographic.{pointwise, lists_per};

    ghost eq = { pointwise T.eq };

    ghost laws = { lists_per T.laws };

    fn eq(&self, other: &Self) -> bool {
        self.items == other.items
    }
}

impl<T: Eq> Eq for ListOf<T> {
    ghost use Rattle.std.specs.Cmp.Lexicographic.{lists_equiv};

    ghost laws = { lists_equiv T.Eq.laws };
}
