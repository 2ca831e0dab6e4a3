//! The batches of a side of the run, by number.
ghost use Rattle.std.specs.Prelude.{◌≡◌, ◌<◌, ◌+◌, ◌-◌, ◌^◌, [], length, slice_set, Some, IfSome};
ghost use Rattle.chain_core.specs.Slots.{IsAlive, holds_of, link_held, link_released};
ghost use Rattle.twin_batches.specs.StateOf.{held_in};
ghost use Rattle.twin_batches.specs.declared.numbers.Batch.TheVariants.{Sealed};

use chain_core::{BatchId, Pool};
use std::alloc::Global;

/// A sealed batch for the caller: its number in the pool, and how often the caller holds it.
#[derive(Clone, Copy, Debug)]
pub struct Holding {
    pub id: BatchId,
    pub holds: u64,
}

/// A batch by its phase.
#[derive(Drop)]
pub enum Batch<U> {
    Unsealed(U),
    Sealed(Holding),
    Gone,
}

/// The batches by number; a sealed one stands in the pool.
#[derive(Drop)]
pub struct Numbers<S, U> {
    pub batches: Vec<Batch<U>>,
    pub pool: Pool<S>,
    /// How many steps were taken.
    pub taken: u64,
}

impl<S: Drop, U: Drop> Numbers<S, U> {
    /// No batches, and no steps. It takes no memory.
    pub fn new(alloc: Global) -> Self
        ensures batches { result.batches.items ≡ [] }
        ensures pool { result.pool ≡ [] }
        ensures taken { result.taken ≡ 0 }
    {
        Numbers {
            batches: Vec::new(alloc),
            pool: Pool::new(alloc),
            taken: 0,
        }
    }

    /// The sealed batch b, where the caller holds it.
    pub fn held(&self, b: u64) -> Option<Holding>
        ensures held { result ≡ held_in self.now.batches.items b }
        ensures there { IfSome result (λ k. b < length self.now.batches.items) }
    {
        if b >= self.batches.len() as u64 {
            return None;
        }
        match &self.batches[b as usize] {
            Batch::Sealed(holding) => {
                if holding.holds == 0 {
                    return None;
                }
                Some(*holding)
            }
            _ => None,
        }
    }

    /// Holds batch b once more, which the caller holds so.
    pub fn hold(&mut self, b: u64, held: Holding)
        requires there { b < length self.old.batches.items }
        requires alive { IsAlive self.old.pool held.id }
        requires room { holds_of self.old.pool held.id < 2 ^ 64 - 1 }
        requires more { held.holds < 2 ^ 64 - 1 }
        ensures batches { self.new.batches.items ≡
            slice_set self.old.batches.items b (Sealed (record { id = held.id; holds = held.holds + 1 })) }
        ensures pool { self.new.pool ≡ link_held self.old.pool (Some held.id) }
        ensures taken { self.new.taken ≡ self.old.taken }
    {
        self.pool.hold_link(&Some(held.id));
        let id = held.id;
        let holds = held.holds + 1;
        self.batches[b as usize] = Batch::Sealed(Holding { id, holds });
    }

    /// Holds batch b once less, which the caller holds so.
    pub fn let_go(&mut self, b: u64, held: Holding)
        requires there { b < length self.old.batches.items }
        requires alive { IsAlive self.old.pool held.id }
        requires held { 0 < held.holds }
        ensures batches { self.new.batches.items ≡
            slice_set self.old.batches.items b (Sealed (record { id = held.id; holds = held.holds - 1 })) }
        ensures pool { self.new.pool ≡ link_released self.old.pool (Some held.id) }
        ensures taken { self.new.taken ≡ self.old.taken }
    {
        self.pool.release_link(&Some(held.id));
        let id = held.id;
        let holds = held.holds - 1;
        self.batches[b as usize] = Batch::Sealed(Holding { id, holds });
    }

    /// Counts a step.
    pub fn count(&mut self)
        requires { self.old.taken < 2 ^ 64 - 1 }
        ensures taken { self.new.taken ≡ self.old.taken + 1 }
        ensures batches { self.new.batches ≡ self.old.batches }
        ensures pool { self.new.pool ≡ self.old.pool }
    {
        self.taken += 1;
    }
}
