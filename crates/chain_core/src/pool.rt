ghost use Rattle.std.specs.Prelude.{◌≡◌, ℕ, ◌+◌, ◌<◌, ◌↔◌, List, [], ◌∷◌, ◌++◌, ◌-◌, ◌^◌, length, slice_set, Option, Some, None, IsTrue, IsOk, IfOk, OnOk, OnErr, IsOkUnless, IsErrOf, IfSome, IsSome, slice_index_or, option_and_then};
ghost use Rattle.std.specs.Option.{option_copied, option_map, ok_or, ForSome};
ghost use Rattle.std.specs.Ordering.{nat_cmp};
ghost use Rattle.std.specs.BTreeMap.{get};
ghost use Rattle.chain_core.specs.PoolMap.{SetsAt};
ghost use Rattle.chain_core.specs.Slots.{slot_at, holds_of, IsAlive, with_hold, without_hold, link_held, link_released, IsReach, KeepsDead};
ghost use Rattle.chain_core.specs.Reached.{item_at};

use std::alloc::{AllocError, AllocFailed, Global};
use std::collections::BTreeMap;
use std::marker::Model;

/// The number of a batch in a pool. Contracts see it as that number.
#[derive(Clone, Copy, Debug, PartialEq, Eq)]
pub struct BatchId {
    number: u64,
}

impl Model for BatchId {
    ghost use Rattle.std.specs.Prelude.{ℕ};

    ghost Value = { ℕ };

    ghost view = { λ b. b.number };

    ghost inverse = { λ n. record { number = n } };
}

impl BatchId {
    /// The number under which the pool keeps the batch.
    pub fn number(&self) -> u64
        ensures { result ≡ self.now }
    {
        self.number
    }
}

/// Why a call of a pool wasn't done.
#[derive(Clone, Copy, Debug, PartialEq, Eq)]
pub enum PoolError {
    /// No batch is alive under the number.
    NoBatch,
    /// There is no memory.
    Memory,
}

impl From<AllocError> for PoolError {
    ghost use Rattle.chain_core.specs.declared.pool.PoolError.TheVariants.{Memory};

    ghost from_gives = { λ _ e. e ≡ Memory };

    fn from(_: AllocError) -> Self {
        PoolError::Memory
    }
}

impl<T: Drop> From<AllocFailed<T>> for PoolError {
    ghost use Rattle.chain_core.specs.declared.pool.PoolError.TheVariants.{Memory};

    ghost from_gives = { λ _ e. e ≡ Memory };

    fn from(_: AllocFailed<T>) -> Self {
        PoolError::Memory
    }
}

/// A batch that is alive. Contracts see a pool as these.
#[derive(Drop)]
pub struct HeldBatch<T> {
    pub item: T,
    /// The number of the parent, which may be dead.
    pub parent: Option<BatchId>,
    /// How often the batch is held.
    pub holds: u64,
}

/// Sealed batches by number. Contracts see a slot for each number that was drawn.
#[derive(Drop)]
pub struct Pool<T> {
    batches: BTreeMap<u64, HeldBatch<T>>,
    drawn: u64,
    alloc: Global,
}

impl<T> Model for Pool<T> {
    ghost use Rattle.std.specs.Prelude.{List, Option};
    ghost use Rattle.chain_core.specs.declared.pool.HeldBatch.{HeldBatch};

    ghost Value = { List (Option (HeldBatch T)) };

    ghost use Rattle.chain_core.specs.PoolMap.{slots_of, IsKept};

    ghost view = { λ p. slots_of p.batches p.drawn };

    ghost invariant = { λ p. IsKept p.batches p.drawn };
}

impl<T: Drop> Pool<T> {
    /// A pool that has drawn no number. It takes no memory.
    pub fn new(alloc: Global) -> Self
        ensures { result ≡ [] }
    {
        Pool {
            batches: BTreeMap::new(alloc),
            drawn: 0,
            alloc,
        }
    }

    /// How many numbers were drawn.
    pub fn drawn(&self) -> u64
        ensures { result ≡ length self.now }
    {
        self.drawn
    }

    fn find(&self, id: BatchId) -> Option<&HeldBatch<T>>
        ensures value { option_copied result ≡ slot_at self.now id }
        ensures held { IfSome result (λ b. 0 < b.now.holds) }
        ensures after { IfSome result (λ b. ForSome b.now.parent (λ p. p < id)) }
    {
        self.batches.get(&id.number)
    }

    /// How often the batch is held.
    pub fn holds(&self, id: BatchId) -> u64
        ensures value { result ≡ holds_of self.now id }
        ensures alive { (0 < result) ↔ IsAlive self.now id }
    {
        match self.find(id) {
            Some(batch) => batch.holds,
            None => 0,
        }
    }

    /// Whether a batch is alive under this number: it is held.
    pub fn is_alive(&self, id: BatchId) -> bool
        ensures { IsTrue result ↔ IsAlive self.now id }
    {
        self.find(id).is_some()
    }

    /// The item of a batch that is alive. It refuses with `NoBatch` where none is under the number.
    pub fn get(&self, id: BatchId) -> Result<&T, PoolError>
        ensures alive { IsOk result ↔ IsAlive self.now id }
        ensures item { IfOk result (λ item. option_map (λ b. b.item) (slot_at self.now id) ≡ Some item.now) }
        ensures dead { IsOkUnless result PoolError.NoBatch }
    {
        match self.find(id) {
            Some(batch) => Ok(&batch.item),
            None => Err(PoolError::NoBatch),
        }
    }

    /// The item of a batch that the caller knows to be alive.
    pub fn item(&self, id: BatchId) -> &T
        requires { IsAlive self.now id }
        ensures { item_at self.now id ≡ Some result.now }
    {
        match self.get(id) {
            Ok(item) => item,
            Err(_) => unreachable!(),
        }
    }

    /// The link of a batch that is alive. It may name a dead one.
    pub fn parent(&self, id: BatchId) -> Result<Option<BatchId>, PoolError>
        ensures link { result ≡ ok_or (option_map (λ b. b.parent) (slot_at self.now id)) PoolError.NoBatch }
        ensures after { IfOk result (λ link. IfSome link (λ p. p < id)) }
    {
        match self.find(id) {
            Some(batch) => Ok(batch.parent),
            None => Err(PoolError::NoBatch),
        }
    }

    /// The ancestors of a batch that is alive, from its parent on, to the last one before the first that is dead.
    pub fn ancestors_of(&self, id: BatchId) -> Result<Vec<BatchId>, PoolError>
        ensures reach { IfOk result
            (λ ids. IfSome (slot_at self.now id) (λ b. IsReach (slot_at self.now) b.parent ids.items)) }
        ensures dead { IsErrOf result PoolError.NoBatch ↔ (slot_at self.now id ≡ None) }
    {
        let link = self.parent(id)?;
        self.reach_from(link)
    }

    /// The batches from a link on, from parent to parent, to the last one before the first that is dead.
    pub fn reach_from(&self, link: Option<BatchId>) -> Result<Vec<BatchId>, PoolError>
        ensures reach { IfOk result (λ ids. IsReach (slot_at self.now) link ids.items) }
        ensures memory { IsOkUnless result PoolError.Memory }
    {
        let mut next = link;
        let mut reached = Vec::new(self.alloc);
        while let Some(id) = next {
            let Some(batch) = self.find(id) else {
                return Ok(reached);
            };
            reached.push(id)?;
            next = batch.parent;
        }
        Ok(reached)
    }

    /// Draws a number for a batch, which is held once. It refuses with `Memory` alone, and then the batch is dropped.
    pub fn insert(&mut self, item: T, parent: Option<BatchId>) -> Result<BatchId, PoolError>
        requires room { length self.old < 2 ^ 64 - 1 }
        requires after { ForSome parent (λ p. p < length self.old) }
        ensures ok { OnOk result (self.new ≡ self.old ++ Some (record { item = item; parent = parent; holds = 1 }) ∷
            []) }
        ensures number { IfOk result (λ id. id ≡ length self.old) }
        ensures for_ever { KeepsDead self.old self.new }
        ensures err { OnErr result (self.new ≡ self.old) }
        ensures memory { IsOkUnless result PoolError.Memory }
    {
        let number = self.drawn;
        let batch = HeldBatch {
            item,
            parent,
            holds: 1,
        };
        self.batches.insert(number, batch)?;
        self.drawn = number + 1;
        Ok(BatchId { number })
    }

    /// Holds a batch once more. It refuses with `NoBatch` where none is alive under the number.
    pub fn hold(&mut self, id: BatchId) -> Result<(), PoolError>
        requires room { holds_of self.old id < 2 ^ 64 - 1 }
        ensures alive { IsOk result ↔ IsAlive self.old id }
        ensures ok { OnOk result (self.new ≡ slice_set self.old id (option_map with_hold (slot_at self.old id))) }
        ensures for_ever { KeepsDead self.old self.new }
        ensures err { OnErr result (self.new ≡ self.old) }
        ensures dead { IsOkUnless result PoolError.NoBatch }
    {
        hold_at(&mut self.batches, id.number)
    }

    /// Holds a batch once less. Where this was its last hold its item is dropped, and the number stays dead. It refuses
    /// with `NoBatch` where none is alive under the number.
    pub fn release(&mut self, id: BatchId) -> Result<(), PoolError>
        ensures alive { IsOk result ↔ IsAlive self.old id }
        ensures ok { OnOk result
            (self.new ≡ slice_set self.old id (option_and_then without_hold (slot_at self.old id))) }
        ensures for_ever { KeepsDead self.old self.new }
        ensures err { OnErr result (self.new ≡ self.old) }
        ensures dead { IsOkUnless result PoolError.NoBatch }
    {
        release_at(&mut self.batches, id.number)
    }

    /// Holds the batch once more that a link names, where it names one.
    pub fn hold_link(&mut self, link: &Option<BatchId>)
        requires alive { ForSome link.now (IsAlive self.old) }
        requires room { ForSome link.now (λ id. holds_of self.old id < 2 ^ 64 - 1) }
        ensures { self.new ≡ link_held self.old link.now }
    {
        if let Some(id) = link {
            match self.hold(*id) {
                Ok(()) => (),
                Err(_) => unreachable!(),
            }
        }
    }

    /// Holds the batch once less that a link names, where it names one.
    pub fn release_link(&mut self, link: &Option<BatchId>)
        requires alive { ForSome link.now (IsAlive self.old) }
        ensures { self.new ≡ link_released self.old link.now }
    {
        if let Some(id) = link {
            match self.release(*id) {
                Ok(()) => (),
                Err(_) => unreachable!(),
            }
        }
    }

    /// The allocator of the pool.
    pub fn allocator(&self) -> Global {
        self.alloc
    }
}

fn hold_at<T: Drop>(batches: &mut BTreeMap<u64, HeldBatch<T>>, number: u64) -> Result<(), PoolError>
    requires room { ForSome (get nat_cmp batches.old number) (λ b. b.holds < 2 ^ 64 - 1) }
    ensures alive { IsOk result ↔ IsSome (get nat_cmp batches.old number) }
    ensures more { SetsAt batches.old batches.new number (option_map with_hold (get nat_cmp batches.old number)) }
    ensures dead { IsOkUnless result PoolError.NoBatch }
{
    match batches.get_mut(&number) {
        Some(batch) => {
            batch.holds += 1;
            Ok(())
        }
        None => Err(PoolError::NoBatch),
    }
}

fn release_at<T: Drop>(
    batches: &mut BTreeMap<u64, HeldBatch<T>>,
    number: u64,
) -> Result<(), PoolError>
    requires held { ForSome (get nat_cmp batches.old number) (λ b. 0 < b.holds) }
    ensures alive { IsOk result ↔ IsSome (get nat_cmp batches.old number) }
    ensures less { SetsAt batches.old batches.new number
        (option_and_then without_hold (get nat_cmp batches.old number)) }
    ensures dead { IsOkUnless result PoolError.NoBatch }
{
    match batches.get_mut(&number) {
        Some(batch) if batch.holds > 1 => {
            batch.holds -= 1;
            Ok(())
        }
        Some(_) => {
            batches.remove(&number);
            Ok(())
        }
        None => Err(PoolError::NoBatch),
    }
}
