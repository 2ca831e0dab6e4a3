//! Calls that are set to fail.
ghost use Rattle.std.specs.Prelude.{◌≡◌, ◌↔◌, ℕ, ◌+◌, ◌-◌, ◌^◌, ◌≤◌, List, [], ◌∷◌, ◌++◌, map, min, Contains, IsTrue, OnOk, OnErr, if◌then◌else◌};
ghost use Rattle.stream_base.specs.Failing.{Failing, IsSteady, after_call};

use std::alloc::{AllocError, Global};
use std::marker::Model;

/// The calls of an object that are set to fail, and how often one has failed.
#[derive(Debug, Drop)]
pub struct FailingCalls {
    ahead: Vec<u64>,
    faults: u64,
}

impl Model for FailingCalls {
    ghost Value = { Failing };

    ghost view = { λ c. record { ahead = c.ahead.items; faults = c.faults } };
}

impl FailingCalls {
    /// Nothing is set to fail. It takes no memory.
    pub fn new(alloc: Global) -> Self
        ensures { result ≡ record { ahead = []; faults = 0 } }
    {
        FailingCalls {
            ahead: Vec::new(alloc),
            faults: 0,
        }
    }

    /// Sets the n-th call from now to fail: 1 is the next, and 0 sets nothing.
    pub fn fail_call(&mut self, n: u64) -> Result<(), AllocError>
        ensures set { OnOk result (self.new ≡ record self.old { ahead = self.old.ahead ++ n ∷ [] }) }
        ensures err { OnErr result (self.new ≡ self.old) }
    {
        self.ahead.push(n)?;
        Ok(())
    }

    /// Begins a call, and says whether it is set to fail. If so it is counted as a fault.
    pub fn next_fails(&mut self) -> bool
        ensures planned { IsTrue result ↔ Contains self.old.ahead 1 }
        ensures ahead { self.new.ahead ≡ after_call self.old.ahead }
        // The count stands still at its last value.
        ensures counted { self.new.faults ≡ (if result then min (self.old.faults + 1) (2 ^ 64 - 1) else self.old.faults) }
        ensures later { self.old.faults ≤ self.new.faults }
        // With nothing set to fail nothing fails, then or later.
        ensures steady { IsSteady self.old → IsSteady self.new × (self.new.faults ≡ self.old.faults) }
    {
        let fails = self.ahead.contains(&1);
        count_down(&mut self.ahead);
        if fails {
            self.count_fault();
        }
        fails
    }

    /// Counts a fault that was not set.
    pub fn count_fault(&mut self)
        ensures ahead { self.new.ahead ≡ self.old.ahead }
        ensures counted { self.new.faults ≡ min (self.old.faults + 1) (2 ^ 64 - 1) }
        ensures later { self.old.faults ≤ self.new.faults }
    {
        self.faults = self.faults.saturating_add(1);
    }
}

/// Lowers each number that isn't 0.
fn count_down(numbers: &mut Vec<u64>)
    ensures { numbers.new.items ≡ map (λ n. n - 1) numbers.old.items }
{
    for number in numbers.iter_mut() {
        *number = number.saturating_sub(1);
    }
}
