ghost use Rattle.std.specs.Prelude.{◌≡◌, ◌≢◌, ◌≤◌, ◌+◌, ◌-◌, ◌^◌, ℕ, min};
ghost use Rattle.std.specs.IoError.{error_kind};

use std::io::{self, ErrorKind};
use std::marker::Model;

/// How often a stream has failed. The count stands still at its last value.
#[derive(Drop)]
pub struct FaultCount {
    count: u64,
}

impl Model for FaultCount {
    ghost Value = { ℕ };

    ghost view = { λ c. c.count };
}

impl FaultCount {
    /// Nothing has failed.
    pub fn new() -> Self
        ensures { result ≡ 0 }
    {
        FaultCount { count: 0 }
    }

    /// Counts a call that failed with this error. An interruption is no failure.
    pub fn failed(&mut self, _error: &io::Error)
        requires { error_kind _error.now ≢ ErrorKind.Interrupted }
        ensures counted { self.new ≡ min (self.old + 1) (2 ^ 64 - 1) }
        ensures later { self.old ≤ self.new }
    {
        self.count = self.count.saturating_add(1);
    }

    /// Counts a call that was interrupted at each of so many tries, the most that are made.
    pub fn gave_up(&mut self, _tries: u64)
        requires { _tries ≡ 2 ^ 64 - 1 }
        ensures counted { self.new ≡ min (self.old + 1) (2 ^ 64 - 1) }
        ensures later { self.old ≤ self.new }
    {
        self.count = self.count.saturating_add(1);
    }
}
