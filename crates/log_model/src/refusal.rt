ghost use Rattle.std.specs.Prelude.{◌≡◌};
ghost use Rattle.std.specs.Bool.{Decides};
ghost use Rattle.log_model.specs.declared.refusal.Refusal.{Refusal};

/// Why a command, or a call of a database, is refused. A location is the place of an operation, a size a number of operations.
#[derive(Clone, Copy, Debug, PartialEq, Eq)]
pub enum Refusal {
    /// The batch of this number isn't there in the phase that the command needs.
    NoBatch(u64),
    /// The value has this length, which is above the limit.
    ValueTooLong(u64),
    /// The batch doesn't fit the present list.
    StaleBatch,
    /// This size would be above the greatest.
    LocationOverflow(u64),
    /// The floor, and the floor on which the batch builds, which is above it.
    FloorRegressed(u64, u64),
    /// The floor, and the location of the commit, which is below it.
    FloorBeyondSize(u64, u64),
    /// The batch can't be read at the present list.
    StaleRead,
    /// A location, and the next one, which isn't above it.
    LocationOutOfOrder(u64, u64),
    /// The location, and the size that it reaches or passes.
    LocationOutOfBounds(u64, u64),
    /// The location lies below the floor of the batch that is read.
    BelowInactivityFloor(u64),
    /// The operation at the location, or the witness of the size behind it, isn't kept.
    ItemPruned(u64),
    /// The location, and the floor, which is below it.
    PruneBeyondMinRequired(u64, u64),
    /// No commit ends at the size.
    HistoricalFloorPruned(u64),
    /// No such size was reached, or a proof would begin at or past its size.
    RangeOutOfBounds(u64),
}

/// Two refusals are equal exactly where they are one: one variant with the same fields.
pub fn equality_law()
    ensures { (a b : Refusal) → Decides (⟦<Refusal as PartialEq>⟧.eq a b) (a ≡ b) }
{}
