//! Worked rows of the list machine, computed from the state in which a fresh volume is opened.
ghost use Rattle.list_machine.specs.Rows.{FreshOpening, FirstBatch, TwoBatchChain, ThreeOperationsOneWitness, FourOperationsTwoWitnesses, EqualSiblings, UnequalSiblings, ReapplyAndSnapshot, FloorRefusals, ReleasedAncestor, AppliedAncestor, GetManyOrder, ValueLimit, PruneAboveFloor, PruneFifteenBatches};

/// What steps answer, and at which size images open, in worked rows.
pub fn worked_rows()
    ensures fresh_opening { FreshOpening }
    ensures first_batch { FirstBatch }
    ensures two_batch_chain { TwoBatchChain }
    ensures three_operations_one_witness { ThreeOperationsOneWitness }
    ensures four_operations_two_witnesses { FourOperationsTwoWitnesses }
    ensures equal_siblings { EqualSiblings }
    ensures unequal_siblings { UnequalSiblings }
    ensures reapply_and_snapshot { ReapplyAndSnapshot }
    ensures floor_refusals { FloorRefusals }
    ensures released_ancestor { ReleasedAncestor }
    ensures applied_ancestor { AppliedAncestor }
    ensures get_many_order { GetManyOrder }
    ensures value_limit { ValueLimit }
    ensures prune_above_floor { PruneAboveFloor }
    ensures prune_fifteen_batches { PruneFifteenBatches }
{}
