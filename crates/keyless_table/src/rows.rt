//! The histories of the table.
use crate::steps::Ask::{
    Batch as Of, Boundary, Get, GetMany, Pins, Present, Proof, Serve, ServeBoundary,
};
use crate::steps::Change::{Apply, Commit, Destroy, Open, Prune, StartSync, Sync};
use crate::steps::Step::{self, Ask, Batch, Change, Seal};
use crate::steps::{BatchAsk, Values};

/// One batch, read and proved.
pub(crate) const FIRST: [Step; 11] = [
    Seal(None, Values(1, 3, 0)),
    Change(Apply(0)),
    Ask(Get(1)),
    Ask(Get(3)),
    Ask(Get(4)),
    Ask(GetMany(&[])),
    Ask(GetMany(&[1, 2, 3])),
    Ask(GetMany(&[3, 2])),
    Ask(GetMany(&[2, 99])),
    Ask(Proof(4, 0, 9)),
    Change(Apply(0)),
];

/// A batch on a batch, applied at once.
pub(crate) const CHAIN: [Step; 6] = [
    Seal(None, Values(1, 2, 0)),
    Seal(Some(0), Values(2, 3, 0)),
    Change(Apply(1)),
    Ask(Proof(3, 1, 2)),
    Ask(Proof(4, 1, 1)),
    Ask(Proof(5, 0, 9)),
];

/// Two batches on one database, of which the first is applied.
pub(crate) const SIBLINGS: [Step; 12] = [
    Seal(None, Values(1, 2, 0)),
    Seal(None, Values(2, 3, 0)),
    Change(Apply(0)),
    Ask(Of(0, BatchAsk::Get(1))),
    Ask(Of(1, BatchAsk::Get(1))),
    Ask(Of(0, BatchAsk::GetMany(&[1, 2]))),
    Ask(Of(1, BatchAsk::GetMany(&[]))),
    Ask(Of(0, BatchAsk::Proof)),
    Ask(Of(1, BatchAsk::Proof)),
    Ask(Of(0, BatchAsk::Pins)),
    Ask(Of(1, BatchAsk::Pins)),
    Change(Apply(1)),
];

/// Two equal batches, of which the first is applied, and a batch on the second.
pub(crate) const EQUAL: [Step; 5] = [
    Seal(None, Values(1, 2, 0)),
    Seal(None, Values(1, 2, 0)),
    Change(Apply(0)),
    Seal(Some(1), Values(2, 3, 0)),
    Change(Apply(2)),
];

/// Floors that are refused, and a read below one.
pub(crate) const FLOORS: [Step; 5] = [
    Seal(None, Values(1, 3, 4)),
    Batch(Values(1, 3, 3)),
    Seal(None, Values(3, 3, 2)),
    Ask(Of(0, BatchAsk::Get(2))),
    Ask(Of(0, BatchAsk::Get(3))),
];

/// Fifteen batches of three values, each with its own commit's place as floor, and then a prune.
pub(crate) const PRUNED: [Step; 23] = [
    Batch(Values(0, 3, 4)),
    Batch(Values(3, 6, 8)),
    Batch(Values(6, 9, 12)),
    Batch(Values(9, 12, 16)),
    Batch(Values(12, 15, 20)),
    Batch(Values(15, 18, 24)),
    Batch(Values(18, 21, 28)),
    Batch(Values(21, 24, 32)),
    Batch(Values(24, 27, 36)),
    Batch(Values(27, 30, 40)),
    Batch(Values(30, 33, 44)),
    Batch(Values(33, 36, 48)),
    Batch(Values(36, 39, 52)),
    Batch(Values(39, 42, 56)),
    Batch(Values(42, 45, 60)),
    Change(Prune(8)),
    Ask(Get(6)),
    Ask(Get(7)),
    Ask(Proof(8, 7, 5)),
    Ask(Proof(5, 4, 1)),
    Ask(Proof(9, 8, 1)),
    Ask(Proof(61, 7, 54)),
    Ask(Pins(8)),
];

/// A prune above the floor, and one at it.
pub(crate) const ABOVE: [Step; 4] = [
    Batch(Values(1, 4, 4)),
    Change(Sync),
    Change(Prune(5)),
    Change(Prune(4)),
];

/// A batch whose history was lost and replaced by another of the same size.
pub(crate) const REPLACED: [Step; 9] = [
    Batch(Values(1, 7, 0)),
    Change(Sync),
    Seal(None, Values(7, 8, 0)),
    Change(Open(Some(1))),
    Batch(Values(11, 17, 0)),
    Ask(Of(1, BatchAsk::Get(8))),
    Ask(Of(1, BatchAsk::Proof)),
    Ask(Of(1, BatchAsk::Pins)),
    Seal(Some(1), Values(8, 9, 0)),
];

/// What followers ask, and a log that is taken away.
pub(crate) const FOLLOWED: [Step; 14] = [
    Ask(Boundary),
    Batch(Values(1, 6, 0)),
    Batch(Values(6, 9, 7)),
    Ask(Boundary),
    Ask(Present(6, 3)),
    Ask(Present(11, 1)),
    Ask(Serve(7, 5, 9)),
    Ask(Serve(8, 5, 9)),
    Ask(ServeBoundary(11, 7)),
    Ask(ServeBoundary(7, 0)),
    Change(Prune(7)),
    Ask(ServeBoundary(11, 6)),
    Change(Destroy),
    Batch(Values(1, 3, 0)),
];

/// Three batches, made durable.
pub(crate) const HISTORY: [Step; 10] = [
    Batch(Values(0, 1, 0)),
    Ask(Proof(3, 1, 9)),
    Ask(Pins(1)),
    Batch(Values(1, 4, 2)),
    Ask(Proof(7, 3, 9)),
    Ask(Pins(3)),
    Batch(Values(4, 9, 3)),
    Ask(Proof(13, 7, 9)),
    Ask(Pins(7)),
    Change(Commit),
];

/// A history of which calls fail.
pub(crate) const FAILING: [Step; 14] = [
    Batch(Values(0, 2, 0)),
    Change(Commit),
    Batch(Values(2, 3, 3)),
    Change(Open(None)),
    Batch(Values(3, 7, 5)),
    Change(Sync),
    Batch(Values(7, 7, 7)),
    Change(StartSync),
    Batch(Values(7, 9, 11)),
    Change(Prune(8)),
    Batch(Values(9, 10, 12)),
    Change(Commit),
    Batch(Values(10, 13, 14)),
    Change(Prune(14)),
];
