//! How a database is opened.
ghost use Rattle.std.specs.Prelude.{◌≡◌, ◌↔◌, Some, IsErrOf, IsOkUnless};
ghost use Rattle.chain_core.specs.declared.error.Error.TheVariants as error;

use crate::errors::from_joined;
use crate::{Keyless, KeylessOperation};
use auth_journal::Journal;
use chain_core::{Commitment, DataFault, Error};
use journal_base::{Backing, Contiguous};
use std::alloc::Global;
use std::num::NonZeroU64;
use tree_core::{Bagging, Family, Hasher, Location, MAX_LEAVES};
use volume_base::Volume;

/// Where a database has its operations and their tree, and how many operations are read at a time where the tree lacks
/// them.
#[derive(Drop)]
pub struct Config<J> {
    /// Where the tree has its nodes and its pins.
    pub merkle: merkle_full::Config,
    /// Where the log has its operations.
    pub log: J,
    /// How many operations are read at a time.
    pub apply_batch: NonZeroU64,
}

/// Refuses a bound of 0 with `InvalidInitializationBound`.
fn check_bound<F: Family>(bound: &Option<Location<F>>) -> Result<(), Error<F>>
    ensures zero { IsErrOf result error.InvalidInitializationBound ↔ (bound.now ≡ Some 0) }
    ensures only { IsOkUnless result error.InvalidInitializationBound }
{
    match bound {
        Some(bound) if bound.as_u64() == 0 => Err(Error::InvalidInitializationBound),
        _ => Ok(()),
    }
}

impl<F: Family, O: KeylessOperation, C: Backing<Item = O>, H: Hasher> Keyless<F, O, C, H> {
    ghost use Rattle.std.specs.Prelude.{◌≢◌, ◌⊎◌, ◌<◌, ◌≤◌, ◌^◌, ◌+◌, ◌-◌, ◌∷◌, ◌++◌, [], ℕ, List, length, None, Err, false, string_bytes, slice_get, IfOk, IfErr};
    ghost use Rattle.std.specs.List.{AllByRecursion};
    ghost use Rattle.std.specs.NonZero.{non_zero_u64_get};
    ghost use Rattle.journal_base.specs.Items.{items_of, Spells};
    ghost use Rattle.journal_base.specs.View.{log_of, IsDurable, IsHeld, SameButBounds};
    ghost use Rattle.tree_shape.specs.declared.bagging.Bagging.TheVariants.{ForwardFold};
    ghost use Rattle.tree_store.specs.Stored.{TreeStands};
    ghost use Rattle.tree_store.specs.declared.error.Error.TheVariants.{LocationOverflow};
    ghost use Rattle.volume_base.specs.Log.{end_of, appended, cut_to};
    ghost use Rattle.volume_base.specs.Moments.{Image, present};
    ghost use Rattle.volume_base.specs.Names.{two_logs_and_map, NamesCall};
    ghost use Rattle.volume_base.specs.Volume.{Changes, PastStays};
    ghost use Rattle.merkle_full.specs.Full.{IsSeated, Rests};
    ghost use Rattle.auth_journal.specs.Joined.{IsJoinedOf, leaves_of};
    ghost use Rattle.auth_journal.specs.Searching.{EndsAt};
    ghost use Rattle.auth_journal.specs.Standing.{Marks, NamesKeepStanding, NamesSettle, names_of};
    ghost use Rattle.auth_journal.specs.Opening.{NotOpened};
    ghost use Rattle.chain_core.specs.Answers.{IsOutside};
    ghost use Rattle.chain_core.specs.declared.error.Error.{Error};
    ghost use Rattle.chain_core.specs.declared.error.DataFault.TheVariants.{NotACommit};
    ghost use Rattle.keyless_db.specs.DbView.{IsHeldFor};
    ghost use Rattle.keyless_db.specs.Errors.{IsFromJoined};
    ghost use Rattle.keyless_db.specs.Opening.{BecomesStanding, BeginsStanding, EndsHere, EndsPast, GoesOn, HasOpening, IsBuiltAt, KeepsDurable, IsHeldFrom, IsInitOf, IsOfOpening, IsOpenedOf, IsSaidCommit, NotBuilt, NotListed};

    /// The log and the tree up to the last commit at or below a size, or up to the last of all.
    fn open_journal<V: Volume>(
        alloc: Global,
        vol: &mut V,
        cfg: Config<C::Config>,
        max_size: Option<Location<F>>,
    ) -> Result<Journal<F, C, H>, Error<F>>
        requires { (C.config cfg.log).name ≢ string_bytes cfg.merkle.nodes }
        ensures named { IfOk result (λ t. SameButBounds (C.config cfg.log) t.items × (t.bagging ≡ ForwardFold)
            × (t.failed ≡ false)) }
        ensures whole { IfOk result (λ t. t.tree.tree.leaves ≡ t.items.end) }
        ensures found { let items = items_of O.spelling O.admits (C.config cfg.log) (V.state vol.old) in
            IfOk result (λ t. V.tells → EndsAt items (IsSaidCommit O.meaning) max_size t.items.end) }
        ensures joined { IfOk result (λ t. names_of t ≡ two_logs_and_map (C.config cfg.log).name
            (string_bytes cfg.merkle.nodes) (string_bytes cfg.merkle.metadata)) }
        ensures blob { IfOk result (λ t. t.tree.log.blob ≡ non_zero_u64_get cfg.merkle.items_per_blob) }
        // For each list that the log stood for, and the tree with perhaps more operations behind it, it is the journal
        // of the list's first operations.
        ensures listed { let old = V.state vol.old in let log = log_of (C.config cfg.log) old in
            let nodes = old.log (string_bytes cfg.merkle.nodes) in let map = old.map
            (string_bytes cfg.merkle.metadata) in
            IfOk result (λ t. V.tells → (list rest : List O) (durable : ℕ) → Spells O.spelling list log →
            length (list ++ rest) ≤ 2 ^ 62 → TreeStands F.shape H.hash H.Digest.spelling
            (leaves_of F.shape H.hash O.spelling (list ++ rest)) durable log.start nodes map →
            IsOpenedOf F.shape H.hash H.Digest.spelling (H.Digest.Read.admits tt) O.spelling list t
            (present (V.state vol.new))) }
        ensures names { let names = two_logs_and_map (C.config cfg.log).name (string_bytes cfg.merkle.nodes)
            (string_bytes cfg.merkle.metadata) in V.tells → NamesCall names (V.state vol.old) (V.state vol.new) }
        ensures durable { IfOk result (λ t. V.tells →
            IsDurable t.items (V.state vol.new) × IsDurable t.tree.log (V.state vol.new)) }
        ensures rests { IfOk result (λ t. Rests F.shape t.tree) }
        ensures seated { IfOk result (λ t. V.tells → IsSeated F.shape t.tree (present (V.state vol.new))) }
        ensures start { let log = log_of (C.config cfg.log) (V.state vol.old) in IfOk result (λ t. V.tells →
            (t.items.start ≡ log.start) × IsHeld t.items (V.state vol.new)) }
        ensures cut { let view = C.config cfg.log in IfOk result (λ t. V.tells →
            log_of view (V.state vol.new) ≡ cut_to (log_of view (V.state vol.old)) t.items.end) }
        ensures refused { let old = V.state vol.old in let map = old.map (string_bytes cfg.merkle.metadata) in
            let items = items_of O.spelling O.admits (C.config cfg.log) old in V.tells → IfErr result
            (IsFromJoined (NotOpened V.tells H.Digest.spelling (H.Digest.Read.admits tt) F.shape map
            (old.log (string_bytes cfg.merkle.nodes)) items (IsSaidCommit O.meaning) max_size)) }
        ensures other { IfErr result (λ e. e ≢ Error.InvalidInitializationBound) }
        ensures errors { IfErr result IsOfOpening }
        ensures images { let old = V.state vol.old in let view = C.config cfg.log in
            let items = items_of O.spelling O.admits view old in V.tells → (list rest : List O) (marks : Marks) →
            KeepsDurable O.meaning items max_size marks → Spells O.spelling list (log_of view old) →
            length (list ++ rest) ≤ 2 ^ 62 →
            NamesKeepStanding F.shape H.hash H.Digest.spelling O.spelling (list ++ rest) marks view.name
            (string_bytes cfg.merkle.nodes) (string_bytes cfg.merkle.metadata) old (V.state vol.new) }
        ensures settled { let old = V.state vol.old in let view = C.config cfg.log in
            let items = items_of O.spelling O.admits view old in
            IfOk result (λ t. V.tells → (list rest : List O) (marks : Marks) →
            KeepsDurable O.meaning items max_size marks → Spells O.spelling list (log_of view old) →
            length (list ++ rest) ≤ 2 ^ 62 →
            NamesSettle F.shape H.hash H.Digest.spelling O.spelling (list ++ rest) t.items.end marks view.name
            (string_bytes cfg.merkle.nodes) (string_bytes cfg.merkle.metadata) old (V.state vol.new)) }
        ensures changes { Changes V.tells Error.Volume (V.state vol.old) (V.state vol.new) result }
    {
        let Config {
            merkle,
            log,
            apply_batch,
        } = cfg;
        let is_commit = |op: &O| op.commit_floor().is_some();
        let bagging = Bagging::ForwardFold;
        match max_size {
            Some(most) => match Journal::init_at_most(
                alloc,
                vol,
                merkle,
                log,
                most.as_u64(),
                is_commit,
                bagging,
                apply_batch,
            ) {
                Ok(journal) => Ok(journal),
                Err(error) => Err(from_joined(error)),
            },
            None => {
                match Journal::new(alloc, vol, merkle, log, is_commit, bagging, apply_batch) {
                    Ok(journal) => Ok(journal),
                    Err(error) => Err(from_joined(error)),
                }
            }
        }
    }

    /// The journal with this commit behind its operations, made durable.
    fn begun<V: Volume>(
        vol: &mut V,
        journal: Journal<F, C, H>,
        commit: &O,
    ) -> Result<Journal<F, C, H>, Error<F>>
        requires { journal.failed ≡ false }
        ensures named { IfOk result (λ t. SameButBounds journal.items t.items × (t.bagging ≡ journal.bagging)
            × (t.failed ≡ journal.failed)) }
        ensures leaves { IfOk result (λ t. t.tree.tree.leaves ≡ journal.tree.tree.leaves + 1) }
        ensures listed { let admits = H.Digest.Read.admits tt in IfOk result (λ t. V.tells →
            IsJoinedOf F.shape H.hash H.Digest.spelling admits O.spelling [] journal (present (V.state vol.old)) →
            journal.tree.boundary ≤ journal.items.start →
            IsJoinedOf F.shape H.hash H.Digest.spelling admits O.spelling (commit.now ∷ []) t
            (present (V.state vol.new))
            × (t.tree.boundary ≤ t.items.start)) }
        ensures names { V.tells → NamesCall (names_of journal) (V.state vol.old) (V.state vol.new) }
        ensures durable { IfOk result (λ t. V.tells →
            IsDurable t.items (V.state vol.new) × IsDurable t.tree.log (V.state vol.new)) }
        ensures joined { IfOk result (λ t. names_of t ≡ names_of journal) }
        ensures log { IfOk result (λ t. V.tells → log_of journal.items (V.state vol.new) ≡
            appended (log_of journal.items (V.state vol.old)) (O.spelling commit.now ∷ [])) }
        ensures blob { IfOk result (λ t. t.tree.log.blob ≡ journal.tree.log.blob) }
        ensures rests { IfOk result (λ t. Rests F.shape t.tree) }
        ensures start { IfOk result (λ t. V.tells → IsHeld journal.items (V.state vol.old) →
            (t.items.start ≡ journal.items.start) × IsHeld t.items (V.state vol.new)) }
        ensures refused { V.tells → IsHeld journal.items (V.state vol.old) → journal.items.end ≡ 0 →
            journal.tree.tree.leaves ≡ 0 → IsSeated F.shape journal.tree (present (V.state vol.old)) →
            IfErr result IsOutside }
        ensures images { let admits = H.Digest.Read.admits tt in V.tells → (marks : Marks) →
            IsJoinedOf F.shape H.hash H.Digest.spelling admits O.spelling [] journal (present (V.state vol.old)) →
            BeginsStanding F.shape H.hash H.Digest.spelling O.spelling commit.now marks journal.items.name
            journal.tree.log.name journal.tree.metadata (V.state vol.old) (V.state vol.new) result }
        ensures other { IfErr result (λ e. e ≢ Error.InvalidInitializationBound) }
        ensures errors { IfErr result IsOfOpening }
        ensures changes { Changes V.tells Error.Volume (V.state vol.old) (V.state vol.new) result }
    {
        let made = match journal.append(vol, commit) {
            Ok(made) => made,
            Err(error) => return Err(from_joined(error)),
        };
        let (longer, _) = made;
        match longer.sync(vol) {
            Ok(journal) => Ok(journal),
            Err(error) => Err(from_joined(error)),
        }
    }

    /// The database of a journal of so many operations, of which this is the last. It refuses with
    /// `DataCorrupted(NotACommit)` one that is no commit, and with `Merkle(LocationOverflow)` more than `MAX_LEAVES`.
    fn built(
        alloc: Global,
        journal: Journal<F, C, H>,
        size: u64,
        last_commit: O,
    ) -> Result<Self, Error<F>>
        requires whole { journal.tree.tree.leaves ≡ size }
        requires folded { journal.bagging ≡ ForwardFold }
        ensures journal { IfOk result (λ d. d.journal ≡ journal) }
        ensures size { IfOk result (λ d. d.state.size ≡ size) }
        ensures commit { IfOk result (λ d. d.commit ≡ last_commit) }
        ensures listed { let admits = H.Digest.Read.admits tt in IfOk result (λ d. (list : List O) (image : Image) →
            IsJoinedOf F.shape H.hash H.Digest.spelling admits O.spelling list journal image →
            journal.tree.boundary ≤ journal.items.start → slice_get list (size - 1) ≡ Some last_commit →
            IsHeldFor F.shape H.hash O.meaning H.Digest.spelling admits O.spelling list d image) }
        ensures refused { IfErr result (λ e. ((2 ^ 62 < size) × (e ≡ Error.Merkle (LocationOverflow size)))
            ⊎ ((O.meaning.floor last_commit ≡ None) × (e ≡ Error.DataCorrupted NotACommit))) }
    {
        if size > MAX_LEAVES {
            let overflow = tree_core::Error::LocationOverflow(Location::new(size));
            return Err(Error::Merkle(overflow));
        }
        let Some(floor) = last_commit.commit_floor() else {
            return Err(Error::DataCorrupted(DataFault::NotACommit));
        };
        let inactive = F::inactive_peaks(Location::new(size), Location::new(floor));
        let root = match journal.root(inactive) {
            Ok(root) => root,
            Err(error) => return Err(from_joined(error)),
        };
        let state = Commitment::new(Location::new(size), root);
        Ok(Keyless {
            alloc,
            journal,
            state,
            last_commit,
        })
    }

    /// The database of a journal that is opened at its last commit. Where it has no operation, it gets the first
    /// commit, which is made durable. It refuses as `read` and `built`.
    fn opened_from<V: Volume>(
        alloc: Global,
        vol: &mut V,
        journal: Journal<F, C, H>,
    ) -> Result<Self, Error<F>>
        requires whole { journal.tree.tree.leaves ≡ journal.items.end }
        requires folded { journal.bagging ≡ ForwardFold }
        requires fresh { journal.failed ≡ false }
        ensures named { IfOk result (λ d. SameButBounds journal.items d.journal.items × (d.journal.failed ≡ false)) }
        ensures held { let admits = H.Digest.Read.admits tt in IfOk result (λ d. V.tells → (list : List O) →
            IsOpenedOf F.shape H.hash H.Digest.spelling admits O.spelling list journal (present (V.state vol.old)) →
            AllByRecursion (O.admits journal.items.codec) list →
            IsHeldFrom F.shape H.hash O.meaning H.Digest.spelling admits O.spelling list journal.items.end d
            (present (V.state vol.new))) }
        ensures at { IfOk result (λ d. IsBuiltAt (O.committed None 0) journal.items.end d) }
        ensures names { V.tells → NamesCall (names_of journal) (V.state vol.old) (V.state vol.new) }
        ensures durable { IfOk result (λ d. V.tells → IsDurable journal.items (V.state vol.old) →
            IsDurable journal.tree.log (V.state vol.old) →
            IsDurable d.journal.items (V.state vol.new) × IsDurable d.journal.tree.log (V.state vol.new)) }
        ensures joined { IfOk result (λ d. names_of d.journal ≡ names_of journal) }
        ensures blob { IfOk result (λ d. d.journal.tree.log.blob ≡ journal.tree.log.blob) }
        ensures rests { IfOk result (λ d. Rests F.shape journal.tree → Rests F.shape d.journal.tree) }
        ensures start { IfOk result (λ d. V.tells → IsHeld journal.items (V.state vol.old) →
            (d.journal.items.start ≡ journal.items.start) × IsHeld d.journal.items (V.state vol.new)) }
        ensures past { IfOk result (λ d. V.tells → IsHeld journal.items (V.state vol.old) → 0 < journal.items.end →
            journal.items.start < journal.items.end) }
        ensures refused { let items = items_of O.spelling O.admits journal.items (V.state vol.old) in V.tells →
            IsHeld journal.items (V.state vol.old) → IsSeated F.shape journal.tree (present (V.state vol.old)) →
            (0 < journal.items.end → EndsHere O.meaning items journal.items.end) →
            IfErr result (NotBuilt items.log.start journal.items.end) }
        ensures begins { let admits = H.Digest.Read.admits tt in V.tells → (marks : Marks) →
            journal.items.end ≡ 0 →
            IsJoinedOf F.shape H.hash H.Digest.spelling admits O.spelling [] journal (present (V.state vol.old)) →
            BeginsStanding F.shape H.hash H.Digest.spelling O.spelling (O.committed None 0) marks journal.items.name
            journal.tree.log.name journal.tree.metadata (V.state vol.old) (V.state vol.new) result }
        // Of a log with operations the last is read, and no more.
        ensures still { V.tells → 0 < journal.items.end → ((V.state vol.new).clock ≡ (V.state vol.old).clock)
            × PastStays (V.state vol.old) (V.state vol.new) }
        ensures log { IfOk result (λ d. V.tells → GoesOn (O.spelling (O.committed None 0)) journal.items.end
            (log_of journal.items (V.state vol.old)) (log_of journal.items (V.state vol.new))) }
        ensures other { IfErr result (λ e. e ≢ Error.InvalidInitializationBound) }
        ensures errors { IfErr result IsOfOpening }
        ensures changes { Changes V.tells Error.Volume (V.state vol.old) (V.state vol.new) result }
    {
        let size = journal.size().as_u64();
        if size == 0 {
            let commit = O::commit(None, 0);
            let begun = match Self::begun(vol, journal, &commit) {
                Ok(begun) => begun,
                Err(error) => return Err(error),
            };
            return Self::built(alloc, begun, 1, commit);
        }
        match journal.read(vol, size - 1) {
            Ok(last_commit) => Self::built(alloc, journal, size, last_commit),
            Err(error) => Err(Error::from(error)),
        }
    }

    /// Opens the database at the last commit that is kept, or at the last at or below a size. Where no operation is
    /// kept, and none was cut off at the front, the first commit is put there, and is made durable. It refuses a size
    /// of 0 with `InvalidInitializationBound`, then as the journal's opening, and a log that is empty past 0 with
    /// `Journal(ItemPruned)`.
    pub fn init<V: Volume>(
        alloc: Global,
        vol: &mut V,
        cfg: Config<C::Config>,
        max_size: Option<Location<F>>,
    ) -> Result<Self, Error<F>>
        requires { (C.config cfg.log).name ≢ string_bytes cfg.merkle.nodes }
        ensures bound { max_size ≡ Some 0 → (result ≡ Err Error.InvalidInitializationBound) × (vol.new ≡ vol.old) }
        // So it is refused only then.
        ensures bound_only { IsErrOf result Error.InvalidInitializationBound → max_size ≡ Some 0 }
        // Else it is refused by the outside, as the journal's opening, or as an empty log past 0.
        ensures refused { let old = V.state vol.old in let map = old.map (string_bytes cfg.merkle.metadata) in
            let items = items_of O.spelling O.admits (C.config cfg.log) old in V.tells → max_size ≢ Some 0 →
            IfErr result (NotListed V.tells H.Digest.spelling (H.Digest.Read.admits tt) F.shape map
            (old.log (string_bytes cfg.merkle.nodes)) items O.meaning max_size) }
        // So it is whatever the volume tells.
        ensures errors { max_size ≢ Some 0 → IfErr result IsOfOpening }
        // Where log and tree stand for a list whose operations are allowed, and which has an end under the bound, it is
        // refused by the outside alone.
        ensures outside { let old = V.state vol.old in let view = C.config cfg.log in
            let nodes = old.log (string_bytes cfg.merkle.nodes) in let map = old.map
            (string_bytes cfg.merkle.metadata) in
            V.tells → max_size ≢ Some 0 → (list rest : List O) (durable : ℕ) →
            Spells O.spelling list (log_of view old) →
            length (list ++ rest) ≤ 2 ^ 62 → TreeStands F.shape H.hash H.Digest.spelling
            (leaves_of F.shape H.hash O.spelling (list ++ rest)) durable (log_of view old).start nodes map →
            AllByRecursion (O.admits view.codec) list →
            HasOpening O.meaning (items_of O.spelling O.admits view old) max_size durable →
            IfErr result IsOutside }
        ensures named { IfOk result
            (λ d. SameButBounds (C.config cfg.log) d.journal.items × (d.journal.failed ≡ false)) }
        // It is at an end of the log's operations; and where that is 0, it has the first commit alone. The log is cut
        // there, and at 0 it gets that commit.
        ensures opens { let view = C.config cfg.log in let first = O.committed None 0 in
            let items = items_of O.spelling O.admits view (V.state vol.old) in
            IfOk result (λ d. V.tells → (end : ℕ) × EndsAt items (IsSaidCommit O.meaning) max_size end
            × IsBuiltAt first end d
            × GoesOn (O.spelling first) end (cut_to items.log end) (log_of view (V.state vol.new))) }
        // Whatever the volume tells, it has an operation.
        ensures some { IfOk result (λ d. 0 < d.state.size) }
        // For each list that the log stood for, and the tree with perhaps more operations behind it, it is held for the
        // list up to a commit, where its operations may be such.
        ensures held { let old = V.state vol.old in let view = C.config cfg.log in
            let nodes = old.log (string_bytes cfg.merkle.nodes) in let map = old.map
            (string_bytes cfg.merkle.metadata) in
            IfOk result (λ d. V.tells → (list rest : List O) (durable : ℕ) →
            Spells O.spelling list (log_of view old) →
            length (list ++ rest) ≤ 2 ^ 62 → TreeStands F.shape H.hash H.Digest.spelling
            (leaves_of F.shape H.hash O.spelling (list ++ rest)) durable (log_of view old).start nodes map →
            AllByRecursion (O.admits view.codec) list →
            IsInitOf F.shape H.hash O.meaning H.Digest.spelling (H.Digest.Read.admits tt) O.spelling
            (items_of O.spelling O.admits view old) max_size list d (present (V.state vol.new))) }
        ensures names { let names = two_logs_and_map (C.config cfg.log).name (string_bytes cfg.merkle.nodes)
            (string_bytes cfg.merkle.metadata) in V.tells → NamesCall names (V.state vol.old) (V.state vol.new) }
        // What is there is durable.
        ensures durable { IfOk result (λ d. V.tells →
            IsDurable d.journal.items (V.state vol.new) × IsDurable d.journal.tree.log (V.state vol.new)) }
        // Its logs and its map are those of the configuration, and its tree's memory is at rest.
        ensures joined { IfOk result (λ d. names_of d.journal ≡ two_logs_and_map (C.config cfg.log).name
            (string_bytes cfg.merkle.nodes) (string_bytes cfg.merkle.metadata)) }
        ensures blob { IfOk result (λ d. d.journal.tree.log.blob ≡ non_zero_u64_get cfg.merkle.items_per_blob) }
        ensures rests { IfOk result (λ d. Rests F.shape d.journal.tree) }
        // Nothing is cut off at the front, and the volume has the log with the database's bounds.
        ensures start { let log = log_of (C.config cfg.log) (V.state vol.old) in IfOk result (λ d. V.tells →
            (d.journal.items.start ≡ log.start) × IsHeld d.journal.items (V.state vol.new)) }
        // An empty log past 0 isn't opened.
        ensures past { let log = log_of (C.config cfg.log) (V.state vol.old) in
            IfOk result (λ d. V.tells → log.start ≡ end_of log → log.start ≡ 0) }
        // Where the log has no operation, and begins at 0, each image that stands for the first commit alone, or for no
        // operation, goes on standing for that commit, and from a turn on that is durable.
        ensures begins { let old = V.state vol.old in let view = C.config cfg.log in
            let items = items_of O.spelling O.admits view old in V.tells → (marks : Marks) → max_size ≢ Some 0 →
            KeepsDurable O.meaning items max_size marks → Spells O.spelling [] (log_of view old) →
            BecomesStanding F.shape H.hash H.Digest.spelling O.spelling (O.committed None 0) marks view.name
            (string_bytes cfg.merkle.nodes) (string_bytes cfg.merkle.metadata) old (V.state vol.new) result }
        // Where it is opened past 0, and keeps all that is durable, each image of both logs and the map goes on
        // standing for the list that the log stood for, or for that with more operations behind it, which an image may
        // still have; whatever is answered. What is then left stands for the list up to the commit, and all of that is
        // durable.
        ensures images { let old = V.state vol.old in let view = C.config cfg.log in
            let items = items_of O.spelling O.admits view old in V.tells → (list rest : List O) (marks : Marks) →
            EndsPast O.meaning items max_size → KeepsDurable O.meaning items max_size marks →
            Spells O.spelling list (log_of view old) → length (list ++ rest) ≤ 2 ^ 62 →
            NamesKeepStanding F.shape H.hash H.Digest.spelling O.spelling (list ++ rest) marks view.name
            (string_bytes cfg.merkle.nodes) (string_bytes cfg.merkle.metadata) old (V.state vol.new) }
        ensures settled { let old = V.state vol.old in let view = C.config cfg.log in
            let items = items_of O.spelling O.admits view old in
            IfOk result (λ d. V.tells → (list rest : List O) (marks : Marks) →
            EndsPast O.meaning items max_size → KeepsDurable O.meaning items max_size marks →
            Spells O.spelling list (log_of view old) → length (list ++ rest) ≤ 2 ^ 62 →
            NamesSettle F.shape H.hash H.Digest.spelling O.spelling (list ++ rest) d.state.size marks view.name
            (string_bytes cfg.merkle.nodes) (string_bytes cfg.merkle.metadata) old (V.state vol.new)) }
        ensures changes { Changes V.tells Error.Volume (V.state vol.old) (V.state vol.new) result }
    {
        match check_bound(&max_size) {
            Ok(()) => {}
            Err(error) => return Err(error),
        }
        match Self::open_journal(alloc, vol, cfg, max_size) {
            Ok(journal) => Self::opened_from(alloc, vol, journal),
            Err(error) => Err(error),
        }
    }
}
