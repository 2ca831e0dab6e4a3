//! What holds of every journal and every list of items, for callers that are generic over them.
ghost use Rattle.std.specs.Prelude.{◌≡◌, ◌++◌, ◌≤◌, ℕ, List, Some, false, length, map, take, slice_get};
ghost use Rattle.journal_base.specs.Items.{Spells};
ghost use Rattle.volume_base.specs.Log.{Log, IsItemAt, appended, cut_to, pruned_to, cleared_at};

use crate::{Backing, BackingRecovery, Contiguous, Mutable};
use codec_base::Read;

/// The laws of journals that are one log.
pub fn backing_laws<C: Backing>()
    ensures one_log { C.one_log }
    ensures fresh { (cfg : C.Config) → (C.config cfg).failed ≡ false }
    ensures opened { (journal : C) → C.Recovery.opened journal ≡ C.view journal }
{}

/// The laws of logs that are a run of a list of items.
pub fn run_laws<T: Read>(cfg: &T::Cfg)
    // What is appended stands behind the list.
    ensures appended { (list items : List T) (log : Log) → Spells T.spelling list log →
        Spells T.spelling (list ++ items) (appended log (map T.spelling items)) }
    // A prune leaves the list, and a cut its front.
    ensures pruned { (list : List T) (log : Log) (to : ℕ) → to ≤ length list → Spells T.spelling list log →
        Spells T.spelling list (pruned_to log to) }
    ensures cut { (list : List T) (log : Log) (to : ℕ) → log.start ≤ to → Spells T.spelling list log →
        Spells T.spelling (take to list) (cut_to log to) }
    ensures cleared { (list : List T) → Spells T.spelling list (cleared_at (length list)) }
    // An item of the list stands in the log from its start on.
    ensures item { (list : List T) (log : Log) (position : ℕ) (x : T) → Spells T.spelling list log →
        log.start ≤ position → slice_get list position ≡ Some x → IsItemAt log position (T.spelling x) }
    // No two items that are allowed stand at one position.
    ensures one_item { (log : Log) (position : ℕ) (x y : T) → T.admits cfg.now x → T.admits cfg.now y →
        IsItemAt log position (T.spelling x) → IsItemAt log position (T.spelling y) → x ≡ y }
{}
