//! Laws of the definitions that the run is stated by.
ghost use Rattle.list_machine.specs.GoodRuns.{StepsStayGood, RunsAreGood};
ghost use Rattle.list_machine.specs.Laws.{SizesNeverFall, RepliesTellLists, RunsContinue, RefusalsKeep, StorageKeepsLists, QuestionsKeep, CommitProofsAreProofs, LeftStatesReopen};
ghost use Rattle.list_machine.specs.Openings.{EmptyOpensFresh, OpeningsAreGood};
ghost use Rattle.list_machine.specs.Told.{StatesAreTold};

use crate::operation::Operation;
use codec_base::LengthCfg;
use log_model::no_clash_law;
use tree_shape::{Mmr, Sha256Hasher};

/// The sizes in the replies of a run never fall.
pub fn sizes_never_fall()
    ensures { SizesNeverFall }
{}

/// The size and the roots of each reply of a run are those of the list after the commands up to it.
pub fn replies_tell_lists()
    ensures { RepliesTellLists }
{}

/// A run of two lists of commands is the run of the first, continued by the second.
pub fn runs_continue()
    ensures { RunsContinue }
{}

/// A refused command changes nothing; a seal that is refused as stale, for its location or for its floor loses its
/// batch.
pub fn refusals_keep()
    ensures { RefusalsKeep }
{}

/// What is made durable or given up changes no list.
pub fn storage_keeps_lists()
    ensures { StorageKeepsLists }
{}

/// A question changes nothing, whatever it answers.
pub fn questions_keep()
    ensures { QuestionsKeep }
{}

/// A proof of a commit that the operation log keeps is what a proof from the commit on answers.
pub fn commit_proofs_are_proofs()
    ensures { CommitProofsAreProofs }
{}

/// Each kind of step makes a good state of a good state.
pub fn steps_stay_good()
    ensures { StepsStayGood }
{}

/// The state in which a fresh volume is opened is good, and each state of a run from a good one on.
pub fn runs_are_good()
    ensures { RunsAreGood }
{}

/// Where nothing clashes that is hashed for the lists of a good state, size and root tell where its batches may be
/// sealed, applied and read.
pub fn states_are_told(limit: u64)
    ensures { StatesAreTold limit }
{
    no_clash_law::<Mmr, Sha256Hasher, Operation>(&LengthCfg { max: limit });
}

/// What is opened of logs that hold what is kept of a good state, as a whole run leaves them, is that state.
pub fn left_states_reopen()
    ensures { LeftStatesReopen }
{}

/// Contents that stand for a good state without batches open in a good state, at an applied size that is at or past the
/// durable one. Where the logs and the map hold nothing, they open in the state of the first commit alone.
pub fn openings()
    ensures good { OpeningsAreGood }
    ensures empty { EmptyOpensFresh }
{}
