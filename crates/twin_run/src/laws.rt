//! Laws of the list machine that rest on what holds of every proof of the full database.
ghost use Rattle.list_machine.specs.Laws.{ProofsVerify, CommitProofsVerify};

use keyless_db::answers_verify_law;
use list_machine::Operation;
use tree_shape::{Mmr, Sha256Hasher};

/// A proof that is answered verifies: it shows its operations in the tree with the root that the list had at the size.
pub fn proofs_verify()
    ensures { ProofsVerify }
{
    answers_verify_law::<Mmr, Sha256Hasher, Operation>();
}

/// A proof of a commit that is answered verifies, whether the operation log keeps the commit or not.
pub fn commit_proofs_verify()
    ensures { CommitProofsVerify }
{
    answers_verify_law::<Mmr, Sha256Hasher, Operation>();
}
