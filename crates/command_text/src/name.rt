ghost use Rattle.std.specs.Prelude.{◌≡◌};
ghost use Rattle.line_text.specs.Said.{IsTheOne};
ghost use Rattle.command_text.specs.Names.{name_text};

/// Which command a line says, by its first word.
#[derive(Clone, Copy)]
pub(crate) enum Name {
    New,
    Append,
    Seal,
    Apply,
    Hold,
    Release,
    Snapshot,
    Get,
    GetMany,
    BatchGet,
    BatchGetMany,
    Size,
    Metadata,
    Proof,
    CommitProof,
    Commit,
    Sync,
    StartSync,
    Prune,
}

/// The name that a word is.
pub(crate) fn name_of(word: &[u8]) -> Option<Name>
    ensures { IsTheOne result (λ name. word.now ≡ name_text name) }
{
    Some(match word {
        b"new" => Name::New,
        b"append" => Name::Append,
        b"seal" => Name::Seal,
        b"apply" => Name::Apply,
        b"hold" => Name::Hold,
        b"release" => Name::Release,
        b"snapshot" => Name::Snapshot,
        b"get" => Name::Get,
        b"get-many" => Name::GetMany,
        b"batch-get" => Name::BatchGet,
        b"batch-get-many" => Name::BatchGetMany,
        b"size" => Name::Size,
        b"metadata" => Name::Metadata,
        b"proof" => Name::Proof,
        b"commit-proof" => Name::CommitProof,
        b"commit" => Name::Commit,
        b"sync" => Name::Sync,
        b"start-sync" => Name::StartSync,
        b"prune" => Name::Prune,
        _ => return None,
    })
}
