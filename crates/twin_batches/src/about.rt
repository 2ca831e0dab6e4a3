//! What commands are about.
ghost use Rattle.std.specs.Prelude.{◌≡◌};
ghost use Rattle.twin_batches.specs.About.{about_of};

use command_text::Command;

/// What a command is about.
#[derive(Clone, Copy)]
pub enum Topic {
    /// Batches alone.
    Batches,
    /// A batch that becomes the list.
    Apply(u64),
    /// What the full database has. Nothing changes.
    Question,
    /// The commit that ends the list at a size, of which the compact database has a proof.
    CommitProof(u64),
    /// What is durable.
    Storage,
    /// What lies below a location.
    Prune(u64),
}

/// What a command is about.
pub fn topic_of(command: &Command) -> Topic
    ensures { result ≡ about_of command.now }
{
    match command {
        Command::New(_)
        | Command::Append(_, _)
        | Command::Seal(_, _, _)
        | Command::Hold(_)
        | Command::Release(_)
        | Command::Snapshot => Topic::Batches,
        Command::Apply(b) => Topic::Apply(*b),
        Command::Get(_)
        | Command::GetMany(_)
        | Command::BatchGet(_, _)
        | Command::BatchGetMany(_, _)
        | Command::Size
        | Command::Metadata
        | Command::Proof(_, _, _) => Topic::Question,
        Command::CommitProof(n) => Topic::CommitProof(*n),
        Command::Commit | Command::Sync | Command::StartSync => Topic::Storage,
        Command::Prune(l) => Topic::Prune(*l),
    }
}
