ghost use Rattle.std.specs.Prelude.{◌≡◌};
ghost use Rattle.journal_base.specs.Tickets.{settled};

use volume_base::VolumeError;

/// How a started sync has ended.
#[derive(Clone, Copy, Debug, PartialEq, Eq)]
pub enum SyncTicket {
    /// What was to be synced is durable.
    Done,
    /// A sync has failed.
    Failed,
}

impl SyncTicket {
    /// What the started sync has come to.
    pub fn settle(self) -> Result<(), VolumeError>
        ensures { result ≡ settled self }
    {
        match self {
            SyncTicket::Done => Ok(()),
            SyncTicket::Failed => Err(VolumeError::Failed),
        }
    }
}
