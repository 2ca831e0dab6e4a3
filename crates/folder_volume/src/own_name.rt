use crate::failure::Failure;
use std::fs::OpenFile;
use std::io::ErrorKind;

/// What is known of the folder's own name.
#[derive(Clone, Copy, Debug, PartialEq, Eq)]
pub(crate) enum OwnName {
    /// It may not have been synced.
    Unsynced,
    /// It outlasts a crash.
    Durable,
    /// A sync of it, or of the name of a folder above, failed. No later one is taken for a success: the name may be lost.
    Lost,
}

impl OwnName {
    /// Refuses a name that may be lost.
    pub(crate) fn check(self) -> Result<(), Failure> {
        if self == OwnName::Lost {
            return Err(Failure::Outside);
        }
        Ok(())
    }

    /// Syncs a folder that holds a name. One whose file system syncs no folders will do where the name was there before.
    pub(crate) fn sync_above(&mut self, above: &impl OpenFile, made: bool) -> Result<(), Failure> {
        self.check()?;
        *self = OwnName::Lost;
        match above.sync_all() {
            Ok(()) => {}
            Err(e) if !made && e.kind() == ErrorKind::InvalidInput => {}
            Err(_) => return Err(Failure::Outside),
        }
        *self = OwnName::Unsynced;
        Ok(())
    }
}
