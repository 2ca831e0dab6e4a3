use crate::failure::Failure;
use std::fs::OpenFile;

/// An open file or folder. After a sync that failed no later one is taken for a success: what wasn't written then may be lost.
#[derive(Drop)]
pub(crate) struct Synced<T> {
    file: T,
    failed: bool,
}

impl<T: OpenFile> Synced<T> {
    /// This file or folder, of which no sync has failed.
    pub(crate) fn new(file: T) -> Self {
        Synced {
            file,
            failed: false,
        }
    }

    /// What is open, to be read.
    pub(crate) fn file(&self) -> &T {
        &self.file
    }

    /// What is open, to be written.
    pub(crate) fn file_mut(&mut self) -> &mut T {
        &mut self.file
    }

    /// Whether each sync so far succeeded.
    pub(crate) fn check(&self) -> Result<(), Failure> {
        if self.failed {
            return Err(Failure::Outside);
        }
        Ok(())
    }

    /// Makes what was written outlast a crash.
    pub(crate) fn sync(&mut self) -> Result<(), Failure> {
        self.check()?;
        self.failed = true;
        self.file.sync_all()?;
        self.failed = false;
        Ok(())
    }
}
