use crate::failure::Failure;
use std::fs::File;
use std::io::{self, ErrorKind};

/// An open file or folder that one program at a time can lock.
pub trait Lock {
    /// Locks it for as long as it stays open. Fails where another program has locked it, and with the kind `Unsupported`
    /// where the system can't lock it.
    fn lock_alone(&self) -> io::Result<()>;
}

impl Lock for File {
    fn lock_alone(&self) -> io::Result<()> {
        self.try_lock()?;
        Ok(())
    }
}

/// Locks an open folder, where the system can.
pub(crate) fn lock_where_supported(folder: &impl Lock) -> Result<(), Failure> {
    match folder.lock_alone() {
        Ok(()) => Ok(()),
        Err(e) if e.kind() == ErrorKind::Unsupported => Ok(()),
        Err(_) => Err(Failure::Outside),
    }
}
