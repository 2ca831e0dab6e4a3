use crate::directory::{Directory, check_name};
use crate::failure::Failure;
use crate::lock::Lock;
use crate::log_file::LogFile;
use std::alloc::Global;
use std::collections::BTreeMap;
use std::fs::Files;

/// The logs of a folder that were asked for since it is locked.
#[derive(Drop)]
pub(crate) struct Logs<R: Files> {
    known: BTreeMap<String, LogFile<R>>,
}

impl<R: Files + Drop> Logs<R>
where
    R::File: Lock,
{
    /// No log is known yet.
    pub(crate) fn new(alloc: Global) -> Self {
        Logs {
            known: BTreeMap::new(alloc),
        }
    }

    /// The log of this name; None where the folder isn't there.
    pub(crate) fn find(
        &mut self,
        directory: &mut Directory<R>,
        name: &str,
    ) -> Result<Option<&mut LogFile<R>>, Failure> {
        if !self.known.contains_key(name) {
            check_name(name)?;
            if !directory.is_there()? {
                return Ok(None);
            }
            let key = String::from_str(directory.allocator(), name)?;
            self.known.insert(key, LogFile::load(directory, name)?)?;
        }
        Ok(self.known.get_mut(name))
    }

    /// The log of this name. The folder is made where it isn't there.
    pub(crate) fn make(
        &mut self,
        directory: &mut Directory<R>,
        name: &str,
    ) -> Result<&mut LogFile<R>, Failure> {
        check_name(name)?;
        directory.make()?;
        match self.find(directory, name)? {
            Some(log) => Ok(log),
            None => Err(Failure::Outside),
        }
    }
}
