use crate::directory::{Directory, Kind, check_name};
use crate::failure::Failure;
use crate::lock::Lock;
use crate::logs::Logs;
use crate::map_file::{read_map, replace_map};
use codec_base::Bytes;
use std::alloc::{AllocError, Global};
use std::fs::Files;
use volume_base::MetaMap;

/// The logs and maps of a folder. Where the folder isn't there, each log is 0..0 and each map empty.
#[derive(Drop)]
pub(crate) struct Contents<R: Files> {
    directory: Directory<R>,
    logs: Logs<R>,
}

impl<R: Files + Drop> Contents<R>
where
    R::File: Lock,
{
    /// The contents of the folder at this path. No file is opened yet.
    pub(crate) fn new(files: R, alloc: Global, path: &str) -> Result<Self, AllocError> {
        Ok(Contents {
            directory: Directory::new(files, alloc, path)?,
            logs: Logs::new(alloc),
        })
    }

    /// The first position that the log keeps and the one past its last.
    pub(crate) fn bounds(&mut self, name: &str) -> Result<(u64, u64), Failure> {
        match self.logs.find(&mut self.directory, name)? {
            Some(log) => Ok(log.bounds()),
            None => Ok((0, 0)),
        }
    }

    /// The bytes of the item at this position, within the log's bounds.
    pub(crate) fn read(&mut self, name: &str, position: u64) -> Result<Bytes, Failure> {
        let alloc = self.directory.allocator();
        match self.logs.find(&mut self.directory, name)? {
            Some(log) => log.read(alloc, position),
            None => Err(Failure::Outside),
        }
    }

    /// Writes these items behind the log's last.
    pub(crate) fn append(&mut self, name: &str, items: &[Bytes]) -> Result<(), Failure> {
        let log = self.logs.make(&mut self.directory, name)?;
        log.append(&self.directory, name, items)
    }

    /// Makes the log's items outlast a crash; of a log that isn't there nothing.
    pub(crate) fn sync(&mut self, name: &str) -> Result<(), Failure> {
        match self.logs.find(&mut self.directory, name)? {
            Some(log) => log.sync(&mut self.directory),
            None => Ok(()),
        }
    }

    /// Ends the log at this position, within its bounds.
    pub(crate) fn cut(&mut self, name: &str, end: u64) -> Result<(), Failure> {
        match self.logs.find(&mut self.directory, name)? {
            Some(log) => log.cut(end),
            None => only_at_zero(end),
        }
    }

    /// Begins the log at this position, within its bounds.
    pub(crate) fn prune(&mut self, name: &str, start: u64) -> Result<(), Failure> {
        match self.logs.find(&mut self.directory, name)? {
            Some(log) => log.prune(&mut self.directory, name, start),
            None => only_at_zero(start),
        }
    }

    /// Empties the log, which then begins and ends at this position.
    pub(crate) fn clear(&mut self, name: &str, size: u64) -> Result<(), Failure> {
        let log = self.logs.make(&mut self.directory, name)?;
        log.clear(&mut self.directory, name, size)
    }

    /// Takes the log and its file away.
    pub(crate) fn remove(&mut self, name: &str) -> Result<(), Failure> {
        match self.logs.find(&mut self.directory, name)? {
            Some(log) => log.remove(&mut self.directory, name),
            None => Ok(()),
        }
    }

    /// The map of this name; an empty one where none was written.
    pub(crate) fn map(&mut self, name: &str) -> Result<MetaMap, Failure> {
        check_name(name)?;
        if !self.directory.is_there()? {
            return Ok(MetaMap::new(self.directory.allocator()));
        }
        read_map(&self.directory, name)
    }

    /// Puts this map in place of the one that was written, in one step.
    pub(crate) fn replace_map(&mut self, name: &str, map: &MetaMap) -> Result<(), Failure> {
        check_name(name)?;
        self.directory.make()?;
        replace_map(&mut self.directory, name, map)
    }

    /// Takes the map and its file away.
    pub(crate) fn remove_map(&mut self, name: &str) -> Result<(), Failure> {
        check_name(name)?;
        if !self.directory.is_there()? {
            return Ok(());
        }
        self.directory.remove(name, Kind::Map)?;
        self.directory.sync_names()
    }
}

/// Of a log that isn't there only the position 0 can be named.
fn only_at_zero(position: u64) -> Result<(), Failure> {
    if position > 0 {
        return Err(Failure::Outside);
    }
    Ok(())
}
