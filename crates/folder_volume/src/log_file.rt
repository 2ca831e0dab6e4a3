//! A log in its file: its start in 8 bytes big endian, and behind it the items as byte strings.
use crate::directory::{Directory, Kind};
use crate::failure::Failure;
use crate::lock::Lock;
use crate::parts::push_part;
use crate::reading::{HEAD, scan};
use crate::synced::Synced;
use codec_base::Bytes;
use std::alloc::Global;
use std::fs::{Files, OpenFile};
use std::io::{self, Read, Seek, SeekFrom, Write};

/// How many bytes a log's file has of these items and of its start.
fn room_for(items: &[Bytes]) -> usize {
    let mut room = HEAD;
    for item in items {
        room = room.saturating_add(item.len().saturating_add(4));
    }
    room as usize
}

/// A log, as its file has it. The file is read once.
#[derive(Drop)]
pub(crate) struct LogFile<R: Files> {
    /// None where the log isn't there.
    file: Option<Synced<R::File>>,
    start: u64,
    /// Where each item ends in the file.
    ends: Vec<u64>,
    /// Whether the start stands in the file.
    headed: bool,
    /// Whether bytes that aren't the log's may stand in the file behind it.
    torn: bool,
    /// Whether the file's name, or that there is none, outlasts a crash.
    named: bool,
}

impl<R: Files + Drop> LogFile<R>
where
    R::File: Lock,
{
    /// A log that isn't there.
    fn absent(alloc: Global) -> Self {
        LogFile {
            file: None,
            start: 0,
            ends: Vec::new(alloc),
            headed: false,
            torn: false,
            named: false,
        }
    }

    /// The log of this name. One whose start and number of items together pass the greatest number is refused.
    pub(crate) fn load(directory: &Directory<R>, name: &str) -> Result<Self, Failure> {
        let alloc = directory.allocator();
        let mut log = LogFile::absent(alloc);
        let Some(file) = directory.open(name, Kind::Log)? else {
            return Ok(log);
        };
        let (file, scanned) = scan(alloc, file)?;
        log.headed = scanned.start.is_some();
        log.start = scanned.start.unwrap_or(0);
        if log.start.checked_add(scanned.ends.len() as u64).is_none() {
            return Err(Failure::Outside);
        }
        log.file = Some(Synced::new(file));
        log.ends = scanned.ends;
        log.torn = scanned.torn;
        Ok(log)
    }

    /// The start and the end, which isn't past the greatest number.
    pub(crate) fn bounds(&self) -> (u64, u64) {
        let count = self.ends.len() as u64;
        (self.start, self.start.saturating_add(count))
    }

    /// Where so many items end in the file.
    fn offset(&self, count: usize) -> u64 {
        if count == 0 || count > self.ends.len() {
            return if self.headed { HEAD } else { 0 };
        }
        self.ends[count - 1]
    }

    /// How many items stand below a position between the start and the end.
    fn count_below(&self, position: u64) -> Result<usize, Failure> {
        let (start, end) = self.bounds();
        if position < start || end < position {
            return Err(Failure::Outside);
        }
        Ok((position - start) as usize)
    }

    /// The item at a position between the start and the end.
    pub(crate) fn read(&mut self, alloc: Global, position: u64) -> Result<Bytes, Failure> {
        let index = self.count_below(position)?;
        let from = self.offset(index).saturating_add(4);
        let Some(size) = self.offset(index.saturating_add(1)).checked_sub(from) else {
            return Err(Failure::Outside);
        };
        let Some(file) = &mut self.file else {
            return Err(Failure::Outside);
        };
        let mut bytes = Vec::new(alloc);
        bytes.resize(size as usize, 0)?;
        file.file_mut().seek(SeekFrom::Start(from))?;
        file.file_mut().read_exact(&mut bytes)?;
        Ok(Bytes::from_vec(bytes))
    }

    /// Items as they are written behind the log, with its start where that doesn't stand there, and where each ends.
    fn encoded(&self, alloc: Global, items: &[Bytes]) -> Result<(Vec<u8>, Vec<u64>), Failure> {
        let end = self.offset(self.ends.len());
        let mut bytes = Vec::with_capacity(alloc, room_for(items))?;
        let mut ends = Vec::with_capacity(alloc, items.len())?;
        if !self.headed {
            bytes.extend_from_slice(&self.start.to_be_bytes())?;
        }
        for item in items {
            push_part(&mut bytes, item.as_slice())?;
            ends.push(end.saturating_add(bytes.len() as u64))?;
        }
        Ok((bytes, ends))
    }

    /// Adds items behind the end by one write. Where that fails, what it wrote is taken away before the next.
    pub(crate) fn append(
        &mut self,
        directory: &Directory<R>,
        name: &str,
        items: &[Bytes],
    ) -> Result<(), Failure> {
        if self.bounds().1.checked_add(items.len() as u64).is_none() {
            return Err(Failure::Outside);
        }
        let (bytes, ends) = self.encoded(directory.allocator(), items)?;
        self.ends.reserve(ends.len())?;
        if self.file.is_none() {
            self.file = Some(Synced::new(directory.create(name, Kind::Log)?));
            self.named = false;
        }
        self.mend()?;
        self.write(&bytes)?;
        self.ends.extend_from_slice(&ends)?;
        Ok(())
    }

    fn write(&mut self, bytes: &[u8]) -> Result<(), Failure> {
        let Some(file) = &mut self.file else {
            return Err(Failure::Outside);
        };
        self.torn = true;
        file.file_mut().write_all(bytes)?;
        self.torn = false;
        self.headed = true;
        Ok(())
    }

    /// Takes away what stands in the file behind the log.
    fn mend(&mut self) -> Result<(), Failure> {
        let end = self.offset(self.ends.len());
        if self.torn
            && let Some(file) = &self.file
        {
            file.file().set_len(end)?;
        }
        self.torn = false;
        Ok(())
    }

    /// Makes the log outlast a crash, and with it its file's name, or that there is none.
    pub(crate) fn sync(&mut self, directory: &mut Directory<R>) -> Result<(), Failure> {
        self.mend()?;
        if let Some(file) = &mut self.file {
            file.sync()?;
        }
        if !self.named {
            directory.sync_names()?;
            self.named = true;
        }
        Ok(())
    }

    /// Takes the items from a position on away.
    pub(crate) fn cut(&mut self, end: u64) -> Result<(), Failure> {
        let count = self.count_below(end)?;
        let length = self.offset(count);
        if let Some(file) = &self.file {
            file.file().set_len(length)?;
        }
        self.torn = false;
        self.ends.truncate(count);
        Ok(())
    }

    /// Takes the items below a position away: those that stay are copied into a file that takes the place of this one.
    pub(crate) fn prune(
        &mut self,
        directory: &mut Directory<R>,
        name: &str,
        start: u64,
    ) -> Result<(), Failure> {
        let count = self.count_below(start)?;
        if count == 0 {
            return Ok(());
        }
        self.mend()?;
        let from = self.offset(count);
        let mut made = directory.beside(name, Kind::Log)?;
        let written = self.copy_kept(&mut made.file, start, from);
        let file = directory.put_in_place(made, written)?;
        self.ends.drain(..count.min(self.ends.len()));
        for end in self.ends.iter_mut() {
            *end = (*end).saturating_sub(from).saturating_add(HEAD);
        }
        self.takes_place(directory, file, start)
    }

    /// Writes a start, and what stands in the file behind an offset.
    fn copy_kept(&mut self, to: &mut R::File, start: u64, from: u64) -> Result<(), Failure> {
        let Some(file) = &mut self.file else {
            return Err(Failure::Outside);
        };
        file.check()?;
        to.write_all(&start.to_be_bytes())?;
        file.file_mut().seek(SeekFrom::Start(from))?;
        io::copy(file.file_mut(), to)?;
        Ok(())
    }

    /// Leaves an empty log at a position, in a file that takes the place of this one.
    pub(crate) fn clear(
        &mut self,
        directory: &mut Directory<R>,
        name: &str,
        size: u64,
    ) -> Result<(), Failure> {
        let mut made = directory.beside(name, Kind::Log)?;
        let written = match made.file.write_all(&size.to_be_bytes()) {
            Ok(()) => Ok(()),
            Err(e) => Err(Failure::from(e)),
        };
        let file = directory.put_in_place(made, written)?;
        self.ends.truncate(0);
        self.takes_place(directory, file, size)
    }

    /// Goes on with a file that has taken the place of the one before, and makes its name outlast a crash.
    fn takes_place(
        &mut self,
        directory: &mut Directory<R>,
        file: R::File,
        start: u64,
    ) -> Result<(), Failure> {
        self.file = Some(Synced::new(file));
        self.start = start;
        self.headed = true;
        self.torn = false;
        self.named = false;
        directory.sync_names()?;
        self.named = true;
        Ok(())
    }

    /// Takes the log away, for good.
    pub(crate) fn remove(
        &mut self,
        directory: &mut Directory<R>,
        name: &str,
    ) -> Result<(), Failure> {
        directory.remove(name, Kind::Log)?;
        self.file = None;
        self.start = 0;
        self.ends.truncate(0);
        self.headed = false;
        self.torn = false;
        self.named = false;
        directory.sync_names()?;
        self.named = true;
        Ok(())
    }
}
