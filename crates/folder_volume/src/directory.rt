use crate::failure::Failure;
use crate::lock::{Lock, lock_where_supported};
use crate::own_name::OwnName;
use crate::synced::Synced;
use std::alloc::{AllocError, Global};
use std::fs::{self, File, Files, OpenFile, OpenOptions};
use std::io::{self, ErrorKind, Write};

/// What a file holds.
#[derive(Clone, Copy, Debug, PartialEq, Eq)]
pub(crate) enum Kind {
    Log,
    Map,
}

impl Kind {
    /// The ending of the file's name.
    fn ending(self) -> &'static str {
        match self {
            Kind::Log => "log",
            Kind::Map => "map",
        }
    }

    /// The ending of the name of the file that is written beside it.
    fn ending_beside(self) -> &'static str {
        match self {
            Kind::Log => "log.new",
            Kind::Map => "map.new",
        }
    }
}

/// A file that is written to take the place of another.
#[derive(Drop)]
pub(crate) struct Beside<T> {
    pub(crate) file: T,
    from: String,
    to: String,
}

/// A folder, which need not be there before the first write. It is held open from the first call on that finds it there,
/// and locked where the system can lock it.
#[derive(Drop)]
pub(crate) struct Directory<R: Files> {
    files: R,
    path: String,
    /// The folder above.
    above: String,
    alloc: Global,
    held: Option<Synced<R::File>>,
    own_name: OwnName,
}

impl<R: Files + Drop> Directory<R>
where
    R::File: Lock,
{
    /// The folder of this path; the current one where the path is empty. Nothing is touched yet.
    pub(crate) fn new(files: R, alloc: Global, path: &str) -> Result<Self, AllocError> {
        let path = if path.is_empty() { "." } else { path };
        let mut above = String::from_str(alloc, path)?;
        above.push_str("/..")?;
        Ok(Directory {
            files,
            path: String::from_str(alloc, path)?,
            above,
            alloc,
            held: None,
            own_name: OwnName::Unsynced,
        })
    }

    /// Where its names and maps are kept.
    pub(crate) fn allocator(&self) -> Global {
        self.alloc
    }

    /// Whether the folder is there. It is held then.
    pub(crate) fn is_there(&mut self) -> Result<bool, Failure> {
        if self.held.is_some() {
            return Ok(true);
        }
        let path = self.path.as_str();
        let inside = format!(in self.alloc; "{path}/.")?;
        match File::open(&self.files, inside.as_str()) {
            Ok(folder) => {
                lock_where_supported(&folder)?;
                self.held = Some(Synced::new(folder));
                Ok(true)
            }
            Err(e) if e.kind() == ErrorKind::NotFound => Ok(false),
            Err(_) => Err(Failure::Outside),
        }
    }

    /// Makes the folder, and those that it stands in, where it isn't there. Each name is synced before the next is made.
    pub(crate) fn make(&mut self) -> Result<(), Failure> {
        if self.is_there()? {
            return Ok(());
        }
        let path = self.path.clone()?;
        let mut above = String::new(self.alloc);
        for part in path.as_str().split('/') {
            if !part.is_empty() {
                self.make_one(above.as_str(), part)?;
            }
            above.push_str(part)?;
            above.push('/')?;
        }
        if !self.is_there()? {
            return Err(Failure::Outside);
        }
        self.own_name = OwnName::Durable;
        Ok(())
    }

    /// Makes one folder where it isn't there, and its name outlast a crash. Where the folder above may not be opened none
    /// is made, since its name couldn't be synced.
    fn make_one(&mut self, above: &str, part: &str) -> Result<(), Failure> {
        self.own_name.check()?;
        let path = format!(in self.alloc; "{above}{part}")?;
        let inside_above = format!(in self.alloc; "{above}.")?;
        let Some(folder_above) = self.open_above(inside_above.as_str())? else {
            return Ok(());
        };
        match fs::create_dir(&self.files, path.as_str()) {
            Ok(()) => self.own_name.sync_above(&folder_above, true),
            Err(e) if e.kind() == ErrorKind::AlreadyExists => {
                self.own_name.sync_above(&folder_above, false)
            }
            Err(_) => Err(Failure::Outside),
        }
    }

    /// Opens a folder that holds a name; None where this program may not.
    fn open_above(&self, path: &str) -> Result<Option<R::File>, Failure> {
        match File::open(&self.files, path) {
            Ok(folder) => Ok(Some(folder)),
            Err(e) if e.kind() == ErrorKind::PermissionDenied => Ok(None),
            Err(_) => Err(Failure::Outside),
        }
    }

    /// Makes the folder's own name outlast a crash. Where the folder above may not be opened, it wasn't made here, and is
    /// taken to do so. It takes no memory, since a file may have been changed before.
    fn sync_own_name(&mut self) -> Result<(), Failure> {
        self.own_name.check()?;
        if self.own_name == OwnName::Durable {
            return Ok(());
        }
        if let Some(folder_above) = self.open_above(self.above.as_str())? {
            self.own_name.sync_above(&folder_above, false)?;
        }
        self.own_name = OwnName::Durable;
        Ok(())
    }

    /// Makes the names in the folder outlast a crash, and its own with them.
    pub(crate) fn sync_names(&mut self) -> Result<(), Failure> {
        self.sync_own_name()?;
        match &mut self.held {
            Some(folder) => folder.sync(),
            None => Err(Failure::Outside),
        }
    }

    /// The path of a file. A name that isn't the name of a file in the folder is refused.
    fn path_of(&self, name: &str, ending: &str) -> Result<String, Failure> {
        check_name(name)?;
        let path = self.path.as_str();
        Ok(format!(in self.alloc; "{path}/{name}.{ending}")?)
    }

    /// Opens the file of this name, where there is one, to read it, and to write behind its end where that is allowed.
    pub(crate) fn open(&self, name: &str, kind: Kind) -> Result<Option<R::File>, Failure> {
        let path = self.path_of(name, kind.ending())?;
        match fs::metadata(&self.files, path.as_str()) {
            Ok(metadata) if metadata.is_file() => {}
            Err(e) if e.kind() == ErrorKind::NotFound => return Ok(None),
            _ => return Err(Failure::Outside),
        }
        match OpenOptions::new()
            .read(true)
            .append(true)
            .open(&self.files, path.as_str())
        {
            Ok(file) => Ok(Some(file)),
            Err(e) if is_read_only(&e) => Ok(Some(File::open(&self.files, path.as_str())?)),
            Err(_) => Err(Failure::Outside),
        }
    }

    /// Makes the file of this name, which isn't there.
    pub(crate) fn create(&self, name: &str, kind: Kind) -> Result<R::File, Failure> {
        let path = self.path_of(name, kind.ending())?;
        let file = OpenOptions::new()
            .read(true)
            .append(true)
            .create_new(true)
            .open(&self.files, path.as_str())?;
        Ok(file)
    }

    /// Begins an empty file that is to take the place of the one of this name.
    pub(crate) fn beside(&self, name: &str, kind: Kind) -> Result<Beside<R::File>, Failure> {
        let from = self.path_of(name, kind.ending_beside())?;
        let to = self.path_of(name, kind.ending())?;
        let file = OpenOptions::new()
            .read(true)
            .append(true)
            .create(true)
            .open(&self.files, from.as_str())?;
        file.set_len(0)?;
        Ok(Beside { file, from, to })
    }

    /// Puts a file that was written beside in its place, or takes it away where that, or its writing, failed.
    pub(crate) fn put_in_place(
        &self,
        made: Beside<R::File>,
        written: Result<(), Failure>,
    ) -> Result<R::File, Failure> {
        let placed = match written {
            Ok(()) => self.place(&made),
            Err(failure) => Err(failure),
        };
        match placed {
            Ok(()) => Ok(made.file),
            Err(failure) => {
                let _ = fs::remove_file(&self.files, made.from.as_str());
                Err(failure)
            }
        }
    }

    fn place(&self, made: &Beside<R::File>) -> Result<(), Failure> {
        made.file.sync_all()?;
        fs::rename(&self.files, made.from.as_str(), made.to.as_str())?;
        Ok(())
    }

    /// Takes the file of this name away, where there is one.
    pub(crate) fn remove(&self, name: &str, kind: Kind) -> Result<(), Failure> {
        let path = self.path_of(name, kind.ending())?;
        match fs::remove_file(&self.files, path.as_str()) {
            Ok(()) => Ok(()),
            Err(e) if e.kind() == ErrorKind::NotFound => Ok(()),
            Err(_) => Err(Failure::Outside),
        }
    }
}

/// Refuses a name of a log or map that can't be part of a file's name.
pub(crate) fn check_name(name: &str) -> Result<(), Failure> {
    if name
        .as_bytes()
        .iter()
        .any(|byte| *byte == b'/' || *byte == 0)
    {
        return Err(Failure::Outside);
    }
    Ok(())
}

/// Whether a file couldn't be opened because it can't be written.
fn is_read_only(error: &io::Error) -> bool {
    let kind = error.kind();
    kind == ErrorKind::PermissionDenied || kind == ErrorKind::ReadOnlyFilesystem
}
