//! Where the items of a log end in its file.
ghost use Rattle.std.specs.Prelude.{◌≤◌, IfOk};
ghost use Rattle.std.specs.Option.{IfSome};

use crate::failure::Failure;
use std::alloc::Global;
use std::fs::OpenFile;
use std::io::{BufReader, Read, Seek};

/// The bytes that the start of a log takes in its file.
pub(crate) const HEAD: u64 = 8;

/// The bytes that are read at once.
const BUFFER: usize = 65536;

/// What the file of a log says: its start, and where each whole item ends.
#[derive(Drop)]
pub(crate) struct Scanned {
    /// None where the file is too short to say it.
    pub(crate) start: Option<u64>,
    pub(crate) ends: Vec<u64>,
    /// Whether bytes stand behind the last whole item.
    pub(crate) torn: bool,
}

/// Reads the file of a log, and gives it back.
pub(crate) fn scan<T: Read + Seek + OpenFile + Drop>(
    alloc: Global,
    file: T,
) -> Result<(T, Scanned), Failure> {
    let length = file.metadata()?.len();
    let Ok(mut reader) = BufReader::with_capacity(alloc, BUFFER, file) else {
        return Err(Failure::Memory);
    };
    let mut scanned = Scanned {
        start: None,
        ends: Vec::new(alloc),
        torn: length > 0,
    };
    if length >= HEAD {
        let mut head = [0u8; 8];
        reader.read_exact(&mut head)?;
        scanned.start = Some(u64::from_be_bytes(head));
        let left = scan_items(&mut reader, length, &mut scanned.ends)?;
        scanned.torn = left > 0;
    }
    Ok((reader.into_inner(), scanned))
}

/// Notes where each whole item ends in a file of this length, and says how many bytes stand behind the last.
fn scan_items<T: Read + Seek>(
    reader: &mut BufReader<T>,
    length: u64,
    ends: &mut Vec<u64>,
) -> Result<u64, Failure>
    requires { 8 ≤ length }
{
    let mut left = length - HEAD;
    for _ in 0..u64::MAX {
        match item(reader, left)? {
            Some(size) => left -= size,
            None => break,
        }
        ends.push(length - left)?;
    }
    Ok(left)
}

/// Passes over the next item, and says how many bytes it takes; None where no whole one is left.
fn item<T: Read + Seek>(reader: &mut BufReader<T>, left: u64) -> Result<Option<u64>, Failure>
    ensures { IfOk result (λ found. IfSome found (λ size. size ≤ left)) }
{
    if left < 4 {
        return Ok(None);
    }
    let mut prefix = [0u8; 4];
    reader.read_exact(&mut prefix)?;
    let size = u32::from_be_bytes(prefix);
    if u64::from(size) > left - 4 {
        return Ok(None);
    }
    reader.seek_relative(i64::from(size))?;
    Ok(Some(u64::from(size) + 4))
}
