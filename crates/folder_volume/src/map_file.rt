//! A map in its file: each pair as two byte strings, in the order of keys.
use crate::directory::{Directory, Kind};
use crate::failure::Failure;
use crate::lock::Lock;
use crate::parts::{push_part, take_part};
use std::alloc::Global;
use std::fs::{Files, OpenFile};
use std::io::{Read, Write};
use volume_base::MetaMap;

/// The map of this name; an empty one where there is none.
pub(crate) fn read_map<R: Files + Drop>(
    directory: &Directory<R>,
    name: &str,
) -> Result<MetaMap, Failure>
where
    R::File: Lock,
{
    let alloc = directory.allocator();
    match directory.open(name, Kind::Map)? {
        Some(mut file) => {
            let bytes = read_whole(alloc, &mut file)?;
            map_of(alloc, &bytes)
        }
        None => Ok(MetaMap::new(alloc)),
    }
}

/// What a file holds.
fn read_whole<T: Read + OpenFile>(alloc: Global, file: &mut T) -> Result<Vec<u8>, Failure> {
    let length = file.metadata()?.len();
    let mut bytes = Vec::new(alloc);
    bytes.resize(length as usize, 0)?;
    file.read_exact(&mut bytes)?;
    Ok(bytes)
}

/// The map of these bytes. Bytes that don't end with a whole pair are refused.
fn map_of(alloc: Global, bytes: &[u8]) -> Result<MetaMap, Failure> {
    let mut map = MetaMap::new(alloc);
    let mut rest = bytes;
    for _ in 0..u64::MAX {
        if rest.is_empty() {
            break;
        }
        let (key, behind) = take_part(alloc, rest)?;
        let (value, behind) = take_part(alloc, behind)?;
        if map.put(key, value).is_err() {
            return Err(Failure::Memory);
        }
        rest = behind;
    }
    Ok(map)
}

/// The bytes of a map.
fn bytes_of(alloc: Global, map: &MetaMap) -> Result<Vec<u8>, Failure> {
    let mut bytes = Vec::new(alloc);
    for (key, value) in map.entries() {
        push_part(&mut bytes, key.as_slice())?;
        push_part(&mut bytes, value.as_slice())?;
    }
    Ok(bytes)
}

/// Puts a map in the place of the one of this name, for good.
pub(crate) fn replace_map<R: Files + Drop>(
    directory: &mut Directory<R>,
    name: &str,
    map: &MetaMap,
) -> Result<(), Failure>
where
    R::File: Lock,
{
    let bytes = bytes_of(directory.allocator(), map)?;
    let mut made = directory.beside(name, Kind::Map)?;
    let written = match made.file.write_all(&bytes) {
        Ok(()) => Ok(()),
        Err(e) => Err(Failure::from(e)),
    };
    directory.put_in_place(made, written)?;
    directory.sync_names()
}
