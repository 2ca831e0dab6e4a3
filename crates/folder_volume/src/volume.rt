ghost use Rattle.std.specs.Prelude.{◌≡◌, ◌≤◌, ℕ, IfOk, OnOk, IsErrOf, IsOkUnless};
ghost use Rattle.codec_base.specs.Causes.{Rose};

use crate::contents::Contents;
use crate::failure::Failure;
use crate::lock::Lock;
use codec_base::Bytes;
use std::alloc::Global;
use std::fs::Files;
use volume_base::{MetaMap, Volume, VolumeError};

/// A volume on the files of a folder. It tells no contents, and counts each call whose outside failed.
///
/// The log `n` is the file `n.log`: its start in 8 bytes big endian, and each item as its length in 4 bytes big endian and its
/// bytes. The map `n` is the file `n.map`: each key and each value in the form of an item. An item that isn't whole at the end
/// of a log's file is taken as absent, and a log's file of fewer than 8 bytes as a log that isn't there.
#[derive(Drop)]
pub struct FolderVolume<R: Files> {
    contents: Contents<R>,
    faults: u64,
    reads: u64,
}

impl<R: Files + Drop> FolderVolume<R>
where
    R::File: Lock,
{
    /// A volume in the folder of this path. Nothing is touched before the first call; the folder is made at the first write.
    pub fn new(files: R, alloc: Global, path: &str) -> Result<Self, VolumeError>
        ensures faults { IfOk result (λ v. (⟦<FolderVolume<R> as Volume>⟧.state v).faults ≡ 0) }
        ensures reads { IfOk result (λ v. (⟦<FolderVolume<R> as Volume>⟧.state v).reads ≡ 0) }
        ensures memory { IsOkUnless result VolumeError.Memory }
    {
        Ok(FolderVolume {
            contents: Contents::new(files, alloc, path)?,
            faults: 0,
            reads: 0,
        })
    }

    /// What a call answers. One whose outside failed is counted.
    fn counted<T>(&mut self, done: Result<T, Failure>) -> Result<T, VolumeError>
        ensures faults { self.old.faults ≤ self.new.faults }
        ensures failed { IsErrOf result VolumeError.Failed → Rose self.old.faults self.new.faults }
        ensures kept { OnOk result (self.new.faults ≡ self.old.faults) }
        ensures reads { self.new.reads ≡ self.old.reads }
        ensures not_pruned { (p : ℕ) → IsErrOf result (VolumeError.ItemPruned p) → ⊥ }
        ensures not_out_of_range { (p : ℕ) → IsErrOf result (VolumeError.ItemOutOfRange p) → ⊥ }
    {
        match done {
            Ok(value) => Ok(value),
            Err(Failure::Memory) => Err(VolumeError::Memory),
            Err(Failure::Outside) => {
                self.faults = self.faults.saturating_add(1);
                Err(VolumeError::Failed)
            }
        }
    }
}

impl<R: Files + Drop> Volume for FolderVolume<R>
where
    R::File: Lock,
{
    ghost use Rattle.folder_volume.specs.Silent.{silent_state};

    ghost tells = { ⊥ };

    ghost state = { λ v. silent_state v.faults v.reads };

    fn log_bounds(&mut self, name: &str) -> Result<(u64, u64), VolumeError> {
        let bounds = self.contents.bounds(name);
        self.counted(bounds)
    }

    fn log_read(&mut self, name: &str, position: u64) -> Result<Bytes, VolumeError> {
        self.reads = self.reads.saturating_add(1);
        let bounds = self.contents.bounds(name);
        let (start, end) = self.counted(bounds)?;
        if position < start {
            return Err(VolumeError::ItemPruned(position));
        }
        if position >= end {
            return Err(VolumeError::ItemOutOfRange(position));
        }
        let item = self.contents.read(name, position);
        self.counted(item)
    }

    fn log_append(&mut self, name: &str, items: &[Bytes]) -> Result<(), VolumeError> {
        let done = self.contents.append(name, items);
        self.counted(done)
    }

    fn log_sync(&mut self, name: &str) -> Result<(), VolumeError> {
        let done = self.contents.sync(name);
        self.counted(done)
    }

    fn log_cut(&mut self, name: &str, end: u64) -> Result<(), VolumeError> {
        let done = self.contents.cut(name, end);
        self.counted(done)
    }

    fn log_prune(&mut self, name: &str, start: u64) -> Result<(), VolumeError> {
        let done = self.contents.prune(name, start);
        self.counted(done)
    }

    fn log_clear(&mut self, name: &str, size: u64) -> Result<(), VolumeError> {
        let done = self.contents.clear(name, size);
        self.counted(done)
    }

    fn log_remove(&mut self, name: &str) -> Result<(), VolumeError> {
        let done = self.contents.remove(name);
        self.counted(done)
    }

    fn map_get(&mut self, name: &str) -> Result<MetaMap, VolumeError> {
        let map = self.contents.map(name);
        self.counted(map)
    }

    fn map_replace(&mut self, name: &str, map: &MetaMap) -> Result<(), VolumeError> {
        let done = self.contents.replace_map(name, map);
        self.counted(done)
    }

    fn map_remove(&mut self, name: &str) -> Result<(), VolumeError> {
        let done = self.contents.remove_map(name);
        self.counted(done)
    }

    ghost contents_left = { λ v told. absurd told };
}
