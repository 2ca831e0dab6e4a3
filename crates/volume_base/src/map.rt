ghost use Rattle.std.specs.Prelude.{◌≡◌, ◌↔◌, ℕ, List, length, IfOk, OnOk, OnErr, IsOkUnless, IsTrue, ◌<◌, ◌^◌};
ghost use Rattle.std.specs.Option.{option_copied};
ghost use Rattle.std.specs.FinMap as map;
ghost use Rattle.volume_base.specs.Pairs.{pairs_of, GivesEntries};
ghost use Rattle.volume_base.specs.declared.error.VolumeError.TheVariants.{Memory};

use crate::VolumeError;
use codec_base::{Bytes, CodecError, Duplicate};
use std::alloc::Global;
use std::collections::BTreeMap;
use std::collections::btree_map::Iter;
use std::marker::Model;

/// A finite map from byte lists to byte lists.
#[derive(Drop)]
pub struct MetaMap {
    values: BTreeMap<Vec<u8>, Bytes>,
    alloc: Global,
}

impl Model for MetaMap {
    ghost use Rattle.std.specs.Prelude.{List, ℕ};
    ghost use Rattle.std.specs.Ordering.{nat_cmp};
    ghost use Rattle.std.specs.Cmp.Lexicographic.{slice_cmp};
    ghost use Rattle.std.specs.FinMap as map;
    ghost use Rattle.std.specs.Coded.{coded_ℕ, coded_list};
    ghost use Rattle.volume_base.specs.Pairs.{pairs_of};

    ghost Value = { map.FinMap (slice_cmp nat_cmp) (List ℕ) };

    ghost coded = { map.code (coded_list coded_ℕ) (coded_list coded_ℕ) };

    ghost view = { λ m. map.from_entries (pairs_of m.values.entries) };
}

impl MetaMap {
    /// The map of nothing. It takes no memory.
    pub fn new(alloc: Global) -> Self
        ensures { result ≡ map.empty }
    {
        MetaMap {
            values: BTreeMap::new(alloc),
            alloc,
        }
    }

    /// Whether it has no key.
    pub fn is_empty(&self) -> bool
        ensures { IsTrue result ↔ (self.now ≡ map.empty) }
    {
        self.values.is_empty()
    }

    /// The value under a key.
    pub fn get(&self, key: &[u8]) -> Option<&Bytes>
        ensures { option_copied result ≡ map.get self.now key.now }
    {
        self.values.get(key)
    }

    /// Each key with its value, in the order of keys.
    pub fn entries(&self) -> Iter<'_, Vec<u8>, Bytes>
        ensures order { pairs_of result ≡ map.entries self.now }
        ensures map { map.from_entries (pairs_of result) ≡ self.now }
        ensures runs { GivesEntries }
        ensures few { length result < 2 ^ 63 }
    {
        self.values.iter()
    }

    /// Puts a value under a key, in the place of what stood there.
    pub fn put(&mut self, key: Bytes, value: Bytes) -> Result<(), VolumeError>
        ensures ok { OnOk result (self.new ≡ map.insert self.old key value) }
        ensures err { OnErr result (self.new ≡ self.old) }
        ensures memory { IsOkUnless result VolumeError.Memory }
    {
        self.values.insert(key.into_vec(), value)?;
        Ok(())
    }
}

impl Duplicate for MetaMap {
    fn duplicate(&self) -> Result<Self, CodecError> {
        let mut values = BTreeMap::new(self.alloc);
        for (key, value) in self.values.iter().rev() {
            values.insert(key.as_slice().to_vec(self.alloc)?, value.duplicate()?)?;
        }
        Ok(MetaMap {
            values,
            alloc: self.alloc,
        })
    }
}
