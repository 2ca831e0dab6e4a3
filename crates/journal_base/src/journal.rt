ghost use Rattle.std.specs.Prelude.{◌≡◌, ◌≤◌, map, false, IfOk};
ghost use Rattle.std.specs.NonZero.{non_zero_u64_get};
ghost use Rattle.journal_base.specs.Blobs.{blob_start};
ghost use Rattle.journal_base.specs.Clears.{Clears};
ghost use Rattle.journal_base.specs.View.{view_of, config_of, at_bounds};

use crate::encodings::{encode_all, encode_one};
use crate::{Contiguous, Mutable, SyncTicket};
use codec_base::{Bytes, CodecError, Duplicate, EncodeSize, FixedSize, Read, Write, decode};
use std::marker::PhantomData;
use std::num::NonZeroU64;
use volume_base::{JournalError, Volume, VolumeError};

/// Items of one size.
pub struct Fixed;

/// Items of any size.
pub struct Variable;

/// Which items a journal of a kind holds.
pub trait Kind<T> {}

impl<T: FixedSize> Kind<T> for Fixed {}

impl<T> Kind<T> for Variable {}

/// Where a journal lies, how many items its blobs have, and what its items may be.
#[derive(Drop)]
pub struct JournalConfig<C> {
    /// The name of its log.
    pub name: String,
    /// How many items a blob has.
    pub items_per_blob: NonZeroU64,
    /// What its items may be.
    pub codec: C,
}

/// A journal: one log of a volume, whose bounds it knows.
#[derive(Drop)]
pub struct Journal<T: Read, K> {
    pub(crate) name: String,
    pub(crate) items_per_blob: NonZeroU64,
    pub(crate) codec: T::Cfg,
    pub(crate) start: u64,
    pub(crate) end: u64,
    pub(crate) failed: bool,
    pub(crate) kind: PhantomData<K>,
}

impl<T: Read, K> Journal<T, K> {
    /// The journal of a configuration at these bounds. It keeps no failure.
    pub(crate) fn new(cfg: JournalConfig<T::Cfg>, start: u64, end: u64) -> Self
        ensures { result ≡ record {
          name = cfg.name;
          items_per_blob = cfg.items_per_blob;
          codec = cfg.codec;
          start = start;
          end = end;
          failed = false;
          kind = result.kind;
        } }
    {
        Journal {
            name: cfg.name,
            items_per_blob: cfg.items_per_blob,
            codec: cfg.codec,
            start,
            end,
            failed: false,
            kind: PhantomData,
        }
    }
}

/// A journal of items of one size.
pub type FixedJournal<T> = Journal<T, Fixed>;

/// A journal of items of any size.
pub type VariableJournal<T> = Journal<T, Variable>;

/// Where the blob of a position begins.
pub(crate) fn start_of_blob(items_per_blob: NonZeroU64, position: u64) -> u64
    ensures start { result ≡ blob_start (non_zero_u64_get items_per_blob) position }
    ensures low { result ≤ position }
{
    let blob = items_per_blob.get();
    position / blob * blob
}

impl<T: Write + EncodeSize + Read + Duplicate + Drop, K: Kind<T>> Contiguous for Journal<T, K> {
    type Item = T;

    ghost view = { λ journal. view_of journal };

    fn bounds(&self) -> (u64, u64) {
        (self.start, self.end)
    }

    fn read<V: Volume>(&self, vol: &mut V, position: u64) -> Result<T, JournalError> {
        let bytes = vol.log_read(self.name.as_str(), position)?;
        match decode(*self.name.allocator(), bytes.as_slice(), &self.codec) {
            Ok(item) => Ok(item),
            Err(CodecError::Memory) => Err(JournalError::Memory),
            Err(_) => Err(JournalError::Corruption(position)),
        }
    }

    fn read_many<V: Volume>(&self, vol: &mut V, positions: &[u64]) -> Result<Vec<T>, JournalError> {
        let mut items = Vec::new(*self.name.allocator());
        for position in positions {
            let item = self.read(vol, *position)?;
            items.push(item)?;
        }
        Ok(items)
    }
}

impl<T: Write + EncodeSize + Read + Duplicate + Drop, K: Kind<T>> Mutable for Journal<T, K> {
    ghost one_log = { Unit {0} };

    fn keeps_failure(&self) -> bool {
        self.failed
    }

    fn append<V: Volume>(self, vol: &mut V, item: &T) -> Result<(Self, u64), JournalError> {
        let encoding = encode_one(*self.name.allocator(), item)?;
        self.put(vol, &[encoding])
    }

    fn append_many<V: Volume>(self, vol: &mut V, items: &[T]) -> Result<(Self, u64), JournalError> {
        if items.is_empty() {
            return Err(JournalError::EmptyAppend);
        }
        let encodings = encode_all(*self.name.allocator(), items)?;
        let (journal, first) = self.put(vol, &encodings)?;
        Ok((journal, first + (encodings.len() as u64 - 1)))
    }

    fn commit<V: Volume>(self, vol: &mut V) -> Result<Self, JournalError> {
        if self.failed {
            return Err(JournalError::Volume);
        }
        vol.log_sync(self.name.as_str())?;
        Ok(self)
    }

    fn sync<V: Volume>(self, vol: &mut V) -> Result<Self, JournalError> {
        let journal = self.commit(vol)?;
        Ok(journal)
    }

    fn start_sync<V: Volume>(self, vol: &mut V) -> Result<(Self, SyncTicket), JournalError> {
        if self.failed {
            return Err(JournalError::Volume);
        }
        match vol.log_sync(self.name.as_str()) {
            Ok(()) => Ok((self, SyncTicket::Done)),
            Err(VolumeError::Failed) => {
                let journal = Journal {
                    failed: true,
                    ..self
                };
                Ok((journal, SyncTicket::Failed))
            }
            Err(error) => Err(JournalError::from(error)),
        }
    }

    fn prune<V: Volume>(self, vol: &mut V, least: u64) -> Result<(Self, bool), JournalError> {
        if self.failed {
            return Err(JournalError::Volume);
        }
        let name = self.name.as_str();
        let (start, end) = vol.log_bounds(name)?;
        let to = start_of_blob(self.items_per_blob, least.min(end));
        if to <= start {
            let journal = Journal { start, end, ..self };
            return Ok((journal, false));
        }
        vol.log_prune(name, to)?;
        let journal = Journal {
            start: to,
            end,
            ..self
        };
        Ok((journal, true))
    }

    fn destroy<V: Volume>(self, vol: &mut V) -> Result<(), JournalError> {
        vol.log_remove(self.name.as_str())?;
        Ok(())
    }
}

impl<T: Write + EncodeSize + Read + Duplicate + Drop, K: Kind<T>> Journal<T, K> {
    ghost use Rattle.std.specs.Prelude.{◌+◌, ◌-◌, ◌<◌, ◌^◌, ◌++◌, List, length, OnOk, IfErr, IsErrOf};
    ghost use Rattle.journal_base.specs.Answers.{IsOfSize, RefusesUnwritten};
    ghost use Rattle.journal_base.specs.Items.{Spells};
    ghost use Rattle.journal_base.specs.View.{log_of, SameButBounds, IsHeld};
    ghost use Rattle.volume_base.specs.Log.{end_of, appended, Grows};
    ghost use Rattle.volume_base.specs.Volume.{LogCall, Writes};
    ghost use Rattle.volume_base.specs.declared.error.JournalError.TheVariants.{SizeOverflow, Volume};

    /// Puts these byte lists, of which there are some, behind the end, by one append, and answers where the first of
    /// them stands. It refuses with `SizeOverflow` where the end would pass 2^64 - 1.
    pub(crate) fn put<V: Volume>(
        self,
        vol: &mut V,
        encodings: &[Bytes],
    ) -> Result<(Self, u64), JournalError>
        requires some { 0 < length encodings.now }
        ensures overflow { let end = end_of (log_of (view_of self) (V.state vol.old)) in
            V.tells → IsErrOf result SizeOverflow → (end ≤ 2 ^ 64 - 1) × (2 ^ 64 - 1 < end + length encodings.now) }
        ensures fits { let end = end_of (log_of (view_of self) (V.state vol.old)) in
            OnOk result (V.tells → end + length encodings.now ≤ 2 ^ 64 - 1) }
        ensures position { let end = end_of (log_of (view_of self) (V.state vol.old)) in
            IfOk result (λ made. V.tells → made.1 ≡ end) }
        ensures room { IfOk result (λ made. made.1 + length encodings.now ≤ 2 ^ 64 - 1) }
        ensures made { IfOk result (λ made. SameButBounds (view_of self) (view_of made.0)) }
        ensures held { IfOk result (λ made. V.tells → IsHeld (view_of made.0) (V.state vol.new)) }
        ensures appended { let log = log_of (view_of self) (V.state vol.old) in
            OnOk result (V.tells → log_of (view_of self) (V.state vol.new) ≡ appended log encodings.now) }
        ensures listed { OnOk result (V.tells → (list items : List T) → map T.spelling items ≡ encodings.now →
            Spells T.spelling list (log_of (view_of self) (V.state vol.old)) →
            Spells T.spelling (list ++ items) (log_of (view_of self) (V.state vol.new))) }
        ensures log { let step = Grows (log_of (view_of self) (V.state vol.old)) encodings.now in
            V.tells → LogCall (view_of self).name step (V.state vol.old) (V.state vol.new) }
        ensures refused { RefusesUnwritten (V.state vol.old) (V.state vol.new) result }
        ensures errors { IfErr result IsOfSize }
        ensures writes { Writes V.tells Volume (V.state vol.old) (V.state vol.new) result }
    {
        let name = self.name.as_str();
        let (start, end) = vol.log_bounds(name)?;
        let count = encodings.len() as u64;
        if u64::MAX - end < count {
            return Err(JournalError::SizeOverflow);
        }
        vol.log_append(name, encodings)?;
        let journal = Journal {
            start,
            end: end + count,
            ..self
        };
        Ok((journal, end))
    }

    /// The journal of a configuration over an empty log at a position. It refuses 2^64 - 1 with `SizeOverflow`.
    pub fn cleared<V: Volume>(
        vol: &mut V,
        cfg: JournalConfig<T::Cfg>,
        size: u64,
    ) -> Result<Self, JournalError>
        ensures made { IfOk result (λ made. view_of made ≡ at_bounds (config_of cfg) size size) }
        ensures clears { Clears V.tells (config_of cfg) size (V.state vol.old) (V.state vol.new) result }
    {
        Journal::new(cfg, size, size).clear_to_size(vol, size)
    }

    /// Leaves an empty log at a position. It refuses 2^64 - 1 with `SizeOverflow`.
    pub fn clear_to_size<V: Volume>(self, vol: &mut V, size: u64) -> Result<Self, JournalError>
        ensures made { IfOk result (λ made. view_of made ≡ at_bounds (view_of self) size size) }
        ensures clears { Clears V.tells (view_of self) size (V.state vol.old) (V.state vol.new) result }
    {
        if size == u64::MAX {
            return Err(JournalError::SizeOverflow);
        }
        vol.log_clear(self.name.as_str(), size)?;
        Ok(Journal {
            start: size,
            end: size,
            ..self
        })
    }
}
