use crate::shared::Shared;
use codec_base::{Bytes, ListOf};
use volume_base::MetaMap;

/// What a call makes of a log.
#[derive(Drop)]
pub enum LogChange {
    Append(ListOf<Shared<Bytes>>),
    Sync,
    Cut(u64),
    Prune(u64),
    /// Another log, all of it durable, from this start on. A clear and a removal put no items.
    Put(u64, ListOf<Shared<Bytes>>),
}

/// A call that wrote or synced: the name, and what it made of the log or map.
#[derive(Drop)]
pub enum Entry {
    OfLog(Shared<Bytes>, LogChange),
    OfMap(Shared<Bytes>, Shared<MetaMap>),
}
