//! How the full database is made durable, as a database of the run.
use crate::durable::Durable;
use crate::full_side::Full;
use chain_core::Error;
use journal_base::SyncTicket;
use tree_shape::{Location, Mmr};
use volume_base::Volume;

impl Durable for Full {
    fn commit<V: Volume>(self, volume: &mut V) -> Result<Self, Error<Mmr>> {
        self.commit(volume)
    }

    fn sync<V: Volume>(self, volume: &mut V) -> Result<Self, Error<Mmr>> {
        self.sync(volume)
    }

    fn start_sync<V: Volume>(self, volume: &mut V) -> Result<Self, Error<Mmr>> {
        match self.start_sync(volume) {
            Ok((db, SyncTicket::Done)) => Ok(db),
            Ok((_, SyncTicket::Failed)) => Err(Error::Volume),
            Err(error) => Err(error),
        }
    }

    fn prune<V: Volume>(self, volume: &mut V, location: u64) -> Result<Self, Error<Mmr>> {
        self.prune(volume, Location::new(location))
    }
}
