//! A journal as a run of items.
use crate::Journal;
use journal_base::{Backing, Contiguous};
use tree_core::{Family, Hasher};
use volume_base::{JournalError, Volume};

impl<F: Family, C: Backing, H: Hasher> Contiguous for Journal<F, C, H> {
    ghost use Rattle.auth_journal.specs.Joined.{log_view};

    type Item = C::Item;

    ghost view = { λ j. log_view j };

    fn bounds(&self) -> (u64, u64) {
        self.journal.bounds()
    }

    fn read<V: Volume>(&self, vol: &mut V, position: u64) -> Result<C::Item, JournalError> {
        self.journal.read(vol, position)
    }

    fn read_many<V: Volume>(
        &self,
        vol: &mut V,
        positions: &[u64],
    ) -> Result<Vec<C::Item>, JournalError> {
        self.journal.read_many(vol, positions)
    }
}
