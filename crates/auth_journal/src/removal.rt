//! A journal that is taken away.
use crate::{Error, Journal};
use journal_base::{Backing, Mutable};
use tree_core::{Family, Hasher};
use volume_base::Volume;

impl<F: Family, C: Backing, H: Hasher> Journal<F, C, H> {
    ghost use Rattle.std.specs.Prelude.{◌≡◌, IfErr, OnOk};
    ghost use Rattle.std.specs.FinMap as finmap;
    ghost use Rattle.journal_base.specs.View.{log_of, left_of};
    ghost use Rattle.volume_base.specs.Log.{no_log};
    ghost use Rattle.volume_base.specs.Names.{NamesCall};
    ghost use Rattle.volume_base.specs.Volume.{OnlyLeft, Writes};
    ghost use Rattle.auth_journal.specs.Errors.{IsOutside};
    ghost use Rattle.auth_journal.specs.Standing.{names_of, ItemsGoFirst};
    ghost use Rattle.auth_journal.specs.declared.error.Error.{Error};

    /// Takes the log of items away, and then the tree. It is refused by the outside alone.
    pub fn destroy<V: Volume>(self, vol: &mut V) -> Result<(), Error<F>>
        ensures no_items { OnOk result (V.tells → log_of self.items (V.state vol.new) ≡ no_log) }
        ensures no_nodes { OnOk result (V.tells → log_of self.tree.log (V.state vol.new) ≡ no_log) }
        ensures no_map { OnOk result (V.tells → (V.state vol.new).map self.tree.metadata ≡ finmap.empty) }
        ensures durable_items { OnOk result (V.tells → OnlyLeft (left_of self.items (V.state vol.new)) no_log) }
        ensures durable_nodes { OnOk result (V.tells → OnlyLeft (left_of self.tree.log (V.state vol.new)) no_log) }
        ensures durable_map { let state = V.state vol.new in
            OnOk result (V.tells → OnlyLeft (state.map_left state.clock self.tree.metadata) finmap.empty) }
        ensures outside { IfErr result IsOutside }
        // Every other log and map stays, and so does what a crash leaves of it.
        ensures names { V.tells → NamesCall (names_of self) (V.state vol.old) (V.state vol.new) }
        // The tree is as it was until nothing is left of the log of items.
        ensures images { V.tells → ItemsGoFirst self (V.state vol.old) (V.state vol.new) }
        ensures writes { Writes V.tells Error.Volume (V.state vol.old) (V.state vol.new) result }
    {
        self.journal.destroy(vol)?;
        self.merkle.destroy(vol)?;
        Ok(())
    }
}
