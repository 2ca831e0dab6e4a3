//! A tree that is taken away.
use crate::Merkle;
use journal_base::Mutable;
use tree_core::{Digest, Error, Family};
use volume_base::Volume;

impl<F: Family, D: Digest> Merkle<F, D> {
    ghost use Rattle.std.specs.Prelude.{◌≡◌, ℕ, List, IfErr, OnOk};
    ghost use Rattle.std.specs.FinMap as finmap;
    ghost use Rattle.journal_base.specs.View.{log_of, left_of};
    ghost use Rattle.tree_store.specs.Stores.{IsOutside};
    ghost use Rattle.tree_store.specs.declared.error.Error.{Error};
    ghost use Rattle.volume_base.specs.Log.{no_log, BecomesOneOf};
    ghost use Rattle.volume_base.specs.Moments.{PairKeeps};
    ghost use Rattle.volume_base.specs.Names.{log_and_map, NamesCall};
    ghost use Rattle.volume_base.specs.Volume.{OnlyLeft, WritesMap, Writes};
    ghost use Rattle.tree_shape.specs.Hashing.{Hashing};
    ghost use Rattle.merkle_full.specs.Flushing.{AllStand};
    ghost use Rattle.merkle_full.specs.Removing.{IsRemnant, StandsOrEmpty};

    /// Takes the map away.
    fn remove_map<V: Volume>(&self, vol: &mut V) -> Result<(), Error<F>>
        ensures removed { OnOk result (V.tells → (V.state vol.new).map self.now.metadata ≡ finmap.empty) }
        ensures durable { let state = V.state vol.new in
            OnOk result (V.tells → OnlyLeft (state.map_left state.clock self.now.metadata) finmap.empty) }
        ensures outside { IfErr result IsOutside }
        ensures call { let step = BecomesOneOf finmap.empty in
            WritesMap V.tells Error.Volume self.now.metadata step (V.state vol.old) (V.state vol.new) result }
    {
        vol.map_remove(self.metadata.as_str())?;
        Ok(())
    }

    /// Takes the map away, and then the log. It is refused by the outside alone.
    pub fn destroy<V: Volume>(self, vol: &mut V) -> Result<(), Error<F>>
        ensures no_map { OnOk result (V.tells → (V.state vol.new).map self.metadata ≡ finmap.empty) }
        ensures no_log { OnOk result (V.tells → log_of self.log (V.state vol.new) ≡ no_log) }
        ensures durable_map { let state = V.state vol.new in
            OnOk result (V.tells → OnlyLeft (state.map_left state.clock self.metadata) finmap.empty) }
        ensures durable_log { OnOk result (V.tells → OnlyLeft (left_of self.log (V.state vol.new)) no_log) }
        ensures outside { IfErr result IsOutside }
        // Every other log and map stays, and so does what a crash leaves of it.
        ensures names { let names = log_and_map self.log.name self.metadata in
            V.tells → NamesCall names (V.state vol.old) (V.state vol.new) }
        ensures images { let left = IsRemnant (V.state vol.old) self.log.name self.metadata in
            V.tells → PairKeeps self.log.name self.metadata left (V.state vol.old) (V.state vol.new) }
        // So an opening of an image gives the leaves and nodes that it gave before the call, or the empty tree.
        ensures stands { V.tells → (h : Hashing D) (all : List D) (durable top : ℕ) →
            AllStand F.shape h D.spelling all durable top self (V.state vol.old) →
            PairKeeps self.log.name self.metadata
            (StandsOrEmpty F.shape h D.spelling all durable top (V.state vol.old) self.log.name)
            (V.state vol.old) (V.state vol.new) }
        ensures writes { Writes V.tells Error.Volume (V.state vol.old) (V.state vol.new) result }
    {
        self.remove_map(vol)?;
        self.nodes.destroy(vol)?;
        Ok(())
    }
}
