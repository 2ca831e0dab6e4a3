//! What a node log and a map that stand for a list of leaf digests go on to stand for.
ghost use Rattle.std.specs.Prelude.{ℕ, ◌≤◌, ◌++◌, List};
ghost use Rattle.std.specs.FinMap as finmap;
ghost use Rattle.volume_base.specs.Log.{Log, no_log};
ghost use Rattle.volume_base.specs.Volume.{Map};
ghost use Rattle.tree_shape.specs.Hashing.{Hashing};
ghost use Rattle.tree_store.specs.Stored.{TreeStands};

use tree_shape::{Digest, Family};

/// They stand also where less is asked to be durable, or more may be pruned, and for each longer list; an empty log and an
/// empty map stand for each list of which nothing is durable.
pub fn stored_laws<F: Family, D: Digest>()
    ensures wider { (h : Hashing D) (all : List D) (durable less top higher : ℕ) (log : Log) (m : Map) →
        less ≤ durable → top ≤ higher → TreeStands F.shape h D.spelling all durable top log m →
        TreeStands F.shape h D.spelling all less higher log m }
    ensures longer { (h : Hashing D) (all more : List D) (durable top : ℕ) (log : Log) (m : Map) →
        TreeStands F.shape h D.spelling all durable top log m →
        TreeStands F.shape h D.spelling (all ++ more) durable top log m }
    ensures empty { (h : Hashing D) (all : List D) (top : ℕ) →
        TreeStands F.shape h D.spelling all 0 top no_log finmap.empty }
{}
