//! A store of the nodes that a proof tells.
use crate::bounds::check_told;
use crate::told::tell_peaks;
use codec_base::Bytes;
use std::alloc::Global;
use std::collections::BTreeMap;
use std::marker::{Model, PhantomData};
use tree_proof::{Items, Proof};
use tree_shape::{Digest, Family, Hasher, Location, Position, Standard};
use tree_store::{Error, Readable, Storage, nodes_from_memory};
use volume_base::Volume;

/// The nodes of a tree that a proof and its elements tell: those of the cover, the leaves of the elements, and each node over them.
#[derive(Drop)]
pub struct ProofStore<F: Family, D: Digest> {
    alloc: Global,
    leaves: u64,
    nodes: BTreeMap<u64, D>,
    family: PhantomData<F>,
}

impl<F: Family, D: Digest> Model for ProofStore<F, D> {
    ghost use Rattle.std.specs.Prelude.{◌≤◌, ◌^◌};
    ghost use Rattle.tree_verification.specs.Told.{ToldTree};

    ghost Value = { ToldTree D };

    ghost view = { λ t. record { leaves = t.leaves; nodes = t.nodes.entries } };

    ghost invariant = { λ t. t.leaves ≤ 2 ^ 62 };
}

impl<F: Family, D: Digest> ProofStore<F, D> {
    ghost use Rattle.std.specs.Prelude.{◌≡◌, ℕ, ◌+◌, List, length, slice_range, Ok, Err, IfOk, IfErr};
    ghost use Rattle.tree_shape.specs.Slow.{leaf_digests};
    ghost use Rattle.tree_proof.specs.Cover.{meets, cover_digests};
    ghost use Rattle.tree_store.specs.declared.error.Error.{Error};
    ghost use Rattle.tree_store.specs.declared.error.Error.TheVariants.{Memory};
    ghost use Rattle.tree_store.specs.Stores.{IsTreeOf};
    ghost use Rattle.tree_verification.specs.Told.{told_nodes, IsTold, entries, TellsExactly, told_at, told_answer};

    /// The nodes that the proof and its elements from `start` on tell, whatever root they have. Refuses, in this order: `Empty`,
    /// `LocationOverflow`, `RangeOutOfBounds`, `InvalidPinnedNodes`, `Memory`.
    pub fn new<H: Hasher<Digest = D>>(
        alloc: Global,
        proof: &Proof<F, D>,
        start: Location<F>,
        elements: &[Bytes],
        hasher: &Standard<H>,
    ) -> Result<Self, Error<F>>
        ensures refused { let answer = told_answer F.shape proof.now start (length elements.now) in
            (e : Error F) → answer ≡ Err e → result ≡ Err e }
        ensures within { let answer = told_answer F.shape proof.now start (length elements.now) in
            IfOk result (λ store. answer ≡ Ok tt) }
        ensures memory { let answer = told_answer F.shape proof.now start (length elements.now) in
            answer ≡ Ok tt → IfErr result (λ e. e ≡ Memory) }
        ensures leaves { IfOk result (λ store. store.leaves ≡ proof.now.leaves) }

        // Of any tree that the proof and the elements tell, they are the cover's nodes, the leaves of the elements, and
        // each node over these.
        ensures nodes { let told = told_nodes F.shape (meets start (start + length elements.now)) proof.now.leaves in
            IfOk result (λ store. (tree : ℕ → ℕ → D) → IsTold F.shape H.hash proof.now start elements.now tree →
            TellsExactly (told_at store) (entries F.shape tree told)) }

        // Where the proof is that of a range of a list of elements, they are nodes of the list's tree.
        ensures tree { let end = start + length elements.now in
            IfOk result (λ store. (all : List (List ℕ)) → length all ≡ proof.now.leaves →
            let leaves = leaf_digests F.shape H.hash all in
            proof.now.digests ≡ cover_digests F.shape H.hash leaves (meets start end) proof.now.leaves →
            elements.now ≡ slice_range all start end →
            IsTreeOf F.shape H.hash leaves store.leaves (told_at store)) }
    {
        let from = start.as_u64();
        check_told(proof, from, elements.len() as u64)?;
        let known = Items {
            start: from,
            items: elements,
        };
        let leaves = proof.leaves.as_u64();
        let nodes = tell_peaks::<F, H, _>(alloc, hasher, &known, leaves, proof.digests.as_slice())?;
        Ok(ProofStore {
            alloc,
            leaves,
            nodes,
            family: PhantomData,
        })
    }
}

impl<F: Family, D: Digest> Readable for ProofStore<F, D> {
    ghost use Rattle.std.specs.Prelude.{◌≡◌};
    ghost use Rattle.tree_verification.specs.Told.{told_at};

    type Family = F;

    type Digest = D;

    ghost leaves = { λ t. t.leaves };

    ghost told = { λ t p. told_at t p };

    fn leaves(&self) -> Location<F> {
        Location::new(self.leaves)
    }

    fn size(&self) -> Position<F> {
        F::location_to_position(Location::new(self.leaves))
    }

    fn get_node(&self, pos: Position<F>) -> Option<D>
        ensures { result ≡ told_at self.now pos }
    {
        self.nodes.get(&pos.as_u64()).copied()
    }
}

impl<F: Family, D: Digest> Storage<F> for ProofStore<F, D> {
    ghost use Rattle.std.specs.Prelude.{◌≡◌, ◌<◌, length, map, Some, Ok, All, IfOk, IfErr};
    ghost use Rattle.tree_shape.specs.Shape.{made};
    ghost use Rattle.volume_base.specs.Volume.{Reads};
    ghost use Rattle.tree_store.specs.Stores.{IsReadFault, IsReadRefusal, IsOutside, IsOutsideOr, IsUnread};
    ghost use Rattle.tree_verification.specs.Told.{told_at};

    type Digest = D;

    ghost leaves = { λ t. t.leaves };

    ghost held = { λ t c. Unit {0} };

    ghost told = { λ t c p. told_at t p };

    fn allocator(&self) -> Global {
        self.alloc
    }

    fn leaves(&self) -> Location<F> {
        Readable::leaves(self)
    }

    fn size(&self) -> Position<F> {
        Readable::size(self)
    }

    fn get_node<V: Volume>(
        &self,
        _vol: &mut V,
        position: Position<F>,
    ) -> Result<Option<D>, Error<F>>
        ensures node { IfOk result (λ node. V.tells → Unit {0} → node ≡ told_at self.now position) }
        ensures fault { position < length (made F.shape self.now.leaves) → IfErr result IsReadFault }
        ensures outside { position < length (made F.shape self.now.leaves) → V.tells → Unit {0} →
            IfErr result IsOutside }
        ensures reads { Reads V.tells Error.Volume (V.state _vol.old) (V.state _vol.new) result }
        // It is told from memory, at any position.
        ensures exact { result ≡ Ok (told_at self.now position) }
        ensures volume { _vol.new ≡ _vol.old }
    {
        Ok(Readable::get_node(self, position))
    }

    fn get_nodes<V: Volume>(
        &self,
        _vol: &mut V,
        positions: &[Position<F>],
    ) -> Result<Vec<D>, Error<F>>
        ensures nodes { IfOk result (λ nodes. V.tells → Unit {0} →
            map Some nodes.items ≡ map (told_at self.now) positions.now) }
        ensures counted { IfOk result (λ nodes. length nodes.items ≡ length positions.now) }
        ensures fault { All (λ p. p < length (made F.shape self.now.leaves)) positions.now →
            IfErr result IsReadRefusal }
        ensures outside { All (λ p. p < length (made F.shape self.now.leaves)) positions.now → V.tells → Unit {0} →
            IfErr result (IsOutsideOr (told_at self.now) positions.now) }
        ensures reads { Reads V.tells Error.Volume (V.state _vol.old) (V.state _vol.new) result }
        // They are told from memory, at any positions.
        ensures exact { IfOk result (λ nodes. map Some nodes.items ≡ map (told_at self.now) positions.now) }
        ensures absent { IfErr result (IsUnread (told_at self.now) positions.now) }
        ensures volume { _vol.new ≡ _vol.old }
    {
        let nodes = nodes_from_memory(self.alloc, self, positions)?;
        Ok(nodes)
    }
}
