//! What the roots of lists tell of them; laws of good states, of what stands for them, and of openings.
ghost use Rattle.std.specs.Prelude.{◌≡◌, ◌⊎◌, ◌≤◌, ◌^◌, ◌++◌, Bool, true, List, length, map, Some, IfSome, Contains};
ghost use Rattle.std.specs.Bool.{Decides};
ghost use Rattle.std.specs.List.{AllByRecursion};
ghost use Rattle.volume_base.specs.Moments.{EachNow, present};
ghost use Rattle.tree_proof.specs.Inputs.{Clash};
ghost use Rattle.log_model.specs.Hashed.{inputs_of, NoClash};
ghost use Rattle.log_model.specs.Laws.{StepsStayGood, OpeningsAreGood, OpeningsRealign, FullStandsWider, FullStandsLonger, CompactStandsWider, CompactStandsLonger};
ghost use Rattle.log_model.specs.Machine.{fresh, same_operations};
ghost use Rattle.log_model.specs.Operations.{root_of};
ghost use Rattle.log_model.specs.Stored.{DatabaseNames, IsEmpty};
ghost use Rattle.log_model.specs.Valid.{IsValid, IsValidContents};

use crate::Logged;
use codec_base::{Read, spelling_laws};
use tree_proof::one_root_law;
use tree_shape::{Family, Hasher};
use volume_base::Volume;

/// Two lists with one root have the same encodings, or two different inputs of what is hashed for them have one digest.
pub fn encodings_law<F: Family, H: Hasher, O: Logged>()
    ensures { (first second : List O) → length first ≤ 2 ^ 62 → length second ≤ 2 ^ 62 →
        root_of F.shape H.hash O.meaning first ≡ root_of F.shape H.hash O.meaning second →
        (map O.meaning.encoding first ≡ map O.meaning.encoding second) ⊎
        Clash H.hash (inputs_of F.shape H.hash O.meaning first ++ inputs_of F.shape H.hash O.meaning second) }
{
    one_root_law::<F, H>();
}

/// Of lists without a clash, whose operations are allowed, two with one root are one.
pub fn no_clash_law<F: Family, H: Hasher, O: Logged + Read>(cfg: &O::Cfg)
    ensures { (lists : List (List O)) (first second : List O) → NoClash F.shape H.hash O.meaning lists →
        Contains lists first → Contains lists second →
        AllByRecursion (O.admits cfg.now) first → AllByRecursion (O.admits cfg.now) second → length first ≤ 2 ^ 62 →
        length second ≤ 2 ^ 62 →
        root_of F.shape H.hash O.meaning first ≡ root_of F.shape H.hash O.meaning second → first ≡ second }
{
    encodings_law::<F, H, O>();
    spelling_laws::<O>(cfg);
}

/// Each kind of step makes a good state of a good state, where lists are compared operation by operation.
pub fn steps_stay_good<O: Logged>()
    ensures { (same : O → O → Bool) → ((a b : O) → Decides (same a b) (a ≡ b)) → (admits : O.Value → Bool) (first : O) →
        StepsStayGood O.meaning admits first (same_operations same) }
{}

/// What is opened of an image that stands for a good state is a good state, at or past what was durable.
pub fn openings_are_good<F: Family, H: Hasher, O: Logged>()
    ensures good { (admits : O.Value → Bool) (first : O) →
        OpeningsAreGood F.shape H.hash H.Digest.spelling O.meaning admits first }
    ensures realign { (admits : O.Value → Bool) (first : O) →
        OpeningsRealign F.shape H.hash H.Digest.spelling O.meaning admits first }
{}

/// What stands for a list stands also where more may be pruned, where less is durable, and for a longer list.
pub fn stands_laws<F: Family, H: Hasher, O: Logged>()
    ensures full_wider { FullStandsWider F.shape H.hash H.Digest.spelling O.meaning }
    ensures full_longer { FullStandsLonger F.shape H.hash H.Digest.spelling O.meaning }
    ensures compact_wider { CompactStandsWider F.shape H.hash H.Digest.spelling O.meaning }
    ensures compact_longer { CompactStandsLonger F.shape H.hash H.Digest.spelling O.meaning }
{}

/// From a fresh volume a run may begin, in the fresh state.
pub fn fresh_law<F: Family, H: Hasher, O: Logged, V: Volume>(volume: &V)
    ensures images { (admits : O.Value → Bool) (first : O) (names : DatabaseNames) (lists : List (List O)) →
        O.meaning.floor first ≡ Some 0 → IfSome (O.meaning.value first) (λ v. admits v ≡ true) →
        NoClash F.shape H.hash O.meaning lists → EachNow (IsEmpty names) (V.state volume.now) →
        IsValid F.shape H.hash H.Digest.spelling O.meaning (λ v. admits v ≡ true) first names lists (fresh first)
        (V.state volume.now) }
    ensures contents { (admits : O.Value → Bool) (first : O) (names : DatabaseNames) (lists : List (List O)) →
        O.meaning.floor first ≡ Some 0 → IfSome (O.meaning.value first) (λ v. admits v ≡ true) →
        NoClash F.shape H.hash O.meaning lists → IsEmpty names (present (V.state volume.now)) →
        IsValidContents F.shape H.hash H.Digest.spelling O.meaning (λ v. admits v ≡ true) first names lists
        (fresh first)
        (V.state volume.now) }
{}
