//! Which lists of leaves can be proved, and finding a leaf in one.
ghost use Rattle.std.specs.Prelude.{◌≡◌, ℕ, ◌<◌, ◌≤◌, length, slice_index_or, AllPairs, OnOk, IsErrOf};
ghost use Rattle.tree_verification.specs.Several.{order_answer, within_answer};

use tree_shape::Location;
use tree_store::Error;

/// Whether there are any, and each is past the one before it.
pub(crate) fn check_order<F>(locations: &[Location<F>]) -> Result<(), Error<F>>
    ensures answer { result ≡ order_answer locations.now }
    ensures not_volume { IsErrOf result Error.Volume → ⊥ }
    ensures rising { OnOk result (AllPairs (λ l m. l < m) locations.now) }
{
    if locations.is_empty() {
        return Err(Error::Empty);
    }
    let mut before = locations[0].as_u64();
    for i in 1..locations.len() {
        let next = locations[i].as_u64();
        if next < before {
            return Err(Error::UnsortedLocation(Location::new(next)));
        }
        if next == before {
            return Err(Error::DuplicateLocation(Location::new(next)));
        }
        before = next;
    }
    Ok(())
}

/// Whether each is below the number of leaves.
pub(crate) fn check_within<F>(locations: &[Location<F>], leaves: u64) -> Result<(), Error<F>>
    ensures answer { result ≡ within_answer leaves locations.now }
    ensures not_volume { IsErrOf result Error.Volume → ⊥ }
{
    for i in 0..locations.len() {
        let next = locations[i].as_u64();
        if next >= leaves {
            return Err(Error::RangeOutOfBounds(Location::new(next)));
        }
    }
    Ok(())
}

/// The place of the first of these rising leaves that isn't below x.
pub(crate) fn first_from<F>(locations: &[Location<F>], x: u64) -> usize
    requires { AllPairs (λ l m. l < m) locations.now }
    ensures within { result ≤ length locations.now }
    ensures before { (k d : ℕ) → k < result → slice_index_or locations.now k d < x }
    ensures since { (k d : ℕ) → result ≤ k → k < length locations.now → x ≤ slice_index_or locations.now k d }
{
    let mut low = 0;
    let mut high = locations.len();
    while low < high {
        let middle = low + (high - low) / 2;
        if locations[middle].as_u64() < x {
            low = middle + 1;
        } else {
            high = middle;
        }
    }
    low
}
