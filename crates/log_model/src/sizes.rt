//! Plain programs over applied sizes, to compare faster ones with.
ghost use Rattle.std.specs.Prelude.{◌≡◌};
ghost use Rattle.volume_base.specs.Log.{Log, end_of};
ghost use Rattle.log_model.specs.Opening.{last_kept};
ghost use Rattle.log_model.specs.AppliedSizes.{first_at_least};

/// The index of the first size that is at least this; their number where none is.
pub fn first_at_least(sizes: &[u64], least: u64) -> u64
    ensures { result ≡ first_at_least least sizes.now }
{
    for i in 0..sizes.len() {
        if sizes[i] >= least {
            return i as u64;
        }
    }
    sizes.len() as u64
}

/// The last size that is at most this and whose place a witness log with these bounds keeps; 1 where there is none.
pub fn last_kept(sizes: &[u64], most: u64, witness_start: u64, witness_end: u64) -> u64
    ensures { (log : Log) → witness_start ≡ log.start → witness_end ≡ end_of log →
        result ≡ last_kept most log 1 0 sizes.now }
{
    let mut found = 1;
    for i in 0..sizes.len() {
        let position = i as u64;
        if sizes[i] <= most && witness_start <= position && position < witness_end {
            found = sizes[i];
        }
    }
    found
}
