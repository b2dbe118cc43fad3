//! Keys that are named one by one, where they are few.
ghost use Rattle.std.specs.Prelude.{◌≡◌, length, nat_lt};
ghost use Rattle.pim_rerouted.specs.Few.{few_or_all};

use pim_state::Touched;
use pim_types::{Key, Series};

// The most keys that are named one by one.
const MOST_OPENED: usize = 256;

/// Whether there are more than 256 keys.
pub fn are_many(keys: &[Key]) -> bool
    ensures { result ≡ nat_lt 256 (length keys.now) }
{
    keys.len() > MOST_OPENED
}

/// The given keys, or all where there are more than 256: whoever asks of a source whether it may be disturbed goes over
/// the keys each time.
pub fn few_or_all(keys: Vec<Key>) -> Touched
    ensures { result ≡ few_or_all keys.items }
{
    if are_many(&keys) {
        return Touched::All;
    }
    Touched::Keys(Series::from_vec(keys))
}
