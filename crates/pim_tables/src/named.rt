//! Whether a key is in a list.
ghost use Rattle.std.specs.Prelude.{◌≡◌};
ghost use Rattle.pim_model.specs.Downstream.{is_named};
ghost use Rattle.pim_types.specs.Keys.{same_key};

use pim_types::Key;

// Whether both are the same key.
fn is_same(first: Key, second: Key) -> bool
    ensures { result ≡ same_key first second }
{
    first.cmp(&second).is_eq()
}

/// Whether the key is in the list.
#[tactic(auto, unfolding(pim_model::specs::Downstream::is_named))]
pub fn is_named(keys: &[Key], key: Key) -> bool
    ensures { result ≡ is_named keys.now key }
{
    for named in keys {
        if is_same(key, *named) {
            return true;
        }
    }
    false
}
