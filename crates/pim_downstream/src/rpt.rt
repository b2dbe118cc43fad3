//! The (S,G,rpt) states of joined groups.
ghost use Rattle.std.specs.Prelude.{◌≡◌, ◌==◌, ◌++◌, ◌∷◌, [], ℕ, IfOk, IfSome, OnOk, false};
ghost use Rattle.std.specs.List.{list_any};
ghost use Rattle.std.specs.List.Sorted.{IsStrictlySortedBy};
ghost use Rattle.pim_model.specs.Downstream.{is_named, rpt_rows_joined};
ghost use Rattle.pim_types.specs.Keys.{addr_cmp, group_in, same_key, star_key};

use pim_state::World;
use pim_types::{Addr, IfaceId, Key};
use std::alloc::{AllocError, Global};
use std::collections::BTreeSet;

// Whether the key is of (*,G) on the interface.
fn is_star_on(iface: IfaceId, key: Key) -> bool
    ensures { result ≡ same_key (star_key iface.number (group_in key)) key }
{
    Key::star(iface, key.group).cmp(&key).is_eq()
}

// The groups whose (*,G) is among the keys of the interface.
fn joined_groups(
    alloc: Global,
    iface: IfaceId,
    joined: &[Key],
) -> Result<BTreeSet<Addr>, AllocError>
    ensures ascending { IfOk result (λ groups. IsStrictlySortedBy addr_cmp groups.keys) }
    ensures joined { IfOk result (λ groups. (g : ℕ)
        → list_any (λ a. g == a.bits) groups.keys ≡ is_named joined.now (star_key iface.number g)) }
{
    let mut groups = BTreeSet::new(alloc);
    for key in joined {
        if is_star_on(iface, *key) {
            groups.insert(key.group)?;
        }
    }
    Ok(groups)
}

// The key that is joined, if it is the only one.
fn only_key(joined: &[Key]) -> Option<Key>
    ensures { IfSome result (λ key. joined.now ≡ key ∷ []) }
{
    match joined {
        [key] => Some(*key),
        _ => None,
    }
}

// The group whose (*,G) is joined, if nothing else is.
fn only_group(iface: IfaceId, joined: &[Key]) -> Option<Addr>
    ensures { IfSome result (λ group. (g : ℕ) → (g == group.bits) ≡ is_named joined.now (star_key iface.number g)) }
{
    let key = only_key(joined)?;
    if !is_star_on(iface, key) {
        return None;
    }
    Some(key.group)
}

// Puts the (S,G,rpt) rows of the joined groups behind the other keys. For a Join(*,G) alone no set of groups is made.
pub(crate) fn push_rpt_rows(
    alloc: Global,
    world: &World,
    iface: IfaceId,
    joined: &[Key],
    keys: &mut Vec<Key>,
) -> Result<(), AllocError>
    ensures { OnOk result (keys.new.items ≡ keys.old.items ++ rpt_rows_joined world.now iface.number joined.now) }
{
    if let Some(group) = only_group(iface, joined) {
        return world.store().push_rpt_keys_at(iface, group, keys);
    }
    let groups = joined_groups(alloc, iface, joined)?;
    world.store().push_rpt_keys(iface, &groups, keys)
}
