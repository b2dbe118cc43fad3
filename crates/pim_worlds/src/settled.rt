//! Whether a world is settled.
ghost use Rattle.law_settled.specs.Laws.{ends_after, is_querier_entry, is_under_source, is_under_star};
ghost use Rattle.law_states.specs.Resting.{all_pass, are_up, firing_tests, tidy_tests};
ghost use Rattle.pim_types.specs.Keys.{same_key};
ghost use Rattle.pim_worlds.specs.Settled.{SettledIsDecided, is_settled};
ghost use Rattle.std.specs.List.{list_all};
ghost use Rattle.std.specs.Prelude.{◌≡◌, ◌||◌, is_some};

use pim_state::World;
use pim_tables::PlacedRows;
use pim_types::Key;
use pim_types::fact::{QuerierRow, SourceRow};
use std::collections::btree_map::Iter;

// Whether both are the same.
#[tactic(auto, unfolding(pim_types::specs::Keys::key_cmp, pim_types::specs::Keys::addr_cmp))]
fn is_same(first: Key, second: Key) -> bool
    ensures { result ≡ same_key first second }
{
    first.cmp(&second).is_eq()
}

// Whether each row is of an interface that is up.
fn are_up<R>(world: &World, rows: Iter<'_, Key, R>) -> bool
    ensures { result ≡ are_up world.now rows.entry }
{
    for (key, _) in rows {
        if !world.interfaces().is_up(key.iface) {
            return false;
        }
    }
    true
}

// Whether each is under a key of (*,G).
fn are_stars<R>(rows: Iter<'_, Key, R>) -> bool
    ensures { result ≡ list_all is_under_star rows.entry }
{
    for (key, _) in rows {
        if !is_same(Key::star(key.iface, key.group), *key) {
            return false;
        }
    }
    true
}

// Whether each is under a key of (S,G).
fn are_sources<R>(rows: Iter<'_, Key, R>) -> bool
    ensures { result ≡ list_all is_under_source rows.entry }
{
    for (key, _) in rows {
        if !is_same(Key::source(key.iface, key.group, key.address()), *key) {
            return false;
        }
    }
    true
}

// Whether a querier is under the key of an interface, with no robustness and no interval 0.
fn is_querier(key: Key, row: QuerierRow) -> bool
    ensures { result ≡ is_querier_entry (key, row) }
{
    is_same(Key::iface(key.iface), key) && row.robustness > 0 && row.query_interval > 0
}

// Whether each querier is under the key of its interface, with no robustness and no interval 0.
fn are_queriers(rows: Iter<'_, Key, QuerierRow>) -> bool
    ensures { result ≡ list_all is_querier_entry rows.entry }
{
    for (key, row) in rows {
        if !is_querier(*key, *row) {
            return false;
        }
    }
    true
}

// Whether each source is kept alive or has SPTbit set.
fn are_live(rows: PlacedRows<'_, SourceRow>) -> bool
    ensures { result ≡ list_all (λ e. is_some (e.1).keepalive || (e.1).spt) rows.entry }
{
    for (_, row) in rows {
        if row.keepalive.is_none() && !row.spt {
            return false;
        }
    }
    true
}

// Whether no robustness and no interval is 0, and IGMP's facts are under keys of their kind.
fn is_firable(world: &World) -> bool
    ensures { result ≡ all_pass (firing_tests world.now) }
{
    let settings = world.settings();
    if settings.robustness == 0 {
        return false;
    }
    if settings.query_interval == 0 {
        return false;
    }
    if settings.last_member_query_interval == 0 {
        return false;
    }
    let membership = world.membership();
    if !are_queriers(membership.querier_rows()) {
        return false;
    }
    if !are_stars(membership.group_record_rows()) {
        return false;
    }
    if !are_sources(membership.source_record_rows()) {
        return false;
    }
    if !are_stars(membership.group_repeat_rows()) {
        return false;
    }
    if !are_stars(membership.source_repeat_rows()) {
        return false;
    }
    true
}

// Whether all ends are later than the present.
#[tactic(auto, using(law_states::proofs::Ahead::next_tells_ahead))]
fn is_ahead(world: &World) -> bool
    ensures { result ≡ ends_after world.now.present world.now }
{
    match world.next() {
        Some((end, _)) => world.present() < end,
        None => true,
    }
}

// Whether each row is of an interface that is up, and each source is kept alive or has SPTbit set.
fn is_tidy(world: &World) -> bool
    ensures { result ≡ all_pass (tidy_tests world.now) }
{
    if !are_up(world, world.neighbours().iter()) {
        return false;
    }
    let membership = world.membership();
    if !are_up(world, membership.querier_rows()) {
        return false;
    }
    if !are_up(world, membership.group_record_rows()) {
        return false;
    }
    if !are_up(world, membership.source_record_rows()) {
        return false;
    }
    if !are_up(world, membership.group_repeat_rows()) {
        return false;
    }
    if !are_up(world, membership.source_repeat_rows()) {
        return false;
    }
    if !are_up(world, membership.sending_rows()) {
        return false;
    }
    let store = world.store();
    if !are_up(world, store.downstream_rows()) {
        return false;
    }
    if !are_up(world, store.assert_rows()) {
        return false;
    }
    are_live(store.source_rows())
}

/// Whether a world whose keys rise is settled: no robustness and no interval is 0, all ends are later than the present,
/// each fact of an interface is of one that is up, and IGMP's facts are under keys of their kind.
#[tactic(auto, unfolding(crate::specs::Settled::is_settled))]
pub fn is_settled(world: &World) -> bool
    ensures { result ≡ is_settled world.now }
{
    is_firable(world) && is_ahead(world) && is_tidy(world)
}

/// Where the keys of each table rise, the test passes exactly where the state is settled.
pub fn settled_is_decided()
    ensures { SettledIsDecided }
{}
