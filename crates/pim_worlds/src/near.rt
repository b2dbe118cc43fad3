//! Whether timers of a world end within their periods, the router won its asserts by the address that it has, neighbours
//! stand under keys of their kind, and the record of a source beside that of its group.
ghost use Rattle.law_states.specs.Ends.{ends_by};
ghost use Rattle.law_states.specs.Kinds.{is_of_neighbour};
ghost use Rattle.law_states.specs.NearStates.{is_near};
ghost use Rattle.law_states.specs.Own.{names_own};
ghost use Rattle.law_states.specs.ReloadLaws.{is_near_by};
ghost use Rattle.pim_model.specs.Tables.{has_row};
ghost use Rattle.pim_model.specs.Timers.{register_end};
ghost use Rattle.pim_types.specs.Keys.{group_in, iface_in, star_key};
ghost use Rattle.std.specs.List.{list_all};
ghost use Rattle.std.specs.Prelude.{◌≡◌, ◌+◌, nat_le};

use pim_state::World;
use pim_types::Key;
use pim_types::fact::{
    AssertRole, AssertRow, InterfaceRow, NeighbourRow, QuerierRole, QuerierRow, RegisterRow,
    RegisterState, SourceRecordRow,
};
use std::collections::btree_map::Iter;

// Hello_Period (RFC 7761, section 4.11), in ms.
const HELLO_PERIOD: u64 = 30_000;

// Register_Suppression_Time, drawn up to 1.5 times, less Register_Probe_Time (RFC 7761, section 4.4.1), in ms.
const LONGEST_STOP: u64 = 85_000;

// Assert_Time (RFC 7761, section 4.11), in ms.
const ASSERT_TIME: u64 = 180_000;

// Whether the querier, where it is the router, goes by the configured values (RFC 3376, sections 8.1 and 8.2): the next
// general query leaves within the query interval, and no more startup queries are left than the robustness.
fn is_near_querier(world: &World, row: QuerierRow) -> bool
    ensures { result ≡ is_near_by world.now.present world.now.settings row row.role }
{
    match row.role {
        QuerierRole::Querier {
            next_query,
            startup_left,
        } => {
            let settings = world.settings();
            u32::from(row.robustness) == settings.robustness
                && u32::from(row.query_interval) == settings.query_interval
                && next_query <= world.present() + 1000 * u64::from(row.query_interval)
                && startup_left <= row.robustness
        }
        QuerierRole::NonQuerier { end: _ } => true,
    }
}

// Whether each querier is near.
fn are_queriers_near(world: &World, rows: Iter<'_, Key, QuerierRow>) -> bool
    ensures { result ≡ list_all (λ e. is_near_by world.now.present world.now.settings e.1 (e.1).role) rows.entry }
{
    for (_, row) in rows {
        if !is_near_querier(world, *row) {
            return false;
        }
    }
    true
}

// Whether each next Hello leaves within Hello_Period.
fn are_hellos_near(world: &World, rows: Iter<'_, Key, InterfaceRow>) -> bool
    ensures { result ≡ list_all (λ e. nat_le (e.1).hello_end (world.now.present + 30000)) rows.entry }
{
    for (_, row) in rows {
        if row.hello_end > world.present() + HELLO_PERIOD {
            return false;
        }
    }
    true
}

// Whether the Register-Stop Timer of a register, where it runs, expires within the longest time that is drawn for it.
fn is_near_register(world: &World, row: RegisterRow) -> bool
    ensures { result ≡ ends_by (world.now.present + 85000) (register_end row.state) }
{
    match row.state {
        RegisterState::Join => true,
        RegisterState::JoinPending { end } => end <= world.present() + LONGEST_STOP,
        RegisterState::Prune { end } => end <= world.present() + LONGEST_STOP,
    }
}

// Whether each Register-Stop Timer expires within the longest time that is drawn for it.
fn are_registers_near(world: &World, rows: Iter<'_, Key, RegisterRow>) -> bool
    ensures { result ≡ list_all (λ e. ends_by (world.now.present + 85000) (register_end (e.1).state)) rows.entry }
{
    for (_, row) in rows {
        if !is_near_register(world, *row) {
            return false;
        }
    }
    true
}

// Whether each Assert Timer expires within Assert_Time.
fn are_asserts_near(world: &World, rows: Iter<'_, Key, AssertRow>) -> bool
    ensures { result ≡ list_all (λ e. nat_le (e.1).end (world.now.present + 180000)) rows.entry }
{
    for (_, row) in rows {
        if row.end > world.present() + ASSERT_TIME {
            return false;
        }
    }
    true
}

// Whether an assert that the router won names the address of its interface.
#[tactic(auto, unfolding(law_states::specs::Own::names_own))]
fn is_own(world: &World, key: Key, row: AssertRow) -> bool
    ensures { result ≡ names_own world.now (key, row) }
{
    match row.role {
        AssertRole::Winner => row.winner.address.bits == world.address(key.iface).bits,
        AssertRole::Loser => true,
    }
}

// Whether each assert that the router won names the address of its interface.
fn are_won_own(world: &World, rows: Iter<'_, Key, AssertRow>) -> bool
    ensures { result ≡ list_all (names_own world.now) rows.entry }
{
    for (key, row) in rows {
        if !is_own(world, *key, *row) {
            return false;
        }
    }
    true
}

// Whether each neighbour is under the key of its interface and its address.
#[tactic(auto, unfolding(law_states::specs::Kinds::is_of_neighbour, pim_types::specs::Keys::key_cmp, pim_types::specs::Keys::addr_cmp))]
fn is_of_neighbour(key: Key, row: NeighbourRow) -> bool
    ensures { result ≡ is_of_neighbour (key, row) }
{
    let _ = row;
    Key::neighbour(key.iface, key.address()).cmp(&key).is_eq()
}

// Whether each neighbour is under the key of its interface and its address.
fn are_of_neighbours(rows: Iter<'_, Key, NeighbourRow>) -> bool
    ensures { result ≡ list_all is_of_neighbour rows.entry }
{
    for (key, row) in rows {
        if !is_of_neighbour(*key, *row) {
            return false;
        }
    }
    true
}

// Whether the record of each source lies beside that of its group.
fn are_grouped(world: &World, rows: Iter<'_, Key, SourceRecordRow>) -> bool
    ensures { result ≡ list_all
        (λ e. has_row world.now.group_records (star_key (iface_in e.0) (group_in e.0))) rows.entry }
{
    for (key, _) in rows {
        if !world
            .membership()
            .has_group_record(Key::star(key.iface, key.group))
        {
            return false;
        }
    }
    true
}

/// Whether timers end within their periods, the router won its asserts by the address that it has, neighbours stand under
/// keys of their kind, and the record of a source beside that of its group.
#[tactic(auto, unfolding(law_states::specs::NearStates::is_near, law_states::specs::Ends::hellos_are_near, law_states::specs::Ends::registers_are_near, law_states::specs::Ends::asserts_are_near, law_states::specs::Own::won_are_own, law_states::specs::Kinds::neighbours_are_keyed, law_states::specs::Kinds::sources_are_grouped, law_states::specs::ReloadLaws::next_query_is_near))]
pub fn is_near(world: &World) -> bool
    ensures { result ≡ is_near world.now }
{
    if !are_queriers_near(world, world.membership().querier_rows()) {
        return false;
    }
    if !are_hellos_near(world, world.interfaces().rows()) {
        return false;
    }
    let store = world.store();
    if !are_registers_near(world, store.register_rows()) {
        return false;
    }
    if !are_asserts_near(world, store.assert_rows()) {
        return false;
    }
    if !are_won_own(world, store.assert_rows()) {
        return false;
    }
    if !are_of_neighbours(world.neighbours().iter()) {
        return false;
    }
    if !are_grouped(world, world.membership().source_record_rows()) {
        return false;
    }
    true
}
