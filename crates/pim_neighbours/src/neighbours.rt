//! The table of neighbours, and what the router decides by it.
ghost use Rattle.std.specs.Prelude.{◌≡◌, ◌↔◌, ◌+◌, ◌<◌, ◌≤◌, ◌^◌, [], length, option_map, IsTrue, OnErr, OnOk};
ghost use Rattle.std.specs.List.Sorted.{IsStrictlySortedBy};
ghost use Rattle.pim_model.specs.Clearing.{first_by};
ghost use Rattle.pim_model.specs.Downstream.{holdtime_end_from};
ghost use Rattle.pim_model.specs.Hellos.{is_generation_changed_among, is_other_generation, neighbours_replaced, row_of_hello};
ghost use Rattle.pim_model.specs.Neighbours.{all_have_priority, is_better_dr, is_dr_among, is_suppression_among, nbr_among, override_interval_among, propagation_delay_among, t_override_among, t_suppressed_among};
ghost use Rattle.std.specs.List.{list_any};
ghost use Rattle.pim_model.specs.Tables.{drop_at, drop_where, has_row, keys_in, put, row_at, rows_on, same_option};
ghost use Rattle.pim_model.specs.Timers.{endings, is_ending_first};
ghost use Rattle.pim_neighbours.specs.Refreshed.{is_refreshed};
ghost use Rattle.pim_tables.specs.Ends.{due_of};
ghost use Rattle.pim_types.specs.declared.timer.TimerKind.{TimerKind as Kind};
ghost use Rattle.pim_types.specs.Keys.{is_on, key_cmp, neighbour_key};

use crate::delays::{Delays, delay_in};
use pim_tables::{RowsOf, Timed};
use pim_types::fact::NeighbourRow;
use pim_types::{Addr, Hop, IfaceId, InterfaceConfig, Key, Path, Timer};
use pim_wire::{DEFAULT_HOLDTIME, HOLDTIME_FOREVER, Hello};
use std::alloc::{AllocError, Global};
use std::collections::btree_map::Iter;
use std::marker::Model;

/// The least `t_suppressed`, in ms: 1.1 times the period of Joins.
const LEAST_SUPPRESSED: u32 = 66_000;

/// The greatest `t_suppressed`, in ms: 1.4 times the period of Joins.
const MOST_SUPPRESSED: u32 = 84_000;

// Whether both are the same priority, or none.
fn is_same_priority(first: Option<u32>, second: Option<u32>) -> bool
    ensures { result ≡ same_option first second }
{
    match (first, second) {
        (None, None) => true,
        (Some(first), Some(second)) => first == second,
        _ => false,
    }
}

// Whether these generation IDs are both known, and differ.
fn is_other_generation(before: Option<u32>, after: Option<u32>) -> bool
    ensures { result ≡ is_other_generation before after }
{
    match (before, after) {
        (Some(before), Some(after)) => before != after,
        (None, _) => false,
        (Some(_), None) => false,
    }
}

/// The PIM neighbours on all interfaces, each as its last Hello said.
#[derive(Drop)]
pub struct Neighbours {
    rows: Timed<NeighbourRow>,
}

impl Model for Neighbours {
    ghost use Rattle.pim_model.specs.Tables.{Table};
    ghost use Rattle.pim_types.specs.declared.fact.NeighbourRow.{NeighbourRow};

    ghost Value = { Table NeighbourRow };

    ghost view = { λ n. n.rows };
}

/// When a holdtime in seconds expires that starts at the present time, in ms; `None` never expires.
#[tactic(auto, unfolding(pim_model::specs::Downstream::holdtime_end_from))]
pub fn holdtime_end(present: u64, holdtime: u16) -> Option<u64>
    requires { present ≤ 2 ^ 62 }
    ensures { result ≡ holdtime_end_from present holdtime }
{
    if holdtime == HOLDTIME_FOREVER {
        None
    } else {
        Some(present + 1000 * u64::from(holdtime))
    }
}

/// The row that a Hello leaves of its neighbour, which came at the present time, in ms. Without a Holdtime option it
/// expires after 105 s; with holdtime 0 there is none.
pub fn row_of_hello(present: u64, hello: &Hello) -> Option<NeighbourRow>
    requires { present ≤ 2 ^ 62 }
    ensures { result ≡ row_of_hello present hello.now }
{
    let holdtime = hello.holdtime.unwrap_or(DEFAULT_HOLDTIME);
    if holdtime == 0 {
        return None;
    }
    Some(NeighbourRow {
        end: holdtime_end(present, holdtime),
        lan_delay: hello.lan_delay,
        priority: hello.priority,
        generation: hello.generation,
    })
}

/// Whether the neighbour comes before the router in the election of the DR (RFC 7761, section 4.3.2): by the
/// priorities, where those count, and else by the addresses.
#[tactic(auto, unfolding(pim_model::specs::Neighbours::is_better_dr))]
pub fn is_better_dr(by_priority: bool, own: &InterfaceConfig, key: &Key, row: &NeighbourRow) -> bool
    ensures { result
        ≡ is_better_dr by_priority own.now.priority own.now.address.bits (key.now, row.now) }
{
    let priority = row.priority.unwrap_or(0);
    if by_priority && priority != own.priority {
        return own.priority < priority;
    }
    own.address.bits < key.address().bits
}

impl Neighbours {
    ghost use Rattle.pim_neighbours.specs.Delays.{announced_among};

    /// No neighbours. It takes no memory.
    pub fn new(alloc: Global) -> Neighbours
        ensures { result ≡ [] }
    {
        Neighbours {
            rows: Timed::new(alloc),
        }
    }

    /// How many neighbours there are on all interfaces.
    pub fn len(&self) -> usize
        ensures count { result ≡ length self.now }

        // This holds of every table: the keys rise.
        ensures ascending { IsStrictlySortedBy key_cmp (keys_in self.now) }
    {
        self.rows.len()
    }

    /// Whether there is no neighbour.
    pub fn is_empty(&self) -> bool
        ensures { IsTrue result ↔ (self.now ≡ []) }
    {
        self.rows.rows().is_empty()
    }

    /// Which neighbour expires first, and when, in ms: the least by timestamp, then by key. `None` where none ever
    /// expires.
    #[tactic(auto, unfolding(pim_tables::specs::Ends::row_endings))]
    pub fn next(&self) -> Option<(u64, Timer)>
        ensures { result ≡ option_map due_of (first_by is_ending_first
            (endings Kind.Neighbour (λ r. r.end) self.now)) }
    {
        self.rows.next()
    }

    /// The neighbours, by interface and address.
    pub fn iter(&self) -> Iter<'_, Key, NeighbourRow>
        ensures { result ≡ self.now }
    {
        self.rows.rows().iter()
    }

    /// The neighbours on the interface, by address.
    pub fn iter_on(&self, iface: IfaceId) -> RowsOf<'_, NeighbourRow>
        ensures { result ≡ rows_on iface.number self.now }
    {
        self.rows.rows().rows_on(iface)
    }

    /// How many neighbours there are on the interface.
    pub fn count_on(&self, iface: IfaceId) -> usize
        ensures { result ≡ length (rows_on iface.number self.now) }
    {
        self.rows.rows().count_on(iface)
    }

    /// Whether there is a neighbour on the interface.
    pub fn has_on(&self, iface: IfaceId) -> bool
        ensures { result ≡ list_any (is_on iface.number) (keys_in self.now) }
    {
        self.rows.rows().has_on(iface)
    }

    /// What the neighbour with the address on the interface announced.
    pub fn get(&self, iface: IfaceId, address: Addr) -> Option<NeighbourRow>
        ensures { result ≡ row_at self.now (neighbour_key iface.number address.bits) }
    {
        self.rows.get(Key::neighbour(iface, address))
    }

    /// Whether there is a neighbour with the address on the interface.
    pub fn contains(&self, iface: IfaceId, address: Addr) -> bool
        ensures { result ≡ has_row self.now (neighbour_key iface.number address.bits) }
    {
        self.rows.contains(Key::neighbour(iface, address))
    }

    /// The neighbour that is the next hop of a route: `NBR` of RFC 7761, section 4.1.5. `None`
    /// where there is no route, and where the next hop is no neighbour.
    #[tactic(auto, unfolding(pim_model::specs::Neighbours::nbr_among))]
    pub fn nbr(&self, path: Option<Path>) -> Option<Hop>
        ensures { result ≡ nbr_among self.now path }
    {
        let path = path?;
        if !self.contains(path.iface, path.next_hop) {
            return None;
        }
        Some(Hop {
            iface: path.iface,
            address: path.next_hop,
        })
    }

    // Whether each neighbour on the interface announced its DR priority.
    #[tactic(auto, unfolding(pim_model::specs::Neighbours::all_have_priority))]
    fn all_have_priority(&self, iface: IfaceId) -> bool
        ensures { result ≡ all_have_priority (rows_on iface.number self.now) }
    {
        for (_, row) in self.iter_on(iface) {
            if row.priority.is_none() {
                return false;
            }
        }
        true
    }

    /// Whether the router is the DR on the interface (`I_am_DR` of RFC 7761, section 4.3.2), by
    /// its own address and priority there: the highest priority decides, then the highest address;
    /// the address alone where a neighbour announced no priority.
    #[tactic(auto, unfolding(pim_model::specs::Neighbours::is_dr_among))]
    pub fn is_dr(&self, iface: IfaceId, own: &InterfaceConfig) -> bool
        ensures { result
            ≡ is_dr_among own.now.priority own.now.address.bits (rows_on iface.number self.now) }
    {
        let by_priority = self.all_have_priority(iface);
        for (key, row) in self.iter_on(iface) {
            if is_better_dr(by_priority, own, key, row) {
                return false;
            }
        }
        true
    }

    // The greatest delays that the neighbours on the interface and the router itself announced;
    // `None` where a neighbour announced none.
    #[tactic(auto, unfolding(crate::specs::Delays::announced_among, pim_model::specs::Neighbours::all_have_lan_delay, pim_model::specs::Neighbours::greatest_delay))]
    fn announced_delays(&self, iface: IfaceId, own: &InterfaceConfig) -> Option<Delays>
        ensures { let rows = rows_on iface.number self.now in
            result ≡ announced_among own.now.propagation_delay own.now.override_interval rows }
    {
        let mut propagation_delay = own.propagation_delay;
        let mut override_interval = own.override_interval;
        for (_, row) in self.iter_on(iface) {
            let announced = row.lan_delay?;
            propagation_delay = propagation_delay.max(u32::from(announced.propagation_delay));
            override_interval = override_interval.max(u32::from(announced.override_interval));
        }
        Some(Delays {
            propagation_delay,
            override_interval,
        })
    }

    // The delays in force on the interface, where the router announces its own.
    #[tactic(auto, unfolding(crate::specs::Delays::announced_among, pim_model::specs::Neighbours::propagation_delay_among, pim_model::specs::Neighbours::override_interval_among, pim_model::specs::Neighbours::effective_delay))]
    fn delays(&self, iface: IfaceId, own: &InterfaceConfig) -> Delays
        ensures propagation_delay { result.propagation_delay
            ≡ propagation_delay_among own.now.propagation_delay (rows_on iface.number self.now) }
        ensures override_interval { result.override_interval
            ≡ override_interval_among own.now.override_interval (rows_on iface.number self.now) }
    {
        match self.announced_delays(iface, own) {
            Some(delays) => delays,
            None => Delays::DEFAULT,
        }
    }

    /// `Effective_Propagation_Delay` of the interface (RFC 7761, section 4.3.3), in ms: the
    /// greatest that was announced, the router's own among them, or the default of 500 where a
    /// neighbour announced none.
    pub fn propagation_delay(&self, iface: IfaceId, own: &InterfaceConfig) -> u32
        ensures { result
            ≡ propagation_delay_among own.now.propagation_delay (rows_on iface.number self.now) }
    {
        self.delays(iface, own).propagation_delay
    }

    /// `Effective_Override_Interval` of the interface (RFC 7761, section 4.3.3), in ms: the
    /// greatest that was announced, the router's own among them, or the default of 2500 where a
    /// neighbour announced none.
    pub fn override_interval(&self, iface: IfaceId, own: &InterfaceConfig) -> u32
        ensures { result
            ≡ override_interval_among own.now.override_interval (rows_on iface.number self.now) }
    {
        self.delays(iface, own).override_interval
    }

    /// `J/P_Override_Interval` of the interface (RFC 7761, section 4.11), in ms: the sum of its
    /// two delays.
    pub fn join_prune_override_interval(&self, iface: IfaceId, own: &InterfaceConfig) -> u64
        ensures value { let rows = rows_on iface.number self.now in
            result ≡ propagation_delay_among own.now.propagation_delay rows
            + override_interval_among own.now.override_interval rows }
        ensures within { result < 2 ^ 33 }
    {
        let delays = self.delays(iface, own);
        u64::from(delays.propagation_delay) + u64::from(delays.override_interval)
    }

    /// `Suppression_Enabled` of the interface (RFC 7761, section 4.3.3): whether a neighbour did
    /// not announce that it can do without Join suppression. It is off where there is no
    /// neighbour.
    #[tactic(auto, unfolding(pim_model::specs::Neighbours::is_suppression_among))]
    pub fn is_suppression_on(&self, iface: IfaceId) -> bool
        ensures { result ≡ is_suppression_among (rows_on iface.number self.now) }
    {
        for (_, row) in self.iter_on(iface) {
            if !row.lan_delay.is_some_and(|announced| announced.can_track) {
                return true;
            }
        }
        false
    }

    /// `t_override` of the interface (RFC 7761, section 4.11), in ms: from 1 to its override
    /// interval, by the number that was drawn.
    #[tactic(auto, unfolding(pim_model::specs::Neighbours::t_override_among))]
    pub fn override_delay(&self, iface: IfaceId, own: &InterfaceConfig, draw: u32) -> u64
        ensures delay { result
            ≡ t_override_among own.now.override_interval (rows_on iface.number self.now) draw }
        ensures within { result < 2 ^ 32 }
    {
        delay_in(1, self.override_interval(iface, own).max(1), draw)
    }

    /// `t_suppressed` of the interface (RFC 7761, section 4.11), in ms: from 66,000 to 84,000, by
    /// the number that was drawn, or 0 where Join suppression is off.
    #[tactic(auto, unfolding(pim_model::specs::Neighbours::t_suppressed_among))]
    pub fn suppressed_delay(&self, iface: IfaceId, draw: u32) -> u64
        ensures { result ≡ t_suppressed_among (rows_on iface.number self.now) draw }
    {
        if !self.is_suppression_on(iface) {
            return 0;
        }
        delay_in(LEAST_SUPPRESSED, MOST_SUPPRESSED, draw)
    }

    /// Whether the Hello shows that the neighbour restarted (RFC 7761, section 4.3.1): its generation ID and the one
    /// before are both known, and differ.
    #[tactic(auto, unfolding(pim_model::specs::Hellos::is_generation_changed_among))]
    pub fn is_generation_changed(&self, iface: IfaceId, address: Addr, hello: &Hello) -> bool
        ensures { result
            ≡ is_generation_changed_among self.now iface.number address.bits hello.now }
    {
        let Some(row) = self.get(iface, address) else {
            return false;
        };
        is_other_generation(row.generation, hello.generation)
    }

    /// Whether the Hello changes no more than when its neighbour expires: the neighbour is known with this priority,
    /// and didn't restart.
    #[tactic(auto, unfolding(crate::specs::Refreshed::is_refreshed, pim_model::specs::Hellos::is_generation_changed_among))]
    pub fn is_refreshed(&self, iface: IfaceId, address: Addr, hello: &Hello) -> bool
        ensures { result ≡ is_refreshed self.now iface.number address.bits hello.now }
    {
        let Some(row) = self.get(iface, address) else {
            return false;
        };
        is_same_priority(row.priority, hello.priority)
            && hello.holdtime.unwrap_or(DEFAULT_HOLDTIME) != 0
            && !is_other_generation(row.generation, hello.generation)
    }

    /// Sets the neighbour's row as its Hello says, which came at the present time, in ms. Without a Holdtime option it
    /// expires after 105 s; with holdtime 0 it is removed at once. An `Err` is want of memory, and changes nothing.
    #[tactic(auto, unfolding(pim_model::specs::Hellos::neighbours_replaced, pim_model::specs::Tables::set_row))]
    pub fn hello(
        &mut self,
        iface: IfaceId,
        address: Addr,
        hello: &Hello,
        present: u64,
    ) -> Result<(), AllocError>
        requires { present ≤ 2 ^ 62 }
        ensures ok { OnOk result (self.new
            ≡ neighbours_replaced present iface.number address.bits hello.now self.old) }
        ensures err { OnErr result (self.new ≡ self.old) }
    {
        let key = Key::neighbour(iface, address);
        let Some(row) = row_of_hello(present, hello) else {
            self.rows.remove(key);
            return Ok(());
        };
        self.rows.put(key, row)
    }

    /// Puts this neighbour under the key, in place of one that is there. An error is want of memory, and changes nothing.
    pub fn put(&mut self, key: Key, neighbour: NeighbourRow) -> Result<(), AllocError>
        ensures ok { OnOk result (self.new ≡ put self.old key neighbour) }
        ensures err { OnErr result (self.new ≡ self.old) }
    {
        self.rows.put(key, neighbour)
    }

    /// Takes the neighbour under the key away.
    pub fn remove_at(&mut self, key: Key)
        ensures { self.new ≡ drop_at self.old key }
    {
        self.rows.remove(key);
    }

    /// Takes the neighbour with the address on the interface away.
    pub fn remove(&mut self, iface: IfaceId, address: Addr)
        ensures { self.new ≡ drop_at self.old (neighbour_key iface.number address.bits) }
    {
        self.rows.remove(Key::neighbour(iface, address));
    }

    /// Takes the neighbours on the interface away.
    pub fn drop_on(&mut self, iface: IfaceId)
        ensures { self.new ≡ drop_where (is_on iface.number) self.old }
    {
        self.rows.drop_on(iface);
    }
}
