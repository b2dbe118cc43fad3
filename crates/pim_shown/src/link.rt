//! An interface: who is the DR there, who queries, and which neighbours are there.
ghost use Rattle.pim_model.specs.Neighbours.{all_have_priority, is_better_dr};
ghost use Rattle.pim_model.specs.Tables.{rows_on};
ghost use Rattle.pim_shown.specs.Links.{better_of, dr, dr_among, link, neighbour, neighbour_at};
ghost use Rattle.std.specs.Prelude.{◌≡◌};

use pim_neighbours::Neighbours;
use pim_state::World;
use pim_types::fact::{NeighbourRow, QuerierRow};
use pim_types::{Addr, IfaceId, Key, LanDelay};

/// An interface that is configured.
#[derive(Clone, Copy)]
pub struct Link {
    /// Whether the interface is up.
    pub is_up: bool,
    /// DR(I): the address of the designated router (RFC 7761, section 4.3.2). Where no neighbour is better, it is the
    /// router's own. `None` where the interface is down, on which nobody is elected.
    pub dr: Option<Addr>,
    /// I_am_DR(I) of an interface that is up: the router itself is the DR.
    pub is_dr: bool,
    /// Who queries on the interface, with the values in force (RFC 3376, section 6.6.2); `None` where it is down.
    pub querier: Option<QuerierRow>,
}

/// A neighbour, with the options of its last Hello (RFC 7761, section 4.9.2).
#[derive(Clone, Copy)]
pub struct Neighbour {
    pub iface: IfaceId,
    pub address: Addr,
    /// When its holdtime expires, in ms; `None` never expires.
    pub end: Option<u64>,
    /// DR Priority.
    pub priority: Option<u32>,
    /// Generation ID.
    pub generation: Option<u32>,
    /// LAN Prune Delay.
    pub lan_delay: Option<LanDelay>,
}

/// A router of a link, as the election of its DR compares it.
#[derive(Clone, Copy)]
pub(crate) struct Candidate {
    pub(crate) priority: u32,
    pub(crate) address: Addr,
}

// Whether each neighbour on the interface announced its DR priority.
#[tactic(auto, unfolding(pim_model::specs::Neighbours::all_have_priority))]
fn all_have_priority(known: &Neighbours, iface: IfaceId) -> bool
    ensures { result ≡ all_have_priority (rows_on iface.number known.now) }
{
    for (_, row) in known.iter_on(iface) {
        if row.priority.is_none() {
            return false;
        }
    }
    true
}

// dr_is_better(a, b, I), where the first is a neighbour.
#[tactic(auto, unfolding(pim_model::specs::Neighbours::is_better_dr))]
fn is_better_dr(by_priority: bool, dr: Candidate, key: &Key, row: &NeighbourRow) -> bool
    ensures { result ≡ is_better_dr by_priority dr.priority dr.address.bits (key.now, row.now) }
{
    let priority = row.priority.unwrap_or(0);
    if by_priority && priority != dr.priority {
        return dr.priority < priority;
    }
    dr.address.bits < key.address().bits
}

// The better one of the DR so far and a neighbour.
#[tactic(auto, unfolding(crate::specs::Links::better_of))]
fn better_of(by_priority: bool, dr: Candidate, key: &Key, row: &NeighbourRow) -> Candidate
    ensures { result ≡ better_of by_priority dr (key.now, row.now) }
{
    if !is_better_dr(by_priority, dr, key, row) {
        return dr;
    }
    Candidate {
        priority: row.priority.unwrap_or(0),
        address: key.address(),
    }
}

// DR(I), by what the router itself is there.
#[tactic(auto, unfolding(crate::specs::Links::dr_among))]
fn dr_among(known: &Neighbours, iface: IfaceId, me: Candidate) -> Candidate
    ensures { result ≡ dr_among me (rows_on iface.number known.now) }
{
    let by_priority = all_have_priority(known, iface);
    let mut dr = me;
    for (key, row) in known.iter_on(iface) {
        dr = better_of(by_priority, dr, key, row);
    }
    dr
}

impl Link {
    /// An interface in the present state; `None` where it isn't configured. No memory is taken.
    #[tactic(auto, unfolding(crate::specs::Links::link, crate::specs::Links::dr, pim_model::specs::State::iface_config))]
    pub fn of(world: &World, iface: IfaceId) -> Option<Link>
        ensures { result ≡ link world.now iface.number }
    {
        let own = world.interfaces().config(iface)?;
        let me = Candidate {
            priority: own.priority,
            address: own.address,
        };
        let is_up = world.interfaces().is_up(iface);
        let dr = if is_up {
            Some(dr_among(world.neighbours(), iface, me).address)
        } else {
            None
        };
        Some(Link {
            is_up,
            dr,
            is_dr: is_up && world.is_dr(iface),
            querier: world.membership().querier(iface),
        })
    }
}

// A neighbour by its row.
fn neighbour_of(key: Key, row: NeighbourRow) -> Neighbour
    ensures { result ≡ neighbour (key, row) }
{
    Neighbour {
        iface: key.iface,
        address: key.address(),
        end: row.end,
        priority: row.priority,
        generation: row.generation,
        lan_delay: row.lan_delay,
    }
}

impl Neighbour {
    /// The neighbour with the address on the interface, in the present state; `None` where there is none. No memory is
    /// taken.
    #[tactic(auto, unfolding(crate::specs::Links::neighbour_at))]
    pub fn of(world: &World, iface: IfaceId, address: Addr) -> Option<Neighbour>
        ensures { result ≡ neighbour_at world.now iface.number address.bits }
    {
        let row = world.neighbours().get(iface, address)?;
        Some(neighbour_of(Key::neighbour(iface, address), row))
    }
}
