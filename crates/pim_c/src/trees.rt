//! What the router tells of its trees and its links, as C reads it.
ghost use Rattle.std.specs.Prelude.{◌≡◌, option_map};
ghost use Rattle.pim_ifset.specs.Members.{has};
ghost use Rattle.pim_c.specs.Called.{interface_bits};
ghost use Rattle.pim_c.specs.Trees.{cause_number, hop_of, lan_delay_of, link_of, neighbour_of, number_of_option, path_of, querier_of, source_tree_of, state_number, tree_of};
ghost use Rattle.pim_c.specs.Written.{ValueWritten};

use crate::returned::{Interfaces, NEVER, words};
use pim_ifset::IfSet;
use pim_router::{Link, Neighbour, RpfCause, SourceTree, Tree};
use pim_types::fact::{QuerierRole, QuerierRow};
use pim_types::{Addr, Hop, LanDelay, Path, TreeState};

/// A number that may not be there; it is 0 then.
#[repr(C)]
#[derive(Drop)]
pub struct CNumber {
    pub is_there: bool,
    pub value: u32,
}

/// A neighbour that may not be there; all its numbers are 0 then.
#[repr(C)]
#[derive(Drop)]
pub struct CHop {
    pub is_there: bool,
    pub iface: u32,
    pub address: u32,
}

/// A route that may not be there; all its numbers are 0 then.
#[repr(C)]
#[derive(Drop)]
pub struct CPath {
    pub is_there: bool,
    pub is_connected: bool,
    pub iface: u32,
    pub next_hop: u32,
    pub preference: u32,
    pub metric: u32,
}

/// The macros of (*,G).
#[repr(C)]
#[derive(Drop)]
pub struct CTree {
    pub rp: CNumber,
    pub path: CPath,
    pub rpf_neighbour: CHop,
    pub rpf_cause: u32,
    pub join_desired: bool,
    pub joins: Interfaces,
    pub local_receiver_include: Interfaces,
    pub pim_include: Interfaces,
    pub lost_assert: Interfaces,
    pub won_assert: Interfaces,
    pub immediate_olist: Interfaces,
}

/// The macros of (S,G) and of (S,G,rpt).
#[repr(C)]
#[derive(Drop)]
pub struct CSourceTree {
    pub path: CPath,
    pub rpf_neighbour: CHop,
    pub rpf_cause: u32,
    pub rpf_neighbour_rpt: CHop,
    pub rpt_state: u32,
    pub spt_bit: bool,
    pub is_kept_alive: bool,
    pub join_desired: bool,
    pub prune_desired: bool,
    pub could_register: bool,
    /// The register tunnel is in `joins`, `immediate_olist` and `inherited_olist`.
    pub has_tunnel: bool,
    pub joins: Interfaces,
    pub prunes: Interfaces,
    pub local_receiver_include: Interfaces,
    pub local_receiver_exclude: Interfaces,
    pub pim_include: Interfaces,
    pub pim_exclude: Interfaces,
    pub lost_assert: Interfaces,
    pub lost_assert_rpt: Interfaces,
    pub won_assert: Interfaces,
    pub immediate_olist: Interfaces,
    pub inherited_olist: Interfaces,
    pub inherited_olist_rpt: Interfaces,
}

/// Who queries on an interface.
#[repr(C)]
#[derive(Drop)]
pub struct CQuerier {
    /// 0 where the interface is down, 1 where the router queries, 2 where another one does.
    pub role: u32,
    /// When the next general query leaves, or when the router takes over from the other, in ms.
    pub end: u64,
    pub startup_left: u32,
    pub robustness: u32,
    /// In seconds.
    pub query_interval: u32,
}

/// An interface.
#[repr(C)]
#[derive(Drop)]
pub struct CLink {
    pub is_up: bool,
    pub is_dr: bool,
    /// 0 where the interface is down.
    pub dr: u32,
    pub querier: CQuerier,
}

/// The LAN Prune Delay option, which may not be there; all its numbers are 0 then.
#[repr(C)]
#[derive(Drop)]
pub struct CLanDelay {
    pub is_there: bool,
    pub can_track: bool,
    pub propagation_delay: u32,
    pub override_interval: u32,
}

/// A neighbour with its options.
#[repr(C)]
#[derive(Drop)]
pub struct CNeighbour {
    /// In ms, or `NEVER`.
    pub end: u64,
    pub priority: CNumber,
    pub generation: CNumber,
    pub lan_delay: CLanDelay,
}

// An optional number as C reads it.
fn c_number(value: Option<u32>) -> CNumber
    ensures { result ≡ number_of_option value }
{
    match value {
        Some(value) => CNumber {
            is_there: true,
            value,
        },
        None => CNumber {
            is_there: false,
            value: 0,
        },
    }
}

// RP(G).
fn c_address(value: Option<Addr>) -> CNumber
    ensures { result ≡ number_of_option (option_map (λ a. a.bits) value) }
{
    match value {
        Some(address) => CNumber {
            is_there: true,
            value: address.bits,
        },
        None => CNumber {
            is_there: false,
            value: 0,
        },
    }
}

// A neighbour on an interface, if there is one, as C reads it.
fn c_hop(hop: Option<Hop>) -> CHop
    ensures { result ≡ hop_of hop }
{
    match hop {
        Some(hop) => CHop {
            is_there: true,
            iface: hop.iface.number,
            address: hop.address.bits,
        },
        None => CHop {
            is_there: false,
            iface: 0,
            address: 0,
        },
    }
}

// A path to an address, if there is one, as C reads it.
fn c_path(path: Option<Path>) -> CPath
    ensures { result ≡ path_of path }
{
    match path {
        Some(path) => CPath {
            is_there: true,
            is_connected: path.is_connected,
            iface: path.iface.number,
            next_hop: path.next_hop.bits,
            preference: path.preference,
            metric: path.metric,
        },
        None => CPath {
            is_there: false,
            is_connected: false,
            iface: 0,
            next_hop: 0,
            preference: 0,
            metric: 0,
        },
    }
}

// The number of a cause of RPF', as C reads it.
fn cause_number(cause: RpfCause) -> u32
    ensures { result ≡ cause_number cause }
{
    match cause {
        RpfCause::Winner => 1,
        RpfCause::NextHop => 2,
        RpfCause::Connected => 3,
        RpfCause::NoNeighbour => 4,
        RpfCause::NoRoute => 5,
        RpfCause::Own => 6,
        RpfCause::NoRp => 7,
    }
}

// The number of an (S,G,rpt) upstream state, as C reads it.
fn state_number(state: TreeState) -> u32
    ensures { result ≡ state_number state }
{
    match state {
        TreeState::NotJoined => 0,
        TreeState::Pruned => 1,
        TreeState::NotPruned => 2,
    }
}

// A set's interfaces, without the register tunnel.
fn interface_bits(set: IfSet) -> Interfaces
    ensures { result ≡ interface_bits (has set) }
{
    words(set)
}

/// The macros of (*,G), as C reads them.
fn c_tree(tree: &Tree) -> CTree
    ensures { result ≡ tree_of tree.now }
{
    CTree {
        rp: c_address(tree.rp),
        path: c_path(tree.rp_path),
        rpf_neighbour: c_hop(tree.rpf_neighbour),
        rpf_cause: cause_number(tree.rpf_cause),
        join_desired: tree.join_desired,
        joins: interface_bits(tree.joins),
        local_receiver_include: interface_bits(tree.local_receiver_include),
        pim_include: interface_bits(tree.pim_include),
        lost_assert: interface_bits(tree.lost_assert),
        won_assert: interface_bits(tree.won_assert),
        immediate_olist: interface_bits(tree.immediate_olist),
    }
}

/// The macros of (S,G) and of (S,G,rpt), as C reads them.
fn c_source_tree(tree: &SourceTree) -> CSourceTree
    ensures { result ≡ source_tree_of tree.now }
{
    CSourceTree {
        path: c_path(tree.path),
        rpf_neighbour: c_hop(tree.rpf_neighbour),
        rpf_cause: cause_number(tree.rpf_cause),
        rpf_neighbour_rpt: c_hop(tree.rpf_neighbour_rpt),
        rpt_state: state_number(tree.tree_state),
        spt_bit: tree.spt_bit,
        is_kept_alive: tree.is_kept_alive,
        join_desired: tree.join_desired,
        prune_desired: tree.prune_desired,
        could_register: tree.could_register,
        has_tunnel: tree.joins.has_tunnel(),
        joins: interface_bits(tree.joins),
        prunes: interface_bits(tree.prunes),
        local_receiver_include: interface_bits(tree.local_receiver_include),
        local_receiver_exclude: interface_bits(tree.local_receiver_exclude),
        pim_include: interface_bits(tree.pim_include),
        pim_exclude: interface_bits(tree.pim_exclude),
        lost_assert: interface_bits(tree.lost_assert),
        lost_assert_rpt: interface_bits(tree.lost_assert_rpt),
        won_assert: interface_bits(tree.won_assert),
        immediate_olist: interface_bits(tree.immediate_olist),
        inherited_olist: interface_bits(tree.inherited_olist),
        inherited_olist_rpt: interface_bits(tree.inherited_olist_rpt),
    }
}

fn c_querier(row: Option<QuerierRow>) -> CQuerier
    ensures { result ≡ querier_of row }
{
    let Some(row) = row else {
        return CQuerier {
            role: 0,
            end: NEVER,
            startup_left: 0,
            robustness: 0,
            query_interval: 0,
        };
    };
    let (role, end, startup_left) = match row.role {
        QuerierRole::Querier {
            next_query,
            startup_left,
        } => (1, next_query, u32::from(startup_left)),
        QuerierRole::NonQuerier { end } => (2, end, 0),
    };
    CQuerier {
        role,
        end,
        startup_left,
        robustness: u32::from(row.robustness),
        query_interval: u32::from(row.query_interval),
    }
}

fn c_link(link: Link) -> CLink
    ensures { result ≡ link_of link }
{
    CLink {
        is_up: link.is_up,
        is_dr: link.is_dr,
        dr: link.dr.map_or(0, |dr| dr.bits),
        querier: c_querier(link.querier),
    }
}

fn c_lan_delay(option: Option<LanDelay>) -> CLanDelay
    ensures { result ≡ lan_delay_of option }
{
    match option {
        Some(option) => CLanDelay {
            is_there: true,
            can_track: option.can_track,
            propagation_delay: u32::from(option.propagation_delay),
            override_interval: u32::from(option.override_interval),
        },
        None => CLanDelay {
            is_there: false,
            can_track: false,
            propagation_delay: 0,
            override_interval: 0,
        },
    }
}

fn c_neighbour(neighbour: Neighbour) -> CNeighbour
    ensures { result ≡ neighbour_of neighbour }
{
    CNeighbour {
        end: neighbour.end.unwrap_or(NEVER),
        priority: c_number(neighbour.priority),
        generation: c_number(neighbour.generation),
        lan_delay: c_lan_delay(neighbour.lan_delay),
    }
}

/// Writes out the macros of (*,G), if there is a router that works.
pub(crate) fn write_tree(written: Option<Tree>, out: &mut CTree) -> bool
    ensures { ValueWritten tree_of written result out.old out.new }
{
    match written {
        Some(written) => {
            *out = c_tree(&written);
            true
        }
        None => false,
    }
}

/// Writes out the macros of (S,G) and of (S,G,rpt), if there is a router that works.
pub(crate) fn write_source_tree(written: Option<SourceTree>, out: &mut CSourceTree) -> bool
    ensures { ValueWritten source_tree_of written result out.old out.new }
{
    match written {
        Some(written) => {
            *out = c_source_tree(&written);
            true
        }
        None => false,
    }
}

/// Writes out an interface, if it is configured.
pub(crate) fn write_link(written: Option<Link>, out: &mut CLink) -> bool
    ensures { ValueWritten link_of written result out.old out.new }
{
    match written {
        Some(written) => {
            *out = c_link(written);
            true
        }
        None => false,
    }
}

/// Writes out a neighbour, if there is one.
pub(crate) fn write_neighbour(written: Option<Neighbour>, out: &mut CNeighbour) -> bool
    ensures { ValueWritten neighbour_of written result out.old out.new }
{
    match written {
        Some(written) => {
            *out = c_neighbour(written);
            true
        }
        None => false,
    }
}
