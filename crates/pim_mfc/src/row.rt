//! The row.
ghost use Rattle.std.specs.Prelude.{◌≡◌, ◌&&◌, ◌||◌, if◌then◌else◌, nat_lt, not, true, ℕ, Some};
ghost use Rattle.pim_ifset.specs.Members.{has};
ghost use Rattle.pim_macros.specs.Rows.{answers_of, number_of};
ghost use Rattle.pim_model.specs.Tables.{same_option};
ghost use Rattle.law_plane.specs.Offload.{offload};
ghost use Rattle.pim_mfc.specs.Shown.{ShownIsTold, ShowsOffload};

use pim_ifset::IfSet;
use pim_macros::SourceAnswers;
use pim_types::IfaceId;

/// The row of a source with a fact that a data plane gets.
#[derive(Clone, Copy)]
pub struct OffloadRow {
    /// RPF_interface(S), or without SPTbit(S,G) RPF_interface(RP(G)).
    pub incoming: Option<IfaceId>,
    /// The interfaces on which copies leave of a packet on the incoming interface, without that interface itself.
    pub outgoing: IfSet,
    /// The interfaces on which a packet sets KAT(S,G), so that the core is to hear of it.
    pub alive: IfSet,
    /// The interfaces from which packets go to the core.
    pub to_core: IfSet,
}

// The set with the interface added, if there is one and `put` is true; else unchanged.
fn with_if(set: IfSet, iface: Option<IfaceId>, put: bool) -> IfSet
    ensures { (i : ℕ) → nat_lt i 120 ≡ true
        → has result i ≡ (has set i || (same_option (number_of iface) (Some i) && put)) }
{
    let mut whole = set;
    if put {
        if let Some(iface) = iface {
            if iface.number < IfSet::LIMIT {
                whole.insert(iface);
            }
        }
    }
    whole
}

// The set with the interface added or removed, if there is one.
fn with_set(set: IfSet, iface: Option<IfaceId>, put: bool) -> IfSet
    ensures { (i : ℕ) → nat_lt i 120 ≡ true
        → has result i ≡ (if same_option (number_of iface) (Some i) then put else has set i) }
{
    let mut whole = set;
    if let Some(iface) = iface {
        if put {
            if iface.number < IfSet::LIMIT {
                whole.insert(iface);
            }
        } else {
            whole.remove(iface);
        }
    }
    whole
}

// RPF_interface(S), or without SPTbit(S,G) RPF_interface(RP(G)).
fn incoming(row: &SourceAnswers) -> Option<IfaceId>
    ensures { number_of result ≡ (if row.now.spt then number_of row.now.rpf else number_of row.now.rp_rpf) }
{
    if row.spt { row.rpf } else { row.rp_rpf }
}

// The outgoing interfaces of the row.
fn outgoing(row: &SourceAnswers) -> IfSet
    ensures { (i : ℕ) → has result i ≡ (if row.now.spt then has row.now.inherited i else has row.now.inherited_rpt i) }
{
    if row.spt {
        row.inherited
    } else {
        row.inherited_rpt
    }
}

// Whether a packet on RPF_interface(S) shows it alive.
fn is_live(row: &SourceAnswers) -> bool
    ensures { result ≡ (row.now.is_connected || (row.now.is_desired && row.now.flows)) }
{
    row.is_connected || (row.is_desired && row.flows)
}

// Whether a packet on the shared tree does.
fn is_watched(row: &SourceAnswers) -> bool
    ensures { result ≡ (not row.now.spt && row.now.watches) }
{
    !row.spt && row.watches
}

// Whether packets leave by the register tunnel.
fn is_tunnelled(row: &SourceAnswers) -> bool
    ensures { result ≡ (row.now.spt && row.now.inherited.tunnel) }
{
    row.spt && row.inherited.has_tunnel()
}

// Whether a packet on RPF_interface(S) opens the tunnel, or sets SPTbit(S,G).
fn opens_or_sets(row: &SourceAnswers) -> bool
    ensures { result ≡ ((row.now.is_connected && row.now.may_register && not row.now.is_registered)
        || (row.now.reaches_spt && not row.now.spt)) }
{
    (row.is_connected && row.may_register && !row.is_registered) || (row.reaches_spt && !row.spt)
}

/// The row for a data plane, by the answers of the cache's row.
pub fn offload(row: &SourceAnswers) -> OffloadRow
    ensures { ShowsOffload result (offload (answers_of row.now)) }
{
    let incoming = incoming(row);
    let live = with_if(IfSet::new(), row.rpf, is_live(row));
    let strays = with_set(row.contested, incoming, is_tunnelled(row));
    OffloadRow {
        incoming,
        outgoing: outgoing(row),
        alive: with_if(live, row.rp_rpf, is_watched(row)),
        to_core: with_if(strays, row.rpf, opens_or_sets(row)),
    }
}

/// Where the cache's row shows the answers of a state, what is made of it shows the row that a plane gets in that
/// state.
#[tactic(auto, using(crate::proofs::ToldAsShown::shown_is_told))]
pub fn shown_is_told()
    ensures { ShownIsTold }
{}
