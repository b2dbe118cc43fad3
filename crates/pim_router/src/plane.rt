//! What the router offers to a data plane (a kernel or a chip that forwards by rows that it was given), and what a data
//! plane reports to the router.
ghost use Rattle.law_events.specs.Rest.{IsAtRest};
ghost use Rattle.law_plane.specs.Keeping.{keep, keepalive_end, kept_until};
ghost use Rattle.law_plane.specs.Offered.{offered};
ghost use Rattle.law_plane.specs.Seen.{bare_text};
ghost use Rattle.law_states.specs.NearStates.{is_near};
ghost use Rattle.law_states.specs.Reload.{config_of};
ghost use Rattle.pim_macros.specs.declared.rows.SourceAnswers.{SourceAnswers};
ghost use Rattle.pim_mfc.specs.Laws.{ShowsRows};
ghost use Rattle.pim_mfc.specs.Shown.{TellsOffload};
ghost use Rattle.pim_model.specs.Cache.{cached};
ghost use Rattle.pim_model.specs.Limits.{config_test};
ghost use Rattle.pim_model.specs.Sets.{is_kept_alive};
ghost use Rattle.pim_model.specs.Tables.{Table, has_row};
ghost use Rattle.pim_types.specs.Keys.{source_key};
ghost use Rattle.std.specs.Prelude.{◌≡◌, ◌≤◌, ◌^◌, IfOk, Ok, OnOk, true};

use pim_fanout::Cache;
use pim_ip::{ControlHeader, write_header};
use pim_macros::{Evaluations, row};
use pim_messages::Room;
use pim_mfc::Offered;
use pim_register::source_is_full;
use pim_state::{Meter, World};
use pim_types::SourceGroup;
use std::alloc::AllocError;

// Keepalive_Period (RFC 7761, section 4.11), also at the RP, in ms.
const KEEPALIVE_PERIOD: u64 = 210_000;

// The protocol number of UDP.
const PROTOCOL_UDP: u8 = 17;

/// What a data plane may do with the packets of a source: by its row of the cache, or evaluated where the source has no
/// fact. The meter rises by the nodes visited.
pub(crate) fn offer(
    world: &World,
    cache: &Cache,
    name: SourceGroup,
    meter: &mut Meter,
) -> Option<Offered>
    requires { ShowsRows cache.now.mfc.rows (cached world.now) }
    ensures { TellsOffload result (offered world.now name.group.bits name.source.bits) }
{
    if let Some(answers) = cache.mfc().kept(name, meter) {
        return Some(Offered::known(&answers));
    }
    if source_is_full(world, name) {
        return None;
    }
    // The evaluation belongs to no event.
    let mut evaluated = Evaluations::none();
    let made = row(world, name, meter, &mut evaluated);
    Some(Offered::unknown(&made.answers()))
}

// When KAT(S,G) expires, in ms, if it runs.
#[tactic(auto, unfolding(law_plane::specs::Keeping::keepalive_end))]
fn keepalive_end(world: &World, name: SourceGroup) -> Option<u64>
    ensures { result ≡ keepalive_end world.now name.group.bits name.source.bits }
{
    world.store().source(name.key())?.keepalive
}

// Sets when KAT(S,G), which runs, expires, in ms. No trie is looked into: the meter is unchanged.
fn keep_until(
    world: &mut World,
    name: SourceGroup,
    end: u64,
    meter: &mut Meter,
) -> Result<(), AllocError>
    requires { has_row world.old.sources (source_key 0 name.group.bits name.source.bits) ≡ true }
    ensures state { OnOk result (world.new ≡ kept_until world.old name.group.bits name.source.bits end) }
    ensures unvisited { OnOk result (meter.new ≡ meter.old) }
{
    let place = world.store().source_place(name);
    world.store_mut().keep_alive(name, end, place, meter)
}

/// A packet of the source passed at a timestamp, in ms. KAT(S,G), if it runs, expires 210 s after that, or when it was
/// to expire if that is later. The result is whether the timer runs. The meter is unchanged.
pub(crate) fn keep(
    world: &mut World,
    name: SourceGroup,
    moment: u64,
    meter: &mut Meter,
) -> Result<bool, AllocError>
    requires rest { IsAtRest world.old }
    requires within { moment ≤ 2 ^ 62 }
    ensures runs { IfOk result (λ runs. runs ≡ is_kept_alive world.old name.group.bits name.source.bits) }
    ensures state { OnOk result (world.new ≡ keep world.old name.group.bits name.source.bits moment) }
    ensures rest { OnOk result (IsAtRest world.new) }
    ensures shown { (rows : Table SourceAnswers) → ShowsRows rows (cached world.old)
        → OnOk result (ShowsRows rows (cached world.new)) }
    ensures accepted { config_test (config_of world.old) ≡ Ok tt → OnOk result (config_test (config_of world.new) ≡ Ok tt) }
    ensures near { is_near world.old ≡ true → OnOk result (is_near world.new ≡ true) }
    ensures unvisited { OnOk result (meter.new ≡ meter.old) }
{
    match keepalive_end(world, name) {
        None => Ok(false),
        Some(end) => {
            let later = moment + KEEPALIVE_PERIOD;
            if end < later {
                keep_until(world, name, later, meter)?;
            }
            Ok(true)
        }
    }
}

/// The bytes of a packet that has the source, the group and no payload, in a header that no router forwards. The error
/// is want of memory.
pub(crate) fn bare_packet(room: &mut Room, name: SourceGroup) -> Result<Vec<u8>, AllocError>
    ensures { IfOk result (λ bytes. bytes.items ≡ bare_text name.group.bits name.source.bits) }
{
    let header = ControlHeader {
        router_alert: false,
        time_to_live: 1,
        protocol: PROTOCOL_UDP,
        source: name.source,
        destination: name.group,
        payload_length: 0,
    };
    let mut bytes = room.buffer();
    write_header(&header, &mut bytes)?;
    Ok(bytes)
}
