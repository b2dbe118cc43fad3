//! Timers that a query lowers (RFC 3376, section 6.6.3).
ghost use Rattle.std.specs.Prelude.{◌≡◌, OnOk};
ghost use Rattle.pim_model.specs.Querier.{lower_sources};
ghost use Rattle.pim_querier.specs.Changes.{each_lowered, one_lowered};
ghost use Rattle.igmp_wire.specs.Written.{bits_of};

use crate::place::IfaceGroup;
use pim_state::querying::lowered;
use pim_state::{Meter, World};
use pim_types::fact::SourceRecordRow;
use pim_types::{Addr, Key};
use std::alloc::AllocError;

// Lowers the source timer on the interface to a timestamp, in ms, where it runs and expires later.
fn lower_source(
    world: &mut World,
    meter: &mut Meter,
    place: IfaceGroup,
    source: Addr,
    end: u64,
) -> Result<(), AllocError>
    ensures { OnOk result (world.new ≡ one_lowered place.iface.number place.group.bits end world.old source) }
{
    // For the proof: each key is listed once.
    world.membership().proof_rising_source_records();
    let Some(row) = world
        .membership()
        .source_record(place.iface, place.group, source)
    else {
        return Ok(());
    };
    let lowered = SourceRecordRow {
        end: lowered(row.end, end),
    };
    world.membership_mut().change_source_record(
        Key::source(place.iface, place.group, source),
        lowered,
        meter,
    )
}

// Lowers the timers of these sources, one after the other.
#[tactic(auto, unfolding(crate::specs::Changes::each_lowered))]
fn lower_each(
    world: &mut World,
    meter: &mut Meter,
    place: IfaceGroup,
    sources: &[Addr],
    end: u64,
) -> Result<(), AllocError>
    ensures { OnOk result (world.new
        ≡ each_lowered place.iface.number place.group.bits end world.old sources.now) }
{
    for source in sources {
        lower_source(world, meter, place, *source, end)?;
    }
    Ok(())
}

/// Lowers the timers of these sources of the group on the interface to a timestamp, in ms, where they run and expire
/// later. The records of other sources aren't read. The meter rises by the nodes visited.
pub fn lower_sources(
    world: &mut World,
    meter: &mut Meter,
    place: IfaceGroup,
    sources: &[Addr],
    end: u64,
) -> Result<(), AllocError>
    ensures { OnOk result (world.new
        ≡ lower_sources world.old place.iface.number place.group.bits (bits_of sources.now) end) }
{
    // For the proof: each is under the key of a source.
    world.membership().proof_keyed_source_records();
    lower_each(world, meter, place, sources, end)
}
