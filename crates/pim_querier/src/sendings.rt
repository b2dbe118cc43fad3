//! The sources that are still to be sent in queries (RFC 3376, section 6.6.3.2).
ghost use Rattle.std.specs.Prelude.{◌≡◌, IfOk, filter};
ghost use Rattle.pim_model.specs.Querier.{exceeds, is_sending, query_end, source_end};
ghost use Rattle.pim_model.specs.Tables.{same_bool};
ghost use Rattle.pim_querier.specs.Changes.{one_less, sendings_changed, row_sources};
ghost use Rattle.igmp_wire.specs.Written.{bits_of};

use crate::intervals::exceeds;
use crate::place::IfaceGroup;
use pim_state::World;
use pim_types::fact::SendingRow;
use pim_types::{Addr, Key};
use std::alloc::{AllocError, Global};

/// The sendings of the group's sources on the interface, by rising key.
pub fn sendings_at(
    world: &World,
    alloc: Global,
    place: IfaceGroup,
) -> Result<Vec<(Key, SendingRow)>, AllocError>
    ensures { IfOk result (λ sendings. sendings.items
        ≡ filter (is_sending place.iface.number place.group.bits) world.now.sendings) }
{
    let mut sendings = Vec::new(alloc);
    for (key, row) in world.membership().sendings_at(place.iface, place.group) {
        sendings.push((*key, *row))?;
    }
    Ok(sendings)
}

/// The sources of these sendings whose timers run past this timestamp, in ms, or those whose timers don't.
pub fn sources_by_end(
    world: &World,
    alloc: Global,
    place: IfaceGroup,
    sendings: &[(Key, SendingRow)],
    moment: u64,
    runs_on: bool,
) -> Result<Vec<Addr>, AllocError>
    ensures { IfOk result (λ sources. bits_of sources.items
        ≡ filter (λ src. same_bool runs_on
        (exceeds moment (source_end world.now place.iface.number place.group.bits src))) (row_sources sendings.now)) }
{
    let mut sources = Vec::new(alloc);
    for (key, _) in sendings {
        let source = key.address();
        let end = world.source_end(place.iface, place.group, source);
        if exceeds(moment, end) == runs_on {
            sources.push(source)?;
        }
    }
    Ok(sources)
}

// A sending less, and none where it was the last.
fn one_less(row: SendingRow) -> Option<SendingRow>
    ensures { result ≡ one_less row }
{
    if row.left > 1 {
        Some(SendingRow { left: row.left - 1 })
    } else {
        None
    }
}

/// Counts one sending less of each of these.
#[tactic(auto, unfolding(crate::specs::Changes::sending_changed, crate::specs::Changes::sendings_changed))]
pub fn lessen(world: &mut World, sendings: &[(Key, SendingRow)])
    ensures { world.new ≡ sendings_changed one_less world.old sendings.now }
{
    for (key, row) in sendings {
        world.membership_mut().change_sending(*key, one_less(*row));
    }
}
