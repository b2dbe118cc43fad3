//! A packet on a link, until it is known that more comes of it than copies.
ghost use Rattle.std.specs.Prelude.{◌≡◌, true};
ghost use Rattle.pim_event.specs.Costs.{IsWithinPath};
ghost use Rattle.pim_event.specs.Hearing.{Hears};
ghost use Rattle.pim_mfc.specs.Kept.{ForwardsAs, Kept, decided};
ghost use Rattle.pim_model.specs.Plain.{fact_key};
ghost use Rattle.pim_model.specs.Tables.{has_row};
ghost use Rattle.pim_types.specs.Keys.{source_key};

use pim_intake::{PlainWorld, judge_frame};
use pim_ip::Ipv4View;
use pim_mfc::{Forward, Mfc};
use pim_model::Accepted;
use pim_trie::Meter;
use pim_types::{IfaceId, SourceGroup, Stop};

/// Rows of a forwarding cache as a packet on a link sees them: a look-up of one that is there opens 1 to 66 nodes, by which
/// the meter rises.
pub(crate) trait CountedRows {
    /// The rows.
    ghost kept: { Self → Kept };

    /// How a packet goes, as by `forward` of `Mfc`.
    fn forward(
        &self,
        name: SourceGroup,
        iif: IfaceId,
        time_to_live: u8,
        meter: &mut Meter,
    ) -> Option<Forward>
        ensures decided { ForwardsAs result (decided (kept self.now) name.group.bits name.source.bits iif.number time_to_live) }
        ensures visited { meter.old ≡ 0
            → has_row (kept self.now).rows (source_key 0 name.group.bits name.source.bits) ≡ true → IsWithinPath meter.new };
}

impl CountedRows for Mfc {
    ghost kept = { λ m. m };

    fn forward(
        &self,
        name: SourceGroup,
        iif: IfaceId,
        time_to_live: u8,
        meter: &mut Meter,
    ) -> Option<Forward> {
        Mfc::forward(self, name, iif, time_to_live, meter)
    }
}

/// What a packet on a link is: plain by the row of its source, or else what it is judged to be.
#[derive(Drop)]
pub(crate) enum Heard<'a> {
    Plain {
        packet: Ipv4View<'a>,
        forward: Forward,
    },
    Other(Result<Accepted<'a>, Stop>),
}

// What the row of its source decides of a packet of data.
fn by_row<R: CountedRows>(
    rows: &R,
    iface: IfaceId,
    packet: &Ipv4View<'_>,
    meter: &mut Meter,
) -> Option<Forward>
    ensures decided { ForwardsAs result (decided (R.kept rows.now) packet.now.destination packet.now.source iface.number
        packet.now.time_to_live) }
    ensures visited { meter.old ≡ 0 → has_row (R.kept rows.now).rows (fact_key packet.now) ≡ true
        → IsWithinPath meter.new }
{
    let name = SourceGroup {
        source: packet.source(),
        group: packet.destination(),
    };
    rows.forward(name, iface, packet.time_to_live(), meter)
}

/// The tests of a packet on a link, and what the row of its source decides of it. The state and the cache are seen by two
/// traits alone, which leave no other call: what is read of tables are the interfaces and the neighbours, and each node
/// that is opened raises the meter.
pub(crate) fn hear<'a, W: PlainWorld, R: CountedRows>(
    world: &W,
    rows: &R,
    iface: IfaceId,
    bytes: &'a [u8],
    meter: &mut Meter,
) -> Heard<'a>
    ensures { Hears (W.state world.now) (R.kept rows.now) iface bytes.now result meter.old meter.new }
{
    match judge_frame(world, iface, bytes) {
        Ok(Accepted::Data { iface, packet }) => match by_row(rows, iface, &packet, meter) {
            Some(forward) => Heard::Plain { packet, forward },
            None => Heard::Other(Ok(Accepted::Data { iface, packet })),
        },
        Ok(other) => Heard::Other(Ok(other)),
        Err(stop) => Heard::Other(Err(stop)),
    }
}
