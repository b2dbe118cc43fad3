//! A packet of data that the row of its source decides.
ghost use Rattle.law_events.specs.Decided.{plainly_taken};
ghost use Rattle.pim_event.specs.Plainly.{Forwards};
ghost use Rattle.pim_ip.specs.declared.fault.Fault.{Fault};
ghost use Rattle.pim_model.specs.Cache.{Plain};
ghost use Rattle.pim_model.specs.Plain.{fact_key};
ghost use Rattle.pim_model.specs.Step.{outcome_of};
ghost use Rattle.pim_model.specs.Tables.{has_row};
ghost use Rattle.std.specs.Prelude.{◌≡◌, IfOk, IsOkUnless, OnOk, true};

use pim_data::copies;
use pim_intake::PlainWorld;
use pim_ip::Ipv4View;
use pim_messages::Room;
use pim_mfc::Forward;
use pim_trie::Meter;
use pim_types::{Fault, Outcome, Series, SourceGroup, Verdict};

/// Forwards a packet as its row says: KAT(S,G) is set or not, and copies leave on links. Nothing else changes, and
/// nothing is sent upstream, where the source has a row. The row is found by the place that the caller keeps, without a
/// look-up.
#[tactic(auto, unfolding(law_events::specs::Decided::plainly_taken, law_events::specs::Decided::kept_if))]
pub(crate) fn take_plain<W: PlainWorld>(
    room: &mut Room,
    world: &mut W,
    packet: &Ipv4View<'_>,
    forward: Forward,
    meter: &mut Meter,
) -> Result<Outcome, Fault>
    ensures outcome { IfOk result (λ outcome. (how : Plain) → Forwards forward how
        → outcome ≡ outcome_of (plainly_taken (W.state world.old) packet.now how)) }
    ensures state { OnOk result ((how : Plain) → Forwards forward how
        → W.state world.new ≡ (plainly_taken (W.state world.old) packet.now how).state) }
    ensures kept { OnOk result (has_row (W.state world.old).sources (fact_key packet.now) ≡ true → meter.new ≡ meter.old) }
    ensures fault { IsOkUnless result Fault.Memory }
{
    let olist = forward.olist.without_tunnel();
    let copies = copies(world.interfaces().count(), room, packet, olist)?;
    if forward.sets_keepalive {
        let name = SourceGroup {
            source: packet.source(),
            group: packet.destination(),
        };
        world.keep_alive(name, forward.place, meter)?;
    }
    let count = copies.len() as u32;
    Ok(Outcome {
        answer: Ok(Verdict::Done),
        emissions: Series::from_vec(copies),
        copies: count,
    })
}
