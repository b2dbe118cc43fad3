//! Packets that the router ignored.
ghost use Rattle.std.specs.Prelude.{◌≡◌, ◌++◌, ◌^◌, ◌≤◌, map, IfOk, OnErr, OnOk};
ghost use Rattle.std.specs.List.{All, flat_map};
ghost use Rattle.pim_bsr.specs.Standing.{arrival_taken, own_sent};
ghost use Rattle.pim_candidate.specs.Candidacy.{IsSendable, advertised_to, answered, candidacy_heard, heard_by, is_advertisement, known_after, originating, own_messages, takes, unicast_heard, weighed};

use super::{Candidacy, CandidacyHeard, StandingBsr, is_taken, of_heard};
use crate::election::{Action, Bsr};
use crate::rp_set::RpSet;
use pim_bootstrap::read_advertisement;
use pim_bsr::{Arrived, Listener, Surroundings, Why, read_arrived, send_own};
use pim_ip::{Ipv4View, PROTOCOL_PIM, read_ipv4};
use pim_types::{Emission, IfaceId};
use std::alloc::{AllocError, Global};

/// The type of an advertisement.
const ADVERTISEMENT: u8 = 8;

/// The length of PIM's header.
const HEADER_LENGTH: usize = 4;

/// Whether a packet is PIM of the type of an advertisement, to the candidate BSR.
fn is_advertisement(bsr: StandingBsr, packet: &Ipv4View<'_>) -> bool
    ensures { result ≡ is_advertisement bsr packet.now }
{
    if packet.protocol() != PROTOCOL_PIM || packet.destination() != bsr.stands.bsr.address {
        return false;
    }
    let message = packet.payload();
    message.len() >= HEADER_LENGTH && message[0] & 0x0F == ADVERTISEMENT
}

/// Sends messages of the router's own.
pub(super) fn send_all<S: Surroundings>(
    alloc: Global,
    around: &S,
    messages: &[Vec<u8>],
    out: &mut Vec<Emission>,
) -> Result<(), AllocError>
    requires { All IsSendable messages.now }
    ensures { OnOk result (out.new.items
        ≡ out.old.items ++ flat_map (own_sent (S.around around.now)) (map (λ bytes. bytes.items) messages.now)) }
{
    for message in messages {
        send_own(alloc, around, message.as_slice(), out)?;
    }
    Ok(())
}

/// The listener takes messages of the router's own, of a timestamp in ms.
#[tactic(auto, unfolding(crate::specs::Candidacy::known_after))]
pub(super) fn take_all(
    alloc: Global,
    listener: &mut Listener,
    moment: u64,
    messages: &[Vec<u8>],
) -> Result<(), AllocError>
    requires { moment ≤ 2 ^ 62 }
    ensures { OnOk result (listener.new ≡ known_after moment listener.old (map (λ bytes. bytes.items) messages.now)) }
{
    for message in messages {
        listener.take_own(alloc, moment, message.as_slice())?;
    }
    Ok(())
}

impl Candidacy {
    /// Hears a packet that came on an interface, and that the router ignored as PIM of a type that it doesn't handle. The draw
    /// delays the first advertisement to a BSR that is new. What is to be sent is added to `out`. An `Err` is want of memory,
    /// and changes nothing here and of what the listener knows; a part of what is to be sent may be in `out` then.
    #[tactic(auto, unfolding(crate::specs::Candidacy::candidacy_heard))]
    pub fn hear<S: Surroundings>(
        &mut self,
        alloc: Global,
        listener: &mut Listener,
        around: &S,
        iface: IfaceId,
        bytes: &[u8],
        draw: u32,
        out: &mut Vec<Emission>,
    ) -> Result<CandidacyHeard, AllocError>
        ensures answer { IfOk result (λ answer. answer
            ≡ (candidacy_heard (S.around around.now) self.old listener.old iface.number bytes.now draw).answer) }
        ensures candidacy { OnOk result (self.new
            ≡ (candidacy_heard (S.around around.now) self.old listener.old iface.number bytes.now draw).left.candidacy) }
        ensures known { OnOk result (listener.new
            ≡ (candidacy_heard (S.around around.now) self.old listener.old iface.number bytes.now draw).left.known) }
        ensures sent { OnOk result (out.new.items ≡ out.old.items
            ++ (candidacy_heard (S.around around.now) self.old listener.old iface.number bytes.now draw).left.sent) }
        ensures err { OnErr result (self.new ≡ self.old) }
        ensures err_known { OnErr result (listener.new ≡ listener.old) }
    {
        let heard = self.hear_by(alloc, listener, around, iface, bytes, out)?;
        self.follow(listener, draw, around.present_moment());
        Ok(heard)
    }

    // A packet, before the candidate RP follows the BSR.
    fn hear_by<S: Surroundings>(
        &mut self,
        alloc: Global,
        listener: &mut Listener,
        around: &S,
        iface: IfaceId,
        bytes: &[u8],
        out: &mut Vec<Emission>,
    ) -> Result<CandidacyHeard, AllocError>
        ensures answer { IfOk result (λ answer. answer
            ≡ (heard_by self.old.bsr (S.around around.now) self.old listener.old iface.number bytes.now).answer) }
        ensures candidacy { OnOk result (self.new
            ≡ (heard_by self.old.bsr (S.around around.now) self.old listener.old iface.number bytes.now).left.candidacy) }
        ensures known { OnOk result (listener.new
            ≡ (heard_by self.old.bsr (S.around around.now) self.old listener.old iface.number bytes.now).left.known) }
        ensures sent { OnOk result (out.new.items ≡ out.old.items
            ++ (heard_by self.old.bsr (S.around around.now) self.old listener.old iface.number bytes.now).left.sent) }
        ensures err { OnErr result (self.new ≡ self.old) }
        ensures err_known { OnErr result (listener.new ≡ listener.old) }
    {
        let Some(bsr) = self.bsr else {
            let heard = listener.hear(alloc, around, iface, bytes, out)?;
            return Ok(of_heard(heard));
        };
        match read_arrived(iface, bytes) {
            Ok(arrived) => self.weigh(alloc, listener, around, bsr, &arrived, out),
            Err(other) => Ok(of_heard(other)),
        }
    }

    // A Bootstrap that came.
    #[tactic(auto, unfolding(crate::specs::Candidacy::originates, crate::specs::Candidacy::weighed))]
    fn weigh<S: Surroundings>(
        &mut self,
        alloc: Global,
        listener: &mut Listener,
        around: &S,
        bsr: StandingBsr,
        arrived: &Arrived<'_>,
        out: &mut Vec<Emission>,
    ) -> Result<CandidacyHeard, AllocError>
        ensures answer { IfOk result (λ answer. answer
            ≡ (weighed (S.around around.now) self.old bsr listener.old arrived.now).answer) }
        ensures candidacy { OnOk result (self.new
            ≡ (weighed (S.around around.now) self.old bsr listener.old arrived.now).left.candidacy) }
        ensures known { OnOk result (listener.new
            ≡ (weighed (S.around around.now) self.old bsr listener.old arrived.now).left.known) }
        ensures sent { OnOk result (out.new.items ≡ out.old.items
            ++ (weighed (S.around around.now) self.old bsr listener.old arrived.now).left.sent) }
        ensures err { OnErr result (self.new ≡ self.old) }
        ensures err_known { OnErr result (listener.new ≡ listener.old) }
    {
        if let Some(why) = listener.why_arrival(around, arrived) {
            return Ok(CandidacyHeard::Ignored(why));
        }
        let sender = Bsr {
            address: arrived.bsr(),
            priority: arrived.priority(),
        };
        let outcome = bsr.election.hear(sender, around.present_moment());
        let election = outcome.left;
        match outcome.action {
            Action::Nothing => {
                self.elect(bsr, election);
                Ok(CandidacyHeard::Ignored(Why::NotPreferred))
            }
            Action::Take => self.take(
                alloc,
                listener,
                around,
                bsr.with_election(election),
                arrived,
                out,
            ),
            Action::PassOn => {
                listener.pass_by(alloc, around, arrived, out)?;
                self.elect(bsr, election);
                Ok(CandidacyHeard::PassedOn)
            }
            Action::Originate => self.answer(
                alloc,
                listener,
                around,
                bsr.under_next_tag(election),
                out,
            ),
        }
    }

    // A Bootstrap that is to count, with the candidate as it is then.
    fn take<S: Surroundings>(
        &mut self,
        alloc: Global,
        listener: &mut Listener,
        around: &S,
        bsr: StandingBsr,
        arrived: &Arrived<'_>,
        out: &mut Vec<Emission>,
    ) -> Result<CandidacyHeard, AllocError>
        ensures answer { IfOk result (λ answer. answer
            ≡ (takes self.old bsr (arrival_taken (S.around around.now) listener.old arrived.now)).answer) }
        ensures candidacy { OnOk result (self.new
            ≡ (takes self.old bsr (arrival_taken (S.around around.now) listener.old arrived.now)).left.candidacy) }
        ensures known { OnOk result (listener.new
            ≡ (takes self.old bsr (arrival_taken (S.around around.now) listener.old arrived.now)).left.known) }
        ensures sent { OnOk result (out.new.items ≡ out.old.items
            ++ (takes self.old bsr (arrival_taken (S.around around.now) listener.old arrived.now)).left.sent) }
        ensures err { OnErr result (self.new ≡ self.old) }
        ensures err_known { OnErr result (listener.new ≡ listener.old) }
    {
        let heard = listener.take(alloc, around, arrived, out)?;
        if is_taken(heard) {
            self.bsr = Some(bsr);
            self.rp_set = RpSet::new(alloc);
        }
        Ok(of_heard(heard))
    }

    // The router says at once that it is the BSR, with the candidate under the next tag.
    fn answer<S: Surroundings>(
        &mut self,
        alloc: Global,
        listener: &mut Listener,
        around: &S,
        bsr: StandingBsr,
        out: &mut Vec<Emission>,
    ) -> Result<CandidacyHeard, AllocError>
        ensures answer { IfOk result (λ answer. answer
            ≡ (answered listener.old (originating (S.around around.now) (S.around around.now).present self.old bsr listener.old)).answer) }
        ensures candidacy { OnOk result (self.new
            ≡ (originating (S.around around.now) (S.around around.now).present self.old bsr listener.old).candidacy) }
        ensures known { OnOk result (listener.new
            ≡ (originating (S.around around.now) (S.around around.now).present self.old bsr listener.old).known) }
        ensures sent { OnOk result (out.new.items ≡ out.old.items
            ++ (originating (S.around around.now) (S.around around.now).present self.old bsr listener.old).sent) }
        ensures err { OnErr result (self.new ≡ self.old) }
        ensures err_known { OnErr result (listener.new ≡ listener.old) }
    {
        let mut next = listener.copy(alloc)?;
        let messages = self.own_messages(alloc, bsr)?;
        send_all(alloc, around, messages.as_slice(), out)?;
        take_all(
            alloc,
            &mut next,
            around.present_moment(),
            messages.as_slice(),
        )?;
        let moved = next.moves_from(alloc, listener)?;
        *listener = next;
        self.bsr = Some(bsr);
        Ok(CandidacyHeard::Answered(moved))
    }

    // The messages that say what is held.
    #[tactic(auto, unfolding(crate::specs::Candidacy::own_messages))]
    pub(super) fn own_messages(
        &self,
        alloc: Global,
        bsr: StandingBsr,
    ) -> Result<Vec<Vec<u8>>, AllocError>
        ensures value { IfOk result (λ messages. map (λ bytes. bytes.items) messages.items
            ≡ own_messages bsr self.now.rp_set) }
        ensures fits { IfOk result (λ messages. All IsSendable messages.items) }
    {
        self.rp_set.write(alloc, bsr.head())
    }

    /// Hears a packet to one of the router's addresses, which the router ignored as not for it. An `Err` is want of memory,
    /// and changes nothing.
    #[tactic(auto, unfolding(crate::specs::Candidacy::unicast_heard, crate::specs::Candidacy::unicast_packet))]
    pub fn hear_unicast<S: Surroundings>(
        &mut self,
        alloc: Global,
        around: &S,
        bytes: &[u8],
    ) -> Result<CandidacyHeard, AllocError>
        ensures answer { IfOk result (λ answer. answer ≡ (unicast_heard (S.around around.now) self.old bytes.now).answer) }
        ensures candidacy { OnOk result (self.new ≡ (unicast_heard (S.around around.now) self.old bytes.now).candidacy) }
        ensures err { OnErr result (self.new ≡ self.old) }
    {
        let Some(bsr) = self.bsr else {
            return Ok(CandidacyHeard::Other);
        };
        let Ok(packet) = read_ipv4(bytes) else {
            return Ok(CandidacyHeard::Other);
        };
        if !is_advertisement(bsr, &packet) {
            return Ok(CandidacyHeard::Other);
        }
        self.take_advertisement(alloc, around.present_moment(), bsr, packet.payload())
    }

    // An advertisement to the candidate BSR.
    #[tactic(auto, unfolding(crate::specs::Candidacy::advertised_to))]
    pub(super) fn take_advertisement(
        &mut self,
        alloc: Global,
        now: u64,
        bsr: StandingBsr,
        message: &[u8],
    ) -> Result<CandidacyHeard, AllocError>
        requires { now ≤ 2 ^ 62 }
        ensures answer { IfOk result (λ answer. answer ≡ (advertised_to now self.old bsr message.now).answer) }
        ensures candidacy { OnOk result (self.new ≡ (advertised_to now self.old bsr message.now).candidacy) }
        ensures err { OnErr result (self.new ≡ self.old) }
    {
        if !bsr.election.is_elected() {
            return Ok(CandidacyHeard::NotElected);
        }
        match read_advertisement(message) {
            Ok(advertisement) => {
                let moved = self
                    .rp_set
                    .advertise(alloc, now, bsr.most_held(), &advertisement)?;
                self.bsr = Some(bsr.hastened(moved, now));
                Ok(CandidacyHeard::Advertised)
            }
            Err(refusal) => Ok(CandidacyHeard::Refused(refusal)),
        }
    }
}
