//! A packet that came on a link.
ghost use Rattle.std.specs.Prelude.{◌≡◌, ◌++◌, ◌+◌, ◌^◌, ◌<◌, ◌≤◌, false, filter, length, map, nat_le, IfOk, IsOk, Ok, OnErr, OnOk};
ghost use Rattle.pim_model.specs.Tables.{below};
ghost use Rattle.pim_bootstrap.specs.Bootstraps.{bootstrap_reading};
ghost use Rattle.pim_bsr.specs.Hearing.{after_message, heard, heard_frame, is_hop, is_repeated, is_scoped, is_sent_on, may_refresh, passed_on, sent_on, taken, takes_memory, why_checked, why_sender, why_weight};
ghost use Rattle.pim_bsr.specs.Sound.{IsSound, IsSoundTable};
ghost use Rattle.pim_bsr.specs.Table.{is_preferred, kept_count, may_elect, room, with_message};

use super::{Listener, room_beside};
use crate::arrived::is_bootstrap;
use crate::given::moves;
use crate::heard::{Heard, Why};
use crate::learned::Elected;
use crate::surroundings::Surroundings;
use crate::table::{Arrival, BS_TIMEOUT, Table};
use pim_bootstrap::{BootstrapView, Ranges, read_bootstrap};
use pim_ip::{Addr, read_ipv4, write_pim_packet};
use pim_types::{Emission, Hop, IfaceId, Series};
use std::alloc::{AllocError, Global};

/// How long the same bytes are a repetition, in ms.
const REPEAT_TIME: u64 = 1000;

/// Where a message came: the interface and the sender.
#[derive(Clone, Copy)]
pub(super) struct Origin {
    pub(super) iface: IfaceId,
    pub(super) source: Addr,
}

/// Whether a message came from the neighbour, over the interface.
fn is_hop(hop: Option<Hop>, origin: Origin) -> bool
    ensures { result ≡ is_hop hop origin.iface.number origin.source.bits }
{
    match hop {
        Some(hop) => hop.iface.number == origin.iface.number
            && hop.address.bits == origin.source.bits,
        None => false,
    }
}

/// Whether the first range of a message is an admin scope zone.
fn is_scoped(ranges: Ranges<'_>) -> bool
    ensures { result ≡ is_scoped ranges.entry }
{
    let mut ranges = ranges;
    match ranges.next() {
        Some(range) => range.is_zone(),
        None => false,
    }
}

/// Whether a message's BSR is the elected one or has more weight.
#[tactic(auto, unfolding(crate::specs::Table::is_preferred))]
fn is_preferred(elected: Elected, message: &BootstrapView<'_>) -> bool
    ensures { result ≡ is_preferred elected message.now }
{
    let bsr = message.bsr();
    let priority = message.priority();
    elected.bsr.bits == bsr.bits
        || elected.priority < priority
        || elected.priority == priority && elected.bsr.bits < bsr.bits
}

/// Whether a message's BSR may be elected.
fn may_elect(elected: Option<Elected>, message: &BootstrapView<'_>) -> bool
    ensures { result ≡ may_elect elected message.now }
{
    match elected {
        Some(elected) => is_preferred(elected, message),
        None => true,
    }
}

/// A message as it came, from the router's address on an interface.
pub(super) fn passed_on<S: Surroundings>(
    alloc: Global,
    around: &S,
    bytes: &[u8],
    iface: IfaceId,
) -> Result<Emission, AllocError>
    requires { 20 + length bytes.now < 2 ^ 16 }
    ensures { IfOk result (λ sent. sent ≡ passed_on (S.around around.now) bytes.now iface.number) }
{
    let mut packet = Vec::new(alloc);
    write_pim_packet(
        1,
        around.address(iface),
        Addr::ALL_PIM_ROUTERS,
        bytes,
        &mut packet,
    )?;
    Ok(Emission::Link {
        iface,
        bytes: Series::from_vec(packet),
    })
}

impl Listener {
    /// Hears a packet that came on an interface, and that the router ignored as PIM of a type that it doesn't handle. What
    /// is sent on is added to `out`. An `Err` is want of memory, and changes nothing of what is known; a part of what is
    /// sent on may be in `out` then. A packet that doesn't count takes no memory, but where there is no room for what it
    /// says.
    #[tactic(auto, unfolding(crate::specs::Hearing::heard_frame, crate::specs::Hearing::heard_packet))]
    pub fn hear<S: Surroundings>(
        &mut self,
        alloc: Global,
        around: &S,
        iface: IfaceId,
        bytes: &[u8],
        out: &mut Vec<Emission>,
    ) -> Result<Heard, AllocError>
        ensures answer { IfOk result (λ answer. answer
            ≡ (heard_frame (S.around around.now) self.old iface.number bytes.now).answer) }
        ensures known { OnOk result (self.new
            ≡ (heard_frame (S.around around.now) self.old iface.number bytes.now).known) }
        ensures sent { OnOk result (out.new.items ≡ out.old.items
            ++ (heard_frame (S.around around.now) self.old iface.number bytes.now).sent) }
        ensures err { OnErr result (self.new ≡ self.old) }
        ensures sure { takes_memory (heard_frame (S.around around.now) self.old iface.number bytes.now).answer ≡ false
            → IsOk result }
    {
        let Ok(packet) = read_ipv4(bytes) else {
            return Ok(Heard::Other);
        };
        if !is_bootstrap(&packet) {
            return Ok(Heard::Other);
        }
        // It tells that the message fits into a packet.
        let _ = packet.total_length();
        let origin = Origin {
            iface,
            source: packet.source(),
        };
        match read_bootstrap(packet.payload()) {
            Ok(message) => {
                self.hear_message(alloc, around, origin, packet.payload(), &message, out)
            }
            Err(refusal) => Ok(Heard::Refused(refusal)),
        }
    }

    // A message that was read.
    #[tactic(auto, using(crate::proofs::Counts::memory_taken), unfolding(crate::specs::Hearing::heard, crate::specs::Hearing::why_not))]
    fn hear_message<S: Surroundings>(
        &mut self,
        alloc: Global,
        around: &S,
        origin: Origin,
        bytes: &[u8],
        message: &BootstrapView<'_>,
        out: &mut Vec<Emission>,
    ) -> Result<Heard, AllocError>
        requires fits { 20 + length bytes.now < 2 ^ 16 }
        requires read { bootstrap_reading bytes.now ≡ Ok message.now }
        ensures answer { IfOk result (λ answer. answer
            ≡ (heard (S.around around.now) self.old origin.iface.number origin.source.bits bytes.now message.now).answer) }
        ensures known { OnOk result (self.new
            ≡ (heard (S.around around.now) self.old origin.iface.number origin.source.bits bytes.now message.now).known) }
        ensures sent { OnOk result (out.new.items ≡ out.old.items
            ++ (heard (S.around around.now) self.old origin.iface.number origin.source.bits bytes.now message.now).sent) }
        ensures err { OnErr result (self.new ≡ self.old) }
        ensures sure { takes_memory (heard (S.around around.now) self.old origin.iface.number origin.source.bits bytes.now message.now).answer
            ≡ false → IsOk result }
    {
        if let Some(why) = self.why_sender(around, origin, message) {
            return Ok(Heard::Ignored(why));
        }
        let table = self.table_after(alloc, around, message)?;
        if self.has_room(&table) {
            return self.accept(around, origin.iface, bytes, message, table, out);
        }
        Ok(Heard::Ignored(Why::NoRoom))
    }

    // The table after a message that came at a timestamp in ms.
    #[tactic(auto, unfolding(crate::specs::Table::with_message))]
    pub(super) fn table_at(
        &self,
        alloc: Global,
        moment: u64,
        message: &BootstrapView<'_>,
    ) -> Result<Table, AllocError>
        requires { moment ≤ 2 ^ 62 }
        ensures { IfOk result (λ table. table ≡ with_message moment self.now.table message.now) }
    {
        let mut table = self.table.copy(alloc)?;
        let arrival = Arrival {
            moment,
            bsr: message.bsr(),
            tag: message.tag(),
            hash_length: message.hash_length(),
        };
        table.mask(arrival.hash_length, message.ranges());
        table.learn(alloc, arrival, message.ranges())?;
        Ok(table)
    }

    // The table after a message.
    pub(super) fn table_after<S: Surroundings>(
        &self,
        alloc: Global,
        around: &S,
        message: &BootstrapView<'_>,
    ) -> Result<Table, AllocError>
        ensures { IfOk result (λ table. table ≡ with_message (S.around around.now).present self.now.table message.now) }
    {
        self.table_at(alloc, around.present_moment(), message)
    }

    // Whether there is room for what a table keeps.
    pub(super) fn has_room(&self, table: &Table) -> bool
        ensures room { result ≡ nat_le (kept_count table.now) (room self.now) }
        ensures sound { IsSound self.now }
    {
        table.kept_count() <= room_beside(self.limit, self.configured.as_slice()) as u64
    }

    // Takes a message that counts, with the table after it.
    #[tactic(auto, unfolding(crate::specs::Hearing::after_message))]
    pub(super) fn accept<S: Surroundings>(
        &mut self,
        around: &S,
        iface: IfaceId,
        bytes: &[u8],
        message: &BootstrapView<'_>,
        table: Table,
        out: &mut Vec<Emission>,
    ) -> Result<Heard, AllocError>
        requires fits { 20 + length bytes.now < 2 ^ 16 }
        requires learned { table ≡ (after_message (S.around around.now).present self.old bytes.now message.now).table }
        requires sound { IsSoundTable self.old.static self.old.limit table }
        ensures answer { IfOk result (λ answer. answer
            ≡ (taken (S.around around.now) self.old iface.number bytes.now message.now).answer) }
        ensures known { OnOk result (self.new
            ≡ (taken (S.around around.now) self.old iface.number bytes.now message.now).known) }
        ensures sent { OnOk result (out.new.items ≡ out.old.items
            ++ (taken (S.around around.now) self.old iface.number bytes.now message.now).sent) }
        ensures err { OnErr result (self.new ≡ self.old) }
    {
        let alloc = *self.last.allocator();
        let moved = moves(
            alloc,
            self.choice,
            self.configured.as_slice(),
            self.table.rps(),
            table.rps(),
        )?;
        let last = Vec::from_slice(alloc, bytes)?;
        self.pass_on(alloc, around, iface, bytes, message, out)?;
        let moment = around.present_moment();
        self.elected = Some(Elected {
            bsr: message.bsr(),
            priority: message.priority(),
            end: moment + BS_TIMEOUT,
        });
        self.heard = true;
        self.table = table;
        self.last = last;
        self.last_end = moment + REPEAT_TIME;
        Ok(Heard::Taken(moved))
    }

    // Why a message isn't acceptable by its sender, else as a later test says.
    #[tactic(auto, unfolding(crate::specs::Hearing::why_checked))]
    pub(super) fn why_checked<S: Surroundings>(
        &self,
        around: &S,
        origin: Origin,
        message: &BootstrapView<'_>,
        later: Option<Why>,
    ) -> Option<Why>
        ensures { result
            ≡ why_checked (S.around around.now) self.now origin.iface.number origin.source.bits message.now later }
    {
        let bsr = message.bsr();
        let no_forward = message.is_no_forward();
        if around.is_own(bsr) {
            return Some(Why::OwnBsr);
        }
        if !around.is_neighbour(origin.iface, origin.source) {
            return Some(Why::NoNeighbour);
        }
        if is_scoped(message.ranges()) {
            return Some(Why::Scoped);
        }
        if no_forward && !self.may_refresh(around) {
            return Some(Why::LateRefresh);
        }
        if !no_forward && !is_hop(around.rpf_neighbour(bsr), origin) {
            return Some(Why::NotFromRpf);
        }
        later
    }

    // Why a message isn't acceptable by its BSR.
    fn why_weight(&self, message: &BootstrapView<'_>) -> Option<Why>
        ensures { result ≡ why_weight self.now message.now }
    {
        if may_elect(self.elected, message) {
            None
        } else {
            Some(Why::NotPreferred)
        }
    }

    // Why a message isn't acceptable by its sender and its BSR.
    #[tactic(auto, unfolding(crate::specs::Hearing::why_sender))]
    fn why_sender<S: Surroundings>(
        &self,
        around: &S,
        origin: Origin,
        message: &BootstrapView<'_>,
    ) -> Option<Why>
        ensures { result
            ≡ why_sender (S.around around.now) self.now origin.iface.number origin.source.bits message.now }
    {
        self.why_checked(around, origin, message, self.why_weight(message))
    }

    // Whether a message with the No-Forward bit may count.
    fn may_refresh<S: Surroundings>(&self, around: &S) -> bool
        ensures { result ≡ may_refresh (S.around around.now) self.now }
    {
        !self.heard && around.present_moment() <= self.refresh_end
    }

    // Whether the message that was accepted last had the same bytes, not long ago.
    fn is_repeated<S: Surroundings>(&self, around: &S, bytes: &[u8]) -> bool
        ensures { result ≡ is_repeated (S.around around.now) self.now bytes.now }
    {
        around.present_moment() < self.last_end && bytes == self.last.as_slice()
    }

    // Whether a message that came on an interface is sent on on another, or on the same.
    #[tactic(auto, unfolding(crate::specs::Hearing::is_sent_on))]
    fn is_sent_on<S: Surroundings>(
        &self,
        around: &S,
        iface: IfaceId,
        bytes: &[u8],
        there: IfaceId,
    ) -> bool
        ensures { result ≡ is_sent_on (S.around around.now) self.now iface.number bytes.now there.number }
    {
        around.has_neighbours(there)
            && !(there.number == iface.number && self.is_repeated(around, bytes))
    }

    // Sends a message on, on each interface on which it is.
    fn send_on<S: Surroundings>(
        &self,
        alloc: Global,
        around: &S,
        iface: IfaceId,
        bytes: &[u8],
        out: &mut Vec<Emission>,
    ) -> Result<(), AllocError>
        requires { 20 + length bytes.now < 2 ^ 16 }
        ensures { OnOk result (out.new.items ≡ out.old.items ++ map (passed_on (S.around around.now) bytes.now)
            (filter (is_sent_on (S.around around.now) self.now iface.number bytes.now) (below (S.around around.now).count))) }
    {
        for number in 0..around.interface_count() {
            let there = IfaceId { number };
            if self.is_sent_on(around, iface, bytes, there) {
                out.push(passed_on(alloc, around, bytes, there)?)?;
            }
        }
        Ok(())
    }

    // Sends a message on, if it may be.
    #[tactic(auto, unfolding(crate::specs::Hearing::sent_on))]
    pub(super) fn pass_on<S: Surroundings>(
        &self,
        alloc: Global,
        around: &S,
        iface: IfaceId,
        bytes: &[u8],
        message: &BootstrapView<'_>,
        out: &mut Vec<Emission>,
    ) -> Result<(), AllocError>
        requires { 20 + length bytes.now < 2 ^ 16 }
        ensures { OnOk result (out.new.items ≡ out.old.items ++ map (passed_on (S.around around.now) bytes.now)
            (sent_on (S.around around.now) self.now iface.number bytes.now message.now)) }
    {
        if message.is_no_forward() {
            return Ok(());
        }
        self.send_on(alloc, around, iface, bytes, out)
    }
}
