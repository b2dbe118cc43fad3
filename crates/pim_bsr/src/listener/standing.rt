//! What a candidate BSR beside a listener asks of it.
ghost use Rattle.std.specs.Prelude.{◌≡◌, ◌++◌, ◌+◌, ◌^◌, ◌<◌, ◌≤◌, filter, map, length, IfOk, Ok, OnErr, OnOk};
ghost use Rattle.pim_model.specs.Tables.{below};
ghost use Rattle.pim_bootstrap.specs.Bootstraps.{bootstrap_reading};
ghost use Rattle.pim_bsr.specs.Hearing.{passed_on};
ghost use Rattle.pim_bsr.specs.Standing.{arrival_passed, arrival_taken, own_sent, own_taken, why_arrival, with_own};
ghost use Rattle.pim_bsr.specs.Table.{moves};

use super::Listener;
use super::hear::{Origin, passed_on};
use crate::arrived::Arrived;
use crate::given::moves;
use crate::heard::{Heard, Why};
use crate::learned::Elected;
use crate::surroundings::Surroundings;
use crate::table::BS_TIMEOUT;
use pim_bootstrap::{BootstrapView, read_bootstrap};
use pim_types::{Emission, IfaceId};
use std::alloc::{AllocError, Global};

/// Sends a message of the router's own on each interface with neighbours, to all PIM routers. An `Err` is want of memory; a
/// part may be in `out` then.
#[tactic(auto, unfolding(crate::specs::Standing::own_sent))]
pub fn send_own<S: Surroundings>(
    alloc: Global,
    around: &S,
    bytes: &[u8],
    out: &mut Vec<Emission>,
) -> Result<(), AllocError>
    requires { 20 + length bytes.now < 2 ^ 16 }
    ensures { OnOk result (out.new.items ≡ out.old.items ++ own_sent (S.around around.now) bytes.now) }
{
    for number in 0..around.interface_count() {
        let there = IfaceId { number };
        if around.has_neighbours(there) {
            out.push(passed_on(alloc, around, bytes, there)?)?;
        }
    }
    Ok(())
}

impl Listener {
    /// The same, in memory of its own. An `Err` is want of memory.
    pub fn copy(&self, alloc: Global) -> Result<Listener, AllocError>
        ensures { IfOk result (λ copy. copy ≡ self.now) }
    {
        Ok(Listener {
            configured: Vec::from_slice(alloc, self.configured.as_slice())?,
            limit: self.limit,
            choice: self.choice,
            elected: self.elected,
            heard: self.heard,
            refresh_end: self.refresh_end,
            table: self.table.copy(alloc)?,
            last: Vec::from_slice(alloc, self.last.as_slice())?,
            last_end: self.last_end,
        })
    }

    /// Whether the router is to be given other RPs than before. An `Err` is want of memory.
    pub fn moves_from(&self, alloc: Global, before: &Listener) -> Result<bool, AllocError>
        ensures { IfOk result (λ moved. moved ≡ moves before.now self.now) }
    {
        moves(
            alloc,
            self.choice,
            self.configured.as_slice(),
            before.table.rps(),
            self.table.rps(),
        )
    }

    /// Why a message isn't acceptable, whatever the weight of its BSR: the first test that fails.
    pub fn why_arrival<S: Surroundings>(&self, around: &S, arrived: &Arrived<'_>) -> Option<Why>
        ensures { result ≡ why_arrival (S.around around.now) self.now arrived.now }
    {
        let origin = Origin {
            iface: arrived.iface(),
            source: arrived.source(),
        };
        self.why_checked(around, origin, arrived.message(), None)
    }

    /// Takes a message that is to count, where there is room for what it says. What is sent on is added to `out`. An `Err` is
    /// want of memory, and changes nothing of what is known; a part of what is sent on may be in `out` then.
    #[tactic(auto, unfolding(crate::specs::Standing::arrival_taken))]
    pub fn take<S: Surroundings>(
        &mut self,
        alloc: Global,
        around: &S,
        arrived: &Arrived<'_>,
        out: &mut Vec<Emission>,
    ) -> Result<Heard, AllocError>
        ensures answer { IfOk result (λ answer. answer
            ≡ (arrival_taken (S.around around.now) self.old arrived.now).answer) }
        ensures known { OnOk result (self.new ≡ (arrival_taken (S.around around.now) self.old arrived.now).known) }
        ensures sent { OnOk result (out.new.items
            ≡ out.old.items ++ (arrival_taken (S.around around.now) self.old arrived.now).sent) }
        ensures err { OnErr result (self.new ≡ self.old) }
    {
        let bytes = arrived.bytes();
        let message = arrived.message();
        let table = self.table_after(alloc, around, message)?;
        if self.has_room(&table) {
            return self.accept(around, arrived.iface(), bytes, message, table, out);
        }
        Ok(Heard::Ignored(Why::NoRoom))
    }

    /// Sends a message on as one that counts. An `Err` is want of memory; a part may be in `out` then.
    #[tactic(auto, unfolding(crate::specs::Standing::arrival_passed))]
    pub fn pass_by<S: Surroundings>(
        &self,
        alloc: Global,
        around: &S,
        arrived: &Arrived<'_>,
        out: &mut Vec<Emission>,
    ) -> Result<(), AllocError>
        ensures { OnOk result (out.new.items
            ≡ out.old.items ++ arrival_passed (S.around around.now) self.now arrived.now) }
    {
        self.pass_on(
            alloc,
            around,
            arrived.iface(),
            arrived.bytes(),
            arrived.message(),
            out,
        )
    }

    // Takes a message of the router's own that was read.
    #[tactic(auto, unfolding(crate::specs::Standing::with_own))]
    fn take_own_message(
        &mut self,
        alloc: Global,
        moment: u64,
        bytes: &[u8],
        message: &BootstrapView<'_>,
    ) -> Result<(), AllocError>
        requires moment { moment ≤ 2 ^ 62 }
        requires read { bootstrap_reading bytes.now ≡ Ok message.now }
        ensures known { OnOk result (self.new ≡ with_own moment self.old message.now) }
        ensures err { OnErr result (self.new ≡ self.old) }
    {
        let _ = bytes;
        let table = self.table_at(alloc, moment, message)?;
        if self.has_room(&table) {
            self.table = table;
        }
        self.heard = true;
        self.elected = Some(Elected {
            bsr: message.bsr(),
            priority: message.priority(),
            end: moment + BS_TIMEOUT,
        });
        Ok(())
    }

    /// Takes a Bootstrap that the router itself originated at a timestamp in ms: the router is the elected BSR, and learns
    /// what the message says where there is room for it. Bytes that can't be read as one change nothing. An `Err` is want of
    /// memory, and changes nothing.
    #[tactic(auto, unfolding(crate::specs::Standing::own_taken))]
    pub fn take_own(&mut self, alloc: Global, moment: u64, bytes: &[u8]) -> Result<(), AllocError>
        requires { moment ≤ 2 ^ 62 }
        ensures known { OnOk result (self.new ≡ own_taken moment self.old bytes.now) }
        ensures err { OnErr result (self.new ≡ self.old) }
    {
        match read_bootstrap(bytes) {
            Ok(message) => self.take_own_message(alloc, moment, bytes, &message),
            Err(_) => Ok(()),
        }
    }
}
