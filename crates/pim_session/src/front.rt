//! What stands before a router for hosts and routers of older versions of IGMP.
ghost use Rattle.std.specs.Prelude.{◌≡◌, [], IfOk, IsOk, IsTrue, OnErr, OnOk, None, map, replicate, slice_set};
ghost use Rattle.igmp_older.specs.Joined.{noted_answered, older_in};
ghost use Rattle.igmp_older.specs.Presence.{hosts_on, left, live_rows, looked, rows_told, with_hosts, with_rows};
ghost use Rattle.igmp_older_saved.specs.Hosts.{resumed_rows, saved_hosts};
ghost use Rattle.igmp_older.specs.Translation.{translation, Gives};
ghost use Rattle.law_settled.specs.Ready.{Rises};
ghost use Rattle.pim_model.specs.Sure.{needs_no_memory};
ghost use Rattle.pim_session.specs.Front.{bytes_leaving, emission_leaving, hears_queries, version_on};

mod placed;
mod resized;

use igmp_older::{
    Given, OlderHosts, OlderRow, Presence, Querier, QueryVersion, ResponseTimes, cut_query,
    note_answered, translate,
};
use igmp_older_saved::{HostRow, resumed_rows, saved_hosts};
use pim_types::{Emission, IfaceId, Key, Refusal, Series, Verdict};
use std::alloc::{AllocError, Global};
use std::marker::Model;

/// The older hosts that were heard, which are heard on each interface, and the version in which each interface queries.
pub struct Front {
    presence: Presence,
    versions: Vec<QueryVersion>,
    times: ResponseTimes,
}

impl Model for Front {
    ghost use Rattle.pim_session.specs.Front.{Front};

    ghost Value = { Front };

    ghost view = { λ f. record { present = f.presence; versions = f.versions.items; times = f.times } };
}

// Called at each exit of an owner, where a derived drop would be spelled out and proved anew.
impl Drop for Front {
    fn drop(self) {
        let Front {
            presence: _,
            versions: _,
            times: _,
        } = self;
    }
}

// As many interfaces on which nobody is heard.
fn nobody(alloc: Global, count: u32) -> Result<Vec<OlderHosts>, AllocError>
    ensures { IfOk result (λ hosts. hosts.items ≡ replicate count OlderHosts.Nobody) }
{
    let mut hosts = Vec::new(alloc);
    for _place in 0..count {
        hosts.push(OlderHosts::Nobody)?;
    }
    Ok(hosts)
}

// As many interfaces that query in version 3.
fn three(alloc: Global, count: u32) -> Result<Vec<QueryVersion>, AllocError>
    ensures { IfOk result (λ versions. versions.items ≡ replicate count QueryVersion.Three) }
{
    let mut versions = Vec::new(alloc);
    for _place in 0..count {
        versions.push(QueryVersion::Three)?;
    }
    Ok(versions)
}

impl Front {
    ghost use Rattle.igmp_older.specs.declared.setting.OlderHosts.{OlderHosts};
    ghost use Rattle.igmp_older.specs.declared.setting.QueryVersion.{QueryVersion};

    /// Nobody is heard on any of as many interfaces, all of which query in version 3. Later as many older hosts are
    /// remembered as the limit says, and queries of version 2 leave with these times.
    pub(crate) fn new(
        alloc: Global,
        limit: u32,
        count: u32,
        times: ResponseTimes,
    ) -> Result<Front, AllocError>
        ensures { IfOk result (λ front. front ≡ record {
          present = record { rows = []; limit = limit; hosts = replicate count OlderHosts.Nobody };
          versions = replicate count QueryVersion.Three;
          times = times;
        }) }
    {
        let hosts = nobody(alloc, count)?;
        let versions = three(alloc, count)?;
        let presence = Presence::new(alloc, limit as usize, hosts);
        Ok(Front {
            presence,
            versions,
            times,
        })
    }

    // The version in which an interface queries.
    #[tactic(auto, unfolding(crate::specs::Front::version_on))]
    fn version(&self, iface: IfaceId) -> QueryVersion
        ensures { result ≡ version_on self.now iface.number }
    {
        match self.versions.get(iface.number as usize).copied() {
            Some(version) => version,
            None => QueryVersion::Three,
        }
    }

    /// Whether older queries are heard on an interface.
    pub(crate) fn hears_queries(&self, iface: IfaceId) -> bool
        ensures { result ≡ hears_queries self.now iface.number }
    {
        self.version(iface)
            .hears_queries(self.presence.hosts(iface))
    }

    /// What the querier is to be given in place of a packet that came on an interface, as `igmp_older::translate` says.
    pub(crate) fn translate<Q: Querier>(
        &self,
        alloc: Global,
        querier: &Q,
        iface: IfaceId,
        bytes: &[u8],
        out: &mut Vec<u8>,
    ) -> Result<Given, AllocError>
        ensures ok { IfOk result (λ given. Gives given
            (translation (live_rows (Q.group_records querier.now) self.now.present.rows) (Q.present querier.now)
            iface.number (hosts_on self.now.present iface.number) bytes.now)
            out.old.items out.new.items) }
        ensures sure { translation (live_rows (Q.group_records querier.now) self.now.present.rows) (Q.present querier.now)
            iface.number (hosts_on self.now.present iface.number) bytes.now ≡ None → IsOk result }
    {
        translate(alloc, &self.presence, querier, iface, bytes, out)
    }

    /// What is known after the querier answered a packet that it was given: where the answer is that it is done, the
    /// older message that it was is remembered, until an end in ms, and the groups that any other names are looked at when
    /// time passes.
    pub(crate) fn note(
        &mut self,
        iface: IfaceId,
        given: Given,
        packet: &[u8],
        answer: Result<Verdict, Refusal>,
        end: u64,
    ) -> Result<(), AllocError>
        ensures ok { OnOk result (self.new ≡ record self.old {
          present = noted_answered self.old.present iface.number end packet.now (older_in given) answer;
        }) }
        ensures sure { IsTrue (needs_no_memory answer) → IsOk result }
    {
        note_answered(&mut self.presence, iface, given, packet, answer, end)
    }

    /// Forgets whose timers expired by a timestamp in ms, and the groups of which the querier has no record.
    pub(crate) fn forget<Q: Querier>(&mut self, querier: &Q, moment: u64)
        ensures { self.new ≡ record self.old {
          present = looked (Q.group_records querier.now) moment self.old.present;
        } }
    {
        self.presence.forget(querier, moment);
    }

    /// Forgets whom an interface heard.
    pub(crate) fn leave(&mut self, iface: IfaceId)
        ensures { self.new ≡ record self.old { present = left iface.number self.old.present } }
    {
        self.presence.leave(iface);
    }

    /// The groups in an older mode.
    pub(crate) fn older_rows<Q: Querier>(
        &self,
        alloc: Global,
        querier: &Q,
    ) -> Result<Vec<OlderRow>, AllocError>
        ensures { IfOk result (λ rows. rows.items
            ≡ rows_told (Q.group_records querier.now) (Q.present querier.now) self.now.present) }
    {
        self.presence.older_rows(alloc, querier)
    }

    /// The rows of older hosts that are saved, as `igmp_older_saved::saved_hosts` says.
    pub(crate) fn saved_hosts<Q: Querier>(
        &self,
        alloc: Global,
        querier: &Q,
    ) -> Result<Vec<(Key, HostRow)>, AllocError>
        ensures saved { IfOk result (λ hosts. hosts.items
            ≡ saved_hosts (Q.group_records querier.now) (Q.present querier.now) self.now.present.rows) }
        ensures rise { IfOk result (λ hosts. Rises hosts.items) }
    {
        saved_hosts(alloc, querier, &self.presence)
    }

    /// Takes rows of older hosts that were saved, in the place of those that are known. Later as many are kept as the limit
    /// says, or as these are if they are more. An `Err` is want of memory.
    pub(crate) fn take_hosts(
        &mut self,
        alloc: Global,
        limit: u32,
        hosts: &[(Key, HostRow)],
    ) -> Result<(), AllocError>
        ensures { OnOk result (self.new ≡ record self.old {
          present = with_rows limit (resumed_rows hosts.now) self.old.present;
        }) }
    {
        let rows = resumed_rows(alloc, hosts)?;
        self.presence.take_rows(alloc, limit as usize, &rows)
    }

    /// Sets which hosts an interface hears, if it has settings, and forgets what it heard, as `Presence::set_hosts` says.
    pub(crate) fn set_hosts(&mut self, iface: IfaceId, hosts: OlderHosts)
        ensures { self.new ≡ record self.old { present = with_hosts iface.number hosts self.old.present } }
    {
        self.presence.set_hosts(iface, hosts);
    }

    /// Sets the version in which an interface queries, if it has settings.
    pub(crate) fn set_version(&mut self, iface: IfaceId, version: QueryVersion)
        ensures { self.new ≡ record self.old { versions = slice_set self.old.versions iface.number version } }
    {
        let place = iface.number as usize;
        if place < self.versions.len() {
            self.versions[place] = version;
        }
    }

    // Bytes that leave on an interface: a query is cut where the interface queries in version 2.
    fn bytes_leaving(
        &self,
        alloc: Global,
        iface: IfaceId,
        bytes: Series<u8>,
    ) -> Result<Series<u8>, AllocError>
        ensures { IfOk result (λ left. left ≡ bytes_leaving self.now.times (version_on self.now iface.number) bytes) }
    {
        match self.version(iface) {
            QueryVersion::Three => return Ok(bytes),
            QueryVersion::Two => {}
        }
        let mut shorter = Vec::new(alloc);
        if cut_query(alloc, self.times, bytes.as_slice(), &mut shorter)? {
            return Ok(Series::from_vec(shorter));
        }
        Ok(bytes)
    }

    // An emission as it leaves behind the front: a query to older hosts is cut.
    #[tactic(auto, unfolding(crate::specs::Front::emission_leaving))]
    fn emission_leaving(&self, alloc: Global, emission: Emission) -> Result<Emission, AllocError>
        ensures { IfOk result (λ left. left ≡ emission_leaving self.now emission) }
    {
        match emission {
            Emission::Link { iface, bytes } => Ok(Emission::Link {
                iface,
                bytes: self.bytes_leaving(alloc, iface, bytes)?,
            }),
            Emission::Unicast { destination, bytes } => {
                Ok(Emission::Unicast { destination, bytes })
            }
        }
    }

    /// Emissions as they leave. No memory is taken where nothing leaves.
    pub(crate) fn emissions_leaving(
        &self,
        alloc: Global,
        sent: Vec<Emission>,
    ) -> Result<Vec<Emission>, AllocError>
        ensures left { IfOk result (λ left. left.items ≡ map (emission_leaving self.now) sent.items) }
        ensures sure { sent.items ≡ [] → IsOk result }
    {
        let mut left = Vec::new(alloc);
        for emission in sent {
            let emission = self.emission_leaving(alloc, emission)?;
            left.push(emission)?;
        }
        Ok(left)
    }
}
