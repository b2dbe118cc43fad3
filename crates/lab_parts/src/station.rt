//! The routers of a scenario, as they are printed and found.
ghost use Rattle.lab_parts.specs.Learning.{new_listener};
ghost use Rattle.lab_parts.specs.Queries.{bytes_heard, hears_queries, kind_heard};
ghost use Rattle.lab_parts.specs.Standing.{standing_as};
ghost use Rattle.lab_parts.specs.Stations.{nobody_behind, own_addresses};
ghost use Rattle.pim_guard.specs.Guard.{is_stopped};
ghost use Rattle.std.specs.Prelude.{◌≡◌, ◌^◌, ◌≤◌, IfOk, OnOk, map};

use crate::learned::{HeardLine, Learning};
use crate::line::{BadSetsLine, GuardedLine, MoveLine, PacketLine, Way};
use crate::standing::{candidacy_of, is_same_rp, is_same_standing};
use igmp_older::{
    OlderHosts, Presence, PresentRow, QueryVersion, ResponseTimes, cut_query, translate_query,
};
use pim_anycast::Anycast;
use pim_bsr::{Choice, Listener};
use pim_candidate::{Candidacy, CandidacyHeard};
use pim_guard::{stops_frame, stops_unicast};
use pim_scenario::{FrontText, Link, StandingText};
use pim_types::{Addr, Config, Emission, Event, EventKind, IfaceId, Key, Refusal, Series, Verdict};
use std::alloc::{AllocError, Global};

/// What stands before a router.
#[derive(Drop)]
pub struct Fronts {
    pub text: FrontText,
    /// The sets of RPs that share an address.
    pub anycast: Anycast,
    /// The listener for Bootstraps, if there is one.
    pub learning: Option<Learning>,
    /// As what the router stands beside it.
    pub standing: StandingText,
}

/// What a router is owed once another configuration is kept.
#[derive(Clone, Copy, PartialEq, Eq, Debug)]
pub enum Owed {
    Nothing,
    /// The RPs that its listener gives it.
    Rps,
    /// The same, and then what another choice gave it is taken back.
    Choice,
    /// No candidates any more: its listener, which gave it some, is gone.
    NoCandidates,
}

/// What the lab knows of another configuration.
#[derive(Drop)]
pub struct Reloaded {
    links: Series<Link>,
    addresses: Series<Addr>,
    limit: u32,
    fronts: Fronts,
    times: ResponseTimes,
    places: Series<Option<u32>>,
}

impl Reloaded {
    /// What the lab keeps of another configuration with its links, and of where the old interfaces go: nowhere else where
    /// there are no places.
    pub fn new(
        alloc: Global,
        config: &Config,
        links: Series<Link>,
        fronts: Fronts,
        places: Series<Option<u32>>,
    ) -> Result<Reloaded, AllocError> {
        let addresses = addresses_of(alloc, config)?;
        Ok(Reloaded {
            links,
            addresses,
            limit: config.limit,
            fronts,
            times: times_of(config),
            places,
        })
    }
}

/// What the lab knows of a router that the network doesn't.
#[derive(Drop)]
pub struct Station {
    name: String,
    /// The link of each interface.
    pub links: Series<Link>,
    /// The address of each interface, and then those of no interface.
    pub addresses: Series<Addr>,
    /// What the router's front knows of older hosts. Where none are heard the front changes nothing.
    pub presence: Presence,
    /// The router's front for sets of RPs that share an address. Without a set it changes nothing.
    pub anycast: Anycast,
    /// The listener for Bootstraps, if they are heard.
    pub listener: Option<Listener>,
    /// The router as a BSR and as an RP. Where it stands as neither this changes nothing.
    pub candidacy: Candidacy,
    standing: StandingText,
    /// The version in which the router queries.
    pub version: QueryVersion,
    /// Whether a guard stands before the router.
    pub guard: bool,
    times: ResponseTimes,
}

impl Station {
    /// The router of this name and configuration, with the links of its interfaces.
    pub fn new(
        alloc: Global,
        name: String,
        config: &Config,
        links: Series<Link>,
        fronts: Fronts,
    ) -> Result<Station, AllocError>
        ensures links { IfOk result (λ station. station.links ≡ links) }
        ensures addresses { IfOk result (λ station. station.addresses ≡ own_addresses config.now) }
        ensures presence { IfOk result (λ station. station.presence ≡ nobody_behind config.now fronts.text.older_hosts) }
        ensures sets { IfOk result (λ station. station.anycast ≡ fronts.anycast) }
        ensures listener { IfOk result (λ station. station.listener ≡ new_listener fronts.learning) }
        ensures candidacy { IfOk result (λ station. station.candidacy ≡ standing_as fronts.standing 0) }
    {
        let addresses = addresses_of(alloc, config)?;
        let Fronts {
            text,
            anycast,
            learning,
            standing,
        } = fronts;
        let presence = presence_of(alloc, config, text.older_hosts)?;
        let candidacy = candidacy_of(alloc, &standing, 0)?;
        Ok(Station {
            name,
            links,
            addresses,
            presence,
            anycast,
            listener: new_listener(alloc, learning),
            candidacy,
            standing,
            version: text.query_version,
            guard: text.guard,
            times: times_of(config),
        })
    }

    /// Puts the router's interfaces on other links, and its front under another configuration. What the front heard goes
    /// with its interface; what it heard on interfaces that are removed, or that get another setting, is forgotten. What
    /// a listener learned stays where Bootstraps are still heard. A router that stands as something else begins so at the
    /// timestamp, in ms.
    pub fn reload(
        &mut self,
        alloc: Global,
        reloaded: Reloaded,
        moment: u64,
    ) -> Result<Owed, AllocError>
        requires { moment ≤ 2 ^ 62 }
    {
        let Reloaded {
            links,
            addresses,
            limit,
            fronts,
            times,
            places,
        } = reloaded;
        let Fronts {
            text,
            anycast,
            learning,
            standing,
        } = fronts;
        let count = u32::try_from(links.len()).map_err(|_| AllocError)?;
        self.stand_as(alloc, standing, moment)?;
        if places.is_empty() {
            self.presence.resize(limit as usize, count)?;
        } else {
            self.presence
                .place(limit as usize, count, places.as_slice())?;
        }
        set_hosts(&mut self.presence, count, text.older_hosts);
        self.anycast = anycast;
        let owed = self.listen(alloc, learning);
        self.version = text.query_version;
        self.guard = text.guard;
        self.times = times;
        self.links = links;
        self.addresses = addresses;
        Ok(owed)
    }

    // Has a listener with these settings: that which is there, with what it learned, or a new one.
    fn listen(&mut self, alloc: Global, learning: Option<Learning>) -> Owed {
        match (&mut self.listener, learning) {
            (Some(listener), Some(learning)) => set_listener(listener, learning),
            (former, learning) => {
                let owed = owed_without(former.as_ref());
                self.listener = new_listener(alloc, learning);
                owed
            }
        }
    }

    // Stands as something else from a timestamp on, in ms, or goes on where it is the same.
    fn stand_as(
        &mut self,
        alloc: Global,
        standing: StandingText,
        moment: u64,
    ) -> Result<(), AllocError>
        requires { moment ≤ 2 ^ 62 }
    {
        if is_same_standing(&self.standing, &standing) {
            return Ok(());
        }
        self.standing = standing;
        self.stand(alloc, moment)
    }

    /// Begins anew, at a timestamp in ms, to stand as what it stands.
    pub fn stand(&mut self, alloc: Global, moment: u64) -> Result<(), AllocError>
        requires { moment ≤ 2 ^ 62 }
        ensures { OnOk result (self.new.candidacy ≡ standing_as self.old.standing moment) }
    {
        self.candidacy = candidacy_of(alloc, &self.standing, moment)?;
        Ok(())
    }

    /// Whether it is the same candidate RP by another configuration.
    pub fn stays_rp(&self, reloaded: &Reloaded) -> bool {
        is_same_rp(
            self.standing.rp.as_ref(),
            reloaded.fronts.standing.rp.as_ref(),
        )
    }

    /// Puts rows of older hosts that were saved into the router's front, as if it were new: it keeps what it hears of them.
    pub fn resume(
        &mut self,
        alloc: Global,
        limit: u32,
        rows: &[(Key, PresentRow)],
    ) -> Result<(), AllocError> {
        self.presence.take_rows(alloc, limit as usize, rows)?;
        let count = u32::try_from(self.links.len()).map_err(|_| AllocError)?;
        for number in 0..count {
            let iface = IfaceId { number };
            let hosts = self.presence.hosts(iface);
            self.presence.keep_heard(iface, hosts);
        }
        Ok(())
    }

    /// Whether the router's guard stops an event.
    pub fn stops(&self, event: &Event) -> bool
        ensures { result ≡ is_stopped self.now.guard event.now.kind }
    {
        if !self.guard {
            return false;
        }
        match &event.kind {
            EventKind::Frame { bytes, .. } => stops_frame(bytes.as_slice()),
            EventKind::Unicast { bytes } => stops_unicast(bytes.as_slice()),
            EventKind::Advance { .. }
            | EventKind::Up { .. }
            | EventKind::Down { .. }
            | EventKind::Routes { .. }
            | EventKind::Rps { .. }
            | EventKind::RpCandidates { .. } => false,
        }
    }

    // Whether older queries are heard on an interface.
    fn hears_queries(&self, iface: IfaceId) -> bool
        ensures { result ≡ hears_queries self.now iface.number }
    {
        self.version.hears_queries(self.presence.hosts(iface))
    }

    // A packet that came on an interface, in which an older query that is heard is one of version 3.
    fn hear_bytes(
        &self,
        alloc: Global,
        iface: IfaceId,
        bytes: Series<u8>,
    ) -> Result<Series<u8>, AllocError>
        ensures { IfOk result (λ heard. heard ≡ bytes_heard (hears_queries self.now iface.number) bytes) }
    {
        if !self.hears_queries(iface) {
            return Ok(bytes);
        }
        let mut query = Vec::new(alloc);
        if translate_query(alloc, bytes.as_slice(), &mut query)? {
            return Ok(Series::from_vec(query));
        }
        Ok(bytes)
    }

    /// An event in which an older query that the router hears is one of version 3. An `Err` is want of memory.
    pub fn hear(&self, alloc: Global, event: Event) -> Result<Event, AllocError>
        ensures { IfOk result (λ heard. heard ≡ record event { kind = kind_heard self.now event.kind }) }
    {
        let Event { draw, kind } = event;
        let kind = match kind {
            EventKind::Frame { iface, bytes } => EventKind::Frame {
                iface,
                bytes: self.hear_bytes(alloc, iface, bytes)?,
            },
            EventKind::Advance { moment } => EventKind::Advance { moment },
            EventKind::Unicast { bytes } => EventKind::Unicast { bytes },
            EventKind::Up { iface } => EventKind::Up { iface },
            EventKind::Down { iface } => EventKind::Down { iface },
            EventKind::Routes { routes } => EventKind::Routes { routes },
            EventKind::Rps { rps } => EventKind::Rps { rps },
            EventKind::RpCandidates { candidates } => EventKind::RpCandidates { candidates },
        };
        Ok(Event { draw, kind })
    }

    /// The query of version 2 that leaves in the place of a packet; `None` where the packet leaves as it is.
    pub fn cut(&self, alloc: Global, emission: &Emission) -> Result<Option<Emission>, AllocError> {
        let (Emission::Link { iface, bytes }, QueryVersion::Two) = (emission, self.version) else {
            return Ok(None);
        };
        let mut query = Vec::new(alloc);
        if !cut_query(alloc, self.times, bytes.as_slice(), &mut query)? {
            return Ok(None);
        }
        Ok(Some(Emission::Link {
            iface: *iface,
            bytes: Series::from_vec(query),
        }))
    }

    /// What is printed before the router's tables.
    pub fn name(&self) -> &str {
        self.name.as_str()
    }

    /// What became of a move.
    pub fn move_line(&self, number: usize, answer: Result<Verdict, Refusal>) -> MoveLine<'_> {
        MoveLine {
            number,
            router: self.name.as_str(),
            answer,
        }
    }

    /// A move that the router's guard stopped.
    pub fn guarded_line(&self, number: usize) -> GuardedLine<'_> {
        GuardedLine {
            number,
            router: self.name.as_str(),
        }
    }

    /// A move by which the router was to get sets of RPs that it can't have.
    pub fn bad_sets_line(&self, number: usize) -> BadSetsLine<'_> {
        BadSetsLine {
            number,
            router: self.name.as_str(),
        }
    }

    /// A move by which a packet came that the router's listener heard, or the candidate beside it.
    pub fn heard_line(&self, number: usize, heard: CandidacyHeard) -> HeardLine<'_> {
        HeardLine {
            number,
            router: self.name.as_str(),
            heard,
        }
    }

    /// A packet of the router, with its number.
    pub fn packet_line<'a>(
        &'a self,
        number: u32,
        emission: &'a Emission,
        is_copy: bool,
    ) -> PacketLine<'a> {
        match emission {
            Emission::Link { iface, bytes } => PacketLine {
                number,
                way: self.way(*iface, is_copy),
                bytes: bytes.as_slice(),
            },
            Emission::Unicast { destination, bytes } => PacketLine {
                number,
                way: Way::Address(*destination),
                bytes: bytes.as_slice(),
            },
        }
    }

    // The way over an interface's link.
    fn way(&self, iface: IfaceId, is_copy: bool) -> Way<'_> {
        let link = self.link_name(iface);
        if is_copy {
            Way::Copy(link)
        } else {
            Way::Link(link)
        }
    }

    // The name of an interface's link. Each interface of a scenario has one.
    fn link_name(&self, iface: IfaceId) -> &str {
        match self.links.as_slice().get(iface.number as usize) {
            Some(link) => link.name.as_str(),
            None => "",
        }
    }
}

/// The numbers of the links. More links than a u32 can count count as want of memory.
pub fn link_numbers(alloc: Global, links: &[Link]) -> Result<Series<u32>, AllocError>
    ensures { IfOk result (λ numbers. numbers ≡ map (λ l. l.number) links.now) }
{
    let mut numbers = Series::new(alloc);
    for link in links {
        numbers.push(u32::try_from(link.number).map_err(|_| AllocError)?)?;
    }
    Ok(numbers)
}

// A listener with these settings, if there are some, which has heard nothing.
fn new_listener(alloc: Global, learning: Option<Learning>) -> Option<Listener>
    ensures { result ≡ new_listener learning }
{
    match learning {
        Some(learning) => Some(learning.listener(alloc)),
        None => None,
    }
}

// Puts a listener under other settings.
fn set_listener(listener: &mut Listener, learning: Learning) -> Owed {
    let Learning {
        limit,
        ranges,
        choice,
    } = learning;
    let loses = listener.loses_beside(limit as usize, ranges.as_slice());
    let is_same = listener.choice() == choice;
    listener.configure(limit as usize, ranges.into_vec());
    listener.choose(choice);
    if !is_same {
        return Owed::Choice;
    }
    if loses { Owed::Rps } else { Owed::Nothing }
}

// What a router is owed whose listener goes.
fn owed_without(former: Option<&Listener>) -> Owed {
    match former {
        Some(listener) if listener.choice() == Choice::Group => Owed::NoCandidates,
        _ => Owed::Nothing,
    }
}

// Nobody is known yet. The front has room for as many groups on interfaces as the router has for facts.
fn presence_of(
    alloc: Global,
    config: &Config,
    older_hosts: OlderHosts,
) -> Result<Presence, AllocError>
    ensures { IfOk result (λ presence. presence ≡ nobody_behind config.now older_hosts) }
{
    let mut hosts = Vec::new(alloc);
    for _interface in config.interfaces.as_slice() {
        hosts.push(older_hosts)?;
    }
    Ok(Presence::new(alloc, config.limit as usize, hosts))
}

// The times in which hosts answer the router's queries.
fn times_of(config: &Config) -> ResponseTimes {
    ResponseTimes {
        general: config.query_response_interval,
        specific: config.last_member_query_interval,
    }
}

// Gives the first interfaces this setting. Those that have it keep their rows.
fn set_hosts(presence: &mut Presence, count: u32, older_hosts: OlderHosts) {
    for number in 0..count {
        let iface = IfaceId { number };
        if !is_same(presence.hosts(iface), older_hosts) {
            presence.set_hosts(iface, older_hosts);
        }
    }
}

fn is_same(left: OlderHosts, right: OlderHosts) -> bool {
    matches!(
        (left, right),
        (OlderHosts::All, OlderHosts::All)
            | (OlderHosts::VersionTwo, OlderHosts::VersionTwo)
            | (OlderHosts::Nobody, OlderHosts::Nobody)
    )
}

fn addresses_of(alloc: Global, config: &Config) -> Result<Series<Addr>, AllocError>
    ensures { IfOk result (λ addresses. addresses ≡ own_addresses config.now) }
{
    let mut addresses = Vec::new(alloc);
    for interface in config.interfaces.as_slice() {
        addresses.push(interface.address)?;
    }
    addresses.extend_from_slice(config.addresses.as_slice())?;
    Ok(Series::from_vec(addresses))
}
