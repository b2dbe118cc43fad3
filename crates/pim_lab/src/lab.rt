//! Moves over a network, and the lines that they print.
ghost use Rattle.pim_lab.specs.Statuses.{IsFault, IsTroubleOf, router_node, routers_test};
ghost use Rattle.pim_net.specs.Showing.{node_of};
ghost use Rattle.std.specs.Prelude.{◌≡◌, IfErr, IfOk, Ok, OnOk, map};

use crate::front::Asked;
use crate::kept::{open_kept, write_kept};
use crate::learned::{self, Told};
use crate::nodes::{have_sets, reloaded_of, station_of};
use crate::saved::Unresumed;
use igmp_older::Presence;
use igmp_older_saved::{HostRow, are_held, open_saved, resumed_rows, saved_hosts, write_saved};
use lab_parts::{
    Delivery, ElectedLine, Frames, Fronts, GoneLine, HeldLine, LearnedLine, Learning, Lines, Names,
    OlderLine, Owed, Reloaded, RoleLine, RowLine, Station, ToldLine, Trouble,
};
use pim_anycast::{Anycast, BadRpSet};
use pim_bsr::Listener;
use pim_candidate::{Candidacy, CandidacyHeard};
use pim_net::{Net, Node, Renewal, Router, Unrestored, Wire};
use pim_rows::Table;
use pim_saver::ReadFault;
use pim_scenario::{ConfigText, RouterText, ScenarioMove, ScenarioRefusal};
use pim_types::{
    Config, Emission, Event, EventKind, Fault, Key, Outcome, Refusal, Series, Verdict,
};
use std::alloc::{AllocError, Global};

/// How many deliveries one settle makes at most.
const SETTLE_LIMIT: usize = 10_000;

/// The tables in the order in which they are printed.
const TABLES: [Table; 8] = [
    Table::Neighbours,
    Table::Groups,
    Table::Sources,
    Table::Downstream,
    Table::Asserts,
    Table::Upstream,
    Table::Trees,
    Table::Active,
];

/// Where a scenario is: the number of the move that is made, from 1, and the place of its router, from 0.
#[derive(Clone, Copy)]
struct At {
    number: usize,
    router: usize,
}

/// The routers of a scenario with the frames that they sent.
#[derive(Drop)]
pub(crate) struct Lab<W> {
    alloc: Global,
    stations: Vec<Station>,
    net: Net<W>,
    frames: Frames,
    names: Names,
    tables_each: bool,
}

impl<W: Wire> Lab<W> {
    /// The network of a scenario, which prints a router's tables after each of its answers if `tables_each` is set. The
    /// refusal is that of the first test that its routers fail.
    #[tactic(auto, using(crate::proofs::Opening::opened, crate::proofs::Opening::sets_refused, crate::proofs::Opening::network_refused))]
    pub(crate) fn open(
        alloc: Global,
        texts: Series<RouterText>,
        wire: W,
        tables_each: bool,
    ) -> Result<Lab<W>, Trouble>
        ensures accepted { OnOk result (routers_test texts ≡ Ok tt) }
        ensures trouble { IfErr result (λ t. IsTroubleOf (routers_test texts) t) }
    {
        let are_fit = have_sets(texts.as_slice());
        let (stations, nodes) = stations_of(alloc, texts)?;
        let net = Net::new(alloc, nodes, wire)??;
        if !are_fit {
            return Err(Trouble::Refused(ScenarioRefusal::RpSets));
        }
        let names = Names::of(alloc, &stations)?;
        Ok(Lab {
            alloc,
            stations,
            net,
            frames: Frames::new(alloc),
            names,
            tables_each,
        })
    }

    /// Makes a move, and prints its outcome.
    pub(crate) fn make(
        &mut self,
        number: usize,
        made: ScenarioMove,
        lines: &mut Lines,
    ) -> Result<(), Trouble>
        ensures { IfErr result (λ t. IsFault t) }
    {
        match made {
            ScenarioMove::Event { router, event } => {
                self.happen(At { number, router }, event, lines)
            }
            ScenarioMove::Deliver {
                router,
                iface,
                frame,
                draw,
            } => {
                let iface = Some(iface);
                let delivery = Delivery {
                    router,
                    iface,
                    frame,
                };
                self.deliver(number, delivery, draw, lines)
            }
            ScenarioMove::Carry {
                router,
                frame,
                draw,
            } => {
                let delivery = Delivery {
                    router,
                    iface: None,
                    frame,
                };
                self.deliver(number, delivery, draw, lines)
            }
            ScenarioMove::Settle { draw } => self.settle(number, draw, lines),
            ScenarioMove::Restart { router } => self.restart(At { number, router }, lines),
            ScenarioMove::Reload {
                router,
                draw,
                next,
                places,
            } => {
                let at = At { number, router };
                match self.renewal_of(router, next, places)? {
                    Ok(next) => self.reload(at, draw, next, lines),
                    Err(BadRpSet) => self.refuse_sets(at, lines),
                }
            }
        }
    }

    /// The place of the router of a name.
    pub(crate) fn place_of(&self, name: &str) -> Option<usize> {
        self.stations
            .iter()
            .position(|station| station.name() == name)
    }

    /// Puts the router of a name into the state that these bytes say, with the listener and the older hosts in them.
    pub(crate) fn restore(
        &mut self,
        name: &str,
        bytes: &[u8],
    ) -> Result<Result<(), Unresumed>, Fault> {
        match self.place_of(name) {
            Some(place) => self.restore_at(place, bytes),
            None => Ok(Err(Unresumed::Router(Unrestored::NoRouter))),
        }
    }

    // Puts the router at a place into the state that these bytes say, with the listener and the older hosts in them.
    fn restore_at(&mut self, place: usize, bytes: &[u8]) -> Result<Result<(), Unresumed>, Fault> {
        let (listener, rest) = match open_kept(self.alloc, bytes)? {
            Ok(opened) => opened,
            Err(refusal) => return Ok(Err(Unresumed::Listener(refusal))),
        };
        if let Err(why) = self.restore_behind(place, rest)? {
            return Ok(Err(why));
        }
        self.listen(place, listener)?;
        Ok(Ok(()))
    }

    // Has the router at a place go on with a listener that was saved with it. Without one it has that of the scenario. What
    // it stands as it begins anew.
    fn listen(&mut self, place: usize, listener: Option<Listener>) -> Result<(), Fault> {
        let (Some(router), Some(station)) = (self.net.router(place), self.stations.get_mut(place))
        else {
            return Err(Fault::Failed);
        };
        if let Some(listener) = listener {
            station.listener = Some(listener);
        }
        station.stand(self.alloc, router.present_moment())?;
        Ok(())
    }

    // Puts the router at a place into the state that these bytes say, with the older hosts in them.
    fn restore_behind(
        &mut self,
        place: usize,
        bytes: &[u8],
    ) -> Result<Result<(), Unresumed>, Fault> {
        let (hosts, rest) = match open_saved(self.alloc, bytes) {
            Ok(opened) => opened,
            Err(ReadFault::Memory) => return Err(Fault::Memory),
            Err(ReadFault::Refused(_)) => return Ok(Err(Unresumed::Hosts)),
        };
        match self.net.restore(place, rest)? {
            Ok(()) => self.resume(place, &hosts),
            Err(why) => Ok(Err(Unresumed::Router(why))),
        }
    }

    // Has the router at a place know the older hosts that were saved with it. Its sets of RPs have to fit its addresses.
    fn resume(
        &mut self,
        place: usize,
        hosts: &[(Key, HostRow)],
    ) -> Result<Result<(), Unresumed>, Fault> {
        let (Some(router), Some(station)) = (self.net.router(place), self.stations.get_mut(place))
        else {
            return Err(Fault::Failed);
        };
        if !station.anycast.fits(&Asked { router }) {
            return Ok(Err(Unresumed::RpSets));
        }
        if !are_held(&Asked { router }, hosts) {
            return Ok(Err(Unresumed::Hosts));
        }
        let rows = resumed_rows(self.alloc, hosts)?;
        station.resume(self.alloc, router.limit(), &rows)?;
        Ok(Ok(()))
    }

    /// Adds the bytes of the state of the router of a name, with its listener and its older hosts, after those that are
    /// there.
    pub(crate) fn save(&self, name: &str, out: &mut Vec<u8>) -> Result<(), Fault> {
        match self.place_of(name) {
            Some(place) => self.save_at(place, out),
            None => Ok(()),
        }
    }

    // Adds the bytes of the state of the router at a place, with its listener and its older hosts, after those that are
    // there.
    fn save_at(&self, place: usize, out: &mut Vec<u8>) -> Result<(), Fault> {
        let (Some(router), Some(station)) = (self.net.router(place), self.stations.get(place))
        else {
            return Err(Fault::Failed);
        };
        let mut own = Vec::new(self.alloc);
        router.save(&mut own)?;
        let hosts = saved_hosts(self.alloc, &Asked { router }, &station.presence)?;
        let mut held = Vec::new(self.alloc);
        write_saved(&hosts, &own, &mut held)?;
        write_kept(station.listener.as_ref(), &held, out)?;
        Ok(())
    }

    // Saves a router with its listener and its older hosts, and makes all anew of the bytes.
    fn restart(&mut self, at: At, lines: &mut Lines) -> Result<(), Trouble>
        ensures { IfErr result (λ t. IsFault t) }
    {
        let mut bytes = Vec::new(self.alloc);
        self.save_at(at.router, &mut bytes)?;
        if self.restore_at(at.router, &bytes)?.is_err() {
            return Err(Trouble::Fault(Fault::Failed));
        }
        let outcome = self.without_packets(Ok(Verdict::Done));
        self.print_with_tables(at, outcome, lines)
    }

    // Puts a router and its front under another configuration. Its packets are printed with the links that it had.
    fn reload(
        &mut self,
        at: At,
        draw: u32,
        next: (Reloaded, Renewal),
        lines: &mut Lines,
    ) -> Result<(), Trouble>
        ensures { IfErr result (λ t. IsFault t) }
    {
        let (reloaded, renewal) = next;
        let outcome = self.net.reload(at.router, draw, renewal)?;
        let is_done = outcome.answer.is_ok();
        self.print(at, outcome, lines)?;
        if is_done {
            let left = self.leave(at.router, &reloaded)?;
            self.print_packets(at, left, lines)?;
            let owed = self.keep(at.router, reloaded)?;
            let given = self.give_owed(at.router, draw, owed)?;
            self.print_packets(at, given, lines)?;
        }
        self.print_each(at, lines)
    }

    // Has a router that is no candidate RP any more, or another one, say that it goes.
    fn leave(&mut self, router: usize, reloaded: &Reloaded) -> Result<Outcome, Trouble>
        ensures { IfErr result (λ t. IsFault t) }
    {
        // Each move names one of the routers.
        let Some(station) = self.stations.get(router) else {
            return Err(Trouble::Fault(Fault::Failed));
        };
        let mut sent = Vec::new(self.alloc);
        if let (Some(listener), false) = (&station.listener, station.stays_rp(reloaded)) {
            station.candidacy.leave(self.alloc, listener, &mut sent)?;
        }
        self.net.send(router, &sent)?;
        Ok(sent_alone(sent))
    }

    // Gives a router what it is owed once another configuration is kept.
    fn give_owed(&mut self, router: usize, draw: u32, owed: Owed) -> Result<Outcome, Trouble>
        ensures { IfErr result (λ t. IsFault t) }
    {
        // Each move names one of the routers.
        let Some(station) = self.stations.get_mut(router) else {
            return Err(Trouble::Fault(Fault::Failed));
        };
        let sent = learned::give_owed(self.alloc, &mut self.net, router, station, draw, owed)?;
        Ok(sent_alone(sent))
    }

    // Refuses a move by which a router was to get sets of RPs that it can't have.
    fn refuse_sets(&self, at: At, lines: &mut Lines) -> Result<(), Trouble>
        ensures { IfErr result (λ t. IsFault t) }
    {
        // Each move names one of the routers.
        let Some(station) = self.stations.get(at.router) else {
            return Err(Trouble::Fault(Fault::Failed));
        };
        lines.push(station.bad_sets_line(at.number))?;
        self.print_each(at, lines)
    }

    // What the lab keeps of another configuration, and what the network gets of it. It is refused where the router can't
    // have its sets of RPs then.
    fn renewal_of(
        &mut self,
        router: usize,
        next: ConfigText,
        places: Series<Option<u32>>,
    ) -> Result<Result<(Reloaded, Renewal), BadRpSet>, AllocError> {
        let ConfigText {
            config,
            links,
            front,
            sets,
            standing,
        } = next;
        let anycast = match Anycast::of(&config, sets.into_vec()) {
            Ok(anycast) => anycast,
            Err(refusal) => return Ok(Err(refusal)),
        };
        let learning = Learning::of(self.alloc, front, &config)?;
        let config = self.with_learned(router, config, learning.as_ref())?;
        let fronts = Fronts {
            text: front,
            anycast,
            learning,
            standing,
        };
        let links = self.names.links(self.alloc, links)?;
        Ok(Ok(reloaded_of(self.alloc, config, links, fronts, places)?))
    }

    // A configuration with the RP ranges that its router is to be given by a listener with these settings.
    fn with_learned(
        &self,
        router: usize,
        config: Config,
        learning: Option<&Learning>,
    ) -> Result<Config, AllocError> {
        let (Some(listener), Some(learning)) = (self.listener(router), learning) else {
            return Ok(config);
        };
        let limit = learning.limit as usize;
        let rps = listener.given_beside(self.alloc, limit, learning.ranges.as_slice())?;
        let mut config = config;
        config.rps = Series::from_vec(rps);
        Ok(config)
    }

    // The listener of the router at a place, if it has one.
    fn listener(&self, router: usize) -> Option<&Listener> {
        self.stations.get(router)?.listener.as_ref()
    }

    // Keeps what the lab knows of another configuration of a router.
    fn keep(&mut self, router: usize, reloaded: Reloaded) -> Result<Owed, Trouble>
        ensures { IfErr result (λ t. IsFault t) }
    {
        // Each move names one of the routers.
        let (Some(asked), Some(station)) = (self.net.router(router), self.stations.get_mut(router))
        else {
            return Err(Trouble::Fault(Fault::Failed));
        };
        Ok(station.reload(self.alloc, reloaded, asked.present_moment())?)
    }

    // An event at a router, behind its fronts.
    fn happen(&mut self, at: At, event: Event, lines: &mut Lines) -> Result<(), Trouble>
        ensures { IfErr result (λ t. IsFault t) }
    {
        // Each move names one of the routers.
        let Some(station) = self.stations.get_mut(at.router) else {
            return Err(Trouble::Fault(Fault::Failed));
        };
        if station.stops(&event) {
            lines.push(station.guarded_line(at.number))?;
            return self.print_each(at, lines);
        }
        let event = station.hear(self.alloc, event)?;
        let Told { outcome, heard } = learned::run(
            self.alloc,
            &mut self.net,
            at.router,
            station,
            event,
        )?;
        match heard {
            Some(heard) => self.print_heard(at, heard, outcome, lines),
            None => self.print_with_tables(at, outcome, lines),
        }
    }

    // Prints what a router's listener heard, or the candidate beside it, and what left by it, with the tables if they are
    // printed.
    fn print_heard(
        &mut self,
        at: At,
        heard: CandidacyHeard,
        outcome: Outcome,
        lines: &mut Lines,
    ) -> Result<(), Trouble>
        ensures { IfErr result (λ t. IsFault t) }
    {
        // Each move names one of the routers.
        let Some(station) = self.stations.get(at.router) else {
            return Err(Trouble::Fault(Fault::Failed));
        };
        lines.push(station.heard_line(at.number, heard))?;
        self.print_packets(at, outcome, lines)?;
        self.print_each(at, lines)
    }

    // Delivers a frame to a router, behind its fronts.
    fn deliver(
        &mut self,
        number: usize,
        delivery: Delivery,
        draw: u32,
        lines: &mut Lines,
    ) -> Result<(), Trouble>
        ensures { IfErr result (λ t. IsFault t) }
    {
        let Delivery {
            router,
            iface,
            frame,
        } = delivery;
        let at = At { number, router };
        let Some(bytes) = self.net.fetch(router, iface, frame)? else {
            let outcome = self.without_packets(Err(Refusal::BadMove));
            return self.print_with_tables(at, outcome, lines);
        };
        let kind = match iface {
            Some(iface) => EventKind::Frame { iface, bytes },
            None => EventKind::Unicast { bytes },
        };
        self.happen(at, Event { draw, kind }, lines)
    }

    // An outcome by which nothing is sent.
    fn without_packets(&self, answer: Result<Verdict, Refusal>) -> Outcome {
        Outcome {
            answer,
            emissions: Series::new(self.alloc),
            copies: 0,
        }
    }

    // Prints what became of a move, with the tables if they are printed.
    fn print_with_tables(
        &mut self,
        at: At,
        outcome: Outcome,
        lines: &mut Lines,
    ) -> Result<(), Trouble>
        ensures { IfErr result (λ t. IsFault t) }
    {
        self.print(at, outcome, lines)?;
        self.print_each(at, lines)
    }

    // Prints the tables of the router that answered, if they are printed after each answer.
    fn print_each(&self, at: At, lines: &mut Lines) -> Result<(), Trouble>
        ensures { IfErr result (λ t. IsFault t) }
    {
        if self.tables_each {
            self.print_tables_at(at.router, lines)?;
        }
        Ok(())
    }

    // Prints what became of a move, and the packets that left.
    fn print(&mut self, at: At, outcome: Outcome, lines: &mut Lines) -> Result<(), Trouble>
        ensures { IfErr result (λ t. IsFault t) }
    {
        // Each move names one of the routers.
        let Some(station) = self.stations.get(at.router) else {
            return Err(Trouble::Fault(Fault::Failed));
        };
        lines.push(station.move_line(at.number, outcome.answer))?;
        self.print_packets(at, outcome, lines)
    }

    // Prints the packets that left, with queries as the router's version has them.
    fn print_packets(&mut self, at: At, outcome: Outcome, lines: &mut Lines) -> Result<(), Trouble>
        ensures { IfErr result (λ t. IsFault t) }
    {
        // Each move names one of the routers.
        let Some(station) = self.stations.get(at.router) else {
            return Err(Trouble::Fault(Fault::Failed));
        };
        let emissions = outcome.emissions.as_slice();
        let first = first_copy(emissions, outcome.copies);
        for (place, emission) in emissions.iter().enumerate() {
            let frame = self.frames.send(at.router, emission)?;
            match station.cut(self.alloc, emission)? {
                Some(query) => {
                    lines.push(station.packet_line(frame, &query, false))?;
                    self.net.replace(frame, packet_of(query));
                }
                None => lines.push(station.packet_line(frame, emission, place >= first))?,
            }
        }
        Ok(())
    }

    // Delivers the frames that no settle has taken, and those that are sent meanwhile. When the number of deliveries
    // reaches the limit, the rest of the current frame isn't delivered.
    fn settle(&mut self, number: usize, draw: u32, lines: &mut Lines) -> Result<(), Trouble>
        ensures { IfErr result (λ t. IsFault t) }
    {
        for _ in 0..SETTLE_LIMIT {
            let Some(delivery) = self.frames.next(self.alloc, &self.stations)? else {
                break;
            };
            self.deliver(number, delivery, draw, lines)?;
        }
        self.frames.end_settle();
        Ok(())
    }

    /// Prints the tables of all routers.
    pub(crate) fn print_tables(&self, lines: &mut Lines) -> Result<(), Trouble>
        ensures { IfErr result (λ t. IsFault t) }
    {
        for (place, station) in self.stations.iter().enumerate() {
            self.print_tables_of(place, station, lines)?;
        }
        Ok(())
    }

    // Prints the tables of the router at a place.
    fn print_tables_at(&self, place: usize, lines: &mut Lines) -> Result<(), Trouble>
        ensures { IfErr result (λ t. IsFault t) }
    {
        match self.stations.get(place) {
            Some(station) => self.print_tables_of(place, station, lines),
            None => Ok(()),
        }
    }

    // Prints the tables of the router at a place, whose station this is.
    fn print_tables_of(
        &self,
        place: usize,
        station: &Station,
        lines: &mut Lines,
    ) -> Result<(), Trouble>
        ensures { IfErr result (λ t. IsFault t) }
    {
        let name = station.name();
        lines.push(format_args!("router {name}"))?;
        match self.net.router(place) {
            Some(router) => {
                print_router(router, lines)?;
                print_older(self.alloc, router, &station.presence, lines)?;
                print_learned(station.listener.as_ref(), lines)?;
                print_standing(&station.candidacy, lines)
            }
            None => Ok(()),
        }
    }
}

fn print_router(router: &Router, lines: &mut Lines) -> Result<(), Trouble>
    ensures { IfErr result (λ t. IsFault t) }
{
    for table in TABLES {
        print_table(router, table, lines)?;
    }
    Ok(())
}

fn print_table(router: &Router, table: Table, lines: &mut Lines) -> Result<(), Trouble>
    ensures { IfErr result (λ t. IsFault t) }
{
    for row in router.rows(table)? {
        lines.push(RowLine { row })?;
    }
    Ok(())
}

// Prints what the router's front knows of older hosts.
fn print_older(
    alloc: Global,
    router: &Router,
    presence: &Presence,
    lines: &mut Lines,
) -> Result<(), Trouble>
    ensures { IfErr result (λ t. IsFault t) }
{
    for row in presence.older_rows(alloc, &Asked { router })? {
        lines.push(OlderLine { row })?;
    }
    Ok(())
}

// Prints what the router's listener learned, if it has one: the elected BSR, the RPs in force, and those that wait.
fn print_learned(listener: Option<&Listener>, lines: &mut Lines) -> Result<(), Trouble>
    ensures { IfErr result (λ t. IsFault t) }
{
    let Some(listener) = listener else {
        return Ok(());
    };
    if let Some(elected) = listener.elected() {
        lines.push(ElectedLine { elected })?;
    }
    for rp in listener.rps() {
        lines.push(LearnedLine::in_force(*rp, listener.is_given(*rp)))?;
    }
    print_waiting(listener, lines)
}

// Prints the RPs of messages whose other fragments haven't come.
fn print_waiting(listener: &Listener, lines: &mut Lines) -> Result<(), Trouble>
    ensures { IfErr result (λ t. IsFault t) }
{
    for part in listener.parts() {
        lines.push(LearnedLine::waiting(*part))?;
    }
    Ok(())
}

// Prints what a router knows as a candidate BSR, and as a candidate RP.
fn print_standing(candidacy: &Candidacy, lines: &mut Lines) -> Result<(), Trouble>
    ensures { IfErr result (λ t. IsFault t) }
{
    if let Some(election) = candidacy.election() {
        lines.push(RoleLine {
            role: election.role,
            end: election.end,
        })?;
    }
    for held in candidacy.held() {
        lines.push(HeldLine { held: *held })?;
    }
    print_gone(candidacy, lines)?;
    print_told(candidacy, lines)
}

// Prints the ranges that a candidate BSR says without RPs.
fn print_gone(candidacy: &Candidacy, lines: &mut Lines) -> Result<(), Trouble>
    ensures { IfErr result (λ t. IsFault t) }
{
    for gone in candidacy.gone() {
        lines.push(GoneLine { gone: *gone })?;
    }
    Ok(())
}

// Prints which BSR a candidate RP tells of itself.
fn print_told(candidacy: &Candidacy, lines: &mut Lines) -> Result<(), Trouble>
    ensures { IfErr result (λ t. IsFault t) }
{
    let advertising = candidacy.advertising();
    if let Some(bsr) = advertising.bsr {
        lines.push(ToldLine {
            bsr,
            end: advertising.end,
        })?;
    }
    Ok(())
}

// An outcome of packets alone.
fn sent_alone(sent: Vec<Emission>) -> Outcome {
    Outcome {
        answer: Ok(Verdict::Done),
        emissions: Series::from_vec(sent),
        copies: 0,
    }
}

// The routers of a scenario, and the nodes of the network for them.
fn stations_of(
    alloc: Global,
    texts: Series<RouterText>,
) -> Result<(Vec<Station>, Vec<Node>), AllocError>
    ensures { IfOk result (λ made. map node_of made.1.items ≡ map router_node texts) }
{
    let mut stations = Vec::new(alloc);
    let mut nodes = Vec::new(alloc);
    for text in texts.into_vec() {
        let (station, node) = station_of(alloc, text)?;
        stations.push(station)?;
        nodes.push(node)?;
    }
    Ok((stations, nodes))
}

// The bytes of a packet.
fn packet_of(emission: Emission) -> Series<u8> {
    match emission {
        Emission::Link { bytes, .. } | Emission::Unicast { bytes, .. } => bytes,
    }
}

// The place from which on the packets on links are copies: copies are the last packets on links.
fn first_copy(emissions: &[Emission], copies: u32) -> usize {
    let mut end = 0;
    for (place, emission) in emissions.iter().enumerate() {
        if matches!(emission, Emission::Link { .. }) {
            end = place.saturating_add(1);
        }
    }
    end.saturating_sub(copies as usize)
}
