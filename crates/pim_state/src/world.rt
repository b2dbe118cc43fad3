//! The whole state: how it begins, the tables in it that are borrowed, the limit on facts, and another configuration.
ghost use Rattle.std.specs.Borrow.{sem};
ghost use Rattle.std.specs.List.{list_all};
ghost use Rattle.std.specs.Prelude.{◌≡◌, ◌<◌, ◌≤◌, ◌^◌, Ok, Err, OnOk, IfOk, IfErr, length, nat_lt, true};
ghost use Rattle.pim_ip.specs.declared.fault.Fault.{Fault};
ghost use Rattle.pim_ip.specs.declared.refusal.Refusal.{Refusal};
ghost use Rattle.pim_types.specs.Keys.{iface_in, iface_key};
ghost use Rattle.pim_model.specs.Full.{counted, passes_limit};
ghost use Rattle.pim_model.specs.Limits.{config_test};
ghost use Rattle.pim_model.specs.State.{iface_count, interfaces_of, my_address, opening};
ghost use Rattle.pim_model.specs.Tables.{put};
ghost use Rattle.pim_store.specs.PimTables.{pim_tables};
ghost use Rattle.pim_state.specs.Configurations.{without_facts};
ghost use Rattle.pim_state.specs.Lending.{LendsMembership, LendsStore, membership_tables};

use crate::parts::elected;
use crate::settings::{settings_of, test_settings};
use igmp_membership::Membership;
use pim_ifaces::{Interfaces, are_own_addresses};
use pim_ifset::IfSet;
use pim_mrib::Mrib;
use pim_neighbours::Neighbours;
use pim_store::Store;
use pim_trie::Meter;
use pim_types::fact::InterfaceRow;
use pim_types::{Addr, Config, Fault, IfaceId, Refusal, Settings, Timer};
use std::alloc::{AllocError, Global};
use std::marker::Model;

/// The whole state of a router that works.
pub struct World {
    pub(crate) settings: Settings,
    // The present time, in ms.
    pub(crate) present: u64,
    pub(crate) interfaces: Interfaces,
    pub(crate) mrib: Mrib,
    pub(crate) neighbours: Neighbours,
    // The interfaces below 120 on which the router is the DR.
    pub(crate) dr: IfSet,
    pub(crate) membership: Membership,
    pub(crate) store: Store,
    // The timer that expires first, if it was looked for since a table with timers was lent or changed.
    pub(crate) next: Option<(u64, Timer)>,
}

// Written out, so that it is proved once (docs/PROOF_NOTES.md, Drops).
impl Drop for World {
    fn drop(self) {
        let World {
            settings: _,
            present: _,
            interfaces: _,
            mrib: _,
            neighbours: _,
            dr: _,
            membership: _,
            store: _,
            next: _,
        } = self;
    }
}

impl Model for World {
    ghost use Rattle.std.specs.Prelude.{◌≤◌, ◌^◌};
    ghost use Rattle.pim_model.specs.State.{State};

    ghost Value = { State };

    ghost view = { λ w. record {
      settings = w.settings;
      configured = w.interfaces.configured;
      present = w.present;
      routes = w.mrib.routes;
      ranges = w.mrib.ranges;
      interfaces = w.interfaces.rows;
      neighbours = w.neighbours;
      queriers = w.membership.queriers;
      group_records = w.membership.group_records;
      source_records = w.membership.source_records;
      group_repeats = w.membership.group_repeats;
      source_repeats = w.membership.source_repeats;
      sendings = w.membership.sendings;
      downstream = w.store.downstream;
      asserts = w.store.asserts;
      join_timers = w.store.join_timers;
      override_timers = w.store.override_timers;
      sources = w.store.sources;
      registers = w.store.registers;
    } };

    ghost use Rattle.pim_state.specs.Next.{IsNext, next_among};
    ghost use Rattle.pim_state.specs.Shown.{Shows, is_dr_on};

    ghost invariant = { λ w. (w.present ≤ 2 ^ 62) × (2 ≤ w.settings.robustness) × (w.settings.robustness ≤ 7)
        × Shows w.dr (is_dr_on w.interfaces.configured w.neighbours) × (w.settings.query_interval ≤ 31744)
        × IsNext w.next (next_among w.interfaces.rows w.neighbours w.membership w.store) };
}

impl World {
    /// The state at the opening with a configuration: timestamp 0, all interfaces down. A configuration is refused for
    /// the first test that fails. The meter rises by the nodes visited.
    #[tactic(auto, unfolding(pim_model::specs::State::opening))]
    pub fn new(
        alloc: Global,
        config: &Config,
        meter: &mut Meter,
    ) -> Result<Result<World, Refusal>, Fault>
        ensures accepted { IfOk result (λ made. IfOk made (λ world.
            (config_test config.now ≡ Ok tt) × (world ≡ opening config.now))) }
        ensures refused { IfOk result (λ made. IfErr made (λ refusal. config_test config.now ≡ Err refusal)) }
        ensures memory { IfErr result (λ fault. fault ≡ Fault.Memory) }
    {
        if let Err(refusal) = test_settings(config) {
            return Ok(Err(refusal));
        }
        let given = config.interfaces.as_slice();
        let own = config.addresses.as_slice();
        let interfaces = Interfaces::new(alloc, given, own)?;
        let mut mrib = Mrib::new(alloc);
        if mrib
            .replace(&interfaces, config.routes.as_slice(), meter)?
            .is_err()
        {
            return Ok(Err(Refusal::ConfiguredRoutes));
        }
        if mrib.replace_rps(config.rps.as_slice(), meter)?.is_err() {
            return Ok(Err(Refusal::ConfiguredRps));
        }
        if !are_own_addresses(given, own) {
            return Ok(Err(Refusal::OwnAddresses));
        }
        let world = World::without_facts(alloc, settings_of(config), interfaces, mrib)?;
        Ok(Ok(world))
    }

    // The state without facts at timestamp 0.
    fn without_facts(
        alloc: Global,
        settings: Settings,
        interfaces: Interfaces,
        mrib: Mrib,
    ) -> Result<World, AllocError>
        requires least { 2 ≤ settings.robustness }
        requires most { settings.robustness ≤ 7 }
        requires interval { settings.query_interval ≤ 31744 }
        ensures { IfOk result (λ world. world ≡ without_facts settings interfaces mrib) }
    {
        Ok(World {
            settings,
            present: 0,
            interfaces,
            mrib,
            neighbours: Neighbours::new(alloc),
            dr: IfSet::below(IfSet::LIMIT),
            membership: Membership::new(alloc),
            store: Store::new(alloc)?,
            next: None,
        })
    }

    /// The present time, in ms.
    pub fn present(&self) -> u64
        ensures present { result ≡ self.now.present }
        ensures within { result ≤ 2 ^ 62 }
    {
        self.present
    }

    /// The router's address on the interface; 0.0.0.0 for one that isn't configured.
    pub fn address(&self, iface: IfaceId) -> Addr
        ensures { result.bits ≡ my_address self.now iface.number }
    {
        match self.interfaces.config(iface) {
            Some(config) => config.address,
            None => Addr::NONE,
        }
    }

    /// What is configured of the whole router.
    pub fn settings(&self) -> Settings
        ensures value { result ≡ self.now.settings }

        // Of every world: the robustness variable and the query interval of a configuration that was accepted.
        ensures least { 2 ≤ result.robustness }
        ensures most { result.robustness ≤ 7 }
        ensures interval { result.query_interval ≤ 31744 }
    {
        self.settings
    }

    /// The interfaces.
    pub fn interfaces(&self) -> &Interfaces
        ensures { result.now ≡ interfaces_of self.now }
    {
        &self.interfaces
    }

    /// The neighbours.
    pub fn neighbours(&self) -> &Neighbours
        ensures { result.now ≡ self.now.neighbours }
    {
        &self.neighbours
    }

    /// The facts of IGMP.
    pub fn membership(&self) -> &Membership
        ensures { result.now ≡ membership_tables self.now }
    {
        &self.membership
    }

    /// The facts of IGMP, to be changed.
    pub fn membership_mut(&mut self) -> &mut Membership
        ensures* writes_back { sem 𝓛 (LendsMembership self.entry result) }
        ensures value { result.now ≡ membership_tables self.old }
    {
        self.next = None;
        &mut self.membership
    }

    /// The facts of PIM.
    pub fn store(&self) -> &Store
        ensures { result.now ≡ pim_tables self.now }
    {
        &self.store
    }

    /// The facts of PIM, to be changed.
    pub fn store_mut(&mut self) -> &mut Store
        ensures* writes_back { sem 𝓛 (LendsStore self.entry result) }
        ensures value { result.now ≡ pim_tables self.old }
    {
        self.next = None;
        &mut self.store
    }

    // How many facts count.
    #[tactic(auto, unfolding(pim_model::specs::Full::counted, igmp_membership::specs::MembershipTables::counted_records, pim_store::specs::PimTables::counted_facts))]
    fn counted(&self) -> u128
        ensures count { result ≡ counted self.now }
        ensures within { result < 2 ^ 67 }
    {
        let neighbours = self.neighbours.len() as u128;
        neighbours + self.membership.count() + self.store.count()
    }

    /// Whether this many more facts would pass the limit.
    #[tactic(auto, unfolding(pim_model::specs::Full::passes_limit))]
    pub fn passes_limit(&self, more: usize) -> bool
        ensures { result ≡ passes_limit self.now more }
    {
        more != 0 && self.counted() + more as u128 > u128::from(self.settings.limit)
    }

    /// Sets the interface up, with this row.
    pub fn set_up(&mut self, iface: IfaceId, row: InterfaceRow) -> Result<(), AllocError>
        requires { iface.number < iface_count self.old }
        ensures { OnOk result (self.new ≡ record self.old { interfaces = put self.old.interfaces (iface_key iface.number) row }) }
    {
        self.next = None;
        self.interfaces.set_up(iface, row)
    }

    /// Takes the settings, the configured interfaces and the routes of another world in the place of its own, each
    /// interface that is up being one that the other has. All facts stay. The table that comes back has the RP ranges of
    /// the other.
    pub fn reconfigure(&mut self, other: World) -> Mrib
        requires below { list_all (λ e. nat_lt (iface_in e.0) (length other.configured.interfaces)) self.old.interfaces ≡ true }
        ensures new { self.new ≡ record self.old {
          settings = other.settings;
          configured = other.configured;
          routes = other.routes;
        } }
        ensures back { result.ranges ≡ other.ranges }
    {
        let World {
            settings,
            present: _,
            interfaces,
            mrib,
            neighbours: _,
            dr: _,
            membership: _,
            store: _,
            next: _,
        } = other;
        self.next = None;
        self.interfaces.reconfigure(interfaces);
        self.dr = elected(&self.interfaces, &self.neighbours);
        self.settings = settings;
        self.mrib.take_routes(mrib)
    }
}
