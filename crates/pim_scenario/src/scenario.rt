//! The scenario file as plain data: routers, and moves that happen to them.
ghost use Rattle.std.specs.Prelude.{◌≡◌, None, Err, IfOk, IfErr};
ghost use Rattle.toml.specs.Parse.{parse_document};
ghost use Rattle.toml.specs.View.{table_view};
ghost use Rattle.std.specs.Net.Grammar.{Parses};
ghost use Rattle.pim_scenario.specs.Scenario.{IsReadFrom, IsScenario};
ghost use Rattle.pim_scenario.specs.Texts.{ReadsExactly};

mod address;
mod field;
mod hex;
mod links;
mod moves;
mod pieces;
mod places;
mod reload;
mod router;
mod routes;
mod sets;
mod standing;
mod words;

use igmp_older::{OlderHosts, QueryVersion};
use pim_anycast::RpSet;
use pim_bsr::Choice;
use pim_types::{Addr, Config, Event, Fault, IfaceId, Prefix, Refusal, Series};
use std::alloc::{AllocError, AllocFailed, Global};
use toml::Table;

/// The link on which an interface is.
#[derive(Drop)]
pub struct Link {
    /// The links are numbered from 0 in the order in which the scenario first names them.
    pub number: usize,
    pub name: String,
}

/// What stands before a router, alike on all its interfaces.
#[derive(Clone, Copy)]
pub struct FrontText {
    /// Which hosts of older versions of IGMP are heard.
    pub older_hosts: OlderHosts,
    /// The version in which the interfaces query.
    pub query_version: QueryVersion,
    /// Whether a guard stops IGMP and PIM that would be forwarded as data.
    pub guard: bool,
    /// Whether Bootstraps (RFC 5059) are heard.
    pub bsr: bool,
    /// How many of the RPs that they say are kept at most, from 1 to 256.
    pub rp_limit: u32,
    /// What one of these RPs is chosen for.
    pub choice: Choice,
}

impl FrontText {
    /// How many RP ranges a router takes.
    pub const MOST_RPS: u32 = 256;
}

/// A candidate BSR.
#[derive(Clone, Copy)]
pub struct BsrText {
    /// One of the router's own.
    pub address: Addr,
    /// The higher number is preferred.
    pub priority: u8,
    /// The length of the hash mask that it says, from 0 to 32.
    pub hash_length: u8,
    /// How many RPs of ranges it holds at most, from 1 to 255.
    pub limit: u8,
}

/// A candidate RP.
#[derive(Drop)]
pub struct RpText {
    /// One of the router's own.
    pub address: Addr,
    /// The lower number is preferred.
    pub priority: u8,
    /// The ranges of groups of which it is an RP, from 1 to 183.
    pub ranges: Series<Prefix>,
}

/// As what a router stands in an election of RFC 5059.
#[derive(Drop)]
pub struct StandingText {
    pub bsr: Option<BsrText>,
    pub rp: Option<RpText>,
}

/// A router of a scenario.
#[derive(Drop)]
pub struct RouterText {
    pub name: String,
    /// The configuration as the scenario has it: its values haven't been tested yet.
    pub config: Config,
    /// The link of each interface.
    pub links: Series<Link>,
    pub front: FrontText,
    /// The sets of RPs that share an address, as the scenario has them: they haven't been tested yet.
    pub sets: Series<RpSet>,
    pub standing: StandingText,
}

/// Another configuration of a router.
#[derive(Drop)]
pub struct ConfigText {
    /// The configuration as the scenario has it: its values haven't been tested yet.
    pub config: Config,
    /// The name of the link of each interface.
    pub links: Series<String>,
    pub front: FrontText,
    /// The sets of RPs that share an address, as the scenario has them: they haven't been tested yet.
    pub sets: Series<RpSet>,
    pub standing: StandingText,
}

/// What a scenario requests. A router is named by its place among the routers, from 0, and a frame by its number among
/// all that were ever sent, from 1.
#[derive(Drop)]
pub enum ScenarioMove {
    /// Something happens to a router.
    Event {
        router: usize,
        event: Event,
    },
    /// A frame comes on an interface of a router.
    Deliver {
        router: usize,
        iface: IfaceId,
        frame: u32,
        draw: u32,
    },
    /// A frame comes to a router as a unicast.
    Carry {
        router: usize,
        frame: u32,
        draw: u32,
    },
    /// Each frame that no settle has taken goes to all who can receive it.
    Settle {
        draw: u32,
    },
    /// A router is saved, and one that is made of its bytes takes its place.
    Restart {
        router: usize,
    },
    /// A router that works gets another configuration.
    Reload {
        router: usize,
        draw: u32,
        next: ConfigText,
        /// Of each interface of the router, by its number, the number of the one that has its link then, or none. It is
        /// empty where interfaces keep their numbers.
        places: Series<Option<u32>>,
    },
}

/// The content of a scenario file.
#[derive(Drop)]
pub struct Scenario {
    /// At most 64, each with a name of its own.
    pub routers: Series<RouterText>,
    pub moves: Series<ScenarioMove>,
}

impl Scenario {
    /// How many routers a scenario may have.
    pub const ROUTER_LIMIT: usize = 64;
}

/// A value is not what its key wants.
#[derive(Clone, Copy)]
struct Wrong;

/// Why a scenario was not read.
#[derive(Clone, Copy)]
enum Unread {
    Wrong,
    NoMemory,
}

impl From<Wrong> for Unread {
    ghost use Rattle.pim_scenario.specs.declared.scenario.Unread.{Unread};

    ghost from_gives = { λ _ e. e ≡ Unread.Wrong };

    fn from(_wrong: Wrong) -> Unread {
        Unread::Wrong
    }
}

impl From<AllocError> for Unread {
    ghost use Rattle.pim_scenario.specs.declared.scenario.Unread.{Unread};

    ghost from_gives = { λ _ e. e ≡ Unread.NoMemory };

    fn from(_refused: AllocError) -> Unread {
        Unread::NoMemory
    }
}

impl<T: Drop> From<AllocFailed<T>> for Unread {
    ghost use Rattle.pim_scenario.specs.declared.scenario.Unread.{Unread};

    ghost from_gives = { λ _ e. e ≡ Unread.NoMemory };

    fn from(_refused: AllocFailed<T>) -> Unread {
        Unread::NoMemory
    }
}

/// Reads a scenario. It is refused as `BadScenario` exactly where it is no TOML document, has an unknown key, lacks
/// one, has a value of another type, text or range than its key requires, has more than 64 routers or two of one name,
/// or moves a router that it doesn't have. The values of a configuration aren't tested here. The only fault is want of
/// memory.
pub fn read_scenario(alloc: Global, text: &str) -> Result<Result<Scenario, Refusal>, Fault>
    ensures read { IfOk result (Parses IsReadFrom text.now) }
    ensures other_text { parse_document text.now ≡ None
        → IfOk result (λ r. r ≡ Err Refusal.BadScenario) }
    ensures refused { IfOk result (λ r. IfErr r (λ e. e ≡ Refusal.BadScenario)) }
    ensures memory { IfErr result (λ e. e ≡ Fault.Memory) }
{
    match pieces::scenario_in(alloc, text) {
        Ok(scenario) => Ok(Ok(scenario)),
        Err(Unread::NoMemory) => Err(Fault::Memory),
        Err(Unread::Wrong) => read_whole(alloc, text),
    }
}

/// Reads a scenario by way of its whole document.
fn read_whole(alloc: Global, text: &str) -> Result<Result<Scenario, Refusal>, Fault>
    ensures read { IfOk result (Parses IsReadFrom text.now) }
    ensures other_text { parse_document text.now ≡ None
        → IfOk result (λ r. r ≡ Err Refusal.BadScenario) }
    ensures refused { IfOk result (λ r. IfErr r (λ e. e ≡ Refusal.BadScenario)) }
    ensures memory { IfErr result (λ e. e ≡ Fault.Memory) }
{
    let table = match toml::table_from_str(alloc, text) {
        Ok(table) => table,
        Err(error) if error.is_memory() => return Err(Fault::Memory),
        Err(_) => return Ok(Err(Refusal::BadScenario)),
    };
    match scenario_in(alloc, &table) {
        Ok(scenario) => Ok(Ok(scenario)),
        Err(Unread::Wrong) => Ok(Err(Refusal::BadScenario)),
        Err(Unread::NoMemory) => Err(Fault::Memory),
    }
}

fn scenario_in(alloc: Global, table: &Table) -> Result<Scenario, Unread>
    ensures { ReadsExactly (IsScenario (table_view table.now)) result }
{
    field::only(table, &["router", "move"])?;
    let routers = router::routers_in(alloc, field::list_or_empty(table, "router")?)?;
    let moves = moves::moves_in(
        alloc,
        field::list_or_empty(table, "move")?,
        routers.as_slice(),
    )?;
    Ok(Scenario { routers, moves })
}
