//! Routers: the tables of the list `router`.
ghost use Rattle.std.specs.Prelude.{◌≡◌, IfOk, All, map};
ghost use Rattle.std.specs.List.{AllZip};
ghost use Rattle.std.specs.Result.{result_ok};
ghost use Rattle.toml.specs.View.{view, table_view};
ghost use Rattle.pim_scenario.specs.Scenario.{IsConfig, IsInterface, IsLink, IsRouter, IsTable};
ghost use Rattle.pim_scenario.specs.Scenario.{names_after, bsr_at, choice_at, front_at, guard_at, older_hosts_at, place_of, query_version_at, rp_limit_at, spt_switch_at, IsNumbered};
ghost use Rattle.pim_scenario.specs.Scenario.{HasNumbered, AreRouters};
ghost use Rattle.pim_scenario.specs.Texts.{ReadsExactly};
ghost use Rattle.pim_scenario.specs.Links.{names_in};

use super::links::LinkNames;
use super::{
    FrontText, Link, RouterText, Scenario, Unread, Wrong, address, field, routes, sets, standing,
};
use igmp_older::{OlderHosts, QueryVersion};
use pim_bsr::Choice;
use pim_types::{Config, InterfaceConfig, Series, SptSwitch};
use std::alloc::Global;
use toml::{Table, Value};

/// The routers that tables describe: at most 64, no two of one name.
pub(super) fn routers_in(alloc: Global, values: &[Value]) -> Result<Series<RouterText>, Unread>
    ensures { ReadsExactly (AreRouters (map view values.now)) result }
{
    if values.len() > Scenario::ROUTER_LIMIT {
        return Err(Unread::Wrong);
    }
    let mut routers: Series<RouterText> = Series::new(alloc);
    let mut links = LinkNames::new(alloc);
    for value in values {
        let router = router_in(alloc, field::table_of(value)?, &mut links)?;
        if place_of(routers.as_slice(), router.name.as_str()).is_some() {
            return Err(Unread::Wrong);
        }
        routers.push(router)?;
    }
    Ok(routers)
}

/// The place of the router of that name.
pub(super) fn place_of(routers: &[RouterText], name: &str) -> Option<usize>
    ensures { result ≡ place_of routers.now name.now }
{
    routers
        .iter()
        .position(|router| router.name.as_str() == name)
}

fn router_in<'a>(
    alloc: Global,
    table: &'a Table,
    names: &mut LinkNames<'a>,
) -> Result<RouterText, Unread>
    ensures router { ReadsExactly (IsRouter (table_view table.entry.now)) result }
    ensures names { IfOk result (λ router.
        names_in names.new ≡ names_after (names_in names.old) router.links) }
    ensures numbered { IfOk result (HasNumbered (names_in names.new)) }
{
    field::only(
        table,
        &[
            "name",
            "iface",
            "limit",
            "spt",
            "rv",
            "qi",
            "qri",
            "lmqi",
            "older_hosts",
            "query_version",
            "guard",
            "anycast",
            "bsr",
            "rp_limit",
            "choice",
            "candidate_bsr",
            "candidate_rp",
            "addresses",
            "routes",
            "rps",
        ],
    )?;
    let name = String::from_str(alloc, field::text(table, "name")?)?;
    let values = field::list(table, "iface")?;
    let interfaces = interfaces_in(alloc, values)?;
    let links = links_in(alloc, values, names)?;
    let config = config_in(alloc, table, interfaces)?;
    Ok(RouterText {
        name,
        config,
        links,
        front: front_in(table)?,
        sets: sets::sets_in(alloc, field::list_or_empty(table, "anycast")?)?,
        standing: standing::standing_in(alloc, table)?,
    })
}

pub(super) fn interfaces_in(
    alloc: Global,
    values: &[Value],
) -> Result<Series<InterfaceConfig>, Unread>
    ensures { ReadsExactly (AllZip (IsTable IsInterface) (map view values.now)) result }
{
    let mut interfaces = Series::new(alloc);
    for value in values {
        interfaces.push(interface_in(field::table_of(value)?)?)?;
    }
    Ok(interfaces)
}

fn links_in<'a>(
    alloc: Global,
    values: &'a [Value],
    names: &mut LinkNames<'a>,
) -> Result<Series<Link>, Unread>
    ensures links { ReadsExactly (AllZip (IsTable IsLink) (map view values.entry.now)) result }
    ensures names { IfOk result (λ links. names_in names.new ≡ names_after (names_in names.old) links) }
    ensures numbered { IfOk result (All (IsNumbered (names_in names.new))) }
{
    let mut links = Series::new(alloc);
    for value in values {
        let name = field::text(field::table_of(value)?, "link")?;
        links.push(names.link(alloc, name)?)?;
    }
    Ok(links)
}

pub(super) fn config_in(
    alloc: Global,
    table: &Table,
    interfaces: Series<InterfaceConfig>,
) -> Result<Config, Unread>
    ensures given { IfOk result (λ config. config.interfaces ≡ interfaces) }
    ensures read { ReadsExactly (IsConfig (table_view table.now)) result }
{
    Ok(Config {
        interfaces,
        limit: field::number_or(table, "limit", Config::DEFAULT_LIMIT)?,
        spt: spt_switch_in(table)?,
        robustness: field::number_or(table, "rv", Config::DEFAULT_ROBUSTNESS)?,
        query_interval: field::number_or(table, "qi", Config::DEFAULT_QUERY_INTERVAL)?,
        query_response_interval: field::number_or(
            table,
            "qri",
            Config::DEFAULT_QUERY_RESPONSE_INTERVAL,
        )?,
        last_member_query_interval: field::number_or(
            table,
            "lmqi",
            Config::DEFAULT_LAST_MEMBER_QUERY_INTERVAL,
        )?,
        addresses: routes::addresses_in(alloc, field::list_or_empty(table, "addresses")?)?,
        routes: routes::routes_in(alloc, field::list_or_empty(table, "routes")?)?,
        rps: routes::rps_in(alloc, field::list_or_empty(table, "rps")?)?,
    })
}

fn spt_switch_in(table: &Table) -> Result<SptSwitch, Wrong>
    ensures { result_ok result ≡ spt_switch_at (table_view table.now) }
{
    match field::optional_text(table, "spt")? {
        None | Some("always") => Ok(SptSwitch::Always),
        Some("never") => Ok(SptSwitch::Never),
        Some(_) => Err(Wrong),
    }
}

/// What a table says of what stands before its router.
pub(super) fn front_in(table: &Table) -> Result<FrontText, Wrong>
    ensures { result_ok result ≡ front_at (table_view table.now) }
{
    Ok(FrontText {
        older_hosts: older_hosts_in(table)?,
        query_version: query_version_in(table)?,
        guard: guard_in(table)?,
        bsr: bsr_in(table)?,
        rp_limit: rp_limit_in(table)?,
        choice: choice_in(table)?,
    })
}

fn older_hosts_in(table: &Table) -> Result<OlderHosts, Wrong>
    ensures { result_ok result ≡ older_hosts_at (table_view table.now) }
{
    match field::optional_text(table, "older_hosts")? {
        None | Some("none") => Ok(OlderHosts::Nobody),
        Some("v2") => Ok(OlderHosts::VersionTwo),
        Some("all") => Ok(OlderHosts::All),
        Some(_) => Err(Wrong),
    }
}

fn query_version_in(table: &Table) -> Result<QueryVersion, Wrong>
    ensures { result_ok result ≡ query_version_at (table_view table.now) }
{
    match field::number_or(table, "query_version", 3)? {
        2 => Ok(QueryVersion::Two),
        3 => Ok(QueryVersion::Three),
        _ => Err(Wrong),
    }
}

fn guard_in(table: &Table) -> Result<bool, Wrong>
    ensures { result_ok result ≡ guard_at (table_view table.now) }
{
    match field::optional_text(table, "guard")? {
        None | Some("off") => Ok(false),
        Some("on") => Ok(true),
        Some(_) => Err(Wrong),
    }
}

/// Whether a table has its router hear Bootstraps.
pub(super) fn bsr_in(table: &Table) -> Result<bool, Wrong>
    ensures { result_ok result ≡ bsr_at (table_view table.now) }
{
    field::flag_or(table, "bsr", false)
}

fn rp_limit_in(table: &Table) -> Result<u32, Wrong>
    ensures { result_ok result ≡ rp_limit_at (table_view table.now) }
{
    match field::number_or(table, "rp_limit", FrontText::MOST_RPS)? {
        limit @ 1..=FrontText::MOST_RPS => Ok(limit),
        _ => Err(Wrong),
    }
}

fn choice_in(table: &Table) -> Result<Choice, Wrong>
    ensures { result_ok result ≡ choice_at (table_view table.now) }
{
    match field::optional_text(table, "choice")? {
        None | Some("range") => Ok(Choice::Range),
        Some("group") => Ok(Choice::Group),
        Some(_) => Err(Wrong),
    }
}

fn interface_in(table: &Table) -> Result<InterfaceConfig, Unread>
    ensures { ReadsExactly (IsInterface (table_view table.now)) result }
{
    field::only(
        table,
        &["link", "address", "priority", "propagation", "override"],
    )?;
    let subnet = address::read_prefix(field::text(table, "address")?)?;
    Ok(InterfaceConfig {
        address: subnet.address,
        length: subnet.length,
        priority: field::number_or(table, "priority", InterfaceConfig::DEFAULT_PRIORITY)?,
        propagation_delay: field::number_or(
            table,
            "propagation",
            InterfaceConfig::DEFAULT_PROPAGATION_DELAY,
        )?,
        override_interval: field::number_or(
            table,
            "override",
            InterfaceConfig::DEFAULT_OVERRIDE_INTERVAL,
        )?,
    })
}
