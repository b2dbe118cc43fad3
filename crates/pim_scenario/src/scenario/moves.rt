//! Moves: the tables of the list `move`.
ghost use Rattle.std.specs.Prelude.{◌≡◌, codes, map, option_map};
ghost use Rattle.std.specs.List.{AllZip};
ghost use Rattle.std.specs.Result.{result_ok};
ghost use Rattle.toml.specs.View.{view, table_view};
ghost use Rattle.pim_scenario.specs.Fields.{number_at};
ghost use Rattle.pim_scenario.specs.Scenario.{IsCandidates, IsAdvance, IsCarry, IsDeliver, IsDown, IsEvent, IsFrame, IsKind, IsMove};
ghost use Rattle.pim_scenario.specs.Scenario.{IsReload, IsRestart, IsRoutes, IsRps, IsSettle, IsTable, IsUnicast, IsUp, bytes_at, draw_at, router_at};
ghost use Rattle.pim_scenario.specs.Texts.{Reads, ReadsExactly};

use super::{RouterText, ScenarioMove, Unread, Wrong, field, hex, places, reload, router, routes};
use pim_types::{Event, EventKind, IfaceId, Series};
use std::alloc::Global;
use toml::{Table, Value};

/// The moves that tables describe, each of one of the routers.
pub(super) fn moves_in(
    alloc: Global,
    values: &[Value],
    routers: &[RouterText],
) -> Result<Series<ScenarioMove>, Unread>
    ensures { ReadsExactly (AllZip (IsTable (IsMove routers.now)) (map view values.now)) result }
{
    let mut moves = Series::new(alloc);
    for value in values {
        moves.push(move_in(alloc, field::table_of(value)?, routers)?)?;
    }
    Ok(moves)
}

pub(super) fn move_in(
    alloc: Global,
    table: &Table,
    routers: &[RouterText],
) -> Result<ScenarioMove, Unread>
    ensures { ReadsExactly (IsMove routers.now (table_view table.now)) result }
{
    match field::text(table, "do")? {
        "deliver" => deliver_in(table, routers),
        "carry" => carry_in(table, routers),
        "settle" => settle_in(table),
        "restart" => restart_in(table, routers),
        "reload" => reload_in(alloc, table, routers),
        _ => event_in(alloc, table, routers),
    }
}

fn deliver_in(table: &Table, routers: &[RouterText]) -> Result<ScenarioMove, Unread>
    ensures { ReadsExactly (IsDeliver routers.now (table_view table.now)) result }
{
    field::only(table, &["do", "router", "draw", "iface", "frame"])?;
    Ok(ScenarioMove::Deliver {
        router: router_of(table, routers)?,
        iface: interface_in(table)?,
        frame: field::number(table, "frame")?,
        draw: draw_in(table)?,
    })
}

fn carry_in(table: &Table, routers: &[RouterText]) -> Result<ScenarioMove, Unread>
    ensures { ReadsExactly (IsCarry routers.now (table_view table.now)) result }
{
    field::only(table, &["do", "router", "draw", "frame"])?;
    Ok(ScenarioMove::Carry {
        router: router_of(table, routers)?,
        frame: field::number(table, "frame")?,
        draw: draw_in(table)?,
    })
}

fn settle_in(table: &Table) -> Result<ScenarioMove, Unread>
    ensures { ReadsExactly (IsSettle (table_view table.now)) result }
{
    field::only(table, &["do", "draw"])?;
    Ok(ScenarioMove::Settle {
        draw: draw_in(table)?,
    })
}

fn restart_in(table: &Table, routers: &[RouterText]) -> Result<ScenarioMove, Unread>
    ensures { ReadsExactly (IsRestart routers.now (table_view table.now)) result }
{
    field::only(table, &["do", "router"])?;
    Ok(ScenarioMove::Restart {
        router: router_of(table, routers)?,
    })
}

fn reload_in(alloc: Global, table: &Table, routers: &[RouterText]) -> Result<ScenarioMove, Unread>
    ensures { ReadsExactly (IsReload routers.now (table_view table.now)) result }
{
    field::only(table, &["do", "router", "draw", "config", "places"])?;
    let router = router_of(table, routers)?;
    let draw = draw_in(table)?;
    Ok(ScenarioMove::Reload {
        router,
        draw,
        next: reload::config_text_in(alloc, field::table(table, "config")?)?,
        places: places::places_in(alloc, field::list_or_empty(table, "places")?)?,
    })
}

fn event_in(alloc: Global, table: &Table, routers: &[RouterText]) -> Result<ScenarioMove, Unread>
    ensures { ReadsExactly (IsEvent routers.now (table_view table.now)) result }
{
    let kind = kind_in(alloc, table)?;
    let router = router_of(table, routers)?;
    let draw = draw_in(table)?;
    Ok(ScenarioMove::Event {
        router,
        event: Event { draw, kind },
    })
}

fn kind_in(alloc: Global, table: &Table) -> Result<EventKind, Unread>
    ensures { ReadsExactly (IsKind (table_view table.now)) result }
{
    match field::text(table, "do")? {
        "advance" => advance_in(table),
        "up" => up_in(table),
        "down" => down_in(table),
        "routes" => routes_in(alloc, table),
        "rps" => rps_in(alloc, table),
        "candidates" => candidates_in(alloc, table),
        "frame" => frame_in(alloc, table),
        "unicast" => unicast_in(alloc, table),
        _ => Err(Unread::Wrong),
    }
}

fn advance_in(table: &Table) -> Result<EventKind, Unread>
    ensures { ReadsExactly (IsAdvance (table_view table.now)) result }
{
    field::only(table, &["do", "router", "draw", "moment"])?;
    Ok(EventKind::Advance {
        moment: field::moment(table, "moment")?,
    })
}

fn up_in(table: &Table) -> Result<EventKind, Unread>
    ensures { ReadsExactly (IsUp (table_view table.now)) result }
{
    field::only(table, &["do", "router", "draw", "iface"])?;
    Ok(EventKind::Up {
        iface: interface_in(table)?,
    })
}

fn down_in(table: &Table) -> Result<EventKind, Unread>
    ensures { ReadsExactly (IsDown (table_view table.now)) result }
{
    field::only(table, &["do", "router", "draw", "iface"])?;
    Ok(EventKind::Down {
        iface: interface_in(table)?,
    })
}

fn routes_in(alloc: Global, table: &Table) -> Result<EventKind, Unread>
    ensures { ReadsExactly (IsRoutes (table_view table.now)) result }
{
    field::only(table, &["do", "router", "draw", "list"])?;
    Ok(EventKind::Routes {
        routes: routes::routes_in(alloc, field::list(table, "list")?)?,
    })
}

fn rps_in(alloc: Global, table: &Table) -> Result<EventKind, Unread>
    ensures { ReadsExactly (IsRps (table_view table.now)) result }
{
    field::only(table, &["do", "router", "draw", "list"])?;
    Ok(EventKind::Rps {
        rps: routes::rps_in(alloc, field::list(table, "list")?)?,
    })
}

fn candidates_in(alloc: Global, table: &Table) -> Result<EventKind, Unread>
    ensures { ReadsExactly (IsCandidates (table_view table.now)) result }
{
    field::only(table, &["do", "router", "draw", "list"])?;
    Ok(EventKind::RpCandidates {
        candidates: routes::candidates_in(alloc, field::list(table, "list")?)?,
    })
}

fn frame_in(alloc: Global, table: &Table) -> Result<EventKind, Unread>
    ensures { ReadsExactly (IsFrame (table_view table.now)) result }
{
    field::only(table, &["do", "router", "draw", "iface", "hex"])?;
    Ok(EventKind::Frame {
        iface: interface_in(table)?,
        bytes: bytes_in(alloc, table)?,
    })
}

fn unicast_in(alloc: Global, table: &Table) -> Result<EventKind, Unread>
    ensures { ReadsExactly (IsUnicast (table_view table.now)) result }
{
    field::only(table, &["do", "router", "draw", "hex"])?;
    Ok(EventKind::Unicast {
        bytes: bytes_in(alloc, table)?,
    })
}

fn bytes_in(alloc: Global, table: &Table) -> Result<Series<u8>, Unread>
    ensures { Reads (λ bytes. bytes) result (bytes_at (table_view table.now)) }
{
    hex::read_hex(alloc, field::text(table, "hex")?)
}

fn interface_in(table: &Table) -> Result<IfaceId, Wrong>
    ensures { option_map (λ iface. iface.number) (result_ok result)
        ≡ number_at (codes "iface") (table_view table.now) }
{
    Ok(IfaceId {
        number: field::number(table, "iface")?,
    })
}

/// The place of the router that a move names.
fn router_of(table: &Table, routers: &[RouterText]) -> Result<usize, Wrong>
    ensures { result_ok result ≡ router_at routers.now (table_view table.now) }
{
    router::place_of(routers, field::text(table, "router")?).ok_or(Wrong)
}

fn draw_in(table: &Table) -> Result<u32, Wrong>
    ensures { result_ok result ≡ draw_at (table_view table.now) }
{
    field::number_or(table, "draw", 0)
}
