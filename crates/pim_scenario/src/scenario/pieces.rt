//! A scenario whose moves are its last lines, each a table of its own: it is read move by move, so that the document
//! of a long scenario is never whole in memory.
ghost use Rattle.std.specs.Prelude.{◌≡◌, Some, true, IfOk, IfSome, map};
ghost use Rattle.std.specs.Bool.{OnTrue};
ghost use Rattle.std.specs.List.{list_any};
ghost use Rattle.toml.specs.Parse.{parse_document};
ghost use Rattle.toml.specs.View.{view, table_view};
ghost use Rattle.pim_scenario.specs.Pieces.{ends, is_flat, is_plain, is_table};
ghost use Rattle.pim_scenario.specs.Pieces.{BeginsHeader, BeginsLine, IsCut, IsMoveAlone, IsMoveText, SaysMoves};
ghost use Rattle.pim_scenario.specs.Scenario.{IsReadFrom};

use super::{RouterText, Scenario, ScenarioMove, Unread, field, moves, router};
use pim_types::Series;
use std::alloc::Global;
use toml::{Table, Value};

/// The scenario of a text whose moves are the last of it, each begun by a line `[[move]]`. The error is no refusal: it
/// says that the text has another form, or that memory is wanting.
pub(super) fn scenario_in(alloc: Global, text: &str) -> Result<Scenario, Unread>
    ensures { IfOk result (IsReadFrom text.now) }
{
    let Some((front, back)) = before_move(text) else {
        return Err(Unread::Wrong);
    };
    let table = document(alloc, front)?;
    field::only(&table, &["router"])?;
    let routers = router::routers_in(alloc, field::list_or_empty(&table, "router")?)?;
    let moves = read_moves_alone(alloc, back, routers.as_slice())?;
    Ok(Scenario { routers, moves })
}

/// The moves of a text that has nothing else.
fn read_moves_alone(
    alloc: Global,
    text: &str,
    routers: &[RouterText],
) -> Result<Series<ScenarioMove>, Unread>
    ensures { IfOk result (SaysMoves text.now routers.now) }
{
    let mut moves = Series::new(alloc);
    let mut rest = text;
    'moves: for _ in 0..text.len() {
        let Some(body) = after_header(rest) else {
            break;
        };
        let Some((block, next)) = before_move(body) else {
            moves.push(move_in(alloc, body, routers)?)?;
            return Ok(moves);
        };
        moves.push(move_in(alloc, block, routers)?)?;
        rest = next;
    }
    Err(Unread::Wrong)
}

/// The move of a text that is its table.
fn move_in(alloc: Global, text: &str, routers: &[RouterText]) -> Result<ScenarioMove, Unread>
    ensures { IfOk result (IsMoveAlone text.now routers.now) }
{
    let table = document(alloc, text)?;
    if !is_flat(&table) {
        return Err(Unread::Wrong);
    }
    moves::move_in(alloc, &table, routers)
}

fn document(alloc: Global, text: &str) -> Result<Table, Unread>
    ensures { IfOk result (λ t. parse_document text.now ≡ Some (table_view t)) }
{
    match toml::table_from_str(alloc, text) {
        Ok(table) => Ok(table),
        Err(error) if error.is_memory() => Err(Unread::NoMemory),
        Err(_) => Err(Unread::Wrong),
    }
}

/// The text before the next line `[[move]]`, and from it on.
fn before_move(text: &str) -> Option<(&str, &str)>
    ensures { IfSome result (λ parts. IsCut text.now parts.0.now parts.1.now) }
{
    let line = text.find("\n[[move]]\n")?;
    let (front, back) = text.split_at_checked(line.saturating_add(1))?;
    if ends_line(front) && begins_header(back) {
        Some((front, back))
    } else {
        None
    }
}

/// The text after `[[move]]`, from the end of its line on.
fn after_header(text: &str) -> Option<&str>
    ensures { IfSome result (λ rest. IsMoveText text.now rest.now) }
{
    let (header, rest) = text.split_at_checked("[[move]]".len())?;
    if header == "[[move]]" && begins_line(rest) {
        Some(rest)
    } else {
        None
    }
}

// Whether the text begins with a line break, so that what comes before it ends its line.
fn begins_line(text: &str) -> bool
    ensures { OnTrue result (BeginsLine text.now) }
{
    matches!(text.as_bytes(), [b'\n', ..])
}

// Whether the text begins with `[`, as the header of a TOML table.
fn begins_header(text: &str) -> bool
    ensures { OnTrue result (BeginsHeader text.now) }
{
    matches!(text.as_bytes(), [b'[', ..])
}

// Whether the text ends with a line break.
fn ends_line(text: &str) -> bool
    ensures { OnTrue result (ends text.now ≡ true) }
{
    let bytes = text.as_bytes();
    let length = bytes.len();
    length > 0 && bytes[length - 1] == b'\n'
}

/// Whether a table has no table in it, and no list with one.
fn is_flat(table: &Table) -> bool
    ensures { result ≡ is_flat (table_view table.now) }
{
    'values: for (_, value) in table {
        if !is_plain(value) {
            return false;
        }
    }
    true
}

// Whether a value is no table, and no list with a table in it.
fn is_plain(value: &Value) -> bool
    ensures { result ≡ is_plain (view value.now) }
{
    if is_table(value) {
        return false;
    }
    match field::list_of(value) {
        Ok(values) => !has_table(values),
        Err(_) => true,
    }
}

// Whether one of the values is a table.
fn has_table(values: &[Value]) -> bool
    ensures { result ≡ list_any is_table (map view values.now) }
{
    for value in values {
        if is_table(value) {
            return true;
        }
    }
    false
}

// Whether a value is a table.
fn is_table(value: &Value) -> bool
    ensures { result ≡ is_table (view value.now) }
{
    value.as_table().is_some()
}
