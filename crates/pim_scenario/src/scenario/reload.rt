//! Another configuration of a router: the table `config` of a move.
ghost use Rattle.std.specs.Prelude.{map};
ghost use Rattle.std.specs.List.{AllZip};
ghost use Rattle.toml.specs.View.{view, table_view};
ghost use Rattle.pim_scenario.specs.Scenario.{IsConfigText, IsTable, NamesLink};
ghost use Rattle.pim_scenario.specs.Texts.{ReadsExactly};

use super::{ConfigText, Unread, field, router, sets, standing};
use pim_types::Series;
use std::alloc::Global;
use toml::{Table, Value};

/// The configuration that a table describes.
pub(super) fn config_text_in(alloc: Global, table: &Table) -> Result<ConfigText, Unread>
    ensures { ReadsExactly (IsConfigText (table_view table.now)) result }
{
    field::only(
        table,
        &[
            "iface",
            "limit",
            "spt",
            "rv",
            "qi",
            "qri",
            "lmqi",
            "older_hosts",
            "query_version",
            "guard",
            "anycast",
            "bsr",
            "rp_limit",
            "choice",
            "candidate_bsr",
            "candidate_rp",
            "addresses",
            "routes",
            "rps",
        ],
    )?;
    let values = field::list(table, "iface")?;
    let interfaces = router::interfaces_in(alloc, values)?;
    let links = link_names_in(alloc, values)?;
    let config = router::config_in(alloc, table, interfaces)?;
    Ok(ConfigText {
        config,
        links,
        front: router::front_in(table)?,
        sets: sets::sets_in(alloc, field::list_or_empty(table, "anycast")?)?,
        standing: standing::standing_in(alloc, table)?,
    })
}

fn link_names_in(alloc: Global, values: &[Value]) -> Result<Series<String>, Unread>
    ensures { ReadsExactly (AllZip (IsTable NamesLink) (map view values.now)) result }
{
    let mut names = Series::new(alloc);
    for value in values {
        names.push(link_name_in(alloc, field::table_of(value)?)?)?;
    }
    Ok(names)
}

fn link_name_in(alloc: Global, table: &Table) -> Result<String, Unread>
    ensures { ReadsExactly (NamesLink (table_view table.now)) result }
{
    Ok(String::from_str(alloc, field::text(table, "link")?)?)
}
