//! Where the interfaces go by a reload: the texts of the list `places`.
ghost use Rattle.std.specs.Prelude.{map};
ghost use Rattle.std.specs.List.{AllZip};
ghost use Rattle.std.specs.Net.Grammar.{Parses};
ghost use Rattle.toml.specs.View.{view};
ghost use Rattle.pim_scenario.specs.Scenario.{IsPlaceText, WritesPlace};
ghost use Rattle.pim_scenario.specs.Texts.{ReadsExactly};

use super::{Unread, Wrong, address, field};
use pim_types::Series;
use std::alloc::Global;
use toml::Value;

/// The places that texts write.
pub(super) fn places_in(alloc: Global, texts: &[Value]) -> Result<Series<Option<u32>>, Unread>
    ensures { ReadsExactly (AllZip WritesPlace (map view texts.now)) result }
{
    let mut places = Series::new(alloc);
    for text in texts {
        places.push(read_place(field::text_of(text)?)?)?;
    }
    Ok(places)
}

/// A place: a number, or `none`.
fn read_place(text: &str) -> Result<Option<u32>, Wrong>
    ensures { Parses IsPlaceText text.now result }
{
    match text {
        "none" => Ok(None),
        _ => Ok(Some(address::read_number(text)?)),
    }
}
