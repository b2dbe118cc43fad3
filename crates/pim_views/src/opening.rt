//! What the machines compare, as it is at the opening of an event.
ghost use Rattle.std.specs.Prelude.{◌≡◌, ◌∷◌, [], IfSome, false};
ghost use Rattle.pim_views.specs.Openings.{is_whole};

use crate::sources;
use pim_state::Touched;
use pim_types::{Addr, Series, SourceView, StarView};
use std::marker::Model;

/// A touched source of a group.
#[derive(Clone, Copy)]
pub struct SourceOpening {
    pub source: Addr,
    /// Whether the source has any fact.
    pub has_facts: bool,
    /// What the machines of (S,G) and (S,G,rpt) compare.
    pub view: SourceView,
}

/// A touched group, and its touched sources, ascending.
#[derive(Drop)]
pub struct GroupOpening {
    pub group: Addr,
    /// Whether all of the group is touched: (*,G), and with it all its sources.
    pub is_whole: bool,
    /// What the machine of (*,G) compares.
    pub star: StarView,
    pub sources: Series<SourceOpening>,
}

/// The touched groups, ascending, as they were at the opening.
#[derive(Drop)]
pub struct Opening {
    groups: Vec<GroupOpening>,
}

impl Model for Opening {
    ghost use Rattle.std.specs.Prelude.{List};
    ghost use Rattle.pim_views.specs.declared.opening.GroupOpening.{GroupOpening};

    ghost Value = { List GroupOpening };

    ghost view = { λ o. o.groups.items };
}

impl Opening {
    /// The opening of the given groups.
    pub fn new(groups: Vec<GroupOpening>) -> Opening
        ensures { result ≡ groups.items }
    {
        Opening { groups }
    }

    /// The group whose one source is all that is touched, where it is so.
    pub fn only_source(&self) -> Option<(&GroupOpening, SourceOpening)>
        ensures { IfSome result (λ only. (self.now ≡ (only.0).now ∷ []) × ((only.0).now.is_whole ≡ false)
            × ((only.0).now.sources ≡ only.1 ∷ [])) }
    {
        let [group] = self.groups.as_slice() else {
            return None;
        };
        match group.sources.as_slice() {
            [source] if !group.is_whole => Some((group, *source)),
            _ => None,
        }
    }

    /// The touched groups.
    pub fn groups(&self) -> &[GroupOpening]
        ensures { result.now ≡ self.now }
    {
        self.groups.as_slice()
    }
}

/// Whether all of the group is touched.
#[tactic(auto, unfolding(crate::specs::Openings::is_whole))]
pub fn is_whole(touched: &Touched, group: Addr) -> bool
    ensures { result ≡ is_whole touched.now group.bits }
{
    match touched {
        Touched::All => true,
        Touched::Keys(keys) => sources::is_whole(keys.as_slice(), group),
    }
}
