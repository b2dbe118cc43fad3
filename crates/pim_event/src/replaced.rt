//! The routes or the RP ranges that an event replaced. Their table is kept until the next event: by it is told of which
//! sources the routes are others.
ghost use Rattle.law_events.specs.Named.{has_same_routes};
ghost use Rattle.pim_event.specs.Replacing.{NoneReplaced, RangesReplaced, RoutesReplaced, may_differ, with_table};
ghost use Rattle.pim_rerouted.specs.OtherRoutes.{with_routes};
ghost use Rattle.std.specs.Prelude.{◌≡◌, if◌then◌else◌, not};

use pim_fanout::Disturbed;
use pim_mrib::Mrib;
use pim_rerouted::{group_has_other_rp, has_other_route, is_group_moved};
use pim_state::{Meter, World};
use pim_types::SourceGroup;
use std::marker::Model;

// The table of what was replaced.
#[derive(Drop)]
enum Kept {
    Nothing,
    Routes(Mrib),
    Ranges(Mrib),
}

/// The routes or the RP ranges that the last event replaced, if it did. It holds their table, whose memory is free again
/// after `clear`.
#[derive(Drop)]
pub struct Replaced {
    kept: Kept,
}

impl Model for Replaced {
    ghost use Rattle.pim_event.specs.Replacing.{Replaced as ReplacedValue, replaced_in};

    ghost Value = { ReplacedValue };

    ghost view = { λ r. replaced_in r.kept };
}

// Whether RP(G), the route to it or the route to S is another one by these routes.
fn has_other_by_routes(world: &World, meter: &mut Meter, routes: &Mrib, name: SourceGroup) -> bool
    ensures { result ≡ not (has_same_routes name.group.bits name.source.bits world.now
        (with_routes world.now routes.now.routes)) }
{
    if is_group_moved(world, meter, routes, name.group) {
        return true;
    }
    has_other_route(world, meter, routes, name.source)
}

// Whether RP(G) or the route to it is another one by these RP ranges. The route to S isn't.
fn has_other_by_ranges(world: &World, meter: &mut Meter, ranges: &Mrib, name: SourceGroup) -> bool
    ensures { result ≡ not (has_same_routes name.group.bits name.source.bits world.now
        (with_table world.now ranges.now.ranges)) }
{
    group_has_other_rp(world, meter, ranges, name.group)
}

impl Replaced {
    /// Nothing was replaced.
    pub fn none() -> Replaced
        ensures { result ≡ NoneReplaced }
    {
        Replaced {
            kept: Kept::Nothing,
        }
    }

    /// Begins an event, which has replaced nothing yet.
    pub fn clear(&mut self)
        ensures { self.new ≡ NoneReplaced }
    {
        self.kept = Kept::Nothing;
    }

    /// Counts nothing as replaced if `is_so` is true.
    pub(crate) fn clear_if(&mut self, is_so: bool)
        ensures { self.new ≡ (if is_so then NoneReplaced else self.old) }
    {
        if is_so {
            self.clear();
        }
    }

    /// Keeps the routes of the table, which were replaced.
    pub(crate) fn keep_routes(&mut self, before: Mrib)
        ensures { self.new ≡ RoutesReplaced before.routes }
    {
        self.kept = Kept::Routes(before);
    }

    /// Keeps the RP ranges of the table, which were replaced.
    pub(crate) fn keep_ranges(&mut self, before: Mrib)
        ensures { self.new ≡ RangesReplaced before.ranges }
    {
        self.kept = Kept::Ranges(before);
    }

    /// Whether what is offered of the source may differ from what was offered before the last event, which replaced
    /// these and disturbed those. The meter rises by the nodes that lead to RP(G), to the route there and to the route
    /// to S, in both tables, where a table is kept; else nothing is looked up.
    #[tactic(auto, unfolding(crate::specs::Replacing::may_differ, crate::specs::Replacing::differs_by))]
    pub fn may_differ(
        &self,
        disturbed: &Disturbed,
        world: &World,
        name: SourceGroup,
        meter: &mut Meter,
    ) -> bool
        ensures { result ≡ may_differ (record { touched = disturbed.now; replaced = self.now }) world.now
            name.group.bits name.source.bits }
    {
        match &self.kept {
            Kept::Nothing => disturbed.holds(name),
            Kept::Routes(routes) => has_other_by_routes(world, meter, routes, name),
            Kept::Ranges(ranges) => has_other_by_ranges(world, meter, ranges, name),
        }
    }
}
