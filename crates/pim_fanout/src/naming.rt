//! Which of the touched sources have an outdated row in the forwarding cache: they are named, and their rows evaluated
//! again.
ghost use Rattle.std.specs.Prelude.{◌≡◌, IfOk, IfSome, filter, map};
ghost use Rattle.pim_fanout.specs.Before.{AreBefore, IsBefore, IsSourceBefore, IsKnown, key_before, seen_key};
ghost use Rattle.pim_fanout.specs.Named.{is_changed, keys_of, named_among};
ghost use Rattle.pim_macros.specs.Sights.{IsSourceSight};
ghost use Rattle.pim_model.specs.State.{State};
ghost use Rattle.pim_views.specs.After.{AreAfter, AreGathered};
ghost use Rattle.pim_state.specs.declared.touched.Touched.{Touched};

use crate::before::{Before, KnownSource, SourceBefore, compared_by_sight, has_fact, sight_of};
use crate::compare::is_same_source;
use pim_macros::{SourceSight, StarSight};
use pim_state::{Meter, World};
use pim_types::{Series, SourceGroup};
use pim_views::{GroupAfter, SourceAfter};
use std::alloc::{AllocError, Global};

// Whether a source that had a fact has none now, or differs in what is compared.
fn differs(known: &KnownSource, after: &SourceBefore) -> bool
    ensures { (o a : State) → IsKnown o known.now → IsSourceBefore a after.now
        → key_before after.now ≡ seen_key known.now.sight → result ≡ is_changed o a (seen_key known.now.sight) }
{
    match after {
        SourceBefore::Unknown(_) => true,
        SourceBefore::Known(after) => !is_same_source(known, after),
    }
}

// Whether a source with a fact has changed, by the sight at hand if it is of this source, else by one that is gathered.
fn has_changed(
    world: &World,
    meter: &mut Meter,
    sight: Option<SourceSight>,
    known: &KnownSource,
) -> bool
    requires { IfSome sight (IsSourceSight world.now) }
    ensures { (o : State) → IsKnown o known.now → result ≡ is_changed o world.now (seen_key known.now.sight) }
{
    let sight = sight_of(world, known.name(), sight.as_ref(), meter);
    differs(known, &compared_by_sight(world, &sight))
}

// Whether a source's row is outdated, by the sight at hand.
fn is_outdated_at_hand(
    world: &World,
    meter: &mut Meter,
    sight: Option<SourceSight>,
    before: &SourceBefore,
) -> bool
    requires { IfSome sight (IsSourceSight world.now) }
    ensures { (o : State) → IsSourceBefore o before.now
        → result ≡ is_changed o world.now (key_before before.now) }
{
    match before {
        SourceBefore::Unknown(new) => has_fact(world, *new),
        SourceBefore::Known(known) => has_changed(world, meter, sight, known),
    }
}

// The sight at the place, where there is one.
fn sight_at(
    world: &World,
    star: &StarSight,
    sources: &[SourceAfter],
    at: usize,
) -> Option<SourceSight>
    requires { AreAfter world.now star.now sources.now }
    ensures { IfSome result (IsSourceSight world.now) }
{
    if at < sources.len() {
        Some(sources[at].sight)
    } else {
        None
    }
}

// The given sources whose rows of the cache are outdated, by the sights of one group.
fn outdated_among_by_sights(
    world: &World,
    alloc: Global,
    meter: &mut Meter,
    sources: &[SourceBefore],
    star: &StarSight,
    after: &[SourceAfter],
) -> Result<Vec<SourceGroup>, AllocError>
    requires { AreAfter world.now star.now after.now }
    ensures { IfOk result (λ names. (o : State) → AreBefore o sources.now
        → keys_of names.items ≡ filter (is_changed o world.now) (map key_before sources.now)) }
{
    let mut names = Vec::new(alloc);
    for (at, source) in sources.iter().enumerate() {
        let sight = sight_at(world, star, after, at);
        if is_outdated_at_hand(world, meter, sight, source) {
            names.push(source.name())?;
        }
    }
    Ok(names)
}

/// The sources that `named` gives where one group alone was opened, by the sights of the group's sources in the world
/// as clearing left it. The sights are in the same order as the sources, so none is gathered again. The meter rises by
/// the nodes visited.
#[tactic(auto, unfolding(crate::specs::Named::named_among))]
pub fn named_by_sights(
    world: &World,
    alloc: Global,
    meter: &mut Meter,
    before: &Before,
    star: &StarSight,
    after: &[SourceAfter],
) -> Result<Series<SourceGroup>, AllocError>
    requires { AreAfter world.now star.now after.now }
    ensures { IfOk result (λ names. (o : State) (touched : Touched) → IsBefore o touched before.now
        → keys_of names ≡ named_among o world.now touched) }
{
    let names = outdated_among_by_sights(world, alloc, meter, before.sources(), star, after)?;
    Ok(Series::from_vec(names))
}

// A place among the sources of groups: the group's, and the source's in it.
#[derive(Clone, Copy)]
struct Place {
    group: usize,
    source: usize,
}

// The sight of the source at the place, where there is one.
fn sight_there(world: &World, seen: &[GroupAfter], at: Place) -> Option<SourceSight>
    requires { AreGathered world.now seen.now }
    ensures { IfSome result (IsSourceSight world.now) }
{
    if at.group < seen.len() {
        let group = &seen[at.group];
        sight_at(world, &group.star, group.sources.as_slice(), at.source)
    } else {
        None
    }
}

// The place itself if a source is there, else the first after it that has one.
fn place_from(seen: &[GroupAfter], at: Place) -> Place {
    let mut source = at.source;
    for group in at.group..seen.len() {
        if source < seen[group].sources.len() {
            return Place { group, source };
        }
        source = 0;
    }
    Place {
        group: seen.len(),
        source: 0,
    }
}

// The place that follows in the same group.
fn place_after(at: Place) -> Place {
    Place {
        group: at.group,
        source: at.source.saturating_add(1),
    }
}

// The given sources whose rows of the cache are outdated, by the sights of all touched groups.
fn outdated_among_groups(
    world: &World,
    alloc: Global,
    meter: &mut Meter,
    sources: &[SourceBefore],
    seen: &[GroupAfter],
) -> Result<Vec<SourceGroup>, AllocError>
    requires { AreGathered world.now seen.now }
    ensures { IfOk result (λ names. (o : State) → AreBefore o sources.now
        → keys_of names.items ≡ filter (is_changed o world.now) (map key_before sources.now)) }
{
    let mut names = Vec::new(alloc);
    let mut at = Place {
        group: 0,
        source: 0,
    };
    for source in sources {
        let here = place_from(seen, at);
        if is_outdated_at_hand(world, meter, sight_there(world, seen, here), source) {
            names.push(source.name())?;
        }
        at = place_after(here);
    }
    Ok(names)
}

/// The sources, ordered by group, then by source, whose rows are to be evaluated again where the world is as clearing
/// left it. A source is named if it had a fact and has none, or the other way round; or if it has one, and something
/// differs of what its macros read, of CouldRegister(S,G) with KAT(S,G) or without it, of the register state, or of
/// JoinDesired(S,G). What is compared is what was gathered of the touched groups in this world: it is in the order of
/// the sources, so none is gathered again. The meter rises by the nodes visited. The error is want of memory.
#[tactic(auto, unfolding(crate::specs::Named::named_among))]
pub fn named(
    world: &World,
    alloc: Global,
    meter: &mut Meter,
    before: &Before,
    seen: &[GroupAfter],
) -> Result<Series<SourceGroup>, AllocError>
    requires { AreGathered world.now seen.now }
    ensures { IfOk result (λ names. (o : State) (touched : Touched) → IsBefore o touched before.now
        → keys_of names ≡ named_among o world.now touched) }
{
    let names = outdated_among_groups(world, alloc, meter, before.sources(), seen)?;
    Ok(Series::from_vec(names))
}
