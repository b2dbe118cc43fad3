//! What an event touches, as it is before the event's own change: gathered once, for the machines and for the
//! forwarding cache.
ghost use Rattle.std.specs.List.{flat_map};
ghost use Rattle.std.specs.List.Sorted.{IsNonDecreasingBy, IsPermutation};
ghost use Rattle.std.specs.Prelude.{◌≡◌, ◌++◌, ◌∷◌, [], true, None, IfOk, IfSome, OnOk, filter, map};
ghost use Rattle.pim_fanout.specs.Alone.{TouchesAlone, opening_alone};
ghost use Rattle.pim_fanout.specs.Grouped.{IsGrouped, TouchAlike};
ghost use Rattle.pim_fanout.specs.Before.{AreBefore, IsBefore, IsSourceBefore, IsKnown, key_before, name_key, seen_key};
ghost use Rattle.pim_macros.specs.Sights.{IsSourceSight, IsStarSight};
ghost use Rattle.pim_model.specs.Sets.{register_state};
ghost use Rattle.pim_model.specs.Tables.{has_row};
ghost use Rattle.pim_views.specs.Openings.{group_opening, is_whole, opening_of, source_opening, touched_sources};
ghost use Rattle.pim_types.specs.Keys.{group_in, is_of_group, source_key};
ghost use Rattle.pim_state.specs.Groups.{numbers_of};
ghost use Rattle.pim_state.specs.declared.touched.Touched.{Touched as TouchedKeys};

use pim_macros::{SourceSight, StarSight};
use pim_state::{Meter, Touched, World};
use pim_types::fact::RegisterState;
use pim_types::{Addr, Key, Series, SourceGroup};
use pim_views::{
    GroupOpening, Opening, SourceOpening, is_whole, is_whole_by, sources_by_keys, touched_sources,
};
use std::alloc::{AllocError, Global};
use std::collections::BTreeMap;
use std::marker::Model;

/// What is compared of a source that has a fact.
#[derive(Clone, Copy)]
pub struct KnownSource {
    /// What its macros read.
    pub sight: SourceSight,
    /// CouldRegister(S,G) without regard to KAT(S,G).
    pub may_register: bool,
    /// CouldRegister(S,G).
    pub could_register: bool,
    /// The register state of (S,G), where that isn't NoInfo.
    pub register: Option<RegisterState>,
    /// JoinDesired(S,G).
    pub is_desired: bool,
}

/// A touched source. Nothing is gathered of a source that has no fact.
#[derive(Clone, Copy)]
pub enum SourceBefore {
    Unknown(SourceGroup),
    Known(KnownSource),
}

/// The touched sources, as they are compared for the forwarding cache, by group, then by source.
#[derive(Drop)]
pub struct Before {
    sources: Series<SourceBefore>,
}

impl Model for Before {
    ghost use Rattle.std.specs.Prelude.{List};
    ghost use Rattle.pim_fanout.specs.declared.before.SourceBefore.{SourceBefore};

    ghost Value = { List SourceBefore };

    ghost view = { λ b. b.sources };
}

/// What an event touches, as it was before its own change.
#[derive(Drop)]
pub struct Gathered {
    /// The touched groups and sources, as the machines compare them.
    pub opening: Opening,
    pub before: Before,
}

impl KnownSource {
    /// The source and group that it is of.
    pub fn name(&self) -> SourceGroup
        ensures { name_key result ≡ seen_key self.now.sight }
    {
        self.sight.name()
    }
}

impl SourceBefore {
    /// The source and group that it is of.
    pub fn name(&self) -> SourceGroup
        ensures { name_key result ≡ key_before self.now }
    {
        match self {
            SourceBefore::Unknown(name) => *name,
            SourceBefore::Known(known) => known.name(),
        }
    }
}

impl Before {
    /// The sources.
    pub(crate) fn sources(&self) -> &[SourceBefore]
        ensures { result.now ≡ self.now }
    {
        self.sources.as_slice()
    }
}

impl Gathered {
    /// What the event touches, in the present state: one sight is gathered of each touched group and source. The sight
    /// that is given, if there is one, is taken for its source where that alone is touched. The meter rises by the nodes
    /// visited.
    pub fn of(
        world: &World,
        alloc: Global,
        touched: &Touched,
        given: Option<&SourceSight>,
        meter: &mut Meter,
    ) -> Result<Gathered, AllocError>
        requires { IfSome given (λ sight. IsSourceSight world.now sight.now) }
        ensures opening { IfOk result (λ gathered. gathered.opening ≡ opening_of world.now touched.now) }
        ensures before { IfOk result (λ gathered. IsBefore world.now touched.now gathered.before) }
    {
        match only_source(touched) {
            Some(name) => {
                let gathered = gather_source(world, alloc, name, given, meter)?;
                Ok(gathered)
            }
            None => gather_groups(world, alloc, touched, meter),
        }
    }
}

// The key that is touched, if it is the only one.
fn only_key(touched: &Touched) -> Option<Key>
    ensures { IfSome result (λ key. touched.now ≡ TouchedKeys.Keys (key ∷ [])) }
{
    let Touched::Keys(keys) = touched else {
        return None;
    };
    match keys.as_slice() {
        [key] => Some(*key),
        _ => None,
    }
}

// The source that is touched, if it is the only one. The key of source 0.0.0.0 touches all of its group.
fn only_source(touched: &Touched) -> Option<SourceGroup>
    ensures { IfSome result (TouchesAlone touched.now) }
{
    let key = only_key(touched)?;
    if key.address() == Addr::NONE {
        None
    } else {
        Some(key.name())
    }
}

// The list of one value, with no room for more.
fn alone<T: Drop>(alloc: Global, value: T) -> Result<Vec<T>, AllocError>
    ensures { IfOk result (λ list. list.items ≡ value ∷ []) }
{
    let mut list = Vec::with_capacity(alloc, 1)?;
    list.push(value)?;
    Ok(list)
}

/// The sight of a source: the given one if it is of this source, else a new one. The meter rises by the nodes visited.
pub(crate) fn sight_of(
    world: &World,
    name: SourceGroup,
    given: Option<&SourceSight>,
    meter: &mut Meter,
) -> SourceSight
    requires { IfSome given (λ sight. IsSourceSight world.now sight.now) }
    ensures sight { IsSourceSight world.now result }
    ensures group { result.star.group ≡ name.group }
    ensures source { result.source ≡ name.source }
{
    match given {
        Some(sight) if sight.star.group == name.group && sight.source == name.source => *sight,
        _ => SourceSight::with_star(world, name, meter),
    }
}

// Gathers one source alone, without ordering anything.
fn gather_source(
    world: &World,
    alloc: Global,
    name: SourceGroup,
    given: Option<&SourceSight>,
    meter: &mut Meter,
) -> Result<Gathered, AllocError>
    requires { IfSome given (λ sight. IsSourceSight world.now sight.now) }
    ensures opening { IfOk result (λ gathered. gathered.opening ≡ opening_alone world.now name ∷ []) }
    ensures keys { IfOk result (λ gathered. map key_before gathered.before ≡ name_key name ∷ []) }
    ensures each { IfOk result (λ gathered. AreBefore world.now gathered.before) }
{
    let sight = sight_of(world, name, given, meter);
    let group = GroupOpening {
        group: name.group,
        is_whole: false,
        star: sight.star.view(),
        sources: Series::from_vec(alone(alloc, opened_by_sight(world, &sight, meter))?),
    };
    let before = alone(alloc, compared_by_sight(world, &sight))?;
    Ok(Gathered {
        opening: Opening::new(alone(alloc, group)?),
        before: Before {
            sources: Series::from_vec(before),
        },
    })
}

// Gathers what is touched, group after group. The keys of many groups are put in the order of their groups first, so that
// each group finds its own by a search.
fn gather_groups(
    world: &World,
    alloc: Global,
    touched: &Touched,
    meter: &mut Meter,
) -> Result<Gathered, AllocError>
    ensures opening { IfOk result (λ gathered. gathered.opening ≡ opening_of world.now touched.now) }
    ensures before { IfOk result (λ gathered. IsBefore world.now touched.now gathered.before) }
{
    match grouped(alloc, touched)? {
        Some(grouped) => gather_grouped(world, alloc, &grouped, meter),
        None => gather_grouped(world, alloc, touched, meter),
    }
}

// What is touched, with its keys in the order of their groups, unless they are so by being few.
fn grouped(alloc: Global, touched: &Touched) -> Result<Option<Touched>, AllocError>
    ensures grouped { IfOk result (λ found. IfSome found (λ sorted. IsGrouped sorted)) }
    ensures alike { IfOk result (λ found. IfSome found (λ sorted. TouchAlike sorted touched.now)) }
    ensures few { IfOk result (λ found. found ≡ None → IsGrouped touched.now) }
{
    match touched {
        Touched::All => Ok(None),
        Touched::Keys(keys) => {
            if keys.len() < 2 {
                return Ok(None);
            }
            let sorted = by_group(alloc, keys.as_slice())?;
            Ok(Some(Touched::Keys(Series::from_vec(sorted))))
        }
    }
}

// The keys in the order of their groups.
fn by_group(alloc: Global, keys: &[Key]) -> Result<Vec<Key>, AllocError>
    ensures same { IfOk result (λ sorted. IsPermutation keys.now sorted.items) }
    ensures order { IfOk result (λ sorted. IsNonDecreasingBy group_in sorted.items) }
{
    let mut sorted = Vec::with_capacity(alloc, keys.len())?;
    sorted.extend_from_slice(keys)?;
    sorted.sort_unstable_by_key(|key| key.group.bits);
    Ok(sorted)
}

// Gathers what is touched, group after group, where the keys are in the order of their groups.
fn gather_grouped(
    world: &World,
    alloc: Global,
    touched: &Touched,
    meter: &mut Meter,
) -> Result<Gathered, AllocError>
    requires { IsGrouped touched.now }
    ensures opening { IfOk result (λ gathered. gathered.opening ≡ opening_of world.now touched.now) }
    ensures before { IfOk result (λ gathered. IsBefore world.now touched.now gathered.before) }
{
    let mut groups = BTreeMap::new(alloc);
    world.gather_touched(touched, &mut groups, meter)?;
    let mut before = Vec::new(alloc);
    let groups = open_groups(world, alloc, touched, &groups, meter, &mut before)?;
    Ok(Gathered {
        opening: Opening::new(groups),
        before: Before {
            sources: Series::from_vec(before),
        },
    })
}

// Opens the given groups. Their sources, as they are compared, are added at the end of the list.
fn open_groups(
    world: &World,
    alloc: Global,
    touched: &Touched,
    groups: &BTreeMap<Addr, (), Global>,
    meter: &mut Meter,
    before: &mut Vec<SourceBefore>,
) -> Result<Vec<GroupOpening>, AllocError>
    requires grouped { IsGrouped touched.now }
    requires before { AreBefore world.now before.old.items }
    ensures opened { IfOk result (λ opened. opened.items
        ≡ map (group_opening world.now touched.now) (numbers_of groups.now.entries)) }
    ensures keys { OnOk result (map key_before before.new.items ≡ map key_before before.old.items
        ++ flat_map (λ g. map (source_key 0 g) (touched_sources world.now touched.now g))
        (numbers_of groups.now.entries)) }
    ensures each { OnOk result (AreBefore world.now before.new.items) }
{
    let mut opened = Vec::new(alloc);
    for (group, ()) in groups.iter() {
        opened.push(open_group(world, alloc, touched, *group, meter, before)?)?;
    }
    Ok(opened)
}

// The keys of the group, of keys in the order of their groups.
fn keys_of(keys: &[Key], group: Addr) -> &[Key]
    requires { IsNonDecreasingBy group_in keys.now }
    ensures { filter (is_of_group group.bits) result.now ≡ filter (is_of_group group.bits) keys.now }
{
    up_to(from(keys, group), group)
}

// The keys without those of lower groups.
fn from(keys: &[Key], group: Addr) -> &[Key]
    requires { IsNonDecreasingBy group_in keys.now }
    ensures kept { filter (is_of_group group.bits) result.now ≡ filter (is_of_group group.bits) keys.now }
    ensures order { IsNonDecreasingBy group_in result.now }
{
    let first = keys.partition_point(|key| key.group.bits < group.bits);
    &keys[first..]
}

// The keys without those of higher groups.
fn up_to(keys: &[Key], group: Addr) -> &[Key]
    requires { IsNonDecreasingBy group_in keys.now }
    ensures { filter (is_of_group group.bits) result.now ≡ filter (is_of_group group.bits) keys.now }
{
    let count = keys.partition_point(|key| key.group.bits <= group.bits);
    &keys[..count]
}

// Whether all of the group is touched, where the keys are in the order of their groups.
fn is_whole_of(touched: &Touched, group: Addr) -> bool
    requires { IsGrouped touched.now }
    ensures { result ≡ is_whole touched.now group.bits }
{
    match touched {
        Touched::All => is_whole(touched, group),
        Touched::Keys(keys) => is_whole_by(keys_of(keys.as_slice(), group), group),
    }
}

// The sources of the group that are touched, where the keys are in the order of their groups.
fn sources_of(
    alloc: Global,
    world: &World,
    touched: &Touched,
    group: Addr,
    meter: &mut Meter,
) -> Result<BTreeMap<Addr, (), Global>, AllocError>
    requires { IsGrouped touched.now }
    ensures { IfOk result (λ found. numbers_of found.entries ≡ touched_sources world.now touched.now group.bits) }
{
    match touched {
        Touched::All => {
            let found = touched_sources(alloc, world, touched, group, meter)?;
            Ok(found)
        }
        Touched::Keys(keys) => {
            let found = sources_by_keys(
                alloc,
                world,
                keys_of(keys.as_slice(), group),
                group,
                meter,
            )?;
            Ok(found)
        }
    }
}

// Opens a group.
fn open_group(
    world: &World,
    alloc: Global,
    touched: &Touched,
    group: Addr,
    meter: &mut Meter,
    before: &mut Vec<SourceBefore>,
) -> Result<GroupOpening, AllocError>
    requires grouped { IsGrouped touched.now }
    requires before { AreBefore world.now before.old.items }
    ensures opened { IfOk result (λ opened. opened ≡ group_opening world.now touched.now group.bits) }
    ensures keys { OnOk result (map key_before before.new.items ≡ map key_before before.old.items
        ++ map (source_key 0 group.bits) (touched_sources world.now touched.now group.bits)) }
    ensures each { OnOk result (AreBefore world.now before.new.items) }
{
    let star = StarSight::of(world, group, meter);
    let sources = sources_of(alloc, world, touched, group, meter)?;
    let sources = open_sources(world, alloc, &star, &sources, meter, before)?;
    Ok(GroupOpening {
        group,
        is_whole: is_whole_of(touched, group),
        star: star.view(),
        sources: Series::from_vec(sources),
    })
}

// Opens the given sources of a group.
fn open_sources(
    world: &World,
    alloc: Global,
    star: &StarSight,
    sources: &BTreeMap<Addr, (), Global>,
    meter: &mut Meter,
    before: &mut Vec<SourceBefore>,
) -> Result<Vec<SourceOpening>, AllocError>
    requires sight { IsStarSight world.now star.now }
    requires before { AreBefore world.now before.old.items }
    ensures opened { IfOk result (λ opened. opened.items
        ≡ map (source_opening world.now star.now.group.bits) (numbers_of sources.now.entries)) }
    ensures keys { OnOk result (map key_before before.new.items ≡ map key_before before.old.items
        ++ map (source_key 0 star.now.group.bits) (numbers_of sources.now.entries)) }
    ensures each { OnOk result (AreBefore world.now before.new.items) }
{
    let mut opened = Vec::new(alloc);
    for (source, ()) in sources.iter() {
        opened.push(open_source(world, star, *source, meter, before)?)?;
    }
    Ok(opened)
}

// Opens a source of a group.
fn open_source(
    world: &World,
    star: &StarSight,
    source: Addr,
    meter: &mut Meter,
    before: &mut Vec<SourceBefore>,
) -> Result<SourceOpening, AllocError>
    requires sight { IsStarSight world.now star.now }
    requires before { AreBefore world.now before.old.items }
    ensures opened { IfOk result (λ opened. opened ≡ source_opening world.now star.now.group.bits source.bits) }
    ensures keys { OnOk result (map key_before before.new.items ≡ map key_before before.old.items
        ++ source_key 0 star.now.group.bits source.bits ∷ []) }
    ensures each { OnOk result (AreBefore world.now before.new.items) }
{
    let sight = SourceSight::of(world, *star, source, meter);
    before.push(compared_by_sight(world, &sight))?;
    Ok(opened_by_sight(world, &sight, meter))
}

// A source as the machines compare it, by its sight.
fn opened_by_sight(world: &World, sight: &SourceSight, meter: &mut Meter) -> SourceOpening
    requires { IsSourceSight world.now sight.now }
    ensures { result ≡ source_opening world.now sight.now.star.group.bits sight.now.source.bits }
{
    let name = SourceGroup {
        source: sight.source,
        group: sight.star.group,
    };
    SourceOpening {
        source: sight.source,
        has_facts: world.has_facts(name, meter),
        view: sight.view(),
    }
}

/// A source as it is compared for the forwarding cache, by its sight.
pub(crate) fn compared_by_sight(world: &World, sight: &SourceSight) -> SourceBefore
    requires { IsSourceSight world.now sight.now }
    ensures key { key_before result ≡ seen_key sight.now }
    ensures before { IsSourceBefore world.now result }
{
    let name = sight.name();
    if !has_fact(world, name) {
        return SourceBefore::Unknown(name);
    }
    SourceBefore::Known(known_by(world, sight))
}

// A source with a fact, by its sight.
fn known_by(world: &World, sight: &SourceSight) -> KnownSource
    requires sight { IsSourceSight world.now sight.now }
    requires fact { has_row world.now.sources (seen_key sight.now) ≡ true }
    ensures known { IsKnown world.now result }
    ensures sight { result.sight ≡ sight.now }
{
    KnownSource {
        sight: *sight,
        may_register: sight.may_register(),
        could_register: sight.could_register(),
        register: register_of(world, sight.name()),
        is_desired: sight.join_desired(),
    }
}

/// Whether there is a fact of the source.
#[tactic(auto, unfolding(pim_model::specs::Tables::has_row))]
pub(crate) fn has_fact(world: &World, name: SourceGroup) -> bool
    ensures { result ≡ has_row world.now.sources (name_key name) }
{
    world.store().source(name.key()).is_some()
}

// The register state of (S,G).
fn register_of(world: &World, name: SourceGroup) -> Option<RegisterState>
    ensures { result ≡ register_state world.now name.group.bits name.source.bits }
{
    Some(world.store().register(name.key())?.state)
}
