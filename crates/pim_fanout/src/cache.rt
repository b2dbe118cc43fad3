//! The forwarding cache, with the count of what an event costs it.
ghost use Rattle.law_events.specs.Kept.{is_listed};
ghost use Rattle.pim_fanout.specs.Before.{name_key};
ghost use Rattle.pim_fanout.specs.Disturbed.{joined};
ghost use Rattle.pim_fanout.specs.Named.{keys_of};
ghost use Rattle.pim_fanout.specs.Refreshing.{IsUncounted, Refreshes, RefreshesOne, nothing_cached, touches, touches_in, touches_of, uncounted};
ghost use Rattle.pim_macros.specs.Sights.{IsSourceSight};
ghost use Rattle.pim_mfc.specs.Laws.{ShowsRows};
ghost use Rattle.pim_model.specs.Cache.{cached};
ghost use Rattle.pim_state.specs.declared.touched.Touched.{Touched as TouchedValue};
ghost use Rattle.pim_trie.specs.Meter.{raised};
ghost use Rattle.pim_types.specs.Keys.{group_in, key_cmp, source_in, source_key};
ghost use Rattle.std.specs.List.Sorted.{IsStrictlySortedBy};
ghost use Rattle.std.specs.Prelude.{◌≡◌, ℕ, ◌++◌, [], IfOk, IfSome, OnOk, if◌then◌else◌, map};

use crate::disturbed::Disturbed;
use crate::evaluates::Evaluates;
use crate::once::each_once;
use pim_macros::{Evaluations, SourceSight};
use pim_mfc::Mfc;
use pim_state::{Touched, World};
use pim_tables::PlacedRows;
use pim_trie::Meter;
use pim_types::fact::SourceRow;
use pim_types::{Series, SourceGroup};
use std::alloc::{AllocError, Global};
use std::marker::Model;

/// The forwarding cache, with the number of evaluated rows, the list of their sources, and which sources may have been
/// disturbed, with a row or without one.
pub struct Cache {
    mfc: Mfc,
    evaluated: Evaluations,
    changed: Vec<SourceGroup>,
    disturbed: Disturbed,
}

// Written out, so that it is proved once (docs/PROOF_NOTES.md, Drops).
impl Drop for Cache {
    fn drop(self) {
        let Cache {
            mfc: _,
            evaluated: _,
            changed: _,
            disturbed: _,
        } = self;
    }
}

impl Model for Cache {
    ghost use Rattle.std.specs.Prelude.{[], ◌≡◌};
    ghost use Rattle.pim_fanout.specs.Named.{keys_of};
    ghost use Rattle.pim_fanout.specs.Refreshing.{CacheValue};
    ghost use Rattle.pim_trie.specs.Meter.{raised};

    ghost Value = { CacheValue };

    ghost view = { λ c. record {
      mfc = c.mfc;
      evaluated = c.evaluated;
      changed = keys_of c.changed.items;
      disturbed = c.disturbed;
    } };

    ghost invariant = { λ c. raised c.mfc.changes c.evaluated ≡ 0 → c.changed.items ≡ [] };
}

impl Cache {
    /// A cache without rows. It takes no memory.
    pub fn new(alloc: Global) -> Cache
        ensures { result ≡ nothing_cached }
    {
        Cache {
            mfc: Mfc::new(alloc),
            evaluated: Evaluations::none(),
            changed: Vec::new(alloc),
            disturbed: Disturbed::none(alloc),
        }
    }

    /// A cache with a row for each source that has a fact. Both counts are 0, no source is listed as changed, and none as
    /// disturbed. The meter rises by the nodes visited.
    pub fn of(alloc: Global, world: &World, meter: &mut Meter) -> Result<Cache, AllocError>
        ensures shown { IfOk result (λ cache. ShowsRows cache.mfc.rows (cached world.now)) }
        ensures uncounted { IfOk result (λ cache. IsUncounted cache) }
    {
        let names = names_of(alloc, world.store().source_rows())?;
        let mut cache = Cache::new(alloc);
        cache.refresh_rows(world, meter, names.as_slice(), &None)?;
        cache.reset();
        Ok(cache)
    }

    /// The rows: what they answer, and what they decide of a packet.
    pub fn mfc(&self) -> &Mfc
        ensures { result.now ≡ self.now.mfc }
    {
        &self.mfc
    }

    /// How often a row was put in or taken out since the last `reset`, plus how many rows were evaluated. The count
    /// doesn't pass `u64::MAX`.
    #[tactic(auto, unfolding(crate::specs::Refreshing::touches, pim_trie::specs::Meter::raised))]
    pub fn touched(&self) -> u64
        ensures { result ≡ touches self.now }
    {
        self.mfc.changes().saturating_add(self.evaluated.count())
    }

    /// The sources whose rows were evaluated again or taken out since the last `reset`: none where nothing was touched.
    pub fn changed(&self) -> &[SourceGroup]
        ensures names { keys_of result.now ≡ self.now.changed }
        ensures none { touches self.now ≡ 0 → result.now ≡ [] }
    {
        self.changed.as_slice()
    }

    /// Which sources may have been disturbed since the last `reset`, with a row or without one.
    pub fn disturbed(&self) -> &Disturbed
        ensures { result.now ≡ self.now.disturbed }
    {
        &self.disturbed
    }

    /// Marks all sources as possibly disturbed if `is_so` is true.
    pub fn disturb_all_if(&mut self, is_so: bool)
        ensures { self.new ≡ record self.old { disturbed = if is_so then TouchedValue.All else self.old.disturbed } }
    {
        if is_so {
            self.disturbed.add_all();
        }
    }

    /// Begins an event: both counts are 0, no source is listed as changed, and none as disturbed.
    pub fn reset(&mut self)
        ensures { self.new ≡ uncounted self.old }
    {
        self.mfc.reset();
        self.evaluated = Evaluations::none();
        self.changed.clear();
        self.disturbed.clear();
    }

    /// Lists each changed source once, ascending by group and then by source; all else stays. No memory is taken.
    #[tactic(auto, unfolding(law_events::specs::Kept::is_listed))]
    pub fn list_once(&mut self)
        ensures kept { self.new ≡ record self.old { changed = self.new.changed } }
        ensures same { (g src : ℕ) → is_listed self.new.changed g src ≡ is_listed self.old.changed g src }
        ensures once { IsStrictlySortedBy key_cmp self.new.changed }
    {
        each_once(&mut self.changed);
    }

    // Evaluates the row of a source again, or takes it out where the source has no fact.
    fn refresh_one<W: Evaluates>(
        &mut self,
        world: &W,
        meter: &mut Meter,
        name: SourceGroup,
        given: &Option<SourceSight>,
    ) -> Result<(), AllocError>
        requires { IfSome given.now (IsSourceSight (W.state world.now)) }
        ensures shown { OnOk result (RefreshesOne (name_key name) (W.state world.now) self.old.mfc.rows self.new.mfc.rows) }
        ensures few { OnOk result (touches self.new ≡ raised (touches self.old) (touches_of (W.state world.now) (name_key name))) }
        ensures listed { OnOk result ((self.new.changed ≡ self.old.changed) × (self.new.disturbed ≡ self.old.disturbed)) }
    {
        if !world.has_fact(name) {
            self.mfc.remove(name, meter);
            return Ok(());
        }
        let made = world.row(name, given.as_ref(), meter, &mut self.evaluated);
        self.mfc.put(made, meter)?;
        Ok(())
    }

    // Evaluates the rows of the given sources again, and takes out those of sources without a fact.
    fn refresh_rows<W: Evaluates>(
        &mut self,
        world: &W,
        meter: &mut Meter,
        names: &[SourceGroup],
        given: &Option<SourceSight>,
    ) -> Result<(), AllocError>
        requires { IfSome given.now (IsSourceSight (W.state world.now)) }
        ensures shown { OnOk result (Refreshes (keys_of names.now) (W.state world.now) self.old.mfc.rows self.new.mfc.rows) }
        ensures few { OnOk result (touches self.new ≡ raised (touches self.old) (touches_in (W.state world.now) (keys_of names.now))) }
        ensures listed { OnOk result ((self.new.changed ≡ self.old.changed) × (self.new.disturbed ≡ self.old.disturbed)) }
    {
        for name in names {
            self.refresh_one(world, meter, *name, given)?;
        }
        Ok(())
    }

    // Adds the names to the changed ones (if there are none, the list itself is taken), and the touched keys to the
    // disturbed ones.
    fn list(&mut self, mut names: Vec<SourceGroup>, touched: Touched) -> Result<(), AllocError>
        requires { touches self.old ≡ 0 → names.items ≡ [] }
        ensures kept { (self.new.mfc ≡ self.old.mfc) × (self.new.evaluated ≡ self.old.evaluated) }
        ensures changed { OnOk result (self.new.changed ≡ self.old.changed ++ keys_of names.items) }
        ensures disturbed { OnOk result (self.new.disturbed ≡ joined self.old.disturbed touched) }
    {
        self.disturbed.add(touched)?;
        if self.changed.is_empty() {
            self.changed = names;
            return Ok(());
        }
        self.changed.append(&mut names)
    }

    /// Evaluates the row of each named source that has a fact, once, and puts it in; takes out the row of each other
    /// named source; and lists them all as changed. The sources that the touched keys name, alone or with their group,
    /// become disturbed. The sight that is given, if there is one, is taken for its source. The meter rises by the nodes
    /// visited. After an error nothing is known of the rows. The state is seen by a trait that lists no sources and
    /// evaluates no macro but in a row that is counted.
    pub fn refresh<W: Evaluates>(
        &mut self,
        world: &W,
        meter: &mut Meter,
        names: Series<SourceGroup>,
        touched: Touched,
        given: &Option<SourceSight>,
    ) -> Result<(), AllocError>
        requires { IfSome given.now (IsSourceSight (W.state world.now)) }
        ensures shown { OnOk result (Refreshes (keys_of names) (W.state world.now) self.old.mfc.rows self.new.mfc.rows) }
        ensures few { OnOk result (touches self.new ≡ raised (touches self.old) (touches_in (W.state world.now) (keys_of names))) }
        ensures listed { OnOk result (self.new.changed ≡ self.old.changed ++ keys_of names) }
        ensures disturbed { OnOk result (self.new.disturbed ≡ joined self.old.disturbed touched) }
    {
        self.refresh_rows(world, meter, names.as_slice(), given)?;
        self.list(names.into_vec(), touched)
    }
}

// The sources that have a fact.
fn names_of(alloc: Global, rows: PlacedRows<'_, SourceRow>) -> Result<Vec<SourceGroup>, AllocError>
    ensures { IfOk result (λ names. keys_of names.items
        ≡ map (λ e. source_key 0 (group_in e.0) (source_in e.0)) rows.entry) }
{
    let mut names = Vec::new(alloc);
    for (key, _) in rows {
        names.push(key.name())?;
    }
    Ok(names)
}
