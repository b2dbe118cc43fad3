//! Which sources changes may have disturbed, whether they have a fact or not.
ghost use Rattle.law_events.specs.Locality.{touching};
ghost use Rattle.law_events.specs.Scopes.{reads};
ghost use Rattle.pim_fanout.specs.Disturbed.{is_disturbed, joined};
ghost use Rattle.pim_state.specs.declared.touched.Touched.{Touched as TouchedValue};
ghost use Rattle.pim_types.specs.Keys.{source_key};
ghost use Rattle.std.specs.Prelude.{◌≡◌, ◌++◌, [], OnOk};

use pim_state::Touched;
use pim_types::{Addr, Key, SourceGroup};
use std::alloc::{AllocError, Global};
use std::marker::Model;

/// The keys that some changes touched, or the mark that all were touched. Its memory is kept for later keys.
pub struct Disturbed {
    all: bool,
    keys: Vec<Key>,
}

// Written out, so that it is proved once (docs/PROOF_NOTES.md, Drops).
impl Drop for Disturbed {
    fn drop(self) {
        let Disturbed { all: _, keys: _ } = self;
    }
}

impl Model for Disturbed {
    ghost use Rattle.std.specs.Prelude.{if◌then◌else◌};
    ghost use Rattle.pim_state.specs.declared.touched.Touched.{Touched};

    ghost Value = { Touched };

    ghost view = { λ d. if d.all then Touched.All else Touched.Keys d.keys.items };
}

// Whether a fact under the key is read by the machines of the source.
#[tactic(auto, unfolding(law_events::specs::Scopes::reads))]
fn is_read(name: SourceGroup, key: Key) -> bool
    ensures { result ≡ reads (source_key 0 name.group.bits name.source.bits) key }
{
    let source = key.address();
    key.group == name.group && (source == Addr::NONE || source == name.source)
}

// Whether the machines of the source read a fact under one of the keys.
#[tactic(auto, unfolding(law_events::specs::Locality::touching))]
fn is_touched(keys: &[Key], name: SourceGroup) -> bool
    ensures { result ≡ touching keys.now (source_key 0 name.group.bits name.source.bits) }
{
    for key in keys {
        if is_read(name, *key) {
            return true;
        }
    }
    false
}

impl Disturbed {
    /// No key. Takes no memory.
    pub fn none(alloc: Global) -> Disturbed
        ensures { result ≡ TouchedValue.Keys [] }
    {
        Disturbed {
            all: false,
            keys: Vec::new(alloc),
        }
    }

    /// Removes all keys, and the mark that all sources are touched.
    pub fn clear(&mut self)
        ensures { self.new ≡ TouchedValue.Keys [] }
    {
        self.all = false;
        self.keys.clear();
    }

    /// Marks that all sources are touched.
    pub fn add_all(&mut self)
        ensures { self.new ≡ TouchedValue.All }
    {
        self.all = true;
    }

    // Adds the keys; if there are none yet, the list itself is taken.
    #[tactic(auto, unfolding(crate::specs::Disturbed::joined))]
    fn add_keys(&mut self, mut keys: Vec<Key>) -> Result<(), AllocError>
        ensures { OnOk result (self.new ≡ joined self.old (TouchedValue.Keys keys.items)) }
    {
        if self.all {
            return Ok(());
        }
        if self.keys.is_empty() {
            self.keys = keys;
            return Ok(());
        }
        self.keys.append(&mut keys)
    }

    /// Adds what one more change touched.
    pub fn add(&mut self, touched: Touched) -> Result<(), AllocError>
        ensures { OnOk result (self.new ≡ joined self.old touched) }
    {
        match touched {
            Touched::All => {
                self.add_all();
                Ok(())
            }
            Touched::Keys(keys) => self.add_keys(keys.into_vec()),
        }
    }

    /// Whether the source may be disturbed: a key names it, or names its whole group.
    #[tactic(auto, unfolding(crate::specs::Disturbed::is_disturbed))]
    pub fn holds(&self, name: SourceGroup) -> bool
        ensures { result ≡ is_disturbed self.now name.group.bits name.source.bits }
    {
        self.all || is_touched(&self.keys, name)
    }
}
