//! Walks of the sources of a group.
ghost use Rattle.std.specs.Prelude.{◌≡◌};
ghost use Rattle.std.specs.Iterator.{YieldsFirstBy, item_count};
ghost use Rattle.pim_source_trie.specs.Entries.{address_bits};
ghost use Rattle.pim_store.specs.Sources.{sources_in};

use crate::entry::Entry;
use pim_ip::Addr;
use pim_source_trie::Entries;
use std::marker::Model;

/// The remaining sources of a group, ascending.
pub struct Sources<'a> {
    entries: Entries<'a, Entry>,
}

// Written out, so that it is proved once (docs/PROOF_NOTES.md, Drops).
impl<'a> Drop for Sources<'a> {
    fn drop(self) {
        let Sources { entries: _ } = self;
    }
}

impl<'a> Model for Sources<'a> {
    ghost use Rattle.std.specs.Prelude.{List, ℕ};
    ghost use Rattle.pim_store.specs.Sources.{sources_in};

    ghost Value = { List ℕ };

    ghost view = { λ w. sources_in w.entries };
}

impl<'a> Sources<'a> {
    // The sources of the entries of one group.
    pub(crate) fn among(entries: Entries<'a, Entry>) -> Sources<'a>
        ensures { result ≡ sources_in entries.entry }
    {
        Sources { entries }
    }
}

impl<'a> Iterator for Sources<'a> {
    type Item = Addr;

    ghost next_gives = { YieldsFirstBy address_bits (λ rest. rest) };

    ghost remaining = { item_count (λ rest. rest) };

    #[tactic(auto, unfolding(crate::specs::Sources::sources_in, pim_model::specs::Tables::keys_in))]
    fn next(&mut self) -> Option<Addr> {
        while let Some((key, _)) = self.entries.next() {
            if let Some(source) = key.source {
                return Some(source);
            }
        }
        None
    }
}
