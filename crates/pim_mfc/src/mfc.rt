//! The rows of the forwarding cache, each under its group and source.
ghost use Rattle.std.specs.Prelude.{◌≡◌, ◌≤◌, [], IsOk, IsTrue, OnErr, OnOk, Some, option_map};
ghost use Rattle.pim_mfc.specs.Kept.{ForwardsAs, cache_row, decided, kept_row, with_source_row, without_source_row};
ghost use Rattle.pim_model.specs.Tables.{has_row, keys_in};
ghost use Rattle.pim_source_trie.specs.Entries.{nodes_visited, raised};
ghost use Rattle.pim_types.specs.Keys.{source_key};

use crate::cache_row::CacheRow;
use crate::forward::{Forward, decided};
use pim_macros::{Made, SourceAnswers};
use pim_source_trie::SourceTrie;
use pim_trie::Meter;
use pim_types::{IfaceId, SourceGroup};
use std::alloc::{AllocError, Global};
use std::marker::Model;

/// The multicast forwarding cache: rows that `pim_macros::row` has evaluated, each under its group and source, and how
/// often it was changed. Its look-ups visit 33 nodes at most for a group, and 33 more for a source; they read nothing
/// else, and take no memory.
pub struct Mfc {
    rows: SourceTrie<SourceAnswers>,
    changes: u64,
}

// Written out, so that it is proved once (docs/PROOF_NOTES.md, Drops).
impl Drop for Mfc {
    fn drop(self) {
        let Mfc {
            rows: _,
            changes: _,
        } = self;
    }
}

impl Model for Mfc {
    ghost use Rattle.pim_mfc.specs.Kept.{Kept};

    ghost Value = { Kept };

    ghost view = { λ m. record { rows = m.rows; changes = m.changes } };
}

impl Mfc {
    /// A cache without rows. It takes no memory.
    pub fn new(alloc: Global) -> Mfc
        ensures { result ≡ record { rows = []; changes = 0 } }
    {
        Mfc {
            rows: SourceTrie::new(alloc),
            changes: 0,
        }
    }

    /// How many rows were put in and taken out since the last `reset`. The count doesn't pass `u64::MAX`.
    pub fn changes(&self) -> u64
        ensures { result ≡ self.now.changes }
    {
        self.changes
    }

    /// Starts the count of changes from 0.
    pub fn reset(&mut self)
        ensures { self.new ≡ record self.old { changes = 0 } }
    {
        self.changes = 0;
    }

    /// Puts what was evaluated of a source in the place of its row, or as its first. It fails only where there was no
    /// row and there is no memory, and then the cache is unchanged. The meter rises by the nodes visited.
    #[tactic(auto, unfolding(crate::specs::Kept::with_source_row, pim_trie::specs::Meter::raised))]
    pub fn put(&mut self, made: Made, meter: &mut Meter) -> Result<(), AllocError>
        ensures ok { OnOk result (self.new ≡ with_source_row self.old made) }
        ensures overwrites { IsTrue (has_row self.old.rows (source_key 0 made.group.bits made.source.bits)) → IsOk result }
        ensures err { OnErr result (self.new ≡ self.old) }
    {
        self.rows
            .put(made.group(), Some(made.source()), made.answers(), meter)?;
        self.changes = self.changes.saturating_add(1);
        Ok(())
    }

    /// Takes the row of a source out; that counts as a change, whether there was one or not. It takes no memory. The
    /// meter rises by the nodes visited.
    #[tactic(auto, unfolding(crate::specs::Kept::without_source_row, pim_trie::specs::Meter::raised))]
    pub fn remove(&mut self, name: SourceGroup, meter: &mut Meter)
        ensures { self.new ≡ without_source_row self.old name.group.bits name.source.bits }
    {
        self.rows.remove(name.group, Some(name.source), meter);
        self.changes = self.changes.saturating_add(1);
    }

    /// The forwarding row of a source. The meter rises by the nodes visited.
    pub fn cached(&self, name: SourceGroup, meter: &mut Meter) -> Option<CacheRow>
        ensures { result ≡ option_map cache_row (kept_row self.now name.group.bits name.source.bits) }
    {
        let row = self.kept(name, meter)?;
        Some(CacheRow::of(&row))
    }

    /// What was evaluated of a source and is kept. The meter rises by the nodes visited.
    pub fn kept(&self, name: SourceGroup, meter: &mut Meter) -> Option<SourceAnswers>
        ensures { result ≡ kept_row self.now name.group.bits name.source.bits }
    {
        self.rows.get(name.group, Some(name.source), meter).copied()
    }

    /// How a packet of the source that came on the interface goes, by its row alone; `None` where there is none, or
    /// where more comes of the packet than that KAT(S,G) is set and copies leave on links. The meter rises by the nodes
    /// visited, 66 at most, and by one at least where there is a row.
    #[tactic(auto, unfolding(crate::specs::Kept::decided))]
    pub fn forward(
        &self,
        name: SourceGroup,
        iif: IfaceId,
        time_to_live: u8,
        meter: &mut Meter,
    ) -> Option<Forward>
        ensures decided { ForwardsAs result (decided self.now name.group.bits name.source.bits iif.number time_to_live) }
        ensures visited { meter.new ≡ raised meter.old (nodes_visited (keys_in self.now.rows) name.group (Some name.source)) }
        ensures at_most { nodes_visited (keys_in self.now.rows) name.group (Some name.source) ≤ 66 }
        ensures at_least { IsTrue (has_row self.now.rows (source_key 0 name.group.bits name.source.bits))
            → 1 ≤ nodes_visited (keys_in self.now.rows) name.group (Some name.source) }
    {
        let row = self.rows.get(name.group, Some(name.source), meter)?;
        decided(row, iif, time_to_live)
    }
}
