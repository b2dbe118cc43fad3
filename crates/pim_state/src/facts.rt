//! What the machines change of sources: the keepalive timer, and the SPTbit.
ghost use Rattle.std.specs.Prelude.{◌≡◌, IsTrue, OnOk, option_and_then};
ghost use Rattle.pim_model.specs.Asserts.{with_spt_bit};
ghost use Rattle.pim_model.specs.Registers.{with_keepalive};
ghost use Rattle.pim_model.specs.Tables.{has_row, row_at};
ghost use Rattle.pim_store.specs.PimTables.{AreKeyed, pim_tables};
ghost use Rattle.pim_types.specs.Keys.{source_key};
ghost use Rattle.pim_types.specs.declared.fact.SourceRow.{SourceRow as Row};

use crate::world::World;
use pim_trie::Meter;
use pim_types::SourceGroup;
use pim_types::fact::SourceRow;
use std::alloc::AllocError;

// Keepalive_Period (RFC 7761, section 4.11), also at the RP, in ms.
const KEEPALIVE_PERIOD: u64 = 210_000;

impl World {
    /// For the proof: asserts, sources and registers are under keys of their kind, which rise.
    pub fn proof_keyed(&self)
        ensures { AreKeyed (pim_tables self.now) }
    {
        self.store.proof_keyed();
    }

    /// KAT(S,G) is started for its whole period. The meter is unchanged where the source has a row, and rises by the
    /// nodes visited where it gets one. If the hint is the place of the source's row (`source_place` of `Store`), no key
    /// is looked up for it. The result doesn't depend on the hint. The error is want of memory.
    #[tactic(auto, unfolding(pim_model::specs::Registers::with_keepalive, pim_model::specs::Sets::spt_bit))]
    pub fn keep_alive(
        &mut self,
        name: SourceGroup,
        hint: Option<usize>,
        meter: &mut Meter,
    ) -> Result<(), AllocError>
        ensures state { OnOk result (self.new ≡ with_keepalive self.old name.group.bits name.source.bits) }
        ensures kept { OnOk result (IsTrue (has_row self.old.sources (source_key 0 name.group.bits name.source.bits))
            → meter.new ≡ meter.old) }
    {
        let end = self.present() + KEEPALIVE_PERIOD;
        self.next = None;
        self.store.keep_alive(name, end, hint, meter)
    }

    // When KAT(S,G) expires, if it runs, in ms.
    fn keepalive_end(&self, name: SourceGroup) -> Option<u64>
        ensures { result ≡ option_and_then (λ (r : Row). r.keepalive)
            (row_at self.now.sources (source_key 0 name.group.bits name.source.bits)) }
    {
        self.store.source(name.key())?.keepalive
    }

    /// Sets SPTbit(S,G). The meter rises by the nodes visited. The error is want of memory.
    #[tactic(auto, unfolding(pim_model::specs::Asserts::with_spt_bit, pim_model::specs::Tables::set_row))]
    pub fn set_spt_bit(&mut self, name: SourceGroup, meter: &mut Meter) -> Result<(), AllocError>
        ensures { OnOk result (self.new ≡ with_spt_bit self.old name.group.bits name.source.bits) }
    {
        let row = SourceRow {
            keepalive: self.keepalive_end(name),
            spt: true,
        };
        self.next = None;
        self.store.set_source(name, Some(row), meter)
    }
}
