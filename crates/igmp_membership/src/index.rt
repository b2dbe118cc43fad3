//! Which interfaces are listed for all groups and sources.
ghost use Rattle.std.specs.List.Sorted.{IsStrictlySortedBy};
ghost use Rattle.std.specs.Prelude.{◌≡◌, ◌<◌, ◌≤◌, ◌+◌, [], ℕ, All, None, Some, OnErr, OnOk, filter, option_map};
ghost use Rattle.pim_model.specs.Tables.{keys_in, row_at};
ghost use Rattle.pim_source_trie.specs.Entries.{address_bits, entry_key};
ghost use Rattle.pim_types.specs.Keys.{is_of_group, key_cmp};
ghost use Rattle.igmp_membership.specs.Listing.{Lists, ListsAt, Side, in_side, listed, record_key};

use crate::listed::Listed;
use pim_ip::Addr;
use pim_source_trie::{Entries, Meter, SourceTrie};
use pim_types::IfaceId;
use std::alloc::{AllocError, Global};
use std::marker::Model;

// The interfaces listed for each group, and for each source, that has any.
#[derive(Drop)]
pub(crate) struct Index {
    entries: SourceTrie<Listed>,
}

impl Model for Index {
    ghost use Rattle.pim_model.specs.Tables.{Table};
    ghost use Rattle.igmp_membership.specs.declared.listed.Listed.{Listed};

    ghost Value = { Table Listed };

    ghost view = { λ a. a.entries };
}

impl Index {
    // An index that lists no interface. Takes no memory.
    pub(crate) fn new(alloc: Global) -> Index
        ensures { result ≡ [] }
    {
        Index {
            entries: SourceTrie::new(alloc),
        }
    }

    // The interfaces listed for (*,G), where `source` is `None`, or for a source of the group.
    #[tactic(auto, unfolding(pim_trie::specs::Meter::raised))]
    pub(crate) fn get(&self, group: Addr, source: Option<Addr>, meter: &mut Meter) -> Listed
        ensures sides { (x : Side) (i : ℕ) → in_side x result i ≡ listed self.now x i group.bits (option_map address_bits source) }
        ensures at_most { meter.new ≤ meter.old + 66 }
        ensures star_at_most { source ≡ None → meter.new ≤ meter.old + 33 }
    {
        match self.entries.get(group, source, meter) {
            Some(listed) => *listed,
            None => Listed::none(),
        }
    }

    // For the proof: the entries are under keys that rise, each of the whole router. Does nothing when it runs.
    pub(crate) fn proof_keyed(&self)
        ensures rising { IsStrictlySortedBy key_cmp (keys_in self.now) }
        ensures keys { All (λ e. e.0 ≡ entry_key (e.0).group (e.0).source) self.now }
    {
        let _ = self.entries.is_empty();
    }

    // The interfaces listed for the group and for its sources.
    pub(crate) fn walk(&self, group: Addr, meter: &mut Meter) -> Entries<'_, Listed>
        ensures { result ≡ filter (λ e. is_of_group group.bits e.0) self.now }
    {
        self.entries.walk(group, meter)
    }

    // Lists the given interfaces for a group, or for a source. If there are some and none was listed before, it may
    // fail for want of memory, and then nothing has changed.
    fn write(
        &mut self,
        group: Addr,
        source: Option<Addr>,
        listed: Listed,
        meter: &mut Meter,
    ) -> Result<(), AllocError>
        ensures ok { OnOk result (ListsAt self.old self.new (entry_key group source) listed) }
        ensures err { OnErr result (self.new ≡ self.old) }
        ensures absent { OnErr result (row_at self.old (entry_key group source) ≡ None) }
    {
        if listed.is_empty() {
            self.entries.remove(group, source, meter);
            return Ok(());
        }
        self.entries.put(group, source, listed, meter)
    }

    // Lists the interface, with or without a running record timer. The error is want of memory, and then nothing has
    // changed.
    pub(crate) fn list(
        &mut self,
        iface: IfaceId,
        group: Addr,
        source: Option<Addr>,
        is_running: bool,
        meter: &mut Meter,
    ) -> Result<(), AllocError>
        requires { iface.number < 120 }
        ensures ok { OnOk result (Lists self.old self.new (record_key iface.number group source) (Some is_running)) }
        ensures err { OnErr result (self.new ≡ self.old) }
    {
        let listed = self.get(group, source, meter);
        self.write(group, source, listed.with(iface, is_running), meter)
    }

    // Removes the interface from the list. Takes no memory.
    pub(crate) fn unlist(
        &mut self,
        iface: IfaceId,
        group: Addr,
        source: Option<Addr>,
        meter: &mut Meter,
    )
        ensures { Lists self.old self.new (record_key iface.number group source) None }
    {
        let listed = self.get(group, source, meter);
        // Where the write fails, the group or source had no interfaces listed.
        let _ = self.write(group, source, listed.without(iface), meter);
    }
}
