//! Walks of an interface's rows.
ghost use Rattle.std.specs.Prelude.{◌≡◌, filter};
ghost use Rattle.std.specs.Iterator.{YieldsFirstBy, item_count};
ghost use Rattle.pim_tables.specs.RowsOf.{is_of, row_seen};

use pim_ip::Addr;
use pim_types::{IfaceId, Key};
use std::alloc::Global;
use std::collections::BTreeMap;
use std::collections::btree_map::Range;
use std::marker::Model;

/// The remaining rows of an interface, or of a group on it, by rising key.
pub struct RowsOf<'a, R> {
    left: Range<'a, Key, R>,
    iface: IfaceId,
    group: Option<Addr>,
}

// Written out, so that it is proved once (docs/PROOF_NOTES.md, Drops).
impl<'a, R> Drop for RowsOf<'a, R> {
    fn drop(self) {
        let RowsOf {
            left: _,
            iface: _,
            group: _,
        } = self;
    }
}

impl<'a, R> Model for RowsOf<'a, R> {
    ghost use Rattle.std.specs.Prelude.{filter};
    ghost use Rattle.pim_model.specs.Tables.{Table};
    ghost use Rattle.pim_tables.specs.RowsOf.{RiseFrom, is_of};

    ghost Value = { Table R };

    ghost view = { λ w. filter (λ e. is_of w.iface.number w.group e.0) w.left };

    ghost invariant = { λ w. RiseFrom w.iface.number w.group w.left };
}

// Whether the key is of the interface, and of the group if there is one.
fn is_of(iface: IfaceId, group: Option<Addr>, key: Key) -> bool
    ensures { result ≡ is_of iface.number group key }
{
    if key.iface != iface {
        return false;
    }
    match group {
        Some(group) => key.group == group,
        None => true,
    }
}

impl<'a, R> RowsOf<'a, R> {
    // The interface's rows, or the group's, among those of a table.
    pub(crate) fn among(
        rows: &'a BTreeMap<Key, R, Global>,
        iface: IfaceId,
        group: Option<Addr>,
    ) -> Self
        ensures { result ≡ filter (λ e. is_of iface.number group e.0) rows.now.entries }
    {
        let first = Key::star(iface, group.unwrap_or(Addr::NONE));
        RowsOf {
            left: rows.range(first..),
            iface,
            group,
        }
    }
}

impl<'a, R> Iterator for RowsOf<'a, R> {
    type Item = (&'a Key, &'a R);

    ghost next_gives = { YieldsFirstBy row_seen (λ rest. rest) };

    ghost remaining = { item_count (λ rest. rest) };

    fn next(&mut self) -> Option<(&'a Key, &'a R)> {
        let (key, row) = self.left.next()?;
        if !is_of(self.iface, self.group, *key) {
            return None;
        }
        Some((key, row))
    }
}
