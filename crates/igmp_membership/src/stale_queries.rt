//! Which sendings may be of a source without a record, and how they are removed.
ghost use Rattle.std.specs.Prelude.{◌≡◌, ◌&&◌, ◌||◌, IfOk, OnErr, OnOk, filter, fold, is_some, map, not, true};
ghost use Rattle.pim_model.specs.Records.{is_at_group};
ghost use Rattle.pim_model.specs.Tables.{drop_at, drop_where, has_row};
ghost use Rattle.pim_types.specs.Keys.{same_key};
ghost use Rattle.pim_types.specs.declared.fact.Key.{Key as KeyValue};
ghost use Rattle.igmp_membership.specs.StaleQueries.{HaveRecords, is_unrecorded, may_lack};

use crate::records::Records;
use crate::sendings::Sendings;
use pim_ip::Addr;
use pim_types::fact::{SendingRow, SourceRecordRow};
use pim_types::{IfaceId, Key};
use std::alloc::{AllocError, Global};

// Which sendings may be of a source without a record: none, the one under this key, those of the sources of this key's
// group on its interface, or any. All other sendings are of sources with a record.
#[derive(Clone, Copy)]
pub(crate) enum StaleQueries {
    Empty,
    OfSource(Key),
    OfGroup(Key),
    Any,
}

impl StaleQueries {
    // Adds the sending under the key, if it lacks a record.
    pub(crate) fn with_key(self, key: Key, is_lacking: bool) -> StaleQueries
        ensures { (k : KeyValue) → (may_lack self k || (is_lacking && same_key key k)) ≡ true
            → may_lack result k ≡ true }
    {
        if !is_lacking {
            return self;
        }
        match self {
            StaleQueries::Empty => StaleQueries::OfSource(key),
            StaleQueries::OfSource(_) | StaleQueries::OfGroup(_) | StaleQueries::Any =>
                StaleQueries::Any,
        }
    }

    // Adds the sendings of the sources of a group on an interface.
    pub(crate) fn with_group(self, iface: IfaceId, group: Addr) -> StaleQueries
        ensures { (k : KeyValue) → (may_lack self k || is_at_group iface.number group.bits k) ≡ true
            → may_lack result k ≡ true }
    {
        match self {
            StaleQueries::Empty => StaleQueries::OfGroup(Key::star(iface, group)),
            StaleQueries::OfSource(_) | StaleQueries::OfGroup(_) | StaleQueries::Any =>
                StaleQueries::Any,
        }
    }

    // What is left once no sending of the group's on the interface lacks a record.
    pub(crate) fn without(self, iface: IfaceId, group: Addr) -> StaleQueries
        ensures { (k : KeyValue) → (may_lack self k && not (is_at_group iface.number group.bits k)) ≡ true
            → may_lack result k ≡ true }
    {
        match self {
            StaleQueries::OfSource(key) if is_at(key, iface, group) => StaleQueries::Empty,
            StaleQueries::OfGroup(key) if is_at(key, iface, group) => StaleQueries::Empty,
            _ => self,
        }
    }

    // Removes the sendings of those of the group's sources on the interface that have no record. If only one may lack a
    // record, no other is looked at. The error is want of memory, and then nothing has changed.
    pub(crate) fn discard(
        self,
        records: &Records<SourceRecordRow>,
        sendings: &mut Sendings,
        alloc: Global,
        iface: IfaceId,
        group: Addr,
    ) -> Result<(), AllocError>
        requires { HaveRecords self records.now sendings.old }
        ensures ok { OnOk result (sendings.new
            ≡ drop_where (is_unrecorded iface.number group.bits records.now) sendings.old) }
        ensures err { OnErr result (sendings.new ≡ sendings.old) }
    {
        match self {
            StaleQueries::Empty => {}
            StaleQueries::OfSource(key) => {
                if is_at(key, iface, group) {
                    drop_one(records, sendings, key);
                }
            }
            StaleQueries::OfGroup(_) | StaleQueries::Any => {
                let keys = unrecorded_at(records, sendings, alloc, iface, group)?;
                drop_each(sendings, &keys);
            }
        }
        Ok(())
    }
}

// Whether a pending query of a source, with this row, would be of a source without a record.
pub(crate) fn would_lack(
    records: &Records<SourceRecordRow>,
    key: Key,
    row: Option<SendingRow>,
) -> bool
    ensures { result ≡ (is_some row && not (has_row records.now key)) }
{
    row.is_some() && !records.contains(key)
}

// Whether the key is of the group, or of a source of it, on the interface.
fn is_at(key: Key, iface: IfaceId, group: Addr) -> bool
    ensures { result ≡ is_at_group iface.number group.bits key }
{
    key.iface == iface && key.group == group
}

// Removes the sending under the key, if its source has no record.
fn drop_one(records: &Records<SourceRecordRow>, sendings: &mut Sendings, key: Key)
    ensures { sendings.new
        ≡ drop_where (λ k. same_key key k && not (has_row records.now k)) sendings.old }
{
    if !records.contains(key) {
        sendings.remove(key);
    }
}

// The keys of the sendings of those of the group's sources on the interface that have no record.
fn unrecorded_at(
    records: &Records<SourceRecordRow>,
    sendings: &Sendings,
    alloc: Global,
    iface: IfaceId,
    group: Addr,
) -> Result<Vec<Key>, AllocError>
    ensures { IfOk result (λ keys. keys.items ≡ map (λ e. e.0) (filter (λ e. not (has_row records.now e.0))
        (filter (λ e. is_at_group iface.number group.bits e.0) sendings.now))) }
{
    let mut keys = Vec::new(alloc);
    for (key, _) in sendings.rows_at(iface, group) {
        if !records.contains(*key) {
            keys.push(*key)?;
        }
    }
    Ok(keys)
}

// Removes the sendings under the given keys.
fn drop_each(sendings: &mut Sendings, keys: &[Key])
    ensures { sendings.new ≡ fold drop_at sendings.old keys.now }
{
    for key in keys {
        sendings.remove(*key);
    }
}
