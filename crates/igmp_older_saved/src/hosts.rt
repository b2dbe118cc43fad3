//! Which groups of older hosts are saved, and what becomes of them.
ghost use Rattle.std.specs.List.{list_all};
ghost use Rattle.std.specs.Prelude.{◌≡◌, IfOk};
ghost use Rattle.law_settled.specs.Ready.{Rises};
ghost use Rattle.igmp_older_saved.specs.Hosts.{is_group_key, is_held, resumed_rows, saved_hosts};

use crate::host::HostRow;
use igmp_older::{Presence, PresentRow, Querier, is_served};
use pim_types::Key;
use std::alloc::{AllocError, Global};
use std::collections::btree_map::Iter;

// Whether the key is of a group on an interface that older hosts may join.
fn is_group_key(key: Key) -> bool
    ensures { result ≡ is_group_key key }
{
    key.source.is_none() && !key.rpt && is_served(key.group)
}

// Whether a querier has a row of older hosts under a key.
#[tactic(auto, unfolding(crate::specs::Hosts::is_held))]
fn is_held<Q: Querier>(querier: &Q, key: Key, row: HostRow) -> bool
    ensures { result ≡ is_held (Q.group_records querier.now) (Q.present querier.now) (key, row) }
{
    if !is_group_key(key) || !row.is_running(querier.present_moment()) {
        return false;
    }
    querier.has_group_record(key.iface, key.group)
}

// The rows that are held, as they are saved.
#[tactic(auto, unfolding(crate::specs::Hosts::saved_hosts))]
fn rows_to_save<Q: Querier>(
    alloc: Global,
    querier: &Q,
    rows: Iter<'_, Key, PresentRow>,
) -> Result<Vec<(Key, HostRow)>, AllocError>
    ensures { IfOk result (λ hosts. hosts.items
        ≡ saved_hosts (Q.group_records querier.now) (Q.present querier.now) rows.entry) }
{
    let moment = querier.present_moment();
    let mut hosts = Vec::new(alloc);
    for (key, row) in rows {
        let host = HostRow::told(moment, *row);
        if is_held(querier, *key, host) {
            hosts.push((*key, host))?;
        }
    }
    Ok(hosts)
}

/// The rows of older hosts that are saved, by rising key: those of groups of which the querier has a record, with those
/// of their timers that run. An `Err` is want of memory.
pub fn saved_hosts<Q: Querier>(
    alloc: Global,
    querier: &Q,
    presence: &Presence,
) -> Result<Vec<(Key, HostRow)>, AllocError>
    ensures saved { IfOk result (λ hosts. hosts.items
        ≡ saved_hosts (Q.group_records querier.now) (Q.present querier.now) presence.now.rows) }
    ensures rise { IfOk result (λ hosts. Rises hosts.items) }
{
    let rows = presence.rows();
    rows_to_save(alloc, querier, rows)
}

/// Whether a querier can have these rows of older hosts: each is of a group that these may join, and of which the querier
/// has a record; one of its timers runs, and none has expired or expires later than [Older Host Present Interval] allows.
pub fn are_held<Q: Querier>(querier: &Q, hosts: &[(Key, HostRow)]) -> bool
    ensures { result ≡ list_all (is_held (Q.group_records querier.now) (Q.present querier.now)) hosts.now }
{
    for host in hosts {
        if !is_held(querier, host.0, host.1) {
            return false;
        }
    }
    true
}

/// The rows of older hosts that were saved, as a front takes them. An `Err` is want of memory.
#[tactic(auto, unfolding(crate::specs::Hosts::resumed_rows))]
pub fn resumed_rows(
    alloc: Global,
    hosts: &[(Key, HostRow)],
) -> Result<Vec<(Key, PresentRow)>, AllocError>
    ensures { IfOk result (λ rows. rows.items ≡ resumed_rows hosts.now) }
{
    let mut rows = Vec::new(alloc);
    for host in hosts {
        rows.push((host.0, host.1.resumed()))?;
    }
    Ok(rows)
}
