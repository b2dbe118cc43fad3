//! The store of saved rows of PIM.
ghost use Rattle.pim_store.specs.PimTables.{AllRise, are_of_kind, is_assert_key, is_plain_key, is_rpt_key, is_source_key};
ghost use Rattle.pim_types.specs.Keys.{iface_in};
ghost use Rattle.pim_worlds.specs.Refilled.{all_refilled, refilled, tables_in};
ghost use Rattle.std.proofs.Common.{refl};
ghost use Rattle.std.specs.Prelude.{◌≡◌, IfOk, IfSome, IsTrue, is_some, nat_lt};

use crate::refill::{Refills, put_rows};
use pim_saver::SavedTrees;
use pim_state::Meter;
use pim_store::Store;
use pim_types::Key;
use pim_types::fact::{
    AssertRow, DownstreamRow, JoinTimerRow, OverrideTimerRow, RegisterRow, SourceRow,
};
use std::alloc::{AllocError, Global};

impl Refills<Store> for DownstreamRow {
    ghost fits = { λ e. nat_lt (iface_in e.0) 120 };

    ghost refill = { λ t rows. record t { downstream = refilled t.downstream rows } };

    ghost none = { λ t. refl };

    ghost next = { λ t e rows. refl };

    #[tactic(auto, unfolding(pim_model::specs::Tables::set_row))]
    fn put_if_fits(
        self,
        key: Key,
        into: &mut Store,
        meter: &mut Meter,
    ) -> Result<bool, AllocError> {
        if key.iface.number >= 120 {
            return Ok(false);
        }
        into.set_downstream(key, Some(self), meter)?;
        Ok(true)
    }
}

impl Refills<Store> for AssertRow {
    ghost fits = { λ e. is_assert_key e.0 };

    ghost refill = { λ t rows. record t { asserts = refilled t.asserts rows } };

    ghost none = { λ t. refl };

    ghost next = { λ t e rows. refl };

    #[tactic(auto, unfolding(pim_model::specs::Tables::set_row))]
    fn put_if_fits(
        self,
        key: Key,
        into: &mut Store,
        meter: &mut Meter,
    ) -> Result<bool, AllocError> {
        if key.rpt || key.iface.number >= 120 {
            return Ok(false);
        }
        into.set_assert(key.iface, key.group, key.source, Some(self), meter)?;
        Ok(true)
    }
}

impl Refills<Store> for JoinTimerRow {
    ghost fits = { λ e. is_plain_key e.0 };

    ghost refill = { λ t rows. record t { join_timers = refilled t.join_timers rows } };

    ghost none = { λ t. refl };

    ghost next = { λ t e rows. refl };

    #[tactic(auto, unfolding(pim_model::specs::Tables::set_row))]
    fn put_if_fits(
        self,
        key: Key,
        into: &mut Store,
        meter: &mut Meter,
    ) -> Result<bool, AllocError> {
        if key.rpt || key.iface.number != 0 {
            return Ok(false);
        }
        into.set_join_timer(key.group, key.source, Some(self), meter)?;
        Ok(true)
    }
}

impl Refills<Store> for OverrideTimerRow {
    ghost fits = { λ e. is_rpt_key e.0 };

    ghost refill = { λ t rows. record t { override_timers = refilled t.override_timers rows } };

    ghost none = { λ t. refl };

    ghost next = { λ t e rows. refl };

    #[tactic(auto, unfolding(pim_model::specs::Tables::set_row))]
    fn put_if_fits(
        self,
        key: Key,
        into: &mut Store,
        meter: &mut Meter,
    ) -> Result<bool, AllocError> {
        if !key.rpt || key.iface.number != 0 || key.source.is_none() {
            return Ok(false);
        }
        into.set_override_timer(key.name(), Some(self), meter)?;
        Ok(true)
    }
}

impl Refills<Store> for SourceRow {
    ghost fits = { λ e. is_source_key e.0 };

    ghost refill = { λ t rows. record t { sources = refilled t.sources rows } };

    ghost none = { λ t. refl };

    ghost next = { λ t e rows. refl };

    #[tactic(auto, unfolding(pim_model::specs::Tables::set_row))]
    fn put_if_fits(
        self,
        key: Key,
        into: &mut Store,
        meter: &mut Meter,
    ) -> Result<bool, AllocError> {
        if key.rpt || key.iface.number != 0 || key.source.is_none() {
            return Ok(false);
        }
        into.set_source(key.name(), Some(self), meter)?;
        Ok(true)
    }
}

impl Refills<Store> for RegisterRow {
    ghost fits = { λ e. is_source_key e.0 };

    ghost refill = { λ t rows. record t { registers = refilled t.registers rows } };

    ghost none = { λ t. refl };

    ghost next = { λ t e rows. refl };

    #[tactic(auto, unfolding(pim_model::specs::Tables::set_row))]
    fn put_if_fits(
        self,
        key: Key,
        into: &mut Store,
        meter: &mut Meter,
    ) -> Result<bool, AllocError> {
        if key.rpt || key.iface.number != 0 || key.source.is_none() {
            return Ok(false);
        }
        into.set_register(key.name(), Some(self), meter)?;
        Ok(true)
    }
}

// Puts all rows into a store; or answers no where a key is of another kind.
fn put_all(store: &mut Store, rows: &SavedTrees, meter: &mut Meter) -> Result<bool, AllocError>
    ensures test { IfOk result (λ fits. fits ≡ are_of_kind (tables_in rows.now)) }
    ensures put { IfOk result (λ fits. IsTrue fits → store.new ≡ all_refilled store.old (tables_in rows.now)) }
{
    if !put_rows(store, &rows.downstream, meter)? {
        return Ok(false);
    }
    if !put_rows(store, &rows.asserts, meter)? {
        return Ok(false);
    }
    if !put_rows(store, &rows.join_timers, meter)? {
        return Ok(false);
    }
    if !put_rows(store, &rows.override_timers, meter)? {
        return Ok(false);
    }
    if !put_rows(store, &rows.sources, meter)? {
        return Ok(false);
    }
    put_rows(store, &rows.registers, meter)
}

/// A store with the given rows; none where a key is of another kind. An error is want of memory.
pub(crate) fn store_of(
    alloc: Global,
    rows: &SavedTrees,
    meter: &mut Meter,
) -> Result<Option<Store>, AllocError>
    ensures made { IfOk result (λ made. IfSome made (λ store. AllRise (tables_in rows.now) → store ≡ tables_in rows.now)) }
    ensures none { IfOk result (λ made. is_some made ≡ are_of_kind (tables_in rows.now)) }
{
    let mut store = Store::new(alloc)?;
    if !put_all(&mut store, rows, meter)? {
        return Ok(None);
    }
    Ok(Some(store))
}
