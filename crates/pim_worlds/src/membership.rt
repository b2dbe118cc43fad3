//! The membership of saved rows of IGMP.
ghost use Rattle.igmp_membership.specs.MembershipTables.{AllRise, are_of_kind, is_group_key, is_held_querier, is_listed_key, is_source_kind, is_star_kind};
ghost use Rattle.pim_worlds.specs.Recorded.{all_refilled, tables_in};
ghost use Rattle.pim_worlds.specs.Refilled.{refilled};
ghost use Rattle.std.proofs.Common.{refl};
ghost use Rattle.std.specs.Prelude.{◌≡◌, IfOk, IfSome, IsTrue, is_some};

use crate::refill::{Refills, put_rows};
use igmp_membership::Membership;
use pim_saver::SavedRecords;
use pim_state::Meter;
use pim_types::Key;
use pim_types::fact::{
    GroupRecordRow, GroupRepeatRow, QuerierRow, SendingRow, SourceRecordRow, SourceRepeatRow,
};
use std::alloc::{AllocError, Global};

impl Refills<Membership> for QuerierRow {
    ghost fits = { is_held_querier };

    ghost refill = { λ t rows. record t { queriers = refilled t.queriers rows } };

    ghost none = { λ t. refl };

    ghost next = { λ t e rows. refl };

    #[tactic(auto, unfolding(pim_model::specs::Tables::set_row))]
    fn put_if_fits(
        self,
        key: Key,
        into: &mut Membership,
        _meter: &mut Meter,
    ) -> Result<bool, AllocError> {
        if key.rpt || key.source.is_some() || key.group.bits != 0 || self.robustness > 7 {
            return Ok(false);
        }
        into.put_querier(key.iface, self)?;
        Ok(true)
    }
}

impl Refills<Membership> for GroupRecordRow {
    ghost fits = { λ e. is_group_key e.0 };

    ghost refill = { λ t rows. record t { group_records = refilled t.group_records rows } };

    ghost none = { λ t. refl };

    ghost next = { λ t e rows. refl };

    #[tactic(auto, unfolding(pim_model::specs::Tables::set_row))]
    fn put_if_fits(
        self,
        key: Key,
        into: &mut Membership,
        meter: &mut Meter,
    ) -> Result<bool, AllocError> {
        if key.rpt || key.source.is_some() || key.iface.number >= 120 {
            return Ok(false);
        }
        into.set_group_record(key.iface, key.group, Some(self), meter)?;
        Ok(true)
    }
}

impl Refills<Membership> for SourceRecordRow {
    ghost fits = { λ e. is_listed_key e.0 };

    ghost refill = { λ t rows. record t { source_records = refilled t.source_records rows } };

    ghost none = { λ t. refl };

    ghost next = { λ t e rows. refl };

    #[tactic(auto, unfolding(pim_model::specs::Tables::set_row))]
    fn put_if_fits(
        self,
        key: Key,
        into: &mut Membership,
        meter: &mut Meter,
    ) -> Result<bool, AllocError> {
        if key.rpt || key.source.is_none() || key.iface.number >= 120 {
            return Ok(false);
        }
        into.set_source_record(key.iface, key.group, key.address(), Some(self), meter)?;
        Ok(true)
    }
}

impl Refills<Membership> for GroupRepeatRow {
    ghost fits = { λ e. is_star_kind e.0 };

    ghost refill = { λ t rows. record t { group_repeats = refilled t.group_repeats rows } };

    ghost none = { λ t. refl };

    ghost next = { λ t e rows. refl };

    #[tactic(auto, unfolding(pim_model::specs::Tables::set_row))]
    fn put_if_fits(
        self,
        key: Key,
        into: &mut Membership,
        _meter: &mut Meter,
    ) -> Result<bool, AllocError> {
        if key.rpt || key.source.is_some() {
            return Ok(false);
        }
        into.set_group_repeat(key.iface, key.group, Some(self))?;
        Ok(true)
    }
}

impl Refills<Membership> for SourceRepeatRow {
    ghost fits = { λ e. is_star_kind e.0 };

    ghost refill = { λ t rows. record t { source_repeats = refilled t.source_repeats rows } };

    ghost none = { λ t. refl };

    ghost next = { λ t e rows. refl };

    #[tactic(auto, unfolding(pim_model::specs::Tables::set_row))]
    fn put_if_fits(
        self,
        key: Key,
        into: &mut Membership,
        _meter: &mut Meter,
    ) -> Result<bool, AllocError> {
        if key.rpt || key.source.is_some() {
            return Ok(false);
        }
        into.set_source_repeat(key.iface, key.group, Some(self))?;
        Ok(true)
    }
}

impl Refills<Membership> for SendingRow {
    ghost fits = { λ e. is_source_kind e.0 };

    ghost refill = { λ t rows. record t { sendings = refilled t.sendings rows } };

    ghost none = { λ t. refl };

    ghost next = { λ t e rows. refl };

    #[tactic(auto, unfolding(pim_model::specs::Tables::set_row))]
    fn put_if_fits(
        self,
        key: Key,
        into: &mut Membership,
        _meter: &mut Meter,
    ) -> Result<bool, AllocError> {
        if key.rpt || key.source.is_none() {
            return Ok(false);
        }
        into.set_sending(key.iface, key.group, key.address(), Some(self))?;
        Ok(true)
    }
}

// Puts all of IGMP's rows into the facts; answers no where a row can't be held.
fn put_all(
    membership: &mut Membership,
    queriers: &[(Key, QuerierRow)],
    rows: &SavedRecords,
    meter: &mut Meter,
) -> Result<bool, AllocError>
    ensures test { IfOk result (λ fits. fits ≡ are_of_kind (tables_in queriers.now rows.now)) }
    ensures put { IfOk result (λ fits. IsTrue fits → membership.new ≡ all_refilled membership.old (tables_in queriers.now rows.now)) }
{
    if !put_rows(membership, queriers, meter)? {
        return Ok(false);
    }
    if !put_rows(membership, &rows.group_records, meter)? {
        return Ok(false);
    }
    if !put_rows(membership, &rows.source_records, meter)? {
        return Ok(false);
    }
    if !put_rows(membership, &rows.group_repeats, meter)? {
        return Ok(false);
    }
    if !put_rows(membership, &rows.source_repeats, meter)? {
        return Ok(false);
    }
    put_rows(membership, &rows.sendings, meter)
}

/// IGMP's facts with the given rows; none where a row can't be held. An error is want of memory.
pub(crate) fn membership_of(
    alloc: Global,
    queriers: &[(Key, QuerierRow)],
    rows: &SavedRecords,
    meter: &mut Meter,
) -> Result<Option<Membership>, AllocError>
    ensures made { IfOk result (λ made. IfSome made (λ membership. AllRise (tables_in queriers.now rows.now) → membership ≡ tables_in queriers.now rows.now)) }
    ensures none { IfOk result (λ made. is_some made ≡ are_of_kind (tables_in queriers.now rows.now)) }
{
    let mut membership = Membership::new(alloc);
    if !put_all(&mut membership, queriers, rows, meter)? {
        return Ok(None);
    }
    Ok(Some(membership))
}
