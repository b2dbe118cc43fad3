//! What a front for hosts and routers of older versions of IGMP asks of the router.
ghost use Rattle.std.specs.Option.{option_map_or};
ghost use Rattle.std.specs.Prelude.{◌≡◌, ◌+◌, ◌^◌, ◌≤◌, false, option_and_then};
ghost use Rattle.pim_model.specs.Querier.{group_membership_interval};
ghost use Rattle.pim_model.specs.State.{iface_count};
ghost use Rattle.pim_model.specs.Tables.{has_row, row_at};
ghost use Rattle.pim_types.specs.Keys.{star_key};

use super::Router;
use pim_querier::intervals::group_membership_interval;
use pim_types::fact::GroupRecordRow;
use pim_types::{Addr, IfaceId};

impl Router {
    /// How many interfaces are configured; 0 where the router has failed. No memory is taken.
    pub fn interface_count(&self) -> u32
        ensures { result ≡ option_map_or (λ r. iface_count r.state) self.now.standing 0 }
    {
        if self.failed {
            return 0;
        }
        self.core.world.interfaces().count()
    }

    /// The limit on facts; 0 where the router has failed. No memory is taken.
    pub fn limit(&self) -> u32
        ensures { result ≡ option_map_or (λ r. r.state.settings.limit) self.now.standing 0 }
    {
        if self.failed {
            return 0;
        }
        self.core.world.settings().limit
    }

    /// [Query Response Interval] as it is configured, in tenths of a second; 0 where the router has failed. No memory is
    /// taken.
    pub fn query_response_interval(&self) -> u32
        ensures { result ≡ option_map_or (λ r. r.state.settings.query_response_interval) self.now.standing 0 }
    {
        if self.failed {
            return 0;
        }
        self.core.world.settings().query_response_interval
    }

    /// [Last Member Query Interval] as it is configured, in tenths of a second; 0 where the router has failed. No memory
    /// is taken.
    pub fn last_member_query_interval(&self) -> u32
        ensures { result ≡ option_map_or (λ r. r.state.settings.last_member_query_interval) self.now.standing 0 }
    {
        if self.failed {
            return 0;
        }
        self.core.world.settings().last_member_query_interval
    }

    /// The present moment, in ms; 0 where the router has failed. No memory is taken.
    pub fn present_moment(&self) -> u64
        ensures moment { result ≡ option_map_or (λ r. r.state.present) self.now.standing 0 }
        ensures within { result ≤ 2 ^ 62 }
    {
        if self.failed {
            return 0;
        }
        self.core.world.present()
    }

    /// When the membership ends that a report on the interface makes at the present moment, in ms: [Group Membership
    /// Interval] (RFC 3376, section 8.4) from then, by the values in force on the interface. 0 where the router has
    /// failed. No memory is taken.
    pub fn membership_end(&self, iface: IfaceId) -> u64
        ensures { result ≡ option_map_or
            (λ r. r.state.present + group_membership_interval r.state iface.number) self.now.standing 0 }
    {
        if self.failed {
            return 0;
        }
        self.core.world.present() + group_membership_interval(&self.core.world, iface)
    }

    /// Whether there is a group record of the group on the interface, in either mode; none where the router has failed. No
    /// memory is taken.
    pub fn has_group_record(&self, iface: IfaceId, group: Addr) -> bool
        ensures { result ≡ option_map_or
            (λ r. has_row r.state.group_records (star_key iface.number group.bits)) self.now.standing false }
    {
        if self.failed {
            return false;
        }
        self.core.world.has_group_record(iface, group)
    }

    /// The group record of the group on the interface; none where the router has failed. No memory is taken.
    pub fn group_record(&self, iface: IfaceId, group: Addr) -> Option<GroupRecordRow>
        ensures { result ≡ option_and_then
            (λ r. row_at r.state.group_records (star_key iface.number group.bits)) self.now.standing }
    {
        if self.failed {
            return None;
        }
        self.core.world.membership().group_record(iface, group)
    }
}
