//! What the front asks of the querier of version 3 behind it.
ghost use Rattle.std.specs.Prelude.{◌≡◌, ℕ};
ghost use Rattle.pim_model.specs.Tables.{Table, has_row, row_at};
ghost use Rattle.pim_types.specs.Keys.{star_key};
ghost use Rattle.pim_types.specs.declared.fact.GroupRecordRow.{GroupRecordRow};

use pim_ip::Addr;
use pim_types::IfaceId;
use pim_types::fact::GroupRecordRow;

/// The querier of version 3 behind the front. It keeps a record for each group on an interface that has members.
pub trait Querier {
    /// The querier's present timestamp, in ms.
    ghost present: { Self → ℕ };

    /// The querier's group records.
    ghost group_records: { Self → Table GroupRecordRow };

    /// The querier's present timestamp, in ms.
    fn present_moment(&self) -> u64
        ensures { result ≡ present self.now };

    /// Whether the querier has a record of a group on an interface.
    fn has_group_record(&self, iface: IfaceId, group: Addr) -> bool
        ensures { result ≡ has_row (group_records self.now) (star_key iface.number group.bits) };

    /// The querier's record of a group on an interface, if it has one.
    fn group_record(&self, iface: IfaceId, group: Addr) -> Option<GroupRecordRow>
        ensures { result ≡ row_at (group_records self.now) (star_key iface.number group.bits) };
}
