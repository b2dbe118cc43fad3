//! The sources of a group record and those that a message names, merged.
ghost use Rattle.std.specs.Iterator.{YieldsFirst, item_count};
ghost use Rattle.std.specs.Prelude.{◌≡◌};
ghost use Rattle.pim_filters.specs.Cases.{cases_in, member_case, new_case};

use crate::member::{Member, SourceState};
use pim_ip::Addr;

/// A source that a record has or a message names.
#[derive(Clone, Copy)]
pub(crate) struct Case {
    pub(crate) source: Addr,
    /// What the record says of it before the message.
    pub(crate) before: SourceState,
    /// Whether the message names the source.
    pub(crate) named: bool,
}

impl Case {
    // A source that a message names, and that the group's record didn't have.
    fn of_name(name: u32) -> Case
        ensures { result ≡ new_case name }
    {
        Case {
            source: Addr { bits: name },
            before: SourceState::Absent,
            named: true,
        }
    }

    // A source of the group's record, which a message names or not.
    fn of_member(member: Member, named: bool) -> Case
        ensures { result ≡ member_case named member }
    {
        Case {
            source: member.source,
            before: member.source_state(),
            named,
        }
    }
}

/// The members of a record and the addresses that a message names, both ascending, merged.
#[derive(Drop)]
pub(crate) struct Cases<'a> {
    pub(crate) members: &'a [Member],
    pub(crate) names: &'a [u32],
}

impl Iterator for Cases<'_> {
    type Item = Case;

    ghost next_gives = { YieldsFirst (λ s. cases_in s.members.now s.names.now) };

    ghost remaining = { item_count (λ s. cases_in s.members.now s.names.now) };

    fn next(&mut self) -> Option<Case> {
        let Some((member, members)) = self.members.split_first() else {
            let (name, names) = self.names.split_first()?;
            self.names = names;
            return Some(Case::of_name(*name));
        };
        let Some((name, names)) = self.names.split_first() else {
            self.members = members;
            return Some(Case::of_member(*member, false));
        };
        if *name < member.source.bits {
            self.names = names;
            return Some(Case::of_name(*name));
        }
        let named = *name == member.source.bits;
        if named {
            self.names = names;
        }
        self.members = members;
        Some(Case::of_member(*member, named))
    }
}
