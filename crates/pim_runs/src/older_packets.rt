//! Packets as they come and as the front gives them.
#![tactic(auto, unfolding(crate::proofs::OnLiterals::machine_on_literals, crate::proofs::OlderHost::front_on_literals))]

ghost use Rattle.pim_runs.specs.OlderPackets.{BlocksGo, LeaveIncludesNobody, LeaveIsIgnoredInOne, ReportsExcludeNobody, SettingsHold, SourceSpecificPasses, ToIncludeGoesInOne};

/// A report of version 1 or 2 becomes a record that excludes nobody.
pub fn reports_exclude_nobody()
    ensures { ReportsExcludeNobody }
{}

/// A Leave becomes a TO_IN( {} ), where no host of version 1 is known.
pub fn leave_includes_nobody()
    ensures { LeaveIncludesNobody }
{}

/// A Leave is given as it came where a host of version 1 is known, and the router ignores it.
pub fn leave_is_ignored_in_one()
    ensures { LeaveIsIgnoredInOne }
{}

/// A report of version 1 or 2 of a source-specific group is given as it came.
pub fn source_specific_passes()
    ensures { SourceSpecificPasses }
{}

/// In the mode of an older version the blocked sources of a report go, and those that a TO_EX excludes.
pub fn blocks_go()
    ensures { BlocksGo }
{}

/// In mode IGMPv1 a TO_IN goes from a report.
pub fn to_include_goes_in_one()
    ensures { ToIncludeGoesInOne }
{}

/// Interfaces that hear no hosts of version 1, or no older hosts at all, are given what they hear alone.
pub fn settings_hold()
    ensures { SettingsHold }
{}
