//! Worked causes of copies.
#![tactic(auto, unfolding(crate::proofs::OnLiterals::machine_on_literals))]

ghost use Rattle.pim_runs.specs.Causes.{CopiesStandLast, DownEndsTheCause, JoinIsTheCause, OtherJoinsAsk, ReportIsTheCause};

/// A copy to an interface on which its source is joined has the Join as its cause, as long as the Join lasts.
pub fn join_is_the_cause()
    ensures { JoinIsTheCause }
{}

/// A copy to an interface with members has their report as its cause, for the Group Membership Interval.
pub fn report_is_the_cause()
    ensures { ReportIsTheCause }
{}

/// An accepted Join(*,G) is a cause for every source, a Prune for none.
pub fn other_joins_ask()
    ensures { OtherJoinsAsk }
{}

/// Nothing has a cause any more on an interface that went down.
pub fn down_ends_the_cause()
    ensures { DownEndsTheCause }
{}

/// The copies of an outcome stand behind its messages.
pub fn copies_stand_last()
    ensures { CopiesStandLast }
{}
