//! A member of a group that answers the querier in time over a reload, and two that don't, computed by the kernel.
ghost use Rattle.pim_runs.specs.Answering.{MemberAnswers, MemberIsKept, PatientQueriesComeTooLate, SlowAnswersComeTooLate};

/// A host answers each general query of a router that asks every 125 s, and after a reload every 10 s.
pub fn member_answers()
    ensures { MemberAnswers }
{}

/// The record of a host that answers each query is there after more than 300 s.
pub fn member_is_kept()
    ensures { MemberIsKept }
{}

/// Where answers are delivered as late as the query interval is long, the record may be over before.
pub fn slow_answers_come_too_late()
    ensures { SlowAnswersComeTooLate }
{}

/// Where a reload lets responses take longer than the record lasts beyond the next query, it may be over before.
pub fn patient_queries_come_too_late()
    ensures { PatientQueriesComeTooLate }
{}
