//! Worked readings and writings of messages.
#![tactic(auto, unfolding(crate::proofs::OnLiterals::machine_on_literals))]

ghost use Rattle.pim_runs.specs.Readings.{HelloWithHoldtimeAlone, ChecksumsOfARegister, CodesOfIntervals, ReportThatIsCutShort, ReportAsWritten, ChangedJoinIsRefused};

/// A Hello is read without the options that it lacks.
pub fn hello_with_holdtime_alone()
    ensures { HelloWithHoldtimeAlone }
{}

/// A Register is read with either of its two checksums.
pub fn checksums_of_a_register()
    ensures { ChecksumsOfARegister }
{}

/// The codes of intervals and their values.
pub fn codes_of_intervals()
    ensures { CodesOfIntervals }
{}

/// A report that is cut short is refused.
pub fn report_that_is_cut_short()
    ensures { ReportThatIsCutShort }
{}

/// The bytes of a report that is written.
pub fn report_as_written()
    ensures { ReportAsWritten }
{}

/// A Join with one place changed is refused, each time for what is tested first.
pub fn changed_join_is_refused()
    ensures { ChangedJoinIsRefused }
{}
