//! What is proved of the bytes of a recording. Each law is the contract of a function with nothing to do.
ghost use Rattle.pim_saver.specs.RecordLaws.{OneRecording, ReadingIsRecord, RecordIsRead};

/// Each record whose fields fit is read of its bytes, whatever follows them.
pub fn record_is_read()
    ensures { RecordIsRead }
{}

/// What is read as a record has the bytes as its one text, and its fields fit.
pub fn one_text_a_record()
    ensures { ReadingIsRecord }
{}

/// The bytes of a recording are those of no other.
pub fn one_recording()
    ensures { OneRecording }
{}
