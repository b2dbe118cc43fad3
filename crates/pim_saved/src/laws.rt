//! What is proved of the text of a state. Each law is the contract of a function with nothing to do.
ghost use Rattle.pim_saved.specs.Laws.{CrcIsKnown, OneByteIsSummed, OneByteIsTold, ReadingIsText, TextIsRead};

/// Each state whose fields fit is read of its text.
pub fn text_is_read()
    ensures { TextIsRead }
{}

/// What is read has the bytes as its one text, and its fields fit.
pub fn one_text_a_state()
    ensures { ReadingIsText }
{}

/// The CRC-32 of the nine digits is the one that each implementation of it gives.
pub fn crc_is_known()
    ensures { CrcIsKnown }
{}

/// One byte that is changed changes the sum.
pub fn one_byte_is_summed()
    ensures { OneByteIsSummed }
{}

/// Of a state's bytes with one byte changed no state is read.
pub fn one_byte_is_told()
    ensures { OneByteIsTold }
{}
