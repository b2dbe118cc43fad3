//! A scenario's text from its file.
ghost use Rattle.std.specs.Prelude.{◌≡◌, ◌⊎◌, IfOk, IfErr, IfSome, IsErrAnd, IsNone, IsSomeAnd, OnOk, string_bytes};
ghost use Rattle.pim_ip.specs.declared.fault.Fault.{Fault};
ghost use Rattle.pim_scenario.specs.Complaints.{IsTold};
ghost use Rattle.pim_scenario.specs.declared.complaint.Complaint.{Complaint};

use crate::complaint::Complaint;
use pim_types::Fault;
use std::alloc::Global;
use std::io::{ErrorKind, Read, Write};

/// The whole text of a file. `reader` is none where the file couldn't be opened. If the file can't be read to its end,
/// isn't UTF-8, or memory is wanting, that is reported by `name` on `err`, and the status is returned: 2 or 4, or 3
/// where the line can't be written.
pub fn load<R: Read + Drop, W: Write>(
    alloc: Global,
    name: &str,
    reader: Option<R>,
    err: &mut W,
) -> Result<String, u8>
    ensures text { IfOk result (λ t. IsSomeAnd reader
        (λ r. IfSome (R.remaining r) (λ bytes. string_bytes t ≡ bytes))) }
    ensures quiet { OnOk result (err.new ≡ err.old) }
    ensures unopened { IsNone reader
        → IsErrAnd result (λ s. IsTold (Complaint.File name.entry) s (W.contents err.old) (W.contents err.new)) }
    ensures told { IfErr result (λ s. IsTold (Complaint.File name.entry) s (W.contents err.old) (W.contents err.new)
        ⊎ IsTold (Complaint.Fault Fault.Memory) s (W.contents err.old) (W.contents err.new)) }
{
    let Some(mut reader) = reader else {
        return Err(Complaint::File(name).tell(err));
    };
    let mut text = String::new(alloc);
    match reader.read_to_string(&mut text) {
        Ok(_) => Ok(text),
        Err(error) if error.kind() == ErrorKind::OutOfMemory => {
            Err(Complaint::Fault(Fault::Memory).tell(err))
        }
        Err(_) => Err(Complaint::File(name).tell(err)),
    }
}
