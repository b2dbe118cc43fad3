//! What is saved of a router: its bytes, behind those of its listener for Bootstraps, if it has one.
ghost use Rattle.pim_bsr.specs.Reading.{restored};
ghost use Rattle.pim_bsr.specs.Text.{known_text};
ghost use Rattle.pim_lab.specs.Kept.{behind_word, front_text, kept_text, opened, restored_from, without_place};
ghost use Rattle.pim_saved.specs.Fits.{FitsByte, FitsList};
ghost use Rattle.pim_saved.specs.Reading.{byte_at, list_at, word_at};
ghost use Rattle.std.specs.Prelude.{◌≡◌, ◌++◌, IfOk, OnOk, Ok, Some, option_copied, option_map};

use pim_bsr::{Listener, ListenerRefusal};
use pim_saver::{ReadFault, Saved, read_list, write_list};
use std::alloc::{AllocError, Global};

/// The first four bytes where those of a listener stand in front of a router's: `VIQL`.
const TAG: u32 = 0x5649_514c;

// Puts what a listener knows at the end, behind the tag.
#[tactic(auto, unfolding(crate::specs::Kept::front_text))]
fn write_front(listener: &Listener, out: &mut Vec<u8>) -> Result<(), AllocError>
    ensures ok { OnOk result (out.new.items ≡ out.old.items ++ front_text listener.now) }
    ensures fitting { OnOk result (FitsList FitsByte (known_text listener.now)) }
    ensures again { OnOk result (restored (known_text listener.now) ≡ Ok listener.now) }
{
    let mut known = Vec::new(*out.allocator());
    listener.save(&mut known)?;
    TAG.write(out)?;
    write_list(known.as_slice(), out)?;
    Ok(())
}

// Puts a router's bytes at the end, behind those of its listener, of which the same listener is made.
fn write_both(listener: &Listener, router: &[u8], out: &mut Vec<u8>) -> Result<(), AllocError>
    ensures kept { OnOk result (out.new.items
        ≡ out.old.items ++ kept_text (Some listener.now) router.now) }
    ensures again { OnOk result (opened (kept_text (Some listener.now) router.now)
        ≡ Ok (Some listener.now, router.now)) }
{
    write_front(listener, out)?;
    out.extend_from_slice(router)?;
    Ok(())
}

/// Adds a router's bytes after those that are there, behind those of its listener, if it has one. An `Err` is want of
/// memory.
pub(crate) fn write_kept(
    listener: Option<&Listener>,
    router: &[u8],
    out: &mut Vec<u8>,
) -> Result<(), AllocError>
    ensures { OnOk result (out.new.items
        ≡ out.old.items ++ kept_text (option_copied listener.entry) router.now) }
{
    match listener {
        Some(listener) => write_both(listener, router, out),
        None => {
            out.extend_from_slice(router)?;
            Ok(())
        }
    }
}

// What stands behind the tag, where the bytes of a listener stand in front.
fn behind_tag(bytes: &[u8]) -> Option<&[u8]>
    ensures { option_map (λ rest. rest.now) result ≡ behind_word (word_at bytes.now) }
{
    let Ok((word, rest)) = u32::read(bytes) else {
        return None;
    };
    if word == TAG { Some(rest) } else { None }
}

// A listener that is made of its bytes, and what stands behind these. An `Err` is want of memory.
fn restore_front(
    alloc: Global,
    bytes: &[u8],
) -> Result<Result<(Option<Listener>, &[u8]), ListenerRefusal>, AllocError>
    ensures { IfOk result (λ made. without_place made ≡ restored_from (list_at byte_at bytes.now)) }
{
    let (known, router) = match read_list::<u8>(alloc, bytes) {
        Ok(parts) => parts,
        Err(ReadFault::Memory) => return Err(AllocError),
        Err(ReadFault::Refused(refusal)) => return Ok(Err(ListenerRefusal::Bytes(refusal))),
    };
    match Listener::restore(alloc, &known)? {
        Ok(listener) => Ok(Ok((Some(listener), router))),
        Err(refusal) => Ok(Err(refusal)),
    }
}

/// A listener that is made of what stands in front, if anything does, and the router's bytes. An `Err` is want of memory.
#[tactic(auto, unfolding(crate::specs::Kept::opened))]
pub(crate) fn open_kept(
    alloc: Global,
    bytes: &[u8],
) -> Result<Result<(Option<Listener>, &[u8]), ListenerRefusal>, AllocError>
    ensures { IfOk result (λ made. without_place made ≡ opened bytes.now) }
{
    match behind_tag(bytes) {
        Some(rest) => restore_front(alloc, rest),
        None => Ok(Ok((None, bytes))),
    }
}
