//! Records of calls, which a program writes one behind the other.
ghost use Rattle.pim_c.specs.Recorded.{Written, answered_of, candidates_text, given_front, given_text, placed_text, ranges_text, reload_text, routes_text, rp_sets_text};
ghost use Rattle.pim_c.specs.Written.{NoBytesWritten};
ghost use Rattle.std.specs.Prelude.{◌≡◌, ◌++◌, IfOk, OnErr, OnOk};

use crate::given::{self, GivenCandidate, GivenRange, GivenRoute, GivenRpSet};
use crate::returned::{self, DONE, MEMORY};
use pim_saver::Answered;
use pim_types::{Addr, Config, IfaceId};
use std::alloc::{AllocError, Global};

/// A call that a router took, and what it answered. A field that its kind of call doesn't have isn't read.
#[repr(C)]
#[derive(Drop)]
pub struct GivenCall {
    /// The timestamp, in ms.
    pub moment: u64,
    /// The letter of the call's kind.
    pub letter: u32,
    pub draw: u32,
    pub iface: u32,
    pub source: u32,
    pub group: u32,
    /// What was set.
    pub value: u32,
    pub answer: u32,
    /// The sum of what was to be sent.
    pub sum: u32,
}

fn answered(call: &GivenCall) -> Answered
    ensures { result ≡ answered_of call.now }
{
    Answered {
        answer: call.answer,
        sum: call.sum,
    }
}

// Puts the record of a call without a list behind what is there, without its sum; none where no kind has its letter.
fn write_call(call: &GivenCall, packet: &[u8], out: &mut Vec<u8>) -> Result<(), AllocError>
    ensures { OnOk result (out.new.items ≡ out.old.items ++ given_front call.now packet.now) }
{
    let iface = IfaceId { number: call.iface };
    let source = Addr { bits: call.source };
    let group = Addr { bits: call.group };
    let answered = answered(call);
    match call.letter {
        97 => pim_saver::write_advance(call.draw, call.moment, answered, out),
        102 => pim_saver::write_frame(call.draw, iface, packet, answered, out),
        117 => pim_saver::write_unicast(call.draw, packet, answered, out),
        43 => pim_saver::write_up(call.draw, iface, answered, out),
        45 => pim_saver::write_down(call.draw, iface, answered, out),
        115 => pim_saver::write_seen(call.draw, iface, source, group, answered, out),
        107 => pim_saver::write_kept(source, group, call.moment, answered, out),
        111 => pim_saver::write_hosts(iface, call.value, answered, out),
        113 => pim_saver::write_version(iface, call.value, answered, out),
        100 => pim_saver::write_guard(call.value, answered, out),
        _ => Ok(()),
    }
}

/// The bytes of the record of a call without a list; none where no kind has its letter. An error is want of memory, as of
/// each function that returns a record.
pub fn call_record(alloc: Global, call: &GivenCall, packet: &[u8]) -> Result<Vec<u8>, AllocError>
    ensures { IfOk result (λ bytes. bytes.items ≡ given_text call.now packet.now) }
{
    let mut out = Vec::new(alloc);
    write_call(call, packet, &mut out)?;
    if out.is_empty() {
        return Ok(out);
    }
    pim_saver::end_record(&mut out)?;
    Ok(out)
}

/// The bytes of the record of new unicast routes.
pub fn routes_record(
    alloc: Global,
    call: &GivenCall,
    routes: &[GivenRoute],
) -> Result<Vec<u8>, AllocError>
    ensures { IfOk result (λ bytes. bytes.items ≡ routes_text call.now routes.now) }
{
    let routes = given::routes(alloc, routes)?;
    let mut out = Vec::new(alloc);
    pim_saver::write_routes(call.draw, routes.as_slice(), answered(call), &mut out)?;
    pim_saver::end_record(&mut out)?;
    Ok(out)
}

/// The bytes of the record of new RP ranges.
pub fn ranges_record(
    alloc: Global,
    call: &GivenCall,
    ranges: &[GivenRange],
) -> Result<Vec<u8>, AllocError>
    ensures { IfOk result (λ bytes. bytes.items ≡ ranges_text call.now ranges.now) }
{
    let ranges = given::ranges(alloc, ranges)?;
    let mut out = Vec::new(alloc);
    pim_saver::write_ranges(call.draw, ranges.as_slice(), answered(call), &mut out)?;
    pim_saver::end_record(&mut out)?;
    Ok(out)
}

/// The bytes of the record of new candidate RPs.
pub fn candidates_record(
    alloc: Global,
    call: &GivenCall,
    candidates: &[GivenCandidate],
) -> Result<Vec<u8>, AllocError>
    ensures { IfOk result (λ bytes. bytes.items ≡ candidates_text call.now candidates.now) }
{
    let candidates = given::candidates(alloc, candidates)?;
    let mut out = Vec::new(alloc);
    pim_saver::write_candidates(call.draw, candidates.as_slice(), answered(call), &mut out)?;
    pim_saver::end_record(&mut out)?;
    Ok(out)
}

/// The bytes of the record of sets of RPs that share an address.
pub fn rp_sets_record(
    alloc: Global,
    call: &GivenCall,
    sets: &[GivenRpSet<'_>],
) -> Result<Vec<u8>, AllocError>
    ensures { IfOk result (λ bytes. bytes.items ≡ rp_sets_text call.now sets.now) }
{
    let sets = given::rp_sets(alloc, sets)?;
    let mut out = Vec::new(alloc);
    pim_saver::write_rp_sets(&sets, answered(call), &mut out)?;
    pim_saver::end_record(&mut out)?;
    Ok(out)
}

/// The bytes of the record of another configuration.
pub fn reload_record(
    alloc: Global,
    call: &GivenCall,
    config: &Config,
) -> Result<Vec<u8>, AllocError>
    ensures { IfOk result (λ bytes. bytes.items ≡ reload_text call.now config.now) }
{
    let mut out = Vec::new(alloc);
    pim_saver::write_reloaded(
        call.draw,
        pim_saver::settings_in(config),
        config.interfaces.as_slice(),
        config.addresses.as_slice(),
        config.routes.as_slice(),
        config.rps.as_slice(),
        answered(call),
        &mut out,
    )?;
    pim_saver::end_record(&mut out)?;
    Ok(out)
}

/// The bytes of the record of another configuration by a map of places, each by its number.
pub fn placed_record(
    alloc: Global,
    call: &GivenCall,
    config: &Config,
    places: &[u32],
) -> Result<Vec<u8>, AllocError>
    ensures { IfOk result (λ bytes. bytes.items ≡ placed_text call.now config.now places.now) }
{
    let mut out = Vec::new(alloc);
    pim_saver::write_placed(call.draw, config, places, answered(call), &mut out)?;
    pim_saver::end_record(&mut out)?;
    Ok(out)
}

/// Writes the bytes of a record into a buffer, as many as fit, and how many there are. The result is the number of the
/// answer.
pub fn tell(written: Result<Vec<u8>, AllocError>, room: &mut [u8], size: &mut usize) -> u32
    ensures ok { IfOk written (λ bytes. Written bytes.items result size.old size.new room.old room.new) }
    ensures err { OnErr written (NoBytesWritten 40 result size.old size.new room.old room.new) }
{
    match written {
        Ok(bytes) => {
            *size = bytes.len();
            returned::write(room, bytes.as_slice());
            DONE
        }
        Err(_) => MEMORY,
    }
}
