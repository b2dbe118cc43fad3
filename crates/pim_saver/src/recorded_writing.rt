//! A record written: what it says, and then its sum.
ghost use Rattle.pim_saved.specs.Fits.{FitsList};
ghost use Rattle.pim_saved.specs.Text.{list_text};
ghost use Rattle.pim_saver.specs.Fits.{FitsBytes, FitsRecord, FitsRpSet};
ghost use Rattle.pim_saver.specs.Records.{Guard, Hosts, Kept, Reloaded, Seen, Sets, Version, bytes_text, event_record, front_text, placed_call, rp_set_text, settings_in, summed};
ghost use Rattle.pim_types.specs.declared.event.EventKind.{EventKind as EventValue};
ghost use Rattle.std.specs.List.{AllByRecursion, flat_map};
ghost use Rattle.std.specs.Prelude.{◌≡◌, ◌++◌, OnOk};

use crate::answered::Answered;
use crate::{Saved, write_list, write_sum};
use pim_anycast::RpSet;
use pim_types::{Addr, Config, IfaceId, InterfaceConfig, Route, RpCandidate, RpRange, Settings};
use std::alloc::AllocError;

// Puts the number of bytes at the end, and each byte.
fn write_bytes(bytes: &[u8], out: &mut Vec<u8>) -> Result<(), AllocError>
    ensures ok { OnOk result (out.new.items ≡ out.old.items ++ bytes_text bytes.now) }
    ensures fitting { OnOk result (FitsBytes bytes.now) }
{
    (bytes.len() as u64).write(out)?;
    out.extend_from_slice(bytes)?;
    Ok(())
}

/// Ends a record whose bytes these are: puts their CRC-32 behind them.
pub fn end_record(out: &mut Vec<u8>) -> Result<(), AllocError>
    ensures { OnOk result (out.new.items ≡ summed out.old.items) }
{
    write_sum(0, out)
}

/// Puts the record of time that passed behind what is there, without its sum, as each of these functions does. An error is
/// want of memory, and leaves behind what was written before it.
pub fn write_advance(
    draw: u32,
    moment: u64,
    answered: Answered,
    out: &mut Vec<u8>,
) -> Result<(), AllocError>
    ensures ok { OnOk result (out.new.items ≡ out.old.items ++ front_text (event_record draw (EventValue.Advance moment) answered)) }
    ensures fitting { OnOk result (FitsRecord (event_record draw (EventValue.Advance moment) answered)) }
{
    out.push(b'a')?;
    draw.write(out)?;
    moment.write(out)?;
    answered.write(out)?;
    Ok(())
}

/// Puts the record of a packet that came on an interface behind what is there.
pub fn write_frame(
    draw: u32,
    iface: IfaceId,
    packet: &[u8],
    answered: Answered,
    out: &mut Vec<u8>,
) -> Result<(), AllocError>
    ensures ok { OnOk result (out.new.items ≡ out.old.items ++ front_text (event_record draw (EventValue.Frame iface packet.now) answered)) }
    ensures fitting { OnOk result (FitsRecord (event_record draw (EventValue.Frame iface packet.now) answered)) }
{
    out.push(b'f')?;
    draw.write(out)?;
    iface.write(out)?;
    write_bytes(packet, out)?;
    answered.write(out)?;
    Ok(())
}

/// Puts the record of a packet that came for an address of the router behind what is there.
pub fn write_unicast(
    draw: u32,
    packet: &[u8],
    answered: Answered,
    out: &mut Vec<u8>,
) -> Result<(), AllocError>
    ensures ok { OnOk result (out.new.items ≡ out.old.items ++ front_text (event_record draw (EventValue.Unicast packet.now) answered)) }
    ensures fitting { OnOk result (FitsRecord (event_record draw (EventValue.Unicast packet.now) answered)) }
{
    out.push(b'u')?;
    draw.write(out)?;
    write_bytes(packet, out)?;
    answered.write(out)?;
    Ok(())
}

/// Puts the record of an interface that went up behind what is there.
pub fn write_up(
    draw: u32,
    iface: IfaceId,
    answered: Answered,
    out: &mut Vec<u8>,
) -> Result<(), AllocError>
    ensures ok { OnOk result (out.new.items ≡ out.old.items ++ front_text (event_record draw (EventValue.Up iface) answered)) }
    ensures fitting { OnOk result (FitsRecord (event_record draw (EventValue.Up iface) answered)) }
{
    out.push(b'+')?;
    draw.write(out)?;
    iface.write(out)?;
    answered.write(out)?;
    Ok(())
}

/// Puts the record of an interface that went down behind what is there.
pub fn write_down(
    draw: u32,
    iface: IfaceId,
    answered: Answered,
    out: &mut Vec<u8>,
) -> Result<(), AllocError>
    ensures ok { OnOk result (out.new.items ≡ out.old.items ++ front_text (event_record draw (EventValue.Down iface) answered)) }
    ensures fitting { OnOk result (FitsRecord (event_record draw (EventValue.Down iface) answered)) }
{
    out.push(b'-')?;
    draw.write(out)?;
    iface.write(out)?;
    answered.write(out)?;
    Ok(())
}

/// Puts the record of new unicast routes behind what is there.
pub fn write_routes(
    draw: u32,
    routes: &[Route],
    answered: Answered,
    out: &mut Vec<u8>,
) -> Result<(), AllocError>
    ensures ok { OnOk result (out.new.items ≡ out.old.items ++ front_text (event_record draw (EventValue.Routes routes.now) answered)) }
    ensures fitting { OnOk result (FitsRecord (event_record draw (EventValue.Routes routes.now) answered)) }
{
    out.push(b'r')?;
    draw.write(out)?;
    write_list(routes, out)?;
    answered.write(out)?;
    Ok(())
}

/// Puts the record of new RP ranges behind what is there.
pub fn write_ranges(
    draw: u32,
    ranges: &[RpRange],
    answered: Answered,
    out: &mut Vec<u8>,
) -> Result<(), AllocError>
    ensures ok { OnOk result (out.new.items ≡ out.old.items ++ front_text (event_record draw (EventValue.Rps ranges.now) answered)) }
    ensures fitting { OnOk result (FitsRecord (event_record draw (EventValue.Rps ranges.now) answered)) }
{
    out.push(b'g')?;
    draw.write(out)?;
    write_list(ranges, out)?;
    answered.write(out)?;
    Ok(())
}

/// Puts the record of new candidate RPs behind what is there.
pub fn write_candidates(
    draw: u32,
    candidates: &[RpCandidate],
    answered: Answered,
    out: &mut Vec<u8>,
) -> Result<(), AllocError>
    ensures ok { OnOk result (out.new.items ≡ out.old.items ++ front_text (event_record draw (EventValue.RpCandidates candidates.now) answered)) }
    ensures fitting { OnOk result (FitsRecord (event_record draw (EventValue.RpCandidates candidates.now) answered)) }
{
    out.push(b'h')?;
    draw.write(out)?;
    write_list(candidates, out)?;
    answered.write(out)?;
    Ok(())
}

/// Puts the record of another configuration behind what is there.
pub fn write_reloaded(
    draw: u32,
    settings: Settings,
    interfaces: &[InterfaceConfig],
    addresses: &[Addr],
    routes: &[Route],
    ranges: &[RpRange],
    answered: Answered,
    out: &mut Vec<u8>,
) -> Result<(), AllocError>
    ensures ok { OnOk result (out.new.items ≡ out.old.items ++ front_text
        (record { call = Reloaded draw settings interfaces.now addresses.now routes.now ranges.now; answered = answered })) }
    ensures fitting { OnOk result (FitsRecord
        (record { call = Reloaded draw settings interfaces.now addresses.now routes.now ranges.now; answered = answered })) }
{
    out.push(b'c')?;
    draw.write(out)?;
    settings.write(out)?;
    write_list(interfaces, out)?;
    write_list(addresses, out)?;
    write_list(routes, out)?;
    write_list(ranges, out)?;
    answered.write(out)?;
    Ok(())
}

/// A configuration without its lists.
pub fn settings_in(config: &Config) -> Settings
    ensures { result ≡ settings_in config.now }
{
    Settings {
        limit: config.limit,
        spt: config.spt,
        robustness: config.robustness,
        query_interval: config.query_interval,
        query_response_interval: config.query_response_interval,
        last_member_query_interval: config.last_member_query_interval,
    }
}

/// Puts the record of another configuration by a map of places behind what is there: each place is a number, or the one
/// that stands for none.
pub fn write_placed(
    draw: u32,
    config: &Config,
    places: &[u32],
    answered: Answered,
    out: &mut Vec<u8>,
) -> Result<(), AllocError>
    ensures ok { OnOk result (out.new.items ≡ out.old.items ++ front_text
        (record { call = placed_call draw config.now places.now; answered = answered })) }
    ensures fitting { OnOk result (FitsRecord
        (record { call = placed_call draw config.now places.now; answered = answered })) }
{
    out.push(b'm')?;
    draw.write(out)?;
    settings_in(config).write(out)?;
    write_list(config.interfaces.as_slice(), out)?;
    write_list(config.addresses.as_slice(), out)?;
    write_list(config.routes.as_slice(), out)?;
    write_list(config.rps.as_slice(), out)?;
    write_list(places, out)?;
    answered.write(out)?;
    Ok(())
}

/// Puts the record of a packet that a data plane saw behind what is there.
pub fn write_seen(
    draw: u32,
    iface: IfaceId,
    source: Addr,
    group: Addr,
    answered: Answered,
    out: &mut Vec<u8>,
) -> Result<(), AllocError>
    ensures ok { OnOk result (out.new.items ≡ out.old.items ++ front_text (record { call = Seen draw iface source group; answered = answered })) }
    ensures fitting { OnOk result (FitsRecord (record { call = Seen draw iface source group; answered = answered })) }
{
    out.push(b's')?;
    draw.write(out)?;
    iface.write(out)?;
    source.write(out)?;
    group.write(out)?;
    answered.write(out)?;
    Ok(())
}

/// Puts the record of the last packet that a data plane forwarded, at a timestamp in ms, behind what is there.
pub fn write_kept(
    source: Addr,
    group: Addr,
    moment: u64,
    answered: Answered,
    out: &mut Vec<u8>,
) -> Result<(), AllocError>
    ensures ok { OnOk result (out.new.items ≡ out.old.items ++ front_text (record { call = Kept source group moment; answered = answered })) }
    ensures fitting { OnOk result (FitsRecord (record { call = Kept source group moment; answered = answered })) }
{
    out.push(b'k')?;
    source.write(out)?;
    group.write(out)?;
    moment.write(out)?;
    answered.write(out)?;
    Ok(())
}

/// Puts the record of which older hosts an interface hears, by their number, behind what is there.
pub fn write_hosts(
    iface: IfaceId,
    hosts: u32,
    answered: Answered,
    out: &mut Vec<u8>,
) -> Result<(), AllocError>
    ensures ok { OnOk result (out.new.items ≡ out.old.items ++ front_text (record { call = Hosts iface hosts; answered = answered })) }
    ensures fitting { OnOk result (FitsRecord (record { call = Hosts iface hosts; answered = answered })) }
{
    out.push(b'o')?;
    iface.write(out)?;
    hosts.write(out)?;
    answered.write(out)?;
    Ok(())
}

/// Puts the record of the version of an interface's queries behind what is there.
pub fn write_version(
    iface: IfaceId,
    version: u32,
    answered: Answered,
    out: &mut Vec<u8>,
) -> Result<(), AllocError>
    ensures ok { OnOk result (out.new.items ≡ out.old.items ++ front_text (record { call = Version iface version; answered = answered })) }
    ensures fitting { OnOk result (FitsRecord (record { call = Version iface version; answered = answered })) }
{
    out.push(b'q')?;
    iface.write(out)?;
    version.write(out)?;
    answered.write(out)?;
    Ok(())
}

/// Puts the record of whether the guard is on, by its number, behind what is there.
pub fn write_guard(is_on: u32, answered: Answered, out: &mut Vec<u8>) -> Result<(), AllocError>
    ensures ok { OnOk result (out.new.items ≡ out.old.items ++ front_text (record { call = Guard is_on; answered = answered })) }
    ensures fitting { OnOk result (FitsRecord (record { call = Guard is_on; answered = answered })) }
{
    out.push(b'd')?;
    is_on.write(out)?;
    answered.write(out)?;
    Ok(())
}

// Puts the bytes of a set of RPs at the end.
#[tactic(auto, unfolding(crate::specs::Records::rp_set_text, crate::specs::Fits::FitsRpSet))]
fn write_rp_set(set: &RpSet, out: &mut Vec<u8>) -> Result<(), AllocError>
    ensures ok { OnOk result (out.new.items ≡ out.old.items ++ rp_set_text set.now) }
    ensures fitting { OnOk result (FitsRpSet set.now) }
{
    set.shared.write(out)?;
    set.own.write(out)?;
    write_list(set.others.as_slice(), out)?;
    Ok(())
}

// Puts the bytes of each set at the end.
fn write_each_rp_set(sets: &[RpSet], out: &mut Vec<u8>) -> Result<(), AllocError>
    ensures ok { OnOk result (out.new.items ≡ out.old.items ++ flat_map rp_set_text sets.now) }
    ensures fitting { OnOk result (AllByRecursion FitsRpSet sets.now) }
{
    for set in sets {
        write_rp_set(set, out)?;
    }
    Ok(())
}

/// Puts the record of the sets of RPs that share an address behind what is there.
pub fn write_rp_sets(
    sets: &[RpSet],
    answered: Answered,
    out: &mut Vec<u8>,
) -> Result<(), AllocError>
    ensures ok { OnOk result (out.new.items ≡ out.old.items ++ front_text (record { call = Sets sets.now; answered = answered })) }
    ensures fitting { OnOk result (FitsRecord (record { call = Sets sets.now; answered = answered })) }
{
    out.push(b'y')?;
    (sets.len() as u64).write(out)?;
    write_each_rp_set(sets, out)?;
    answered.write(out)?;
    Ok(())
}
