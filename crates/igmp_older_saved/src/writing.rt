//! Rows of older hosts written in front of a router's bytes.
ghost use Rattle.igmp_older_saved.specs.Text.{hosts_text, summed, text_with, FitsHost};
ghost use Rattle.law_settled.specs.Ready.{Rises};
ghost use Rattle.pim_saved.specs.Fits.{FitsEntry, FitsList, FitsTable};
ghost use Rattle.std.specs.Prelude.{◌≡◌, ◌++◌, [], OnErr, OnOk};

use crate::host::HostRow;
use pim_saver::{Saved, write_rows, write_sum};
use pim_types::Key;
use std::alloc::AllocError;

/// The first four bytes where rows of older hosts stand in front of a router's bytes: `VIQF`.
pub(crate) const TAG: u32 = 0x5649_5146;

// Puts the rows of older hosts at the end, behind their tag.
#[tactic(auto, unfolding(crate::specs::Text::hosts_text))]
fn write_hosts(hosts: &[(Key, HostRow)], out: &mut Vec<u8>) -> Result<(), AllocError>
    ensures ok { OnOk result (out.new.items ≡ out.old.items ++ hosts_text hosts.now) }
    ensures fitting { OnOk result (FitsList (FitsEntry FitsHost) hosts.now) }
{
    TAG.write(out)?;
    write_rows(hosts, out)?;
    Ok(())
}

// Puts rows of older hosts, a router's bytes, and the sum of both where nothing is.
fn write_all(hosts: &[(Key, HostRow)], router: &[u8], out: &mut Vec<u8>) -> Result<(), AllocError>
    requires { out.old.items ≡ [] }
    ensures ok { OnOk result (out.new.items ≡ summed (hosts_text hosts.now ++ router.now)) }
    ensures fitting { OnOk result (FitsList (FitsEntry FitsHost) hosts.now) }
{
    write_hosts(hosts, out)?;
    out.extend_from_slice(router)?;
    write_sum(0, out)
}

/// Adds a router's bytes after those that are there, behind rows of older hosts, which rise by their keys, and with the
/// sum of all; without rows they are the router's alone. An `Err` is want of memory, and changes nothing.
pub fn write_saved(
    hosts: &[(Key, HostRow)],
    router: &[u8],
    out: &mut Vec<u8>,
) -> Result<(), AllocError>
    ensures ok { OnOk result (out.new.items ≡ out.old.items ++ text_with hosts.now router.now) }
    ensures fitting { Rises hosts.now → OnOk result (FitsTable FitsHost hosts.now) }
    ensures err { OnErr result (out.new.items ≡ out.old.items) }
{
    if hosts.is_empty() {
        out.extend_from_slice(router)?;
        return Ok(());
    }
    let mut bytes = Vec::new(*out.allocator());
    write_all(hosts, router, &mut bytes)?;
    out.append(&mut bytes)?;
    Ok(())
}
