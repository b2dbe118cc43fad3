//! The rows of older hosts that stand before a router as they are saved, and both made of the bytes.
ghost use Rattle.igmp_older_saved.specs.Reading.{held_in, held_read_test, held_reading, held_restore_test};
ghost use Rattle.igmp_older_saved.specs.Text.{Held};
ghost use Rattle.law_settled.specs.Ready.{Rises};
ghost use Rattle.pim_ip.specs.declared.fault.Fault.{Fault};
ghost use Rattle.pim_model.specs.State.{State};
ghost use Rattle.pim_router.specs.Standing.{begun};
ghost use Rattle.pim_saved.specs.Reading.{reading};
ghost use Rattle.pim_session.specs.Saved.{front_resumed, hosts_of};
ghost use Rattle.std.specs.Prelude.{◌≡◌, Err, IfErr, IfOk, IfSome, Ok, OnOk};

use crate::asked::Asked;
use crate::behind::times_in;
use crate::front::Front;
use igmp_older_saved::{HeldRefusal, HostRow, are_held, open_saved};
use pim_router::Router;
use pim_saver::ReadFault;
use pim_types::{Fault, Key};
use std::alloc::{AllocError, Global};

/// The rows of older hosts that are saved.
pub(crate) fn hosts_of(
    alloc: Global,
    router: &Router,
    front: &Option<Front>,
) -> Result<Vec<(Key, HostRow)>, AllocError>
    ensures saved { IfSome router.now.standing (λ r. IfOk result (λ hosts. hosts.items ≡ hosts_of r.state front.now)) }
    ensures rise { IfOk result (λ hosts. Rises hosts.items) }
{
    match front {
        Some(front) => {
            let hosts = front.saved_hosts(alloc, &Asked::of(router))?;
            Ok(hosts)
        }
        None => Ok(Vec::new(alloc)),
    }
}

// What stands before a router that was saved with these rows of older hosts.
fn resumed_front(
    alloc: Global,
    router: &Router,
    hosts: &[(Key, HostRow)],
) -> Result<Option<Front>, AllocError>
    ensures { IfSome router.now.standing (λ r. IfOk result (λ front. front ≡ front_resumed r.state hosts.now)) }
{
    if hosts.is_empty() {
        return Ok(None);
    }
    let limit = router.limit();
    let count = router.interface_count();
    let mut front = Front::new(alloc, limit, count, times_in(router))?;
    front.take_hosts(alloc, limit, hosts)?;
    Ok(Some(front))
}

// The router that is in the state that its bytes say, and these rows of older hosts before it.
fn restore_with(
    alloc: Global,
    hosts: &[(Key, HostRow)],
    bytes: &[u8],
) -> Result<Result<(Router, Option<Front>), HeldRefusal>, Fault>
    ensures restored { IfOk result (λ made. IfOk made (λ x. (s : State) → reading bytes.now ≡ Ok s
        → (x.0 ≡ begun s) × (x.1 ≡ front_resumed s hosts.now))) }
    ensures tested { IfOk result (λ made. OnOk made (held_read_test (held_in (Ok (hosts.now, bytes.now))) ≡ Ok tt)) }
    ensures refused { IfOk result (λ made. IfErr made (λ refusal.
        held_read_test (held_in (Ok (hosts.now, bytes.now))) ≡ Err refusal)) }
    ensures memory { IfErr result (λ fault. fault ≡ Fault.Memory) }
{
    let router = match Router::restore(alloc, bytes)? {
        Ok(router) => router,
        Err(refusal) => return Ok(Err(HeldRefusal::Router(refusal))),
    };
    if !are_held(&Asked::of(&router), hosts) {
        return Ok(Err(HeldRefusal::HostsNotHeld));
    }
    let front = resumed_front(alloc, &router, hosts)?;
    Ok(Ok((router, front)))
}

/// The router that is in the state that these bytes say, and what stands before it, as `Session::restore` says.
pub(crate) fn restore(
    alloc: Global,
    bytes: &[u8],
) -> Result<Result<(Router, Option<Front>), HeldRefusal>, Fault>
    ensures restored { IfOk result (λ made. IfOk made (λ x. (h : Held) → held_reading bytes.now ≡ Ok h
        → (x.0 ≡ begun h.state) × (x.1 ≡ front_resumed h.state h.hosts))) }
    ensures tested { IfOk result (λ made. OnOk made (held_restore_test bytes.now ≡ Ok tt)) }
    ensures refused { IfOk result (λ made. IfErr made (λ refusal. held_restore_test bytes.now ≡ Err refusal)) }
    ensures memory { IfErr result (λ fault. fault ≡ Fault.Memory) }
{
    match open_saved(alloc, bytes) {
        Ok((hosts, rest)) => restore_with(alloc, &hosts, rest),
        Err(ReadFault::Memory) => Err(Fault::Memory),
        Err(ReadFault::Refused(_)) => Ok(Err(HeldRefusal::HostsNotHeld)),
    }
}
