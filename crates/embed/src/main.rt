//! A router in a program of its own. First two interfaces come up, Hellos and a Join(*,G) arrive, and time goes on:
//! what becomes of each event is printed, and what leaves. Then six plays, each with a router of its own, tell of the
//! forwarding cache and what it costs: the row of a source, how many trie nodes a packet visits, and how many rows an
//! event touches.
#![tactic(auto)]

mod config;
mod packets;
mod plays;
mod serve;
mod steps;
mod telling;

use pim_router::Router;
use plays::Play;
use std::io;
use steps::failed;

fn main(rt: HostRuntime) -> io::Result<()> {
    for play in Play::ALL {
        perform(&rt, play)?;
    }
    Ok(())
}

fn perform(rt: &HostRuntime, play: Play) -> io::Result<()> {
    let config = play.config(rt.alloc())?;
    match Router::new(rt.alloc(), config) {
        Ok(Ok(router)) => lend(rt, router, play),
        Ok(Err(refusal)) => println!(rt; "refused: {refusal}"),
        Err(fault) => Err(failed(fault)),
    }
}

// A list of one, since a function that owns a router itself takes minutes to prove.
fn lend(rt: &HostRuntime, router: Router, play: Play) -> io::Result<()> {
    let mut routers = Vec::new(rt.alloc());
    routers.push(router)?;
    for router in routers.iter_mut() {
        play.with(rt, router)?;
    }
    Ok(())
}
