//! The routers of a scenario, as the lab and the network have them.
ghost use Rattle.lab_parts.specs.Learning.{learning_of, new_listener};
ghost use Rattle.lab_parts.specs.Standing.{standing_as};
ghost use Rattle.lab_parts.specs.Stations.{nobody_behind, own_addresses};
ghost use Rattle.pim_lab.specs.Statuses.{has_sets, router_node, sets_for};
ghost use Rattle.pim_net.specs.Showing.{node_of};
ghost use Rattle.std.specs.List.{list_all};
ghost use Rattle.std.specs.Prelude.{◌≡◌, IfOk};

use lab_parts::{Fronts, Learning, Reloaded, Station, link_numbers};
use pim_anycast::{Anycast, RpSet, are_rp_sets};
use pim_net::{Node, Renewal};
use pim_scenario::{Link, RouterText};
use pim_types::{Config, Series};
use std::alloc::{AllocError, Global};

/// Whether each of the routers can have its sets of RPs.
pub(crate) fn have_sets(texts: &[RouterText]) -> bool
    ensures { result ≡ list_all has_sets texts.now }
{
    for text in texts {
        if !are_rp_sets(&text.config, text.sets.as_slice()) {
            return false;
        }
    }
    true
}

// The front of these sets, if a router of the configuration can have them.
fn anycast_of(alloc: Global, config: &Config, sets: Series<RpSet>) -> Anycast
    ensures { result ≡ sets_for config.now sets }
{
    match Anycast::of(config, sets.into_vec()) {
        Ok(anycast) => anycast,
        Err(_) => Anycast::new(alloc),
    }
}

/// A router of a scenario, and its node of the network. Sets of RPs that it can't have are left out.
pub(crate) fn station_of(alloc: Global, text: RouterText) -> Result<(Station, Node), AllocError>
    ensures node { IfOk result (λ made. node_of made.1 ≡ router_node text) }
    ensures links { IfOk result (λ made. made.0.links ≡ text.links) }
    ensures addresses { IfOk result (λ made. made.0.addresses ≡ own_addresses text.config) }
    ensures presence { IfOk result (λ made. made.0.presence ≡ nobody_behind text.config text.front.older_hosts) }
    ensures sets { IfOk result (λ made. made.0.anycast ≡ sets_for text.config text.sets) }
    ensures listener { IfOk result (λ made. made.0.listener ≡ new_listener (learning_of text.front text.config)) }
    ensures candidacy { IfOk result (λ made. made.0.candidacy ≡ standing_as text.standing 0) }
{
    let RouterText {
        name,
        config,
        links,
        front,
        sets,
        standing,
    } = text;
    let anycast = anycast_of(alloc, &config, sets);
    let learning = Learning::of(alloc, front, &config)?;
    let fronts = Fronts {
        text: front,
        anycast,
        learning,
        standing,
    };
    let numbers = link_numbers(alloc, links.as_slice())?;
    let station = Station::new(alloc, name, &config, links, fronts)?;
    let node = Node {
        config,
        links: numbers,
    };
    Ok((station, node))
}

/// What the lab keeps of another configuration, by a map of places or without one, and what the network gets of it.
pub(crate) fn reloaded_of(
    alloc: Global,
    config: Config,
    links: Series<Link>,
    fronts: Fronts,
    places: Series<Option<u32>>,
) -> Result<(Reloaded, Renewal), AllocError> {
    let numbers = link_numbers(alloc, links.as_slice())?;
    let kept = Series::from_vec(places.as_slice().to_vec(alloc)?);
    let reloaded = Reloaded::new(alloc, &config, links, fronts, kept)?;
    let node = Node {
        config,
        links: numbers,
    };
    Ok((reloaded, Renewal { node, places }))
}
