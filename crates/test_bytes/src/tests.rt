//! Tests against known bytes and values.
mod anycast;
mod bootstraps;
mod components;
mod frr_bootstraps;
mod known_packets;
mod older_hosts;
mod saved_states;
