//! Whole worlds: written as the bytes of a saved state, made of one that was read, or with their facts at other places
//! by a map of places; and which saved states a router goes on from, at rest and with their caches.
#![tactic(auto)]

mod interfaces;
mod law;
mod membership;
mod near;
mod neighbours;
mod numbers;
mod ordered;
mod orders;
mod placed_world;
mod quiet;
mod refill;
mod refusal;
mod resumed;
mod rows;
mod settings;
mod settled;
mod store;
mod world;
mod written;

pub use law::{resumable_is_decided, saved_is_resumed};
pub use near::is_near;
pub use numbers::{index_of, is_among, number_at, push_where};
pub use ordered::world_in_order;
pub use orders::{Orders, are_places};
pub use placed_world::world_at;
pub use quiet::is_quiet;
pub use refusal::RestoreRefusal;
pub use resumed::{Resumed, proof_resumable, resume};
pub use settled::{is_settled, settled_is_decided};
pub use world::{proof_held, world_of};
pub use written::write_world;
