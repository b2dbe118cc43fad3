//! Which machines a change may concern.
use pim_types::{Key, Series};

/// The keys whose machines a change may concern: the given keys, or all.
#[derive(Drop)]
pub enum Touched {
    All,
    Keys(Series<Key>),
}
