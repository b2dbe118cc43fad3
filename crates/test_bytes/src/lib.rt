//! Tests alone: known packets and values, against writers and parts by themselves.
#![tactic(auto)]

#[cfg(test)]
mod tests;
