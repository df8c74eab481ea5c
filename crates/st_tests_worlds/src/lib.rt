//! Tests of worlds: worked courses of events.
#![tactic(auto)]

#[cfg(test)]
mod worlds;
