//! Tests of boards and of services, by threads.
#![tactic(auto)]

#[cfg(test)]
mod boards;
#[cfg(test)]
mod services;
