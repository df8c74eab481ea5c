//! The simulated agent of one entity. Commands of the updater reach it, failures change it, and its reports go to the monitor.
//! A group's world keeps one agent for each entity.
#![tactic(auto)]

mod agent;

pub use agent::{Agent, Delivery, Finish};
