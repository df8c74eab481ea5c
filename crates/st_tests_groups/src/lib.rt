//! Tests of what is said of a group: its names and places, flows and promises.
#![tactic(auto)]

#[cfg(test)]
mod commits;
#[cfg(test)]
mod drawn;
#[cfg(test)]
mod flows;
#[cfg(test)]
mod nets;
#[cfg(test)]
mod promises;
#[cfg(test)]
mod reverts;
#[cfg(test)]
mod rolls;
