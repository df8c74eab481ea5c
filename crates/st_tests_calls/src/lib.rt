//! Tests of whole calls: words and bytes in, a report and the journals out.
#![tactic(auto)]

#[cfg(test)]
mod calls;
