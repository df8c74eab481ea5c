//! Tests of what is read and of what is printed: sources and sinks, lines and tokens, the program's words, documents, journals, reports
//! and pages.
#![tactic(auto)]

#[cfg(test)]
mod commands;
#[cfg(test)]
mod documents;
#[cfg(test)]
mod entries;
#[cfg(test)]
mod generated;
#[cfg(test)]
mod journals;
#[cfg(test)]
mod outcome;
#[cfg(test)]
mod outside;
#[cfg(test)]
mod pages;
#[cfg(test)]
mod printed;
#[cfg(test)]
mod reports;
#[cfg(test)]
mod texts;
#[cfg(test)]
mod tokens;
