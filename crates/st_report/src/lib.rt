//! Reports of worlds: what was decided in each group and how it stands, and what applications read, as a text of lines and as JSON; and
//! four lines that sum up one world.
#![tactic(auto)]

mod json_report;
mod lines;
mod locks;
mod logs;
mod names;
mod promises;
mod receipts;
mod report;
mod state;
mod sums;
mod text_report;
mod up;
mod wire;
mod withdrawals;

pub use json_report::report_json;
pub use sums::print_sums;
pub use text_report::report_text;
