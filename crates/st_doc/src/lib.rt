//! Documents: the text of a network, its opening state and its applications' scripts, read into what it declares or to its
//! first bad line, and printed.
#![tactic(auto)]

mod printing;
mod printing_back;
mod reader;
mod reading;

pub use printing::print_doc;
pub use printing_back::prints_back;
pub use reading::read_doc;
pub use st_grammar::{Doc, DocKind, DocRead, MAX_ACTS, Script};
