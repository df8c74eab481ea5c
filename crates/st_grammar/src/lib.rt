//! The grammar of documents: what a document is, the words of its lines, the faults that these can have, and, in `specs/`,
//! what each line declares over what the lines before it declared. The reader and the printer stand on it.
#![tactic(auto)]

mod doc;
mod keyword;
mod limits;

pub use doc::{Doc, DocRead, JournalAt, Script};
pub use keyword::{ActWord, Keyword, PartWord, WireWord, keyword_of, phase_of, since};
pub use limits::{
    MAX_ACTS, MAX_APPS, MAX_GROUPS, MAX_ROUNDS, MAX_VERSION, MAX_WIRE_LINES, document_limits,
};
pub use st_token::{FaultKind as DocKind, LineFault as DocFault};
