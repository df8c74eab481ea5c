//! Where a program's bytes come from and where they go: the traits `Source` and `Sink`, implementations in memory and
//! over std's reader and writer, and reading an input and writing a text through them.
#![tactic(auto)]

pub mod adapted;
mod failing;
mod held;
pub mod memory;
pub mod outside;
pub mod reading;
pub mod sure;
mod unread;
pub mod writing;

pub use adapted::{StdSink, StdSource};
pub use memory::{MemorySink, MemorySource};
pub use outside::{ReadStep, Sink, Source, WriteStep};
pub use reading::{Input, MAX_BYTES, ReadEnd, most_bytes, read_all};
pub use sure::{SureSink, SureSource};
pub use writing::{Written, write_all};
