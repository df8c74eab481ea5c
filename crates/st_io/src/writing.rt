//! Writes a whole text to a sink, in as many pieces as the sink takes it.
ghost use Rattle.std.specs.Prelude.{◌≡◌, length};
ghost use Rattle.st_io.specs.Output.{Writes};

use crate::outside::{Sink, WriteStep};

/// How writing ended.
#[derive(Clone, Copy, Debug, PartialEq, Eq)]
pub enum Written {
    /// The sink took all of the text.
    All,

    /// The sink failed. It took a prefix of the text.
    Failed,

    /// Memory was wanting. The sink took a prefix of the text.
    OutOfMemory,
}

/// Writes a text, piece by piece. Writing ends at the first write that failed. An empty text is written with no call of the sink.
pub fn write_all<K: Sink>(sink: &mut K, text: &[u8]) -> Written
    ensures written { Writes (K.held sink.old) (K.held sink.new)
        (K.faults sink.old) (K.faults sink.new) text.now result }
    ensures empty_all { length text.now ≡ 0 → result ≡ Written.All }
    ensures empty_kept { length text.now ≡ 0 → sink.new ≡ sink.old }
{
    let mut at = 0;
    while at < text.len() {
        match sink.write(&text[at..]) {
            WriteStep::Took(n) => at += n,
            WriteStep::Failed => return Written::Failed,
            WriteStep::OutOfMemory => return Written::OutOfMemory,
        }
    }
    Written::All
}
