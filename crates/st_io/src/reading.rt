//! Reads a whole input from a source. Its bytes go to whoever reads a document from them.
ghost use Rattle.std.specs.Prelude.{◌≡◌, ◌<◌, ◌≤◌, length, IfOk, OnErr};
ghost use Rattle.st_io.specs.Input.{AddsInput, Advances, ReadsInput};

use crate::outside::{ReadStep, Source};
use std::alloc::{AllocError, Global};

/// The most bytes that an input may have.
pub const MAX_BYTES: usize = 1_048_576;

/// How many bytes one read may give.
const BUFFER_BYTES: usize = 4096;

/// Why reading stopped.
#[derive(Clone, Copy, Debug, PartialEq, Eq)]
pub enum ReadEnd {
    /// The source had no more bytes.
    End,

    /// The source failed. The bytes that were read before stand.
    Failed,

    /// `MAX_BYTES` + 1 bytes were read.
    TooLong,
}

/// What was read.
#[derive(Debug, Drop)]
pub struct Input {
    /// The bytes, in their order.
    pub bytes: Vec<u8>,

    /// Why there are no more of them.
    pub end: ReadEnd,
}

/// Reads to the end, to a fault, or to one byte more than an input may have. Reading ends at the first read that failed.
/// After `Err`, for want of memory, the bytes that were read are lost, and no read failed.
pub fn read_all<S: Source>(alloc: Global, source: &mut S) -> Result<Input, AllocError>
    ensures input { IfOk result (λ input. ReadsInput (S.left source.old) (S.left source.new)
        (S.faults source.old) (S.faults source.new) input.bytes.items input.end) }
    ensures err { OnErr result (Advances (S.left source.old) (S.left source.new)) }
    ensures err_still { OnErr result (S.faults source.new ≡ S.faults source.old) }
    ensures later { S.faults source.old ≤ S.faults source.new }
{
    let mut buf = [0; BUFFER_BYTES];
    let mut bytes = Vec::new(alloc);
    while bytes.len() <= MAX_BYTES {
        let most = MAX_BYTES + 1 - bytes.len();
        match read_some(source, &mut buf, &mut bytes, most)? {
            ReadStep::Got(_) => {}
            ReadStep::End => {
                return Ok(Input {
                    bytes,
                    end: ReadEnd::End,
                });
            }
            ReadStep::Failed => {
                return Ok(Input {
                    bytes,
                    end: ReadEnd::Failed,
                });
            }
        }
    }
    Ok(Input {
        bytes,
        end: ReadEnd::TooLong,
    })
}

/// The number of `MAX_BYTES`, as a law: it does nothing.
pub fn most_bytes()
    ensures { MAX_BYTES ≡ 1048576 }
{}

/// Reads once through the buffer, at most `most` bytes, and adds them to those that were read.
fn read_some<S: Source>(
    source: &mut S,
    buf: &mut [u8],
    bytes: &mut Vec<u8>,
    most: usize,
) -> Result<ReadStep, AllocError>
    requires buf { 0 < length buf.old }
    requires most { 0 < most }
    ensures step { IfOk result (AddsInput (S.left source.old) (S.left source.new)
        (S.faults source.old) (S.faults source.new) bytes.old.items bytes.new.items most) }
    ensures err { OnErr result (Advances (S.left source.old) (S.left source.new)) }
    ensures err_still { OnErr result (S.faults source.new ≡ S.faults source.old) }
    ensures later { S.faults source.old ≤ S.faults source.new }
{
    let room = most.min(buf.len());
    match source.read(&mut buf[..room]) {
        ReadStep::Got(n) => {
            bytes.extend_from_slice(&buf[..n])?;
            Ok(ReadStep::Got(n))
        }
        ReadStep::End => Ok(ReadStep::End),
        ReadStep::Failed => Ok(ReadStep::Failed),
    }
}
