//! Bytes that were taken, with the memory that is ready for more: what the sinks in memory write to.
ghost use Rattle.std.specs.Prelude.{◌≡◌, ◌≢◌, ◌+◌, ◌<◌, ◌≤◌, [], ℕ, Some, length, OnOk, OnErr};
ghost use Rattle.st_io.specs.Outside.{Takes};
ghost use Rattle.st_io.specs.Memory.{taken_count};

use crate::outside::WriteStep;
use std::alloc::{AllocError, Global};
use std::marker::Model;

/// It is seen as the bytes, and its room: how many more it takes for sure.
#[derive(Drop)]
pub struct Held {
    bytes: Vec<u8>,
}

impl Model for Held {
    ghost use Rattle.std.specs.Prelude.{◌-◌, vec_len, vec_capacity};
    ghost use Rattle.st_io.specs.Memory.{Store};

    ghost Value = { Store };

    ghost view = { λ s. record { bytes = s.bytes.items; room = vec_capacity s.bytes - vec_len s.bytes } };
}

impl Held {
    /// No bytes, and no memory yet.
    pub fn new(alloc: Global) -> Held
        ensures bytes { result.bytes ≡ [] }
    {
        Held {
            bytes: Vec::new(alloc),
        }
    }

    /// The bytes that are held.
    pub fn bytes(&self) -> &[u8]
        ensures { result.now ≡ self.now.bytes }
    {
        self.bytes.as_slice()
    }

    /// Makes room for `n` more bytes. After `Err` all is as it was.
    pub fn reserve(&mut self, n: usize) -> Result<(), AllocError>
        ensures ok { OnOk result (n ≤ self.new.room) }
        ensures room { self.old.room ≤ self.new.room }
        ensures bytes { self.new.bytes ≡ self.old.bytes }
        ensures err { OnErr result (self.new ≡ self.old) }
    {
        self.bytes.reserve(n)
    }

    /// Takes bytes from the front of `piece`: at most `most`, as many of them as there is memory for.
    pub fn take(&mut self, piece: &[u8], most: usize) -> WriteStep
        requires piece { 0 < length piece.now }
        requires most { 0 < most }
        ensures step { Takes (Some self.old.bytes) (Some self.new.bytes) piece.now result }
        ensures failed { result ≢ WriteStep.Failed }
        ensures most { taken_count result ≤ most }
        ensures memory { result ≡ WriteStep.OutOfMemory → self.old.room ≡ 0 }
        ensures room { self.old.room ≤ self.new.room + taken_count result }
    {
        let wanted = most.min(piece.len());
        let n = match self.bytes.reserve(wanted) {
            Ok(()) => wanted,
            Err(_) => self.bytes.capacity() - self.bytes.len(),
        };
        if n == 0 {
            return WriteStep::OutOfMemory;
        }
        match self.bytes.extend_from_slice(&piece[..n]) {
            Ok(()) => WriteStep::Took(n),
            Err(_) => WriteStep::OutOfMemory,
        }
    }
}
