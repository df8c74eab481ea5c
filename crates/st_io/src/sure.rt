//! A source and a sink in memory that never fail.
ghost use Rattle.std.specs.Prelude.{◌≡◌, ◌≢◌, ◌+◌, ◌<◌, ◌≤◌, [], ℕ, Some, length, OnOk, OnErr};
ghost use Rattle.st_io.specs.Outside.{Gives, Takes, HasReadCause, HasWriteCause};
ghost use Rattle.st_io.specs.Memory.{taken_count};

use crate::held::Held;
use crate::outside::{ReadStep, Sink, Source, WriteStep};
use crate::unread::Unread;
use std::alloc::{AllocError, Global};
use std::marker::Model;

/// Gives its bytes, one at least at each read, and never fails. It is seen as the bytes that are left.
#[derive(Drop)]
pub struct SureSource {
    unread: Unread,
}

impl Model for SureSource {
    ghost use Rattle.std.specs.Prelude.{ℕ, List};

    ghost Value = { List ℕ };

    ghost view = { λ s. s.unread };
}

impl SureSource {
    /// The source that has these bytes to give.
    pub fn new(bytes: Vec<u8>) -> SureSource
        ensures { result ≡ bytes.items }
    {
        SureSource {
            unread: Unread::new(bytes),
        }
    }
}

impl Source for SureSource {
    ghost left = { λ s. Some s };

    ghost faults = { λ _. 0 };

    fn read(&mut self, buf: &mut [u8]) -> ReadStep {
        let most = buf.len();
        self.unread.give(buf, most)
    }
}

/// Takes all bytes that there is memory for, and never fails. It is seen as the bytes that it took, and its room:
/// how many more it takes before a write may answer `OutOfMemory`.
#[derive(Drop)]
pub struct SureSink {
    held: Held,
}

impl Model for SureSink {
    ghost use Rattle.st_io.specs.Memory.{Store};

    ghost Value = { Store };

    ghost view = { λ s. s.held };
}

impl SureSink {
    /// The sink that holds nothing, and takes its memory from here.
    pub fn new(alloc: Global) -> SureSink
        ensures { result.bytes ≡ [] }
    {
        SureSink {
            held: Held::new(alloc),
        }
    }

    /// What it holds.
    pub fn bytes(&self) -> &[u8]
        ensures { result.now ≡ self.now.bytes }
    {
        self.held.bytes()
    }

    /// Makes room: after `Ok` no write answers `OutOfMemory` until `n` more bytes were taken. After `Err`, for want
    /// of memory, the sink is as it was.
    pub fn reserve(&mut self, n: usize) -> Result<(), AllocError>
        ensures ok { OnOk result (n ≤ self.new.room) }
        ensures room { self.old.room ≤ self.new.room }
        ensures bytes { self.new.bytes ≡ self.old.bytes }
        ensures err { OnErr result (self.new ≡ self.old) }
    {
        self.held.reserve(n)
    }
}

impl Sink for SureSink {
    ghost held = { λ s. Some s.bytes };

    ghost faults = { λ _. 0 };

    /// Takes the whole piece where there is memory for it, and else a part, as long as there is room.
    fn write(&mut self, piece: &[u8]) -> WriteStep
        requires { 0 < length piece.now }
        ensures step { Takes (Some self.old.bytes) (Some self.new.bytes) piece.now result }
        ensures cause { HasWriteCause 0 0 result }
        ensures memory { result ≡ WriteStep.OutOfMemory → self.old.room ≡ 0 }
        ensures room { self.old.room ≤ self.new.room + taken_count result }
    {
        self.held.take(piece, piece.len())
    }
}
