//! A source and a sink in memory that a test can make fail at chosen calls, and that give and take a few bytes at a
//! time.
ghost use Rattle.std.specs.Prelude.{◌≡◌, ◌↔◌, ◌+◌, ◌<◌, ◌≤◌, [], ℕ, Some, length, OnOk, OnErr};
ghost use Rattle.st_io.specs.Outside.{Gives, Takes, HasReadCause, HasWriteCause};
ghost use Rattle.st_io.specs.Memory.{CountsCall, FailsNext, faults_of, taken_count};

use crate::failing::FaultPlan;
use crate::held::Held;
use crate::outside::{ReadStep, Sink, Source, WriteStep};
use crate::unread::Unread;
use std::alloc::{AllocError, Global};
use std::marker::Model;

/// Gives its bytes, at most `most` at a time, and fails at the calls that it was told. It is seen as the bytes that
/// are left, `most`, and the plan of its faults.
#[derive(Drop)]
pub struct MemorySource {
    unread: Unread,
    most: usize,
    plan: FaultPlan,
}

impl Model for MemorySource {
    ghost use Rattle.std.specs.Prelude.{◌<◌};
    ghost use Rattle.st_io.specs.Memory.{MemoryInput};

    ghost Value = { MemoryInput };

    ghost view = { λ s. record { rest = s.unread; most = s.most; plan = s.plan } };

    ghost invariant = { λ s. 0 < s.most };
}

impl MemorySource {
    /// A source of these bytes. `most`, at least 1, bounds the bytes of one read, and `fails` lists the numbers,
    /// from 1, of the reads that fail. The order of the list says nothing, and a number that stands twice in it is
    /// one failed read.
    pub fn new(bytes: Vec<u8>, most: usize, fails: Vec<u32>) -> MemorySource
        requires { 0 < most }
        ensures left { result.rest ≡ bytes.items }
        ensures most { result.most ≡ most }
        ensures fails { result.plan.fails ≡ fails.items }
        ensures calls { result.plan.calls ≡ 0 }
        ensures faults { faults_of result.plan ≡ 0 }
    {
        MemorySource {
            unread: Unread::new(bytes),
            most,
            plan: FaultPlan::new(fails),
        }
    }
}

impl Source for MemorySource {
    ghost left = { λ s. Some s.rest };

    ghost faults = { λ s. faults_of s.plan };

    /// Fails exactly at the calls that are listed.
    fn read(&mut self, buf: &mut [u8]) -> ReadStep
        requires { 0 < length buf.old }
        ensures step { Gives (Some self.old.rest) (Some self.new.rest) buf.new result }
        ensures cause { HasReadCause (faults_of self.old.plan) (faults_of self.new.plan) result }
        ensures fails { (result ≡ ReadStep.Failed) ↔ FailsNext self.old.plan }
        ensures counted { CountsCall self.old.plan self.new.plan }
        ensures most { (n : ℕ) → result ≡ ReadStep.Got n → n ≤ self.old.most }
        ensures most_kept { self.new.most ≡ self.old.most }
    {
        if self.plan.begin() {
            return ReadStep::Failed;
        }
        self.unread.give(buf, self.most)
    }
}

/// Takes at most `most` bytes at a time, and fails at the calls that it was told. It is seen as what it took with
/// its room, `most`, and the plan of its faults.
#[derive(Drop)]
pub struct MemorySink {
    held: Held,
    most: usize,
    plan: FaultPlan,
}

impl Model for MemorySink {
    ghost use Rattle.std.specs.Prelude.{◌<◌};
    ghost use Rattle.st_io.specs.Memory.{MemoryOutput};

    ghost Value = { MemoryOutput };

    ghost view = { λ s. record { store = s.held; most = s.most; plan = s.plan } };

    ghost invariant = { λ s. 0 < s.most };
}

impl MemorySink {
    /// A sink that holds nothing yet. `most`, at least 1, bounds the bytes of one write, and `fails` lists the
    /// numbers, from 1, of the writes that fail. The order of the list says nothing, and a number that stands twice
    /// in it is one failed write.
    pub fn new(alloc: Global, most: usize, fails: Vec<u32>) -> MemorySink
        requires { 0 < most }
        ensures held { result.store.bytes ≡ [] }
        ensures most { result.most ≡ most }
        ensures fails { result.plan.fails ≡ fails.items }
        ensures calls { result.plan.calls ≡ 0 }
        ensures faults { faults_of result.plan ≡ 0 }
    {
        MemorySink {
            held: Held::new(alloc),
            most,
            plan: FaultPlan::new(fails),
        }
    }

    /// What it holds.
    pub fn bytes(&self) -> &[u8]
        ensures { result.now ≡ self.now.store.bytes }
    {
        self.held.bytes()
    }

    /// Makes room: after `Ok` no write answers `OutOfMemory` until `n` more bytes were taken. It counts as no
    /// write. After `Err`, for want of memory, the sink is as it was.
    pub fn reserve(&mut self, n: usize) -> Result<(), AllocError>
        ensures ok { OnOk result (n ≤ self.new.store.room) }
        ensures room { self.old.store.room ≤ self.new.store.room }
        ensures rest { self.new ≡
            record self.old { store = record self.old.store { room = self.new.store.room } } }
        ensures err { OnErr result (self.new ≡ self.old) }
    {
        self.held.reserve(n)
    }
}

impl Sink for MemorySink {
    ghost held = { λ s. Some s.store.bytes };

    ghost faults = { λ s. faults_of s.plan };

    /// Fails exactly at the calls that are listed.
    fn write(&mut self, piece: &[u8]) -> WriteStep
        requires { 0 < length piece.now }
        ensures step { Takes (Some self.old.store.bytes) (Some self.new.store.bytes) piece.now result }
        ensures cause { HasWriteCause (faults_of self.old.plan) (faults_of self.new.plan) result }
        ensures fails { (result ≡ WriteStep.Failed) ↔ FailsNext self.old.plan }
        ensures counted { CountsCall self.old.plan self.new.plan }
        ensures most { taken_count result ≤ self.old.most }
        ensures most_kept { self.new.most ≡ self.old.most }
        ensures memory { result ≡ WriteStep.OutOfMemory → self.old.store.room ≡ 0 }
        ensures room { self.old.store.room ≤ self.new.store.room + taken_count result }
    {
        if self.plan.begin() {
            return WriteStep::Failed;
        }
        self.held.take(piece, self.most)
    }
}
