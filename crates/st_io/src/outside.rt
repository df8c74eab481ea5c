//! What a source and a sink promise, whatever stands behind them. Everything that reads or writes goes through
//! these two traits, so that a contract can name the bytes that came in and went out.
ghost use Rattle.std.specs.Prelude.{◌<◌, ℕ, List, Option, length};
ghost use Rattle.st_io.specs.Outside.{Gives, Takes, HasReadCause, HasWriteCause};

/// What one read did.
#[derive(Clone, Copy, Debug, PartialEq, Eq)]
pub enum ReadStep {
    /// The first so many bytes of the buffer, at least one, are the next bytes.
    Got(usize),

    /// Nothing is left.
    End,

    /// The read failed and gave nothing.
    Failed,
}

/// What one write did.
#[derive(Clone, Copy, Debug, PartialEq, Eq)]
pub enum WriteStep {
    /// The first so many bytes of the piece, at least one, were taken.
    Took(usize),

    /// The write failed, and no byte of the piece is counted as taken.
    Failed,

    /// Memory was wanting: nothing was taken, and this is no fault of the sink.
    OutOfMemory,
}

/// Where bytes come from.
pub trait Source {
    // The bytes that it has not given yet, where it tells them.
    ghost left: { Self → Option (List ℕ) };

    // How often it has failed. It may stop at the last number of 64 bits.
    ghost faults: { Self → ℕ };

    /// Puts the next bytes at the front of `buf`. At `End` and at `Failed` the bytes that are left stay as they
    /// were, and what `buf` holds then means nothing.
    fn read(&mut self, buf: &mut [u8]) -> ReadStep
        requires { 0 < length buf.old }
        ensures step { Gives (left self.old) (left self.new) buf.new result }
        ensures cause { HasReadCause (faults self.old) (faults self.new) result };
}

/// Where bytes go.
pub trait Sink {
    // The bytes that it has taken, where it tells them.
    ghost held: { Self → Option (List ℕ) };

    // How often it has failed. It may stop at the last number of 64 bits.
    ghost faults: { Self → ℕ };

    /// Takes bytes from the front of `piece`. At `Failed` and at `OutOfMemory` the bytes that it holds stay as they
    /// were.
    fn write(&mut self, piece: &[u8]) -> WriteStep
        requires { 0 < length piece.now }
        ensures step { Takes (held self.old) (held self.new) piece.now result }
        ensures cause { HasWriteCause (faults self.old) (faults self.new) result };
}
