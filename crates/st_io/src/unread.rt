//! Bytes in memory that are still to be given: what the sources in memory read from.
ghost use Rattle.std.specs.Prelude.{◌≡◌, ◌≢◌, ◌<◌, ℕ, Some, length, min};
ghost use Rattle.st_io.specs.Outside.{Gives};

use crate::outside::ReadStep;
use std::marker::Model;

/// A list of bytes of which the first `at` were given. It is seen as those that are left.
#[derive(Drop)]
pub struct Unread {
    bytes: Vec<u8>,
    at: usize,
}

impl Model for Unread {
    ghost use Rattle.std.specs.Prelude.{ℕ, ◌≤◌, List, length, drop};

    ghost Value = { List ℕ };

    ghost view = { λ s. drop s.at s.bytes.items };

    ghost invariant = { λ s. s.at ≤ length s.bytes.items };
}

impl Unread {
    /// All of these bytes, of which none was given.
    pub fn new(bytes: Vec<u8>) -> Unread
        ensures { result ≡ bytes.items }
    {
        Unread { bytes, at: 0 }
    }

    /// Gives the next bytes, at most `most` of them.
    pub fn give(&mut self, buf: &mut [u8], most: usize) -> ReadStep
        requires buf { 0 < length buf.old }
        requires most { 0 < most }
        ensures step { Gives (Some self.old) (Some self.new) buf.new result }
        ensures failed { result ≢ ReadStep.Failed }
        ensures got { (n : ℕ) → result ≡ ReadStep.Got n →
            n ≡ min (min most (length buf.old)) (length self.old) }
    {
        let rest = self.bytes.len() - self.at;
        if rest == 0 {
            return ReadStep::End;
        }
        let n = most.min(buf.len()).min(rest);
        buf[..n].copy_from_slice(&self.bytes[self.at..self.at + n]);
        self.at += n;
        ReadStep::Got(n)
    }
}
