//! A text that is printed piece by piece: its lines are added word by word, and its bytes are then written out.

ghost use Rattle.std.specs.Prelude.{◌≡◌, ◌++◌, [], OnOk, OnErr, decimal, length, take};

use std::alloc::{AllocError, Global};
use std::marker::Model;

/// A list of bytes that grows at its end. Contracts see the list.
#[derive(Drop)]
pub struct Text {
    alloc: Global,
    bytes: Vec<u8>,
}

impl Model for Text {
    ghost use Rattle.std.specs.Prelude.{ℕ, List};

    ghost Value = { List ℕ };

    ghost view = { λ text. text.bytes.items };
}

impl Text {
    /// A text of no bytes. It takes no memory.
    pub fn new(alloc: Global) -> Text
        ensures { result ≡ [] }
    {
        Text {
            alloc,
            bytes: Vec::new(alloc),
        }
    }

    /// A text of no bytes beside this one. It takes no memory.
    pub fn empty(&self) -> Text
        ensures { result ≡ [] }
    {
        Text::new(self.alloc)
    }

    /// Adds these bytes as they are. `Err` is for want of memory alone, and leaves the text as it was.
    pub fn word(&mut self, bytes: &[u8]) -> Result<(), AllocError>
        ensures ok { OnOk result (self.new ≡ self.old ++ bytes.now) }
        ensures err { OnErr result (self.new ≡ self.old) }
    {
        self.bytes.extend_from_slice(bytes)
    }

    /// Adds a number in decimal, as `{}` writes it: no leading zero, and `0` for zero. `Err` is for want of memory alone,
    /// and leaves the text as it was.
    pub fn num(&mut self, n: u64) -> Result<(), AllocError>
        ensures ok { OnOk result (self.new ≡ self.old ++ decimal n) }
        ensures err { OnErr result (self.new ≡ self.old) }
    {
        let digits = n.to_string(self.alloc)?;
        self.bytes.extend_from_slice(digits.as_bytes())
    }

    /// How many bytes there are.
    pub(crate) fn len(&self) -> usize
        ensures { result ≡ length self.now }
    {
        self.bytes.len()
    }

    /// Drops all behind the first bytes.
    pub(crate) fn cut(&mut self, len: usize)
        ensures { self.new ≡ take len self.old }
    {
        self.bytes.truncate(len);
    }

    /// The bytes that were added, in order.
    pub fn bytes(&self) -> &[u8]
        ensures { result.now ≡ self.now }
    {
        self.bytes.as_slice()
    }
}
