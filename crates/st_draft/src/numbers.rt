//! Numbers with an index: the devices and the links of a group whose health is given.

ghost use Rattle.std.specs.Prelude.{◌≡◌, ◌++◌, [], ◌∷◌, OnOk, OnErr, false};
ghost use Rattle.st_grammar.specs.Draft.{is_told};

use indexmap::IndexSet;
use std::alloc::{AllocError, Global};
use std::marker::Model;

/// Different numbers, each of which is found in about one step. Contracts see the list in the order in which they were added.
#[derive(Drop)]
pub struct Numbers {
    keys: IndexSet<u32>,
}

impl Model for Numbers {
    ghost use Rattle.std.specs.Prelude.{ℕ, List};

    ghost Value = { List ℕ };

    ghost view = { λ n. n.keys.keys };
}

impl Numbers {
    /// No numbers.
    pub fn new(alloc: Global) -> Numbers
        ensures { result ≡ [] }
    {
        Numbers {
            keys: IndexSet::new(alloc),
        }
    }

    /// Whether the number is among these.
    pub fn has(&self, n: u32) -> bool
        ensures { result ≡ is_told n self.now }
    {
        self.keys.contains(&n)
    }

    /// Adds a new number at the end. At `Err` nothing has changed.
    pub fn add(&mut self, n: u32) -> Result<(), AllocError>
        requires { is_told n self.old ≡ false }
        ensures ok { OnOk result (self.new ≡ self.old ++ n ∷ []) }
        ensures err { OnErr result (self.new ≡ self.old) }
    {
        self.keys.insert(n)?;
        Ok(())
    }
}
