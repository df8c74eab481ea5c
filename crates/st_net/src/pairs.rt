//! Pairs of numbers with an index: the promised pairs of a group, by the numbers of the devices, and the variables that are set, by
//! the number of the entity and the place of the variable.

ghost use Rattle.std.specs.Prelude.{◌≡◌, ◌++◌, [], ◌∷◌, OnOk, OnErr, false};
ghost use Rattle.st_net.specs.Pairs.{has_pair, is_paired};

use indexmap::IndexSet;
use std::alloc::{AllocError, Global};
use std::marker::Model;

/// Two numbers, in this order.
#[derive(Clone, Copy, Debug, PartialEq, Eq, Hash)]
pub struct Pair {
    pub a: u32,
    pub b: u32,
}

/// Different pairs, each of which is found in about one step. Contracts see the list, in the order in which they were added.
#[derive(Drop)]
pub struct Pairs {
    keys: IndexSet<Pair>,
}

impl Model for Pairs {
    ghost use Rattle.std.specs.Prelude.{List};
    ghost use Rattle.st_net.specs.declared.pairs.Pair.{Pair};

    ghost Value = { List Pair };

    ghost view = { λ p. p.keys.keys };
}

impl Pairs {
    /// No pairs.
    pub fn new(alloc: Global) -> Pairs
        ensures { result ≡ [] }
    {
        Pairs {
            keys: IndexSet::new(alloc),
        }
    }

    /// Whether the pair is among these, in this order.
    pub fn has(&self, pair: Pair) -> bool
        ensures { result ≡ has_pair pair.a pair.b self.now }
    {
        self.keys.contains(&pair)
    }

    /// Whether the pair is among these, in this order or in the other.
    pub fn has_either(&self, pair: Pair) -> bool
        ensures { result ≡ is_paired pair.a pair.b self.now }
    {
        let Pair { a, b } = pair;
        self.has(pair) || self.has(Pair { a: b, b: a })
    }

    /// Adds a new pair at the end. At `Err` nothing has changed.
    pub fn add(&mut self, pair: Pair) -> Result<(), AllocError>
        requires { has_pair pair.a pair.b self.old ≡ false }
        ensures ok { OnOk result (self.new ≡ self.old ++ pair ∷ []) }
        ensures err { OnErr result (self.new ≡ self.old) }
    {
        self.keys.insert(pair)?;
        Ok(())
    }
}
