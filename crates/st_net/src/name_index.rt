//! An index of declared names, numbered in the order of declaration: those of a group's parts, of groups and of applications.

ghost use Rattle.std.specs.Prelude.{◌≡◌, ◌++◌, [], ◌∷◌, ◌<◌, OnOk, OnErr, OnSome, IfOk, IfSome, length, false, true};
ghost use Rattle.st_net.specs.Names.{place_of, is_among, is_name};

use crate::name::Name;
use indexmap::IndexSet;
use std::alloc::{AllocError, Global};
use std::marker::Model;

/// Different names, each of which is found in about one step. The names themselves are kept with what they name. Contracts
/// see the list.
#[derive(Drop)]
pub struct NameIndex {
    alloc: Global,
    keys: IndexSet<Vec<u8>>,
}

impl Model for NameIndex {
    ghost use Rattle.std.specs.Prelude.{◌≡◌, ℕ, List, map, true};
    ghost use Rattle.st_net.specs.Groups.{are_names};

    ghost Value = { List (List ℕ) };

    ghost view = { λ n. map (λ key. key.items) n.keys.keys };

    ghost invariant = { λ n. are_names (map (λ key. key.items) n.keys.keys) ≡ true };
}

impl NameIndex {
    /// No names.
    pub fn new(alloc: Global) -> NameIndex
        ensures { result ≡ [] }
    {
        NameIndex {
            alloc,
            keys: IndexSet::new(alloc),
        }
    }

    /// How many there are.
    pub fn len(&self) -> usize
        ensures { result ≡ length self.now }
    {
        self.keys.len()
    }

    /// The place of a name, from 0.
    pub fn find(&self, name: &[u8]) -> Option<usize>
        ensures found { result ≡ place_of name.now self.now }
        ensures within { IfSome result (λ place. place < length self.now) }
        ensures spelled { OnSome result (is_name name.now ≡ true) }
    {
        self.keys.get_index_of(name)
    }

    /// Whether a name is among them.
    pub fn has(&self, name: &Name) -> bool
        ensures { result ≡ is_among name.now self.now }
    {
        self.find(name.bytes()).is_some()
    }

    /// Adds a new name at the end. `Err` is for want of memory alone, and nothing has changed then.
    pub fn add(&mut self, name: &Name) -> Result<(), AllocError>
        requires { is_among name.now self.old ≡ false }
        ensures ok { OnOk result (self.new ≡ self.old ++ name.now ∷ []) }
        ensures err { OnErr result (self.new ≡ self.old) }
    {
        let key = Vec::from_slice(self.alloc, name.bytes())?;
        self.keys.insert(key)?;
        Ok(())
    }

    /// An equal index. `Err` is for want of memory alone.
    pub fn copy(&self, alloc: Global) -> Result<NameIndex, AllocError>
        ensures { IfOk result (λ copy. copy ≡ self.now) }
    {
        let keys = self.keys.clone()?;
        Ok(NameIndex { alloc, keys })
    }
}
