//! Names that stand one after another and are found by an index: those of a group's devices, and of its links.

ghost use Rattle.std.specs.Prelude.{◌≡◌, ◌++◌, [], ◌∷◌, ◌<◌, ◌↔◌, IsTrue, OnOk, OnErr, OnSome, IfOk, IfSome, length, slice_get, Some, false, true};
ghost use Rattle.st_net.specs.Names.{place_of, is_among, is_name};

use crate::name::Name;
use crate::name_index::NameIndex;
use std::alloc::{AllocError, Global};
use std::marker::Model;

/// Different names, each of which is found in about one step and stands at its place. Contracts see the list.
#[derive(Drop)]
pub struct Names {
    alloc: Global,
    index: NameIndex,
    names: Vec<Name>,
}

impl Model for Names {
    ghost use Rattle.std.specs.Prelude.{◌≡◌, ℕ, List};

    ghost Value = { List (List ℕ) };

    ghost view = { λ n. n.index };

    ghost invariant = { λ n. n.names.items ≡ n.index };
}

/// Whether these are the same names in the same order.
fn are_same(a: &[Name], b: &[Name]) -> bool
    ensures { IsTrue result ↔ (a.now ≡ b.now) }
{
    if a.len() != b.len() {
        return false;
    }
    for (i, name) in a.iter().enumerate() {
        if !name.is_same(&b[i]) {
            return false;
        }
    }
    true
}

/// Equal names, in order.
fn copies(alloc: Global, names: &[Name]) -> Result<Vec<Name>, AllocError>
    ensures { IfOk result (λ copies. copies.items ≡ names.now) }
{
    let mut copies = Vec::new(alloc);
    for name in names {
        copies.push(name.copy(alloc)?)?;
    }
    Ok(copies)
}

impl Names {
    /// No names.
    pub fn new(alloc: Global) -> Names
        ensures { result ≡ [] }
    {
        Names {
            alloc,
            index: NameIndex::new(alloc),
            names: Vec::new(alloc),
        }
    }

    /// How many there are.
    pub fn len(&self) -> usize
        ensures { result ≡ length self.now }
    {
        self.names.len()
    }

    /// The place of a name, from 0.
    pub fn find(&self, name: &[u8]) -> Option<usize>
        ensures found { result ≡ place_of name.now self.now }
        ensures within { IfSome result (λ place. place < length self.now) }
        ensures spelled { OnSome result (is_name name.now ≡ true) }
    {
        self.index.find(name)
    }

    /// Whether a name is among them.
    pub fn has(&self, name: &Name) -> bool
        ensures { result ≡ is_among name.now self.now }
    {
        self.index.has(name)
    }

    /// The name at a place.
    pub fn get(&self, place: usize) -> &Name
        requires { place < length self.now }
        ensures { slice_get self.now place ≡ Some result.now }
    {
        &self.names[place]
    }

    /// Adds a new name at the end. `Err` is for want of memory alone, and nothing has changed then.
    pub fn add(&mut self, name: &Name) -> Result<(), AllocError>
        requires { is_among name.now self.old ≡ false }
        ensures ok { OnOk result (self.new ≡ self.old ++ name.now ∷ []) }
        ensures err { OnErr result (self.new ≡ self.old) }
    {
        let kept = name.copy(self.alloc)?;
        self.names.reserve(1)?;
        self.index.add(name)?;
        self.names.push_reserved(kept);
        Ok(())
    }

    /// Equal names. `Err` is for want of memory alone.
    pub fn copy(&self, alloc: Global) -> Result<Names, AllocError>
        ensures { IfOk result (λ copy. copy ≡ self.now) }
    {
        let index = self.index.copy(alloc)?;
        let names = copies(alloc, self.names.as_slice())?;
        Ok(Names {
            alloc,
            index,
            names,
        })
    }

    /// Whether these are the same names in the same order.
    pub fn is_same(&self, other: &Names) -> bool
        ensures { IsTrue result ↔ (self.now ≡ other.now) }
    {
        are_same(self.names.as_slice(), other.names.as_slice())
    }
}
