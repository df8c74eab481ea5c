//! Promises between two ToRs of a group, and what is said of a demand that breaks.

ghost use Rattle.std.specs.Prelude.{◌≡◌, IfOk};
ghost use Rattle.std.specs.List.Sorted.{IsStrictlyIncreasing};

use std::alloc::{AllocError, Global};
use std::marker::Model;

/// A promise between two different ToRs, by the numbers of their devices: the share, in percent from 0 to 100, of what
/// they can exchange with everything up. A promise of 0 percent asks for a walk alone.
#[derive(Clone, Copy, Debug, PartialEq, Eq)]
pub struct Promise {
    pub a: u32,
    pub b: u32,
    pub percent: u32,
}

/// How a promise breaks: no walk is left, or too little capacity.
#[derive(Clone, Copy, Debug, PartialEq, Eq)]
pub enum BrokenKind {
    CutOff,
    Short,
}

/// A set of devices. Contracts see the ascending list of their numbers.
#[derive(Drop)]
pub struct Side {
    devices: Vec<u32>,
}

impl Model for Side {
    ghost use Rattle.std.specs.Prelude.{ℕ, List};
    ghost use Rattle.std.specs.List.Sorted.{IsStrictlyIncreasing};

    ghost Value = { List ℕ };

    ghost view = { λ s. s.devices.items };

    ghost invariant = { λ s. IsStrictlyIncreasing s.devices.items };
}

/// Which demand breaks: a promise, by its number.
#[derive(Clone, Copy, Debug, PartialEq, Eq)]
pub enum BrokenOf {
    Promise(u32),
}

/// A demand that breaks: which, how, the capacity that its pair needs, the value of the least cut that is left, and the
/// least side of that value.
#[derive(Drop)]
pub struct Broken {
    pub of: BrokenOf,
    pub kind: BrokenKind,
    pub need: u64,
    pub has: u64,
    pub side: Side,
}

impl Side {
    /// The set of these devices, whose numbers ascend.
    pub fn from_slice(alloc: Global, devices: &[u32]) -> Result<Side, AllocError>
        requires { IsStrictlyIncreasing devices.now }
        ensures { IfOk result (λ side. side ≡ devices.now) }
    {
        Ok(Side {
            devices: devices.to_vec(alloc)?,
        })
    }

    /// The devices' numbers, ascending.
    pub fn as_slice(&self) -> &[u32]
        ensures numbers { result.now ≡ self.now }
        ensures ascending { IsStrictlyIncreasing result.now }
    {
        self.devices.as_slice()
    }

    /// An equal set.
    pub fn copy(&self, alloc: Global) -> Result<Side, AllocError>
        ensures { IfOk result (λ copy. copy ≡ self.now) }
    {
        Ok(Side {
            devices: self.devices.as_slice().to_vec(alloc)?,
        })
    }
}

impl Broken {
    /// An equal value.
    pub fn copy(&self, alloc: Global) -> Result<Broken, AllocError>
        ensures { IfOk result (λ copy. copy ≡ self.now) }
    {
        Ok(Broken {
            of: self.of,
            kind: self.kind,
            need: self.need,
            has: self.has,
            side: self.side.copy(alloc)?,
        })
    }
}
