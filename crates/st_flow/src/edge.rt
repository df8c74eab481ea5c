//! One undirected edge, and what its amount means at either end. A graph keeps its edges in order, and an amount is
//! counted from `u` to `v`, so that a negative one flows from `v` to `u`.
ghost use Rattle.std.specs.Prelude.{◌≡◌, ◌≢◌, ◌==◌, ◌≤◌, pos, neg_ℤ, ◌≤ℤ◌};
ghost use Rattle.st_flow.specs.Network.{FitsEdge, part_out};
ghost use Rattle.st_flow.specs.Residual.{other, room, pushed, turn, IsEnd};

use crate::direction::Direction;

/// An undirected edge between two nodes, which can carry up to `capacity` either way.
#[derive(Clone, Copy, Debug, PartialEq, Eq)]
pub struct Edge {
    pub u: u32,
    pub v: u32,
    pub capacity: u32,
}

impl Edge {
    /// The end across from the end `y`.
    pub(crate) fn other(&self, y: u32) -> u32
        ensures { result ≡ other self.now y }
    {
        if self.v == y { self.u } else { self.v }
    }

    /// How much more can flow into the end `y` where the edge carries `amount`.
    pub(crate) fn room(&self, amount: i64, y: u32) -> u32
        requires fits { FitsEdge self.now amount }
        requires bounded { self.now.capacity ≤ 1000000 }
        ensures { pos result ≡ room self.now amount y }
    {
        let capacity = i64::from(self.capacity);
        if self.v == y {
            (capacity - amount) as u32
        } else {
            (capacity + amount) as u32
        }
    }

    /// What the edge takes out of the node `x` where it carries `amount`: 0 at a node that is no end of it.
    pub(crate) fn out_of(&self, amount: i64, x: u32) -> i64
        requires fits { FitsEdge self.now amount }
        requires bounded { self.now.capacity ≤ 1000000 }
        ensures value { result ≡ part_out self.now amount (λ y. y == x) }
        ensures low { neg_ℤ (pos 2000000) ≤ℤ result }
        ensures high { result ≤ℤ pos 2000000 }
    {
        let out = if self.u == x { amount } else { 0 };
        let back = if self.v == x { amount } else { 0 };
        out - back
    }

    /// The amount of the edge once `more` has flowed into its end `y`.
    pub(crate) fn pushed(&self, amount: i64, y: u32, more: u32) -> i64
        requires fits { FitsEdge self.now amount }
        requires bounded { self.now.capacity ≤ 1000000 }
        requires in_room { pos more ≤ℤ room self.now amount y }
        ensures { result ≡ pushed self.now amount y (pos more) }
    {
        if self.v == y {
            amount + i64::from(more)
        } else {
            amount - i64::from(more)
        }
    }

    /// How much more can flow from the end `x` to the end across from it, or into `x` where the search goes against the
    /// flow.
    pub(crate) fn room_beyond(&self, direction: Direction, amount: i64, x: u32) -> u32
        requires fits { FitsEdge self.now amount }
        requires bounded { self.now.capacity ≤ 1000000 }
        requires apart { self.now.u ≢ self.now.v }
        requires end { IsEnd self.now x }
        ensures { pos result ≡ room self.now (turn direction amount) (other self.now x) }
    {
        match direction {
            Direction::Along => self.room(amount, self.other(x)),
            Direction::Against => self.room(amount, x),
        }
    }

    /// The amount of the edge once `more` has flowed into its end `y`, or out of `y` where the search goes against the
    /// flow.
    pub(crate) fn pushed_to(&self, direction: Direction, amount: i64, y: u32, more: u32) -> i64
        requires fits { FitsEdge self.now amount }
        requires bounded { self.now.capacity ≤ 1000000 }
        requires apart { self.now.u ≢ self.now.v }
        requires end { IsEnd self.now y }
        requires in_room { pos more ≤ℤ room self.now (turn direction amount) y }
        ensures { turn direction result ≡ pushed self.now (turn direction amount) y (pos more) }
    {
        match direction {
            Direction::Along => self.pushed(amount, y, more),
            Direction::Against => self.pushed(amount, self.other(y), more),
        }
    }
}
