//! Laws of every topology: what its soundness gives for promises, cuts and sides. The bodies do nothing; callers read the
//! clauses.

ghost use Rattle.std.specs.Prelude.{Bool};
ghost use Rattle.st_net.specs.declared.entity.Entity.{Entity};
ghost use Rattle.st_net.specs.Laws.{KeepsWithMore, TellsKept, DemandsHoldWithMore, TellsDemands, ListsDemands, BreaksNone, HasLeastCuts, WalksWhereCut, TellsLeastSide, HasOneLeastSide};

use crate::topo::GroupTopo;

impl GroupTopo {
    /// A promise that holds with some entities up holds with more of them up.
    pub fn keeps_with_more(&self)
        ensures { KeepsWithMore self.now }
    {
        self.is_sound()
    }

    /// What is asked is kept, and with it a promise, exactly where the least cut of its pair is at least 1 and at least the need.
    pub fn held_means_kept(&self)
        ensures { TellsKept self.now }
    {
        self.is_sound()
    }

    /// A demand that holds with some entities up holds with more of them up, and the test tells whether it does, which the list of
    /// them has by its number; where none is broken first, each that held goes on to hold.
    pub fn demands_are_judged(&self)
        ensures more { DemandsHoldWithMore self.now }
        ensures tells { TellsDemands self.now }
        ensures lists { (up : Entity → Bool) → ListsDemands self.now up }
        ensures none_breaks { BreaksNone self.now }
    {
        self.is_sound()
    }

    /// The least cut of two devices is the value of one of their cuts, and no cut has less.
    pub fn least_cut_is_least(&self)
        ensures { HasLeastCuts self.now }
    {
        self.is_sound()
    }

    /// A walk joins two devices exactly where their least cut is not 0.
    pub fn walks_where_cut(&self)
        ensures { WalksWhereCut self.now }
    {
        self.is_sound()
    }

    /// The least side of two devices has what each cut of the least value has, and no other cut of the least value is
    /// contained in all of them.
    pub fn least_side_is_least(&self)
        ensures tells { TellsLeastSide self.now }
        ensures one { HasOneLeastSide self.now }
    {
        self.is_sound()
    }
}
