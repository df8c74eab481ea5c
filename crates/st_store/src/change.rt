//! The changes of one entity's target values. A merge enters them, and the values at any version are found among them by
//! halving.

ghost use Rattle.std.specs.Prelude.{◌≡◌, ◌<◌, ◌≤◌, [], false, OnOk};
ghost use Rattle.st_store.specs.Changes.{IsAscending, vals_upto, is_last_at, with_change};
ghost use Rattle.st_store.specs.Rooms.{changes_in, room_in};

use st_net::Vals;
use std::alloc::{AllocError, Global};

/// The target values of an entity from a version on.
#[derive(Clone, Copy, Debug, PartialEq, Eq)]
pub struct Change {
    pub version: u32,
    pub vals: Vals,
}

/// The changes of one entity, by ascending version.
#[derive(Drop)]
pub struct EntityChanges {
    changes: Vec<Change>,
}

impl EntityChanges {
    /// No change. It takes no memory.
    pub fn none(alloc: Global) -> EntityChanges
        ensures { changes_in result ≡ [] }
    {
        EntityChanges {
            changes: Vec::new(alloc),
        }
    }

    /// Makes room for one more change.
    pub fn reserve(&mut self) -> Result<(), AllocError>
        ensures same { changes_in self.new ≡ changes_in self.old }
        ensures room { OnOk result (0 < room_in self.new) }
        ensures grown { room_in self.old ≤ room_in self.new }
    {
        self.changes.reserve(1)
    }

    /// Enters a change: in the place of the last one where that is of the same version, and else behind it.
    pub fn set(&mut self, change: Change)
        requires { is_last_at (changes_in self.old) change.version ≡ false → 0 < room_in self.old }
        ensures { changes_in self.new ≡ with_change (changes_in self.old) change }
    {
        let count = self.changes.len();
        if count > 0 && self.changes[count - 1].version == change.version {
            self.changes[count - 1] = change;
        } else {
            self.changes.push_reserved(change);
        }
    }

    /// The values after the changes up to a version, of an entity that opened with these.
    pub fn vals_at(&self, version: u32, opening: Vals) -> Vals
        requires { IsAscending (changes_in self.now) }
        ensures { result ≡ vals_upto version (changes_in self.now) opening }
    {
        let count = self
            .changes
            .as_slice()
            .partition_point(|change| change.version <= version);
        if count == 0 {
            opening
        } else {
            self.changes[count - 1].vals
        }
    }
}
