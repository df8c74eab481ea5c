//! How many entries an entity's turn makes at the most, and each half of the turn, so that a caller can take room for them before.

ghost use Rattle.std.specs.Prelude.{◌≡◌, min};
ghost use Rattle.st_event.specs.declared.journal.TheConstants.{MAX_ENTRIES};
ghost use Rattle.st_world.specs.Shares.{poll_most as poll_most_lem, turn_most as turn_most_lem, update_most as update_most_lem};

use crate::world::World;
use st_event::MAX_ENTRIES;

impl World {
    /// As many entries as the half makes at the most that updates an entity, or as many as a journal may have where these are fewer.
    pub fn update_most(&self) -> usize
        ensures { result ≡ min (update_most_lem self.now.lines) MAX_ENTRIES }
    {
        (4 + self.plan().len().min(MAX_ENTRIES)).min(MAX_ENTRIES)
    }

    /// The same number of the half that monitors an entity.
    pub fn poll_most(&self) -> usize
        ensures { result ≡ min (poll_most_lem self.now.lines) MAX_ENTRIES }
    {
        (2 + self.plan().len().min(MAX_ENTRIES)).min(MAX_ENTRIES)
    }

    /// The same number of an entity's turn.
    pub fn turn_most(&self) -> usize
        ensures { result ≡ min (turn_most_lem self.now.lines) MAX_ENTRIES }
    {
        (6 + 2 * self.plan().len().min(MAX_ENTRIES)).min(MAX_ENTRIES)
    }
}
