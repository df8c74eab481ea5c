//! A room whose front is ended: nothing more is entered or published. A service that closes teaches its readers from here, and takes the
//! journal.

ghost use Rattle.std.specs.Prelude.{◌≡◌, true, false, IfOk, OnOk, reverse};
ghost use mathlib.Core.List.{IsPrefix};
ghost use Rattle.st_net.specs.Groups.{IsSound};
ghost use Rattle.st_event.specs.Legal.{IsLegal};
ghost use Rattle.st_event.specs.Proposals.{overlays};

use crate::room::Room;
use st_board::{Held, Note, TargetReader};
use st_event::Journal;
use st_world::World;
use std::alloc::{AllocError, Global};
use std::marker::Model;
use std::sync::Wait;

/// A room whose front is ended.
#[derive(Drop)]
pub struct Ended<H: Wait + Drop> {
    world: World,
    held: Held<H>,
    note: Note,
    ghost whole: { note.proposals ≡ overlays world.history.past },
    ghost ended: { note.ended ≡ true },
    ghost group: { note.group ≡ world.history.group },
}

impl<H: Wait + Drop> Model for Ended<H> {
    ghost use Rattle.st_service.specs.Rooms.{EndedView};

    ghost Value = { EndedView };

    ghost view = { λ r. record { history = r.world.history; published = r.note } };
}

impl<H: Wait + Drop> Ended<H> {
    /// Ends what a room publishes. At `Err`, as where the room is spent, it is given up.
    pub fn new(room: Room<H>, alloc: Global) -> Result<Ended<H>, AllocError>
        ensures open { OnOk result (room.spent ≡ false) }
        ensures history { IfOk result (λ ended. ended.history ≡ room.history) }
        ensures book { IfOk result (λ ended. ended.published.book ≡ room.published.book) }
    {
        let Room {
            world,
            mut held,
            spent,
        } = room;
        if spent {
            drop((world, held));
            return Err(AllocError);
        }
        match held.board.end(&held.rt, alloc) {
            Ok(note) => Ok(Ended { world, held, note }),
            Err(error) => {
                drop((world, held));
                Err(error)
            }
        }
    }

    /// Teaches a reader of the room the whole front, which has every overlay of the room's journal.
    pub fn teach(&self, reader: &mut TargetReader)
        requires { reader.old.book ≡ self.now.published.book }
        ensures same { (reader.new.book ≡ reader.old.book) × (reader.new.group ≡ reader.old.group) }
        ensures later { IsPrefix reader.old.proposals reader.new.proposals }
        ensures whole { reader.new.proposals ≡ overlays self.now.history.past }
    {
        reader.learn(&self.note, self.world.control().store().target());
    }

    /// The journal is legal, and the group is sound.
    pub fn is_legal(&self)
        ensures legal { IsLegal self.now.history.group self.now.history.past }
        ensures sound { IsSound self.now.history.group }
    {
        self.world.is_legal();
    }

    /// The journal, as that of the group of this number.
    pub fn into_journal(self, group: u32) -> Journal
        ensures group { result.group ≡ group }
        ensures entries { reverse result.entries ≡ self.history.past }
    {
        let Ended {
            world,
            held: _held,
            note: _note,
        } = self;
        world.into_journal(group)
    }
}
