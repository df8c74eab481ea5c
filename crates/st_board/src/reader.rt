//! Readers of a published target, which wait for nobody and take no memory. Each pass of a service holds one for each group.

ghost use Rattle.std.specs.Prelude.{◌≡◌, ◌⊎◌, true, length};
ghost use mathlib.Core.List.{IsPrefix};
ghost use Rattle.st_net.specs.Groups.{IsEntityOf};
ghost use Rattle.st_net.specs.Merge.{merge_of};
ghost use Rattle.st_board.specs.Posts.{is_ended, group_in, proposals_in};
ghost use Rattle.st_board.specs.Published.{IsMergeOf};
ghost use Rattle.st_board.specs.ShownInside.{IsShown};

use crate::front::Front;
use crate::note::Note;
use crate::target::{Place, Shows, Target};
use core::mem::replace_with;
use st_net::{Entity, Var};
use st_overlay::Table;
use std::marker::Model;

/// A value of the published target, and its version: how many overlays were merged.
#[derive(Clone, Copy, Debug, PartialEq, Eq)]
pub struct Seen {
    pub version: u32,
    pub value: u32,
}

/// A reader of one board. It keeps the table that is the merge of its own front.
#[derive(Drop)]
pub struct TargetReader {
    pub(crate) place: Place,
    pub(crate) table: Table,
    pub(crate) front: Front,
}

impl Model for TargetReader {
    ghost use Rattle.st_board.specs.Published.{Published, published_in};

    ghost Value = { Published };

    ghost use Rattle.st_board.specs.ReaderInside.{IsReader};

    ghost view = { λ r. published_in r.front.seen.book r.front.seen.log };

    ghost invariant = { IsReader };
}

/// Takes the other front and its table, where that front is longer. It takes no memory.
fn advance(table: &mut Table, front: &mut Front, target: &Table, other: &Front)
    requires book { other.now.seen.book ≡ front.old.seen.book }
    requires mine { IsMergeOf (group_in front.old.seen.log) (proposals_in front.old.seen.log) table.old }
    requires other { IsMergeOf (group_in other.now.seen.log) (proposals_in other.now.seen.log) target.now }
    ensures table { IsMergeOf (group_in front.new.seen.log) (proposals_in front.new.seen.log) table.new }
    ensures book { front.new.seen.book ≡ front.old.seen.book }
    ensures one { (front.new ≡ front.old) ⊎ (front.new ≡ other.now) }
    ensures mine { IsPrefix front.old.seen.log front.new.seen.log }
    ensures other { IsPrefix other.now.seen.log front.new.seen.log }
    ensures ended { is_ended other.now.seen.log ≡ true → front.new.seen.log ≡ other.now.seen.log }
{
    if front.is_behind(other) {
        table.fill(target);
        *front = other.again();
    }
}

/// Makes the table of a front that of what is shown, which the front begins. Where the table lacks no rows but those that were merged
/// last, these are enough, and those of them that it has already change nothing.
fn renew(table: &mut Table, front: &Front, shown: &Target)
    requires mine { IsMergeOf (group_in front.now.seen.log) (proposals_in front.now.seen.log) table.old }
    requires earlier { IsPrefix front.now.seen.log shown.now.front.seen.log }
    requires shown { IsShown shown.now }
    ensures { IsMergeOf (group_in shown.now.front.seen.log) (proposals_in shown.now.front.seen.log) table.new }
{
    if shown.recent.since() <= front.version {
        table.overlay(shown.recent.as_slice());
    } else {
        table.fill(&shown.table);
    }
}

/// Takes the front that is shown, where it is longer, and makes the table that of it. It takes no memory.
fn follow(table: &mut Table, front: &mut Front, shown: &Target)
    requires book { shown.now.front.seen.book ≡ front.old.seen.book }
    requires mine { IsMergeOf (group_in front.old.seen.log) (proposals_in front.old.seen.log) table.old }
    requires shown { IsShown shown.now }
    ensures table { IsMergeOf (group_in front.new.seen.log) (proposals_in front.new.seen.log) table.new }
    ensures book { front.new.seen.book ≡ front.old.seen.book }
    ensures mine { IsPrefix front.old.seen.log front.new.seen.log }
{
    if front.is_behind(&shown.front) {
        renew(table, front, shown);
        *front = shown.front.again();
    }
}

impl TargetReader {
    /// Brings the table and the front up to what is shown, where `left_right` gives it.
    fn caught_up(self) -> TargetReader
        ensures book { result.book ≡ self.book }
        ensures group { result.group ≡ self.group }
        ensures later { IsPrefix self.proposals result.proposals }
    {
        let TargetReader {
            place,
            mut table,
            mut front,
        } = self;
        match place.enter_as::<Shows>() {
            Ok(reading) => {
                let shown = reading.get();
                follow(&mut table, &mut front, shown);
                TargetReader {
                    place: reading.leave(),
                    table,
                    front,
                }
            }
            Err(place) => TargetReader {
                place,
                table,
                front,
            },
        }
    }

    /// The value of a variable in the merge of the front that is the reader's afterwards: it begins with the reader's front, and is
    /// what was published where `left_right` gives that. It waits for nobody and takes no memory.
    pub fn read(&mut self, entity: Entity, var: Var) -> Seen
        requires { IsEntityOf self.old.group entity }
        ensures book { self.new.book ≡ self.old.book }
        ensures group { self.new.group ≡ self.old.group }
        ensures later { IsPrefix self.old.proposals self.new.proposals }
        ensures version { result.version ≡ length self.new.proposals }
        ensures value { result.value ≡ merge_of self.new.group self.new.proposals entity var }
    {
        replace_with(self, (), |reader, ()| (reader.caught_up(), ()));
        Seen {
            version: self.front.version,
            value: self.table.value(entity, var),
        }
    }

    /// Takes in a note of the same board, with the target that is its merge: the longer of the two fronts is then the reader's. It waits
    /// for nobody and takes no memory.
    pub fn learn(&mut self, note: &Note, target: &Table)
        requires book { note.now.book ≡ self.old.book }
        requires target { IsMergeOf note.now.group note.now.proposals target.now }
        ensures book { self.new.book ≡ self.old.book }
        ensures group { self.new.group ≡ self.old.group }
        ensures one { (self.new ≡ self.old) ⊎ (self.new ≡ note.now) }
        ensures mine { IsPrefix self.old.proposals self.new.proposals }
        ensures note { IsPrefix note.now.proposals self.new.proposals }
        ensures ended { note.now.ended ≡ true → self.new ≡ note.now }
    {
        advance(&mut self.table, &mut self.front, target, &note.front);
    }
}
