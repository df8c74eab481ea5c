//! Which pass made each entry of a room's journal, which stands in proofs alone; and the units of the entries that may still come.

ghost use Rattle.std.specs.Prelude.{◌≡◌, ◌+◌, ◌<◌, ◌≤◌, ◌++◌, ◌∷◌, [], length, true};
ghost use Rattle.std.specs.Vec.{vec_len, vec_capacity};
ghost use mathlib.Core.List.{IsPrefix};
ghost use Rattle.st_service.specs.Asked.{all_asked, all_own};
ghost use Rattle.st_service.specs.Lines.{flat};
ghost use Rattle.st_service.specs.Puts.{Puts};

use crate::line::{AddsBatch, Batch, Fresh};
use crate::naming::Naming;
use crate::place::Place;
use st_event::Entry;
use st_line::Writer;
use std::marker::PhantomData;
use std::sync::ledger::{Ledger, Share};

/// The writer of a journal's line, and the room's share of the ledger of all entries.
#[derive(Drop)]
pub struct Makers<J: Naming, L: Ledger> {
    pub group: usize,
    pub line: Writer<Batch>,
    pub units: Share<L>,
    pub of: PhantomData<J>,
    pub ghost named: { line.book ≡ J.book group },
    pub ghost asked: { all_asked (flat line.log) ≡ true },
    pub ghost part: { units.parts ≡ 1 },
}

impl<J: Naming, L: Ledger> Makers<J, L> {
    /// The line of a journal at its opening, with its units.
    pub fn new(group: usize, line: Writer<Batch>, units: Share<L>) -> Makers<J, L>
        requires line { (line.book ≡ J.book group) × (line.log ≡ []) }
        requires units { units.parts ≡ 1 }
        ensures group { result.group ≡ group }
        ensures log { result.line.log ≡ [] }
        ensures units { result.units ≡ units }
    {
        Makers {
            group,
            line,
            units,
            of: PhantomData,
        }
    }

    /// Whatever a pass has seen of the journal begins what this one has. The line's writer tells so by an exchange, which changes nothing.
    pub fn has_all(&mut self, place: &Place<J>)
        requires group { place.now.group ≡ self.old.group }
        ensures same { (self.new.group ≡ self.old.group) × (self.new.line ≡ self.old.line) × (self.new.units ≡ self.old.units) }
        ensures begins { IsPrefix place.now.seen.log self.old.line.log }
    {
        self.line.has_all(&place.seen);
    }

    /// Teaches a pass the journal.
    pub fn show(&self, place: &mut Place<J>)
        requires group { place.old.group ≡ self.now.group }
        requires behind { IsPrefix place.old.seen.log self.now.line.log }
        ensures place { (place.new.group ≡ place.old.group) × (place.new.number ≡ place.old.number) × (place.new.mine ≡ place.old.mine) × (place.new.reader ≡ place.old.reader) }
        ensures journal { place.new.seen.log ≡ self.now.line.log }
    {
        place.look(&self.line.log());
    }

    /// Takes in the entries that a room has made for a pass at the end of the journal, which may be none: hands the pass a unit for each of
    /// them, and teaches the pass the journal.
    pub fn take_in(
        &mut self,
        place: &mut Place<J>,
        share: &mut Share<L>,
        entries: &[Entry],
        from: u32,
    )
        requires group { place.old.group ≡ self.old.group }
        requires behind { IsPrefix place.old.seen.log self.old.line.log }
        requires part { 0 < share.old.parts }
        requires own { all_own place.old.number entries.now ≡ true }
        requires from { from ≡ length (flat self.old.line.log) }
        requires few { from + length entries.now ≤ 200000 }
        requires units { length entries.now ≤ self.old.units.amount }
        requires spare { vec_len place.old.mine + length entries.now ≤ vec_capacity place.old.mine }
        ensures group { self.new.group ≡ self.old.group }
        ensures place { (place.new.group ≡ place.old.group) × (place.new.number ≡ place.old.number) × (place.new.reader ≡ place.old.reader) }
        ensures parts { share.new.parts ≡ share.old.parts }
        ensures entered { self.new.line.log ≡ self.old.line.log ++ record { by = place.old.number; entries = entries.now } ∷ [] }
        ensures units { (self.new.units.amount + length entries.now ≡ self.old.units.amount) × (share.new.amount ≡ share.old.amount + length entries.now) }
        ensures puts { Puts place.old.number entries.now (flat self.old.line.log) (flat place.old.seen.log) place.old.mine.items (flat place.new.seen.log) place.new.mine.items }
        ensures journal { place.new.seen.log ≡ self.new.line.log }
    {
        let fresh = Fresh {
            by: place.number,
            entries,
        };
        self.line.add::<Fresh, AddsBatch>(&fresh);
        self.units.transfer(share, entries.len() as u64);
        place.made(&self.line.log(), from, entries);
    }
}
