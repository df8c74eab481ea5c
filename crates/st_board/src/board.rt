//! The board, by which the writer publishes merges. What it publishes comes from a group's world, and its notes go to the readers.

ghost use Rattle.std.specs.Prelude.{◌≡◌, ◌+◌, ◌<◌, ◌≤◌, ◌^◌, ◌++◌, ◌∷◌, [], length, true, false, All, IfOk, OnOk, OnErr};
ghost use Rattle.st_net.specs.Ranges.{RowFits};
ghost use Rattle.st_board.specs.Published.{IsMergeOf, opening_on};

use crate::line::Line;
use crate::note::Note;
use crate::post::Post;
use crate::reader::TargetReader;
use crate::target::{Desk, Merge, Same, Target, desk_with, show};
use st_event::Rows;
use st_line::Writer as LineWriter;
use st_net::{GroupTopo, Row};
use st_overlay::Table;
use std::alloc::{AllocError, Global};
use std::marker::Model;
use std::sync::Wait;

/// The most readers of a board.
pub const MAX_READERS: u32 = 512;

/// The number of this limit, as a law: it does nothing.
pub fn most_readers()
    ensures { MAX_READERS ≡ 512 }
{}

/// The writer of a published target. Contracts see what it has published. It is not `Drop`, since its end may wait: end it by `give_up`,
/// or keep it in a `Held`.
pub struct Board {
    desk: Desk,
    line: LineWriter<Post>,
    /// Whether something was posted on the line that could not be shown. Then nothing more is published.
    ahead: bool,
}

impl Model for Board {
    ghost use Rattle.st_board.specs.Published.{Published, published_in};

    ghost Value = { Published };

    ghost use Rattle.st_board.specs.BoardInside.{IsBoard};

    ghost view = { λ b. published_in b.desk.desk.shown.value.front.seen.book b.desk.desk.shown.value.front.seen.log };

    ghost invariant = { IsBoard };
}

impl Board {
    /// A board that shows the opening of a group, and its readers, all of one line. A reader's place is memory that is taken here, so one
    /// that `left_right` does not hand out is want of memory. It may wait.
    pub fn start<R: Wait>(
        rt: &R,
        alloc: Global,
        line: Line,
        topo: &GroupTopo,
        readers: u32,
    ) -> Result<(Board, Vec<TargetReader>), AllocError>
        requires { readers ≤ MAX_READERS }
        ensures board { IfOk result (λ made. made.0 ≡ opening_on line topo.now) }
        ensures count { IfOk result (λ made. length made.1.items ≡ readers) }
        ensures readers { IfOk result (λ made. All (λ r. r ≡ opening_on line topo.now) made.1.items) }
    {
        let mut places = Vec::new(alloc);
        places.reserve(readers as usize)?;
        let mut board = Board::open(rt, alloc, line, topo, readers)?;
        for _ in 0..readers {
            match board.reader(alloc) {
                Ok(reader) => places.push_reserved(reader),
                Err(error) => {
                    board.give_up(rt);
                    return Err(error);
                }
            }
        }
        Ok((board, places))
    }

    /// A board without its readers.
    fn open<R: Wait>(
        rt: &R,
        alloc: Global,
        line: Line,
        topo: &GroupTopo,
        readers: u32,
    ) -> Result<Board, AllocError>
        requires { readers ≤ MAX_READERS }
        ensures { IfOk result (λ board. board ≡ opening_on line topo.now) }
    {
        let (line, front) = line.open(topo);
        let (first, second) = Target::openings(alloc, topo, &front)?;
        let desk = desk_with(rt, alloc, first, second, readers)?;
        Ok(Board {
            desk,
            line,
            ahead: false,
        })
    }

    /// A reader at what is shown.
    fn reader(&mut self, alloc: Global) -> Result<TargetReader, AllocError>
        ensures board { self.new ≡ self.old }
        ensures front { IfOk result (λ reader. reader ≡ self.old) }
    {
        let shown = self.desk.published();
        let table = shown.table.copy(alloc)?;
        let front = shown.front.again();
        let mut place = self.desk.factory().reader()?;
        place.learn::<Same>(self.desk.tell::<Same>());
        Ok(TargetReader {
            place,
            table,
            front,
        })
    }

    /// Publishes one merge, and gives a note of the front that ends with it. At `Err`, which is want of memory, now or in an earlier call
    /// whose post was made, nothing was published. It may wait for readers.
    pub fn publish<R: Wait>(
        &mut self,
        rt: &R,
        alloc: Global,
        rows: &[Row],
    ) -> Result<Note, AllocError>
        requires going { self.old.ended ≡ false }
        requires room { length self.old.proposals + 1 < 2 ^ 32 }
        requires fits { All (RowFits self.old.group) rows.now }
        ensures ok { OnOk result (self.new ≡ record self.old { proposals = self.old.proposals ++ rows.now ∷ [] }) }
        ensures note { IfOk result (λ note. note ≡ self.new) }
        ensures err { OnErr result (self.new ≡ self.old) }
    {
        if self.ahead {
            return Err(AllocError);
        }
        let rows = Rows::from_slice(alloc, rows)?;
        let mut front = self.desk.published().front.again();
        front.merge(&mut self.line, &rows);
        // The note first: what is shown takes the front.
        let note = front.again();
        let merge = Merge { rows, front };
        self.ahead = true;
        show(&mut self.desk, rt, merge)?;
        self.ahead = false;
        Ok(Note { front: note })
    }

    /// Publishes the mark that ends the front, and gives a note of the whole front. At `Err`, which is want of memory, now or in an earlier
    /// call whose post was made, nothing was published. It may wait for readers.
    pub fn end<R: Wait>(&mut self, rt: &R, alloc: Global) -> Result<Note, AllocError>
        requires going { self.old.ended ≡ false }
        ensures ok { OnOk result (self.new ≡ record self.old { ended = true }) }
        ensures note { IfOk result (λ note. note ≡ self.new) }
        ensures err { OnErr result (self.new ≡ self.old) }
    {
        if self.ahead {
            return Err(AllocError);
        }
        let rows = Rows::new(Vec::new(alloc));
        let mut front = self.desk.published().front.again();
        front.end(&mut self.line);
        let whole = front.again();
        let mark = Merge { rows, front };
        self.ahead = true;
        show(&mut self.desk, rt, mark)?;
        self.ahead = false;
        Ok(Note { front: whole })
    }

    /// What was published so far.
    pub fn note(&self) -> Note
        ensures { result ≡ self.now }
    {
        Note {
            front: self.desk.published().front.again(),
        }
    }

    /// The published target: the merge of what was published.
    pub fn target(&self) -> &Table
        ensures { IsMergeOf self.now.group self.now.proposals result.now }
    {
        &self.desk.published().table
    }

    /// Gives the board up, at any time and also after a refusal. Its readers go on with what they have. It may wait for readers.
    pub fn give_up<R: Wait>(self, rt: &R) {
        let Board {
            desk,
            line: _,
            ahead: _,
        } = self;
        desk.take(rt);
    }
}
