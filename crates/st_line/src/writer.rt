//! The writer of a line.

ghost use Rattle.std.specs.Prelude.{◌≡◌, ◌++◌, ◌∷◌, []};
ghost use mathlib.Core.List.{IsPrefix};
ghost use Rattle.logbook.specs.Pages.{may_write};
ghost use Rattle.st_line.specs.LineInside.{head_of, last_line, links_of};

use crate::link::{Add, Blank, Deal, Law, Link, Look, Nothing, Telling, Tells, Told};
use crate::log::Log;
use logbook::{Offer, Pen, Seen, Start, Word};
use std::marker::Model;

/// The one who adds to a line, and so has seen all of the line. Contracts see which line it is, and the entries.
#[derive(Drop)]
pub struct Writer<E> {
    /// The word that all steps are made on, which stays at 0.
    head: Word<Link<E>, u64, Law<E>>,
    seen: Seen<Link<E>, u64, Law<E>>,
    named: Seen<Link<E>, u64, Law<E>>,
    /// The pen of the word that the next entry brings home.
    right: Pen,
}

impl<E> Model for Writer<E> {
    ghost use Rattle.st_line.specs.Lines.{Reached};
    ghost use Rattle.st_line.specs.LineInside.{reached};
    ghost use Rattle.st_line.specs.WriterInside.{IsWriter};

    ghost Value = { Reached E };

    ghost view = { λ w. reached w.seen.book w.named.log w.seen.log };

    ghost invariant = { IsWriter };
}

/// A pen for a new word of the book. The word is not at home, and the book's last link names a line by the word.
fn deal<E>(head: &Word<Link<E>, u64, Law<E>>, seen: &mut Seen<Link<E>, u64, Law<E>>) -> Pen
    requires head { head.now ≡ head_of seen.old.book }
    ensures book { (seen.new.book ≡ seen.old.book) × (result.book ≡ seen.old.book) }
    ensures later { IsPrefix seen.old.log seen.new.log }
    ensures right { result.nib.right ≡ may_write }
    ensures named { last_line seen.new.log ≡ result.nib.key }
    ensures none { links_of result.nib.key seen.new.log ≡ [] }
{
    let mut offer: Offer<Link<E>, u64, Law<E>, Nothing> = seen.plain::<Nothing, (), Blank>(&());
    let mut pen = seen.no_pen();
    let _ = head.compare_exchange::<Deal, Nothing>(0, 0, seen, &mut offer, &mut pen);
    // Nobody reads the word of this pen: it tells only that it is not at home yet.
    let _ = Word::<Link<E>, u64, Law<E>>::tracked(0, &mut pen);
    pen
}

impl<E> Writer<E> {
    /// The writer of a new line.
    pub fn new() -> Writer<E>
        ensures { result.log ≡ [] }
    {
        let (mut seen, mut first, _second) = Seen::open(Start::alone(), 0, 0);
        let head = Word::tracked(0, &mut first);
        let right = deal(&head, &mut seen);
        let named = seen.again();
        Writer {
            head,
            seen,
            named,
            right,
        }
    }

    /// Adds an entry.
    pub fn add<X, M: Tells<X, E>>(&mut self, about: &X)
        ensures book { self.new.book ≡ self.old.book }
        ensures log { self.new.log ≡ self.old.log ++ M.entry about.now ∷ [] }
    {
        let next = deal(&self.head, &mut self.seen);
        let telling = Telling {
            about,
            named: &self.named,
            next: &next,
        };
        let mut offer: Offer<Link<E>, u64, Law<E>, Nothing> = self
            .seen
            .plain::<Nothing, Telling<X, E>, Told<M>>(&telling);
        let _ = self
            .head
            .compare_exchange::<Add, Nothing>(0, 0, &mut self.seen, &mut offer, &mut self.right);
        self.right = next;
    }

    /// The writer has all that this log has, as of each log of the line. Nothing changes.
    pub fn has_all(&mut self, log: &Log<E>)
        requires { log.now.book ≡ self.old.book }
        ensures same { self.new ≡ self.old }
        ensures all { IsPrefix log.now.log self.new.log }
    {
        let mut seen = self.seen.again();
        seen.learn(&log.seen);
        let mut offer: Offer<Link<E>, u64, Law<E>, Nothing> = seen.plain::<Nothing, (), Blank>(&());
        let _ = self
            .head
            .compare_exchange::<Look, Nothing>(0, 0, &mut seen, &mut offer, &mut self.right);
    }

    /// A log of all that the writer has.
    pub fn log(&self) -> Log<E>
        ensures { result ≡ self.now }
    {
        Log {
            seen: self.seen.again(),
            named: self.named.again(),
        }
    }
}
