//! What was seen of a line.

ghost use Rattle.std.specs.Prelude.{◌≡◌};
ghost use mathlib.Core.List.{IsPrefix};

use crate::link::{Law, Link};
use logbook::Seen;
use std::marker::Model;

/// A beginning of a line that was seen. A log has no bytes. Contracts see which line it is of, and the entries.
#[derive(Drop)]
pub struct Log<E> {
    pub(crate) seen: Seen<Link<E>, u64, Law<E>>,
    /// What was seen when the line was named.
    pub(crate) named: Seen<Link<E>, u64, Law<E>>,
}

impl<E> Model for Log<E> {
    ghost use Rattle.st_line.specs.Lines.{Reached};
    ghost use Rattle.st_line.specs.LineInside.{reached};

    ghost Value = { Reached E };

    ghost view = { λ l. reached l.seen.book l.named.log l.seen.log };
}

impl<E> Log<E> {
    /// A copy.
    pub fn again(&self) -> Log<E>
        ensures { result ≡ self.now }
    {
        Log {
            seen: self.seen.again(),
            named: self.named.again(),
        }
    }

    /// Afterwards this log has what both logs had.
    pub fn learn(&mut self, other: &Log<E>)
        requires { other.now.book ≡ self.old.book }
        ensures book { self.new.book ≡ self.old.book }
        ensures mine { IsPrefix self.old.log self.new.log }
        ensures other { IsPrefix other.now.log self.new.log }
    {
        self.seen.learn(&other.seen);
    }
}
