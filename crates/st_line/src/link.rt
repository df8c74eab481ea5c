//! What stands in a book of lines, and the rule that the book keeps. Book and rule stand in proofs alone.

use logbook::{Gain, Pen, Plain, Play, Rule, Seen};
use std::marker::PhantomData;

/// A link of a book. `line` is the key of the word with which the link's line begins, and `next` the key of the word that the next link
/// of the same line brings home. A link with no entry names a line, which begins there. No value of this type is made.
pub struct Link<E> {
    pub line: u64,
    pub entry: Option<E>,
    pub next: u64,
}

/// The rule of a book of lines.
pub struct Law<E> {
    of: PhantomData<E>,
}

impl<E> Rule<Link<E>, u64> for Law<E> {
    ghost use Rattle.std.specs.Prelude.{[]};
    ghost use base.Fml.{ftrue};
    ghost use Rattle.st_line.specs.LineInside.{IsKept};

    ghost holds = { λ cells log. IsKept cells log };

    ghost first = { [] };

    ghost hinted = { λ n log. Unit {0} };

    ghost shows = { λ log. [] };

    ghost keeps = { λ names log. ftrue };

    ghost moves = { λ ask before after answer. Unit {0} };
}

/// Those who add trade nothing.
pub struct Nothing;

impl<E> Gain<Link<E>, u64> for Nothing {
    ghost use base.Fml.{ftrue};

    ghost after = { λ names about answer. ftrue };
}

/// A step that adds a word to the book, with a link that names a line by this word, and gives the pen of the word.
pub struct Deal;

impl<E> Play<Link<E>, u64> for Deal {
    ghost use Rattle.st_line.specs.LineInside.{Deals};

    ghost then = { Deals };
}

/// A step that adds an entry.
pub struct Add;

impl<E> Play<Link<E>, u64> for Add {
    ghost use Rattle.st_line.specs.LineInside.{Adds};

    ghost then = { Adds };
}

/// A step that adds nothing.
pub struct Look;

impl<E> Play<Link<E>, u64> for Look {
    ghost use Rattle.st_line.specs.LineInside.{Looks};

    ghost then = { Looks };
}

/// What a step asks that adds no entry.
pub struct Blank;

impl<E> Plain<(), Link<E>, u64> for Blank {
    ghost use Rattle.std.specs.Prelude.{None};

    ghost ask = { λ _. record { line = 0; entry = None; next = 0 } };

    ghost state = { λ _. None };
}

/// Says which entry a value tells.
pub trait Tells<X, E> {
    ghost entry: { X → E };
}

/// What tells a link with an entry: the value that tells the entry, what was seen when the line was named, and the pen of the word that the
/// link names.
#[derive(Clone, Copy)]
pub struct Telling<'a, X, E> {
    pub about: &'a X,
    pub named: &'a Seen<Link<E>, u64, Law<E>>,
    pub next: &'a Pen,
}

/// What a step asks that adds an entry.
pub struct Told<M> {
    of: PhantomData<M>,
}

impl<'a, X, E, M: Tells<X, E>> Plain<Telling<'a, X, E>, Link<E>, u64> for Told<M> {
    ghost use Rattle.std.specs.Prelude.{None, Some};
    ghost use Rattle.st_line.specs.LineInside.{last_line};

    ghost ask = { λ x. record { line = last_line x.named.now.log; entry = Some (M.entry x.about.now); next = x.next.now.nib.key } };

    ghost state = { λ x. None };
}
