//! The line of a board: all that its writer posts, in order. It stands in proofs alone.

ghost use Rattle.std.specs.Prelude.{◌≡◌, ◌∷◌, []};
ghost use Rattle.st_board.specs.declared.post.Post.TheVariants.{Open as open_post};

use crate::front::Front;
use crate::post::{Opens, Post};
use st_line::Writer;
use st_net::GroupTopo;
use std::marker::Model;

/// A line on which nothing was posted yet. Contracts see which line it is.
#[derive(Drop)]
pub struct Line {
    writer: Writer<Post>,
    ghost empty: { writer.log ≡ [] },
}

impl Model for Line {
    ghost use Rattle.st_line.specs.Lines.{LineName};

    ghost Value = { LineName };

    ghost view = { λ l. l.writer.book };
}

impl Line {
    /// A new line.
    pub fn new() -> Line {
        Line {
            writer: Writer::new(),
        }
    }

    /// The writer of the line, and its front, once the group was posted.
    pub(crate) fn open(self, topo: &GroupTopo) -> (Writer<Post>, Front)
        ensures whole { result.0 ≡ result.1.seen }
        ensures book { result.1.seen.book ≡ self }
        ensures log { result.1.seen.log ≡ open_post topo.now ∷ [] }
    {
        let Line { mut writer } = self;
        writer.add::<GroupTopo, Opens>(topo);
        let front = Front {
            version: 0,
            ended: false,
            seen: writer.log(),
        };
        (writer, front)
    }
}
