//! Notes of what was published. The writer gives one with each publication, and any number of readers learn from it.

use crate::front::Front;
use std::marker::Model;

/// A front that was published: the group, its overlays from the first, and whether the mark of the end is on it.
#[derive(Drop)]
pub struct Note {
    pub(crate) front: Front,
}

impl Model for Note {
    ghost use Rattle.st_board.specs.Published.{Published, published_in};

    ghost Value = { Published };

    ghost view = { λ n. published_in n.front.seen.book n.front.seen.log };
}
