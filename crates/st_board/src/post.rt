//! What is posted on the line of a board. All of it stands in proofs alone: `Front` is a beginning of a line that was seen.

use st_event::Rows;
use st_line::Tells;
use st_net::GroupTopo;

/// What is posted on a line: the group that it is of, then merges, then perhaps the mark of the end. No value of it is made.
pub enum Post {
    Open(GroupTopo),
    Merge(Rows),
    End,
}

/// Posts the group that a line is of.
pub struct Opens;

impl Tells<GroupTopo, Post> for Opens {
    ghost use Rattle.st_board.specs.declared.post.Post.TheVariants.{Open};

    ghost entry = { λ topo. Open topo };
}

/// Posts a merge.
pub struct Merges;

impl Tells<Rows, Post> for Merges {
    ghost use Rattle.st_board.specs.declared.post.Post.TheVariants.{Merge};

    ghost entry = { λ rows. Merge rows };
}

/// Posts the mark of the end.
pub struct Ends;

impl Tells<(), Post> for Ends {
    ghost use Rattle.st_board.specs.declared.post.Post.TheVariants.{End};

    ghost entry = { λ _. End };
}
