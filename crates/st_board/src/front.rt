//! A front: a beginning of a board's line that was seen, with its counts. The writer shows one beside each table, and each note
//! and each reader has one.

ghost use Rattle.std.specs.Prelude.{◌≡◌, ◌+◌, ◌<◌, ◌^◌, ◌++◌, ◌∷◌, [], length, true, false};
ghost use mathlib.Core.List.{IsPrefix};
ghost use Rattle.st_board.specs.Posts.{MarkIsLast, flag, is_ended, proposals_in};
ghost use Rattle.st_board.specs.declared.post.Post.TheVariants.{Merge as merge_post, End as end_post};

use crate::post::{Ends, Merges, Post};
use st_event::Rows;
use st_line::{Log, Writer};

/// A beginning of a line that was seen, with the group at least.
#[derive(Drop)]
pub struct Front {
    /// How many merges it has.
    pub version: u32,
    /// Whether the mark is on it.
    pub ended: bool,
    pub seen: Log<Post>,
    pub ghost merges: { version ≡ length (proposals_in seen.log) },
    pub ghost marked: { ended ≡ is_ended seen.log },
    pub ghost last: { MarkIsLast seen.log },
    pub ghost counted: { 1 + version + flag ended ≡ length seen.log },
}

impl Front {
    /// How many posts there are.
    pub fn posts(&self) -> u64
        ensures count { result ≡ length self.now.seen.log }
    {
        1 + self.version as u64 + self.ended as u64
    }

    /// Whether the other front of this line is the longer one. If it is, this one begins it, and if not it begins this one.
    pub fn is_behind(&self, other: &Front) -> bool
        requires { other.now.seen.book ≡ self.now.seen.book }
        ensures mine { result ≡ true → IsPrefix self.now.seen.log other.now.seen.log }
        ensures other { result ≡ false → IsPrefix other.now.seen.log self.now.seen.log }
        ensures ended { result ≡ false → is_ended other.now.seen.log ≡ true → self.now.seen.log ≡ other.now.seen.log }
    {
        let mut both = self.seen.again();
        both.learn(&other.seen);
        self.posts() < other.posts()
    }

    /// A copy. It takes no memory.
    pub fn again(&self) -> Front
        ensures { result ≡ self.now }
    {
        Front {
            version: self.version,
            ended: self.ended,
            seen: self.seen.again(),
        }
    }

    /// Posts a merge on the line, of which all was seen.
    pub fn merge(&mut self, writer: &mut Writer<Post>, rows: &Rows)
        requires whole { writer.old ≡ self.old.seen }
        requires going { is_ended self.old.seen.log ≡ false }
        requires room { length (proposals_in self.old.seen.log) + 1 < 2 ^ 32 }
        ensures whole { writer.new ≡ self.new.seen }
        ensures book { self.new.seen.book ≡ self.old.seen.book }
        ensures log { self.new.seen.log ≡ self.old.seen.log ++ merge_post rows.now ∷ [] }
    {
        writer.add::<Rows, Merges>(rows);
        self.version += 1;
        self.seen = writer.log();
    }

    /// Posts the mark of the end on the line, of which all was seen.
    pub fn end(&mut self, writer: &mut Writer<Post>)
        requires whole { writer.old ≡ self.old.seen }
        requires going { is_ended self.old.seen.log ≡ false }
        ensures whole { writer.new ≡ self.new.seen }
        ensures book { self.new.seen.book ≡ self.old.seen.book }
        ensures log { self.new.seen.log ≡ self.old.seen.log ++ end_post ∷ [] }
    {
        writer.add::<(), Ends>(&());
        self.ended = true;
        self.seen = writer.log();
    }
}
