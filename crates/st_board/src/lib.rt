//! The published target of a group: one writer publishes merges, and readers follow them without waiting for anybody. A room of a
//! service holds the writer behind its lock, and each pass holds a reader.
#![tactic(auto)]

mod board;
mod front;
mod held;
mod line;
mod note;
mod post;
mod reader;
mod recent;
mod target;

pub use board::{Board, MAX_READERS, most_readers};
pub use held::Held;
pub use line::Line;
pub use note::Note;
pub use reader::{Seen, TargetReader};
