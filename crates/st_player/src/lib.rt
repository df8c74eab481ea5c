//! The journal player: a document with its journals in, a page that shows the run out. What is sure, busy, lost or cut is asked of the
//! groups' worlds, entry by entry, and stands in the page's data; the page's script only shows it.
#![tactic(auto)]

mod calling;
mod causes;
mod changes;
mod courses;
mod cuts;
mod entries;
mod fields;
mod head;
mod joining;
pub mod laws;
mod openings;
mod origins;
mod parts;
mod pictures;
mod playback;
mod playing;
mod refusals;
mod safe_json;
mod script;
mod snapshot;
mod state;
mod touched;
mod turns;
mod weighing;

pub use calling::{player, run_player};
pub use playing::{Played, play};
pub use st_replay::Status;
