//! The lowest layer of every text that is read or written: where its lines and the tokens of a line stand, which bytes
//! a line may hold, numbers, a text that is printed piece by piece, and lines of words in it. It takes bytes and gives
//! places and values; the crates that read and print texts stand on it.
#![tactic(auto)]

mod allowed;
mod digits;
mod line_places;
mod printing;
pub mod reading_back;
mod token_places;
mod words;

pub use allowed::has_allowed_bytes;
pub use digits::number;
pub use line_places::{Line, lines};
pub use printing::Text;
pub use token_places::{Token, tokens};
pub use words::{Word, begin_line, print_line, print_word, print_words};
