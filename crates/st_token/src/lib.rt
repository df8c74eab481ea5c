//! Tokens, both ways: the kinds of a line's fault, how names, numbers, variables, assignments and the rows of a line are read, and
//! the words that are printed for them. The readers and printers of documents and of journals stand on it.
#![tactic(auto)]

mod counts;
mod entities;
mod fault;
mod reading;
pub mod reading_back;
mod row_set;
mod spelling;
mod values;
mod words;

pub use counts::{four_of, one_of, three_of, two_of};
pub use entities::{NamedEntities, assignment_in, new_assignment_in, rows_in, variable_in};
pub use fault::{FaultKind, LineError, LineFault};
pub use reading::{TakesLines, take_lines};
pub use row_set::RowSet;
pub use spelling::{
    cut_at, is_comment, known_name_among, known_name_in, name_in, new_name_in, number_above,
    number_from, number_in, number_within, prio_in, word_in,
};
pub use values::{assigned_in, new_value_in, value_in, values_in, var_in};
pub use words::{prio_word, var_word};
