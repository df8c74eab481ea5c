//! The rows that were merged last. A reader whose table lacks no others overlays these, in place of a copy of the whole table.

ghost use Rattle.std.specs.Prelude.{◌≡◌, ◌+◌, ◌≤◌, ◌++◌, [], length, vec_capacity, IfOk};
ghost use Rattle.st_board.specs.Recent.{merges_with};

use st_net::Row;
use std::alloc::{AllocError, Global};
use std::marker::Model;

/// The most rows that are kept.
pub const MAX_RECENT: usize = 64;

/// The rows of all merges after a version, in order. Contracts see the version and the rows.
#[derive(Drop)]
pub struct Recent {
    since: u32,
    rows: Vec<Row>,
}

impl Model for Recent {
    ghost use Rattle.st_board.specs.Recent.{Latest};
    ghost use Rattle.st_board.specs.RecentInside.{HasRoom};

    ghost Value = { Latest };

    ghost view = { λ r. record { since = r.since; rows = r.rows.items } };

    ghost invariant = { HasRoom };
}

/// Adds rows to a list that has room for them.
fn push_all(kept: &mut Vec<Row>, rows: &[Row])
    requires { length kept.old.items + length rows.now ≤ vec_capacity kept.old }
    ensures items { kept.new.items ≡ kept.old.items ++ rows.now }
    ensures capacity { vec_capacity kept.new ≡ vec_capacity kept.old }
{
    for row in rows {
        kept.push_reserved(*row);
    }
}

impl Recent {
    /// No rows, before the first merge.
    pub fn new(alloc: Global) -> Result<Recent, AllocError>
        ensures { IfOk result (λ r. r ≡ record { since = 0; rows = [] }) }
    {
        let mut rows = Vec::new(alloc);
        rows.reserve(MAX_RECENT)?;
        Ok(Recent { since: 0, rows })
    }

    /// The version after which their merges came.
    pub fn since(&self) -> u32
        ensures { result ≡ self.now.since }
    {
        self.since
    }

    /// The rows, in order.
    pub fn as_slice(&self) -> &[Row]
        ensures { result.now ≡ self.now.rows }
    {
        self.rows.as_slice()
    }

    /// Adds the rows of the merge that makes this version. Where they would be too many, none are kept, and those of the next merge
    /// are the first again. It takes no memory.
    pub fn add(&mut self, rows: &[Row], version: u32)
        ensures { self.new ≡ merges_with self.old rows.now version }
    {
        if rows.len() <= MAX_RECENT && self.rows.len() <= MAX_RECENT - rows.len() {
            push_all(&mut self.rows, rows);
        } else {
            self.rows.clear();
            self.since = version;
        }
    }
}
