//! Lists of rows, as proposals and acts carry them.

ghost use Rattle.std.specs.Prelude.{◌≡◌, IfOk};

use st_net::Row;
use std::alloc::{AllocError, Global};
use std::marker::Model;

/// A list of rows. Contracts see the list.
#[derive(Drop)]
pub struct Rows {
    rows: Vec<Row>,
}

impl Model for Rows {
    ghost use Rattle.std.specs.Prelude.{List};
    ghost use Rattle.st_net.specs.declared.entity.Row.{Row};

    ghost Value = { List Row };

    ghost view = { λ r. r.rows.items };
}

impl Rows {
    /// These rows.
    pub fn new(rows: Vec<Row>) -> Rows
        ensures { result ≡ rows.items }
    {
        Rows { rows }
    }

    /// A copy of these rows.
    pub fn from_slice(alloc: Global, rows: &[Row]) -> Result<Rows, AllocError>
        ensures { IfOk result (λ copy. copy ≡ rows.now) }
    {
        Ok(Rows {
            rows: rows.to_vec(alloc)?,
        })
    }

    /// The rows, in order.
    pub fn as_slice(&self) -> &[Row]
        ensures { result.now ≡ self.now }
    {
        self.rows.as_slice()
    }

    /// An equal list.
    pub fn copy(&self, alloc: Global) -> Result<Rows, AllocError>
        ensures { IfOk result (λ copy. copy ≡ self.now) }
    {
        Rows::from_slice(alloc, self.as_slice())
    }
}
