//! Rows on different variables, with an index: those that `open` lines set, and those of one line.

ghost use Rattle.std.specs.Prelude.{◌≡◌, ◌++◌, [], ◌∷◌, All, OnOk, OnErr, true};
ghost use Rattle.st_net.specs.Entities.{place_of};
ghost use Rattle.st_net.specs.Ranges.{is_free_of, is_in_range, are_apart};
ghost use Rattle.st_token.specs.RowsInside.{number_of, variable_of};
ghost use Rattle.st_token.specs.Variables.{IsInRange};

use st_net::{Entity, Pair, Pairs, Row, Var};
use std::alloc::{AllocError, Global};
use std::marker::Model;

/// Rows on different variables. Whether a variable is set is found in about one step. Contracts see the list of rows.
#[derive(Drop)]
pub struct RowSet {
    rows: Vec<Row>,
    // A device's variables and a link's have different places, so an entity's number tells which one is meant.
    variables: Pairs,
}

impl Model for RowSet {
    ghost use Rattle.st_net.specs.declared.entity.Row.{Row};
    ghost use Rattle.std.specs.Prelude.{List};
    ghost use Rattle.st_token.specs.RowsInside.{HasVariables};

    ghost Value = { List Row };

    ghost view = { λ s. s.rows.items };

    ghost invariant = { λ s. HasVariables s.rows.items s.variables };
}

fn number_of(entity: Entity) -> u32
    ensures { result ≡ number_of entity }
{
    match entity {
        Entity::Device(i) => i,
        Entity::Link(i) => i,
    }
}

fn place_of(var: Var) -> u32
    ensures { result ≡ place_of var }
{
    match var {
        Var::Power => 0,
        Var::Firmware => 1,
        Var::Config => 2,
        Var::Routing => 3,
        Var::LinkPower => 4,
        Var::Iface => 5,
    }
}

/// The number of a row's entity, and the place of its variable.
fn variable_of(row: &Row) -> Pair
    ensures { result ≡ variable_of row.now }
{
    Pair {
        a: number_of(row.entity),
        b: place_of(row.var),
    }
}

impl RowSet {
    /// No rows.
    pub fn new(alloc: Global) -> RowSet
        ensures { result ≡ [] }
    {
        RowSet {
            rows: Vec::new(alloc),
            variables: Pairs::new(alloc),
        }
    }

    /// Whether no row is on this row's variable.
    pub fn is_free_of(&self, row: &Row) -> bool
        requires { is_in_range row.now.entity row.now.var row.now.value ≡ true }
        ensures { result ≡ is_free_of row.now.entity row.now.var self.now }
    {
        !self.variables.has(variable_of(row))
    }

    /// Adds a row on another variable at the end. At `Err` nothing has changed.
    pub fn add(&mut self, row: Row) -> Result<(), AllocError>
        requires range { is_in_range row.entity row.var row.value ≡ true }
        requires fresh { is_free_of row.entity row.var self.old ≡ true }
        ensures ok { OnOk result (self.new ≡ self.old ++ row ∷ []) }
        ensures err { OnErr result (self.new ≡ self.old) }
    {
        self.rows.reserve(1)?;
        self.variables.add(variable_of(&row))?;
        self.rows.push_reserved(row);
        Ok(())
    }

    /// The rows, in order.
    pub fn as_slice(&self) -> &[Row]
        ensures { result.now ≡ self.now }
    {
        self.rows.as_slice()
    }

    /// The rows alone.
    pub fn into_rows(self) -> Vec<Row>
        ensures rows { result.items ≡ self }
        ensures range { All IsInRange result.items }
        ensures apart { are_apart result.items ≡ true }
    {
        self.rows
    }
}
