//! How variables and their values are read, and the values of a line.

ghost use Rattle.std.specs.Prelude.{◌≡◌, ◌++◌, ◌∷◌, [], All, IfOk, map, true};
ghost use Rattle.st_text.specs.Tokens.{token_in, IsTokenOf};
ghost use Rattle.st_net.specs.Ranges.{is_in_range, is_free_of};
ghost use Rattle.st_token.specs.Steps.{Gives};
ghost use Rattle.st_token.specs.Variables.{var_named, var_in, set_in, unset_in, assigned_in, number_of_var_in, value_in as value_in_lem, new_value_in, values_in};

use crate::fault::{FaultKind, LineError};
use crate::row_set::RowSet;
use crate::spelling::{cut_at, number_in};
use crate::words::var_word;
use st_net::{Entity, Row, Var, is_in_range};
use st_text::Token;
use std::alloc::Global;

/// The variable of an entity with this name.
fn var_named(entity: Entity, text: &[u8]) -> Option<Var>
    ensures { result ≡ var_named entity text.now }
{
    match entity {
        Entity::Device(_) => {
            if text == b"power".as_slice() {
                Some(Var::Power)
            } else if text == b"firmware".as_slice() {
                Some(Var::Firmware)
            } else if text == b"config".as_slice() {
                Some(Var::Config)
            } else if text == b"routing".as_slice() {
                Some(Var::Routing)
            } else {
                None
            }
        }
        Entity::Link(_) => {
            if text == b"power".as_slice() {
                Some(Var::LinkPower)
            } else if text == b"iface".as_slice() {
                Some(Var::Iface)
            } else {
                None
            }
        }
    }
}

/// The variable of an entity with this name, or `value`.
pub fn var_in(entity: Entity, text: &[u8]) -> Result<Var, LineError>
    ensures { Gives (λ v. v) result (var_in entity text.now) }
{
    match var_named(entity, text) {
        Some(var) => Ok(var),
        None => Err(LineError::Bad(FaultKind::Value)),
    }
}

#[tactic(auto, unfolding(crate::specs::Variables::set_in))]
fn set_in(entity: Entity, var: &[u8], number: &[u8]) -> Result<Row, LineError>
    ensures gives { Gives (λ row. row) result (set_in entity var.now number.now) }
    ensures of { IfOk result (λ row. row.entity ≡ entity) }
    ensures range { IfOk result (λ row. is_in_range row.entity row.var row.value ≡ true) }
{
    let var = var_in(entity, var)?;
    let value = number_in(number)?;
    if is_in_range(entity, var, value) {
        Ok(Row { entity, var, value })
    } else {
        Err(LineError::Bad(FaultKind::Value))
    }
}

#[tactic(auto, unfolding(crate::specs::Variables::unset_in))]
fn unset_in(entity: Entity, rest: &[u8]) -> Result<Row, LineError>
    ensures gives { Gives (λ row. row) result (unset_in entity rest.now) }
    ensures of { IfOk result (λ row. row.entity ≡ entity) }
    ensures range { IfOk result (λ row. is_in_range row.entity row.var row.value ≡ true) }
{
    let _var = var_in(entity, rest)?;
    Err(LineError::Bad(FaultKind::Value))
}

/// What is set of an entity by VAR=NUMBER.
pub fn assigned_in(entity: Entity, rest: &[u8]) -> Result<Row, LineError>
    ensures gives { Gives (λ row. row) result (assigned_in entity rest.now) }
    ensures of { IfOk result (λ row. row.entity ≡ entity) }
    ensures range { IfOk result (λ row. is_in_range row.entity row.var row.value ≡ true) }
{
    match cut_at(b'=', rest) {
        Some((var, number)) => set_in(entity, var, number),
        None => unset_in(entity, rest),
    }
}

/// The number that a variable of an entity is to have.
#[tactic(auto, unfolding(crate::specs::Variables::number_of_var_in))]
fn number_of_var_in(entity: Entity, var: Var, number: &[u8]) -> Result<u32, LineError>
    ensures gives { Gives (λ n. n) result (number_of_var_in entity var number.now) }
    ensures range { IfOk result (λ n. is_in_range entity var n ≡ true) }
{
    let value = number_in(number)?;
    if is_in_range(entity, var, value) {
        Ok(value)
    } else {
        Err(LineError::Bad(FaultKind::Value))
    }
}

/// VAR=NUMBER on this variable of an entity: what it is to have. Another variable is `value`, whatever number stands behind it.
pub fn value_in(entity: Entity, var: Var, token: &[u8]) -> Result<u32, LineError>
    ensures gives { Gives (λ n. n) result (value_in_lem entity var token.now) }
    ensures range { IfOk result (λ n. is_in_range entity var n ≡ true) }
{
    match cut_at(b'=', token) {
        Some((name, number)) => {
            if name == var_word(var) {
                number_of_var_in(entity, var, number)
            } else {
                Err(LineError::Bad(FaultKind::Value))
            }
        }
        None => Err(LineError::Bad(FaultKind::Value)),
    }
}

/// VAR=NUMBER of an entity, on a variable that is not set yet.
#[tactic(auto, unfolding(crate::specs::Variables::new_value_in))]
pub fn new_value_in(entity: Entity, set: &RowSet, token: &[u8]) -> Result<Row, LineError>
    ensures gives { Gives (λ row. row) result (new_value_in entity set.now token.now) }
    ensures range { IfOk result (λ row. is_in_range row.entity row.var row.value ≡ true) }
    ensures fresh { IfOk result (λ row. is_free_of row.entity row.var set.now ≡ true) }
{
    let row = assigned_in(entity, token)?;
    if set.is_free_of(&row) {
        Ok(row)
    } else {
        Err(LineError::Bad(FaultKind::Twice))
    }
}

/// The rows of values on different variables of an entity.
#[tactic(auto, unfolding(crate::specs::Variables::values_in))]
pub fn values_in(
    alloc: Global,
    entity: Entity,
    line: &[u8],
    tokens: &[Token],
) -> Result<Vec<Row>, LineError>
    requires { All (IsTokenOf line.now) tokens.now }
    ensures { Gives (λ rows. rows.items) result (values_in entity [] (map (token_in line.now) tokens.now)) }
{
    let mut set = RowSet::new(alloc);
    for token in tokens {
        add_value(entity, &mut set, &line[token.start..token.end])?;
    }
    Ok(set.into_rows())
}

/// Adds the row of a value on a variable that is not set yet, and gives it. All that can fail for one token stands here, where the rows are
/// borrowed.
fn add_value(entity: Entity, set: &mut RowSet, token: &[u8]) -> Result<Row, LineError>
    ensures gives { Gives (λ row. row) result (new_value_in entity set.old token.now) }
    ensures added { IfOk result (λ row. set.new ≡ set.old ++ row ∷ []) }
{
    let row = new_value_in(entity, set, token)?;
    set.add(row)?;
    Ok(row)
}
