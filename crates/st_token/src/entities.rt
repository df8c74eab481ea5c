//! Tokens that name an entity of a group, name a variable of it, or set one. The group is one that is being declared or one that
//! is built: a trait finds its entities.

ghost use Rattle.std.specs.Prelude.{◌≡◌, ◌++◌, ◌∷◌, ℕ, List, [], Option, All, IfOk, map, true};
ghost use Rattle.st_text.specs.Tokens.{token_in, IsTokenOf};
ghost use Rattle.st_net.specs.declared.entity.Entity.{Entity};
ghost use Rattle.st_net.specs.Groups.{find_in, IsEntityOf};
ghost use Rattle.st_net.specs.Ranges.{is_in_range, is_free_of, are_apart};
ghost use Rattle.st_token.specs.Steps.{Gives};
ghost use Rattle.st_token.specs.Spelling.{entity_in as entity_in_lem};
ghost use Rattle.st_token.specs.Variables.{IsInRange, dotted_in, undotted_in, assignment_in, new_assignment_in, rows_in, dotted_variable_in, undotted_variable_in, variable_in};

use crate::fault::{FaultKind, LineError};
use crate::row_set::RowSet;
use crate::spelling::{cut_at, name_in};
use crate::values::{assigned_in, var_in};
use st_net::{Entity, GroupTopo, Row, Var};
use st_text::Token;
use std::alloc::Global;

/// A group whose entities are found by their names.
pub trait NamedEntities {
    // The entity of a name, where one has it.
    ghost find: { Self → List ℕ → Option Entity };

    // The entity is one of the group.
    ghost IsWithin: { Self → Entity → Type 0 };

    /// The entity of a declared name.
    fn entity_in(&self, alloc: Global, token: &[u8]) -> Result<Entity, LineError>
        ensures gives { Gives (λ entity. entity) result (entity_in_lem (find self.now) token.now) }
        ensures within { IfOk result (IsWithin self.now) };
}

impl NamedEntities for GroupTopo {
    ghost find = { find_in };

    ghost IsWithin = { IsEntityOf };

    #[tactic(auto, unfolding(crate::specs::Spelling::entity_in))]
    fn entity_in(&self, alloc: Global, token: &[u8]) -> Result<Entity, LineError> {
        let name = name_in(alloc, token)?;
        match self.find(&name) {
            Some(entity) => Ok(entity),
            None => Err(LineError::Bad(FaultKind::Unknown)),
        }
    }
}

/// What is set of an entity that is named.
#[tactic(auto, unfolding(crate::specs::Variables::dotted_in))]
fn dotted_in<G: NamedEntities>(
    alloc: Global,
    group: &G,
    name: &[u8],
    rest: &[u8],
) -> Result<Row, LineError>
    ensures gives { Gives (λ row. row) result (dotted_in (G.find group.now) name.now rest.now) }
    ensures within { IfOk result (λ row. G.IsWithin group.now row.entity) }
    ensures range { IfOk result (λ row. is_in_range row.entity row.var row.value ≡ true) }
{
    let entity = group.entity_in(alloc, name)?;
    assigned_in(entity, rest)
}

/// A token without `.` is the name of an entity, and no assignment.
#[tactic(auto, unfolding(crate::specs::Variables::undotted_in))]
fn undotted_in<G: NamedEntities>(alloc: Global, group: &G, token: &[u8]) -> Result<Row, LineError>
    ensures gives { Gives (λ row. row) result (undotted_in (G.find group.now) token.now) }
    ensures within { IfOk result (λ row. G.IsWithin group.now row.entity) }
    ensures range { IfOk result (λ row. is_in_range row.entity row.var row.value ≡ true) }
{
    let _entity = group.entity_in(alloc, token)?;
    Err(LineError::Bad(FaultKind::Value))
}

/// An assignment, whatever was set before.
pub fn assignment_in<G: NamedEntities>(
    alloc: Global,
    group: &G,
    token: &[u8],
) -> Result<Row, LineError>
    ensures gives { Gives (λ row. row) result (assignment_in (G.find group.now) token.now) }
    ensures within { IfOk result (λ row. G.IsWithin group.now row.entity) }
    ensures range { IfOk result (λ row. is_in_range row.entity row.var row.value ≡ true) }
{
    match cut_at(b'.', token) {
        Some((name, rest)) => dotted_in(alloc, group, name, rest),
        None => undotted_in(alloc, group, token),
    }
}

/// An assignment on a variable that is not set yet.
#[tactic(auto, unfolding(crate::specs::Variables::new_assignment_in))]
pub fn new_assignment_in<G: NamedEntities>(
    alloc: Global,
    group: &G,
    set: &RowSet,
    token: &[u8],
) -> Result<Row, LineError>
    ensures gives { Gives (λ row. row) result (new_assignment_in (G.find group.now) set.now token.now) }
    ensures within { IfOk result (λ row. G.IsWithin group.now row.entity) }
    ensures range { IfOk result (λ row. is_in_range row.entity row.var row.value ≡ true) }
    ensures fresh { IfOk result (λ row. is_free_of row.entity row.var set.now ≡ true) }
{
    let row = assignment_in(alloc, group, token)?;
    if set.is_free_of(&row) {
        Ok(row)
    } else {
        Err(LineError::Bad(FaultKind::Twice))
    }
}

/// The rows of assignments on different variables of a group.
#[tactic(auto, unfolding(crate::specs::Variables::rows_in))]
pub fn rows_in<G: NamedEntities>(
    alloc: Global,
    group: &G,
    line: &[u8],
    tokens: &[Token],
) -> Result<Vec<Row>, LineError>
    requires { All (IsTokenOf line.now) tokens.now }
    ensures gives { Gives (λ rows. rows.items) result (rows_in (G.find group.now) [] (map (token_in line.now) tokens.now)) }
    ensures within { IfOk result (λ rows. All (λ row. G.IsWithin group.now row.entity) rows.items) }
    ensures range { IfOk result (λ rows. All IsInRange rows.items) }
    ensures apart { IfOk result (λ rows. are_apart rows.items ≡ true) }
{
    let mut set = RowSet::new(alloc);
    for token in tokens {
        add_assignment(alloc, group, &mut set, &line[token.start..token.end])?;
    }
    Ok(set.into_rows())
}

/// Adds the row of an assignment on a variable that is not set yet, and gives it. All that can fail for one token stands here, where the
/// rows are borrowed.
fn add_assignment<G: NamedEntities>(
    alloc: Global,
    group: &G,
    set: &mut RowSet,
    token: &[u8],
) -> Result<Row, LineError>
    ensures gives { Gives (λ row. row) result (new_assignment_in (G.find group.now) set.old token.now) }
    ensures within { IfOk result (λ row. G.IsWithin group.now row.entity) }
    ensures added { IfOk result (λ row. set.new ≡ set.old ++ row ∷ []) }
{
    let row = new_assignment_in(alloc, group, set, token)?;
    set.add(row)?;
    Ok(row)
}

/// What a variable's place in a token names.
#[tactic(auto, unfolding(crate::specs::Variables::dotted_variable_in))]
fn dotted_variable_in<G: NamedEntities>(
    alloc: Global,
    group: &G,
    name: &[u8],
    rest: &[u8],
) -> Result<(Entity, Var), LineError>
    ensures { Gives (λ v. v) result (dotted_variable_in (G.find group.now) name.now rest.now) }
{
    let entity = group.entity_in(alloc, name)?;
    let var = var_in(entity, rest)?;
    Ok((entity, var))
}

/// A token without `.` is the name of an entity, and no variable.
#[tactic(auto, unfolding(crate::specs::Variables::undotted_variable_in))]
fn undotted_variable_in<G: NamedEntities>(
    alloc: Global,
    group: &G,
    token: &[u8],
) -> Result<(Entity, Var), LineError>
    ensures { Gives (λ v. v) result (undotted_variable_in (G.find group.now) token.now) }
{
    let _entity = group.entity_in(alloc, token)?;
    Err(LineError::Bad(FaultKind::Value))
}

/// A variable of one of a group's entities.
pub fn variable_in<G: NamedEntities>(
    alloc: Global,
    group: &G,
    token: &[u8],
) -> Result<(Entity, Var), LineError>
    ensures { Gives (λ v. v) result (variable_in (G.find group.now) token.now) }
{
    match cut_at(b'.', token) {
        Some((name, rest)) => dotted_variable_in(alloc, group, name, rest),
        None => undotted_variable_in(alloc, group, token),
    }
}
