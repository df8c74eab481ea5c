//! What a withdrawal says: the version that it is, and its rows, which are of the event's entity and in the order of variables.

ghost use Rattle.std.specs.Prelude.{◌≡◌, ◌++◌, ◌∷◌, [], map, All, IfOk, ok_or};
ghost use Rattle.st_text.specs.Tokens.{token_in, IsTokenOf};
ghost use Rattle.st_net.specs.Entities.{place_of as place_of_lem};
ghost use Rattle.st_token.specs.declared.fault.FaultKind.TheVariants as kinds;
ghost use Rattle.st_token.specs.Steps.{Gives};
ghost use Rattle.st_world.specs.Rounds.{withdraws};
ghost use Rattle.st_journal.specs.ReplyReading.{is_behind_each as is_behind_each_lem, may_follow as may_follow_lem, own_row_in as own_row_in_lem, own_rows_in as own_rows_in_lem, withdrawn_of as withdrawn_of_lem};

use st_event::{Event, Reply, Rows};
use st_net::{Entity, GroupTopo, Row, Var};
use st_text::Token;
use st_token::{FaultKind, LineError, assignment_in, number_in};
use std::alloc::Global;

/// The place of a variable in the order of all.
fn place_of(var: Var) -> u32
    ensures { result ≡ place_of_lem var }
{
    match var {
        Var::Power => 0,
        Var::Firmware => 1,
        Var::Config => 2,
        Var::Routing => 3,
        Var::LinkPower => 4,
        Var::Iface => 5,
    }
}

/// Whether a variable stands behind those of these rows.
fn is_behind_each(rows: &[Row], var: Var) -> bool
    ensures { result ≡ is_behind_each_lem rows.now var }
{
    for row in rows {
        if place_of(row.var) >= place_of(var) {
            return false;
        }
    }
    true
}

/// Whether a row is of this entity and stands behind these.
fn may_follow(entity: Entity, before: &[Row], row: &Row) -> bool
    ensures { result ≡ may_follow_lem entity before.now row.now }
{
    row.entity == entity && is_behind_each(before, row.var)
}

/// The row of an assignment that may stand behind these.
#[tactic(auto, unfolding(crate::specs::ReplyReading::own_row_in))]
fn own_row_in(
    alloc: Global,
    topo: &GroupTopo,
    entity: Entity,
    before: &[Row],
    token: &[u8],
) -> Result<Row, LineError>
    ensures { Gives (λ row. row) result (own_row_in_lem topo.now entity before.now token.now) }
{
    let row = assignment_in(alloc, topo, token)?;
    if may_follow(entity, before, &row) {
        Ok(row)
    } else {
        Err(LineError::Bad(FaultKind::Value))
    }
}

/// Adds the row of an assignment that may stand behind these, and gives it. All that can fail for one token stands here, where the rows are
/// borrowed.
fn add_own_row(
    alloc: Global,
    topo: &GroupTopo,
    entity: Entity,
    rows: &mut Vec<Row>,
    token: &[u8],
) -> Result<Row, LineError>
    ensures gives { Gives (λ row. row) result (own_row_in_lem topo.now entity rows.old.items token.now) }
    ensures added { IfOk result (λ row. rows.new.items ≡ rows.old.items ++ row ∷ []) }
{
    let row = own_row_in(alloc, topo, entity, rows.as_slice(), token)?;
    rows.push(row)?;
    Ok(row)
}

/// The rows of assignments of an entity, in the order of variables.
#[tactic(auto, unfolding(crate::specs::ReplyReading::own_rows_in))]
fn own_rows_in(
    alloc: Global,
    topo: &GroupTopo,
    entity: Entity,
    line: &[u8],
    tokens: &[Token],
) -> Result<Vec<Row>, LineError>
    requires { All (IsTokenOf line.now) tokens.now }
    ensures { Gives (λ rows. rows.items) result (own_rows_in_lem topo.now entity [] (map (token_in line.now) tokens.now)) }
{
    let mut rows = Vec::new(alloc);
    for token in tokens {
        add_own_row(
            alloc,
            topo,
            entity,
            &mut rows,
            &line[token.start..token.end],
        )?;
    }
    Ok(rows)
}

/// The entity that an event withdraws.
fn withdrawn_entity(event: &Event) -> Result<Entity, LineError>
    ensures { Gives (λ entity. entity) result (ok_or (withdraws event.now) kinds.Value) }
{
    match event {
        Event::Withdraw { entity } => Ok(*entity),
        Event::Submit { .. }
        | Event::Check
        | Event::Lock { .. }
        | Event::Unlock { .. }
        | Event::Send { .. }
        | Event::Deliver { .. }
        | Event::Finish { .. }
        | Event::Report { .. }
        | Event::Hear { .. }
        | Event::Fail { .. } => Err(LineError::Bad(FaultKind::Value)),
    }
}

/// A withdrawal, by what stands behind its word.
#[tactic(auto, unfolding(crate::specs::ReplyReading::withdrawn_of))]
pub fn withdrawn_of(
    alloc: Global,
    topo: &GroupTopo,
    event: &Event,
    line: &[u8],
    tokens: &[Token],
) -> Result<Reply, LineError>
    requires { All (IsTokenOf line.now) tokens.now }
    ensures { Gives (λ reply. reply) result (withdrawn_of_lem topo.now event.now (map (token_in line.now) tokens.now)) }
{
    if tokens.len() < 2 {
        return Err(LineError::Bad(FaultKind::Count));
    }
    let version = number_in(&line[tokens[0].start..tokens[0].end])?;
    let entity = withdrawn_entity(event)?;
    let rows = own_rows_in(alloc, topo, entity, line, &tokens[1..])?;
    Ok(Reply::Withdrawn {
        version,
        rows: Rows::new(rows),
    })
}
