//! What events say: each function reads the tokens that stand behind the word of one.

ghost use Rattle.std.specs.Prelude.{◌≡◌, ◌<◌, ◌^◌, length, map, All};
ghost use Rattle.st_text.specs.Tokens.{token_in, IsTokenOf};
ghost use Rattle.st_net.specs.Entities.{vars_of as vars_of_lem};
ghost use Rattle.st_net.specs.Groups.{no_vals};
ghost use Rattle.st_token.specs.Steps.{Gives};
ghost use Rattle.st_token.specs.Counts.{none_of as none_of_lem};
ghost use Rattle.st_journal.specs.EventReading.{app_in as app_in_lem, vals_in as vals_in_lem, submit_of as submit_of_lem, check_of as check_of_lem, lock_of as lock_of_lem, unlock_of as unlock_of_lem, send_of as send_of_lem, finish_of as finish_of_lem, report_of as report_of_lem, deliver_of as deliver_of_lem, hear_of as hear_of_lem, fail_of as fail_of_lem, withdraw_of as withdraw_of_lem, event_of as event_of_lem, has_few_rows as has_few_rows_lem};

use st_entry::EventWord;
use st_event::{Event, Rows};
use st_net::{AppId, Entity, GroupTopo, MAX_ROWS, Name, Vals, Var, most_health};
use st_text::Token;
use st_token::{
    FaultKind, LineError, NamedEntities, known_name_among, number_in, number_within, one_of,
    prio_in, rows_in, three_of, two_of, value_in,
};
use std::alloc::Global;

/// No token.
pub fn none_of(line: &[u8], tokens: &[Token]) -> Result<(), LineError>
    requires { All (IsTokenOf line.now) tokens.now }
    ensures { Gives (λ _. tt) result (none_of_lem (map (token_in line.now) tokens.now)) }
{
    if tokens.is_empty() {
        Ok(())
    } else {
        Err(LineError::Bad(FaultKind::Count))
    }
}

/// An application, by its name.
#[tactic(auto, unfolding(crate::specs::EventReading::app_in))]
pub fn app_in(alloc: Global, apps: &[Name], token: &[u8]) -> Result<AppId, LineError>
    requires { length apps.now < 2 ^ 32 }
    ensures { Gives (λ app. app) result (app_in_lem apps.now token.now) }
{
    let place = known_name_among(alloc, apps, token)?;
    Ok(AppId(place))
}

/// The variables of an entity, in order.
fn vars_of(entity: Entity) -> &'static [Var]
    ensures { result.now ≡ vars_of_lem entity }
{
    match entity {
        Entity::Device(_) => &[Var::Power, Var::Firmware, Var::Config, Var::Routing],
        Entity::Link(_) => &[Var::LinkPower, Var::Iface],
    }
}

/// The values of an entity, each by its token: one on each variable, in order.
#[tactic(auto, unfolding(crate::specs::EventReading::vals_in))]
fn vals_in(entity: Entity, line: &[u8], tokens: &[Token]) -> Result<Vals, LineError>
    requires { All (IsTokenOf line.now) tokens.now }
    ensures { Gives (λ vals. vals) result (vals_in_lem entity no_vals (vars_of_lem entity) (map (token_in line.now) tokens.now)) }
{
    let vars = vars_of(entity);
    let mut vals = Vals {
        v0: 0,
        v1: 0,
        v2: 0,
        v3: 0,
    };
    for (place, var) in vars.iter().enumerate() {
        if place >= tokens.len() {
            return Err(LineError::Bad(FaultKind::Value));
        }
        let token = &tokens[place];
        match value_in(entity, *var, &line[token.start..token.end]) {
            Ok(value) => vals = vals.with(entity, *var, value),
            Err(error) => return Err(error),
        }
    }
    if tokens.len() > vars.len() {
        return Err(LineError::Bad(FaultKind::Value));
    }
    Ok(vals)
}

#[tactic(auto, unfolding(crate::specs::EventReading::submit_of))]
fn submit_of(
    alloc: Global,
    topo: &GroupTopo,
    apps: &[Name],
    line: &[u8],
    tokens: &[Token],
) -> Result<Event, LineError>
    requires few { length apps.now < 2 ^ 32 }
    requires within { All (IsTokenOf line.now) tokens.now }
    ensures { Gives (λ event. event) result (submit_of_lem topo.now apps.now (map (token_in line.now) tokens.now)) }
{
    if tokens.len() < 2 {
        return Err(LineError::Bad(FaultKind::Count));
    }
    let app = app_in(alloc, apps, &line[tokens[0].start..tokens[0].end])?;
    let rows = rows_in(alloc, topo, line, &tokens[1..])?;
    Ok(Event::Submit {
        app,
        rows: Rows::new(rows),
    })
}

#[tactic(auto, unfolding(crate::specs::EventReading::check_of))]
fn check_of(line: &[u8], tokens: &[Token]) -> Result<Event, LineError>
    requires { All (IsTokenOf line.now) tokens.now }
    ensures { Gives (λ event. event) result (check_of_lem (map (token_in line.now) tokens.now)) }
{
    none_of(line, tokens)?;
    Ok(Event::Check)
}

#[tactic(auto, unfolding(crate::specs::EventReading::lock_of))]
fn lock_of(
    alloc: Global,
    topo: &GroupTopo,
    apps: &[Name],
    line: &[u8],
    tokens: &[Token],
) -> Result<Event, LineError>
    requires few { length apps.now < 2 ^ 32 }
    requires within { All (IsTokenOf line.now) tokens.now }
    ensures { Gives (λ event. event) result (lock_of_lem topo.now apps.now (map (token_in line.now) tokens.now)) }
{
    let (app, name, prio) = three_of(line, tokens)?;
    let app = app_in(alloc, apps, app)?;
    let entity = topo.entity_in(alloc, name)?;
    let prio = prio_in(prio)?;
    Ok(Event::Lock { app, entity, prio })
}

#[tactic(auto, unfolding(crate::specs::EventReading::unlock_of))]
fn unlock_of(
    alloc: Global,
    topo: &GroupTopo,
    apps: &[Name],
    line: &[u8],
    tokens: &[Token],
) -> Result<Event, LineError>
    requires few { length apps.now < 2 ^ 32 }
    requires within { All (IsTokenOf line.now) tokens.now }
    ensures { Gives (λ event. event) result (unlock_of_lem topo.now apps.now (map (token_in line.now) tokens.now)) }
{
    let (app, name, prio) = three_of(line, tokens)?;
    let app = app_in(alloc, apps, app)?;
    let entity = topo.entity_in(alloc, name)?;
    let prio = prio_in(prio)?;
    Ok(Event::Unlock { app, entity, prio })
}

#[tactic(auto, unfolding(crate::specs::EventReading::send_of))]
fn send_of(
    alloc: Global,
    topo: &GroupTopo,
    line: &[u8],
    tokens: &[Token],
) -> Result<Event, LineError>
    requires { All (IsTokenOf line.now) tokens.now }
    ensures { Gives (λ event. event) result (send_of_lem topo.now (map (token_in line.now) tokens.now)) }
{
    let name = one_of(line, tokens)?;
    let entity = topo.entity_in(alloc, name)?;
    Ok(Event::Send { entity })
}

#[tactic(auto, unfolding(crate::specs::EventReading::finish_of))]
fn finish_of(
    alloc: Global,
    topo: &GroupTopo,
    line: &[u8],
    tokens: &[Token],
) -> Result<Event, LineError>
    requires { All (IsTokenOf line.now) tokens.now }
    ensures { Gives (λ event. event) result (finish_of_lem topo.now (map (token_in line.now) tokens.now)) }
{
    let name = one_of(line, tokens)?;
    let entity = topo.entity_in(alloc, name)?;
    Ok(Event::Finish { entity })
}

#[tactic(auto, unfolding(crate::specs::EventReading::report_of))]
fn report_of(
    alloc: Global,
    topo: &GroupTopo,
    line: &[u8],
    tokens: &[Token],
) -> Result<Event, LineError>
    requires { All (IsTokenOf line.now) tokens.now }
    ensures { Gives (λ event. event) result (report_of_lem topo.now (map (token_in line.now) tokens.now)) }
{
    let name = one_of(line, tokens)?;
    let entity = topo.entity_in(alloc, name)?;
    Ok(Event::Report { entity })
}

#[tactic(auto, unfolding(crate::specs::EventReading::deliver_of))]
fn deliver_of(line: &[u8], tokens: &[Token]) -> Result<Event, LineError>
    requires { All (IsTokenOf line.now) tokens.now }
    ensures { Gives (λ event. event) result (deliver_of_lem (map (token_in line.now) tokens.now)) }
{
    let command = number_in(one_of(line, tokens)?)?;
    Ok(Event::Deliver { command })
}

#[tactic(auto, unfolding(crate::specs::EventReading::hear_of))]
fn hear_of(line: &[u8], tokens: &[Token]) -> Result<Event, LineError>
    requires { All (IsTokenOf line.now) tokens.now }
    ensures { Gives (λ event. event) result (hear_of_lem (map (token_in line.now) tokens.now)) }
{
    let report = number_in(one_of(line, tokens)?)?;
    Ok(Event::Hear { report })
}

#[tactic(auto, unfolding(crate::specs::EventReading::fail_of))]
fn fail_of(
    alloc: Global,
    topo: &GroupTopo,
    line: &[u8],
    tokens: &[Token],
) -> Result<Event, LineError>
    requires { All (IsTokenOf line.now) tokens.now }
    ensures { Gives (λ event. event) result (fail_of_lem topo.now (map (token_in line.now) tokens.now)) }
{
    if tokens.len() < 3 {
        return Err(LineError::Bad(FaultKind::Count));
    }
    let (name, health) = two_of(line, &tokens[..2])?;
    let entity = topo.entity_in(alloc, name)?;
    let health = number_within(0, most_health(entity), health)?;
    let vals = vals_in(entity, line, &tokens[2..])?;
    Ok(Event::Fail {
        entity,
        vals,
        health,
    })
}

#[tactic(auto, unfolding(crate::specs::EventReading::withdraw_of))]
fn withdraw_of(
    alloc: Global,
    topo: &GroupTopo,
    line: &[u8],
    tokens: &[Token],
) -> Result<Event, LineError>
    requires { All (IsTokenOf line.now) tokens.now }
    ensures { Gives (λ event. event) result (withdraw_of_lem topo.now (map (token_in line.now) tokens.now)) }
{
    let name = one_of(line, tokens)?;
    let entity = topo.entity_in(alloc, name)?;
    Ok(Event::Withdraw { entity })
}

/// What the event of a word says.
pub fn event_of(
    alloc: Global,
    topo: &GroupTopo,
    apps: &[Name],
    word: EventWord,
    line: &[u8],
    tokens: &[Token],
) -> Result<Event, LineError>
    requires few { length apps.now < 2 ^ 32 }
    requires within { All (IsTokenOf line.now) tokens.now }
    ensures { Gives (λ event. event) result (event_of_lem topo.now apps.now word (map (token_in line.now) tokens.now)) }
{
    match word {
        EventWord::Submit => submit_of(alloc, topo, apps, line, tokens),
        EventWord::Check => check_of(line, tokens),
        EventWord::Lock => lock_of(alloc, topo, apps, line, tokens),
        EventWord::Unlock => unlock_of(alloc, topo, apps, line, tokens),
        EventWord::Send => send_of(alloc, topo, line, tokens),
        EventWord::Deliver => deliver_of(line, tokens),
        EventWord::Finish => finish_of(alloc, topo, line, tokens),
        EventWord::Report => report_of(alloc, topo, line, tokens),
        EventWord::Hear => hear_of(line, tokens),
        EventWord::Fail => fail_of(alloc, topo, line, tokens),
        EventWord::Withdraw => withdraw_of(alloc, topo, line, tokens),
    }
}

/// Whether a proposal has at most 16 rows.
pub fn has_few_rows(event: &Event) -> bool
    ensures { result ≡ has_few_rows_lem event.now }
{
    match event {
        Event::Submit { app: _, rows } => rows.as_slice().len() <= MAX_ROWS,
        Event::Check
        | Event::Lock { .. }
        | Event::Unlock { .. }
        | Event::Send { .. }
        | Event::Deliver { .. }
        | Event::Finish { .. }
        | Event::Report { .. }
        | Event::Hear { .. }
        | Event::Fail { .. }
        | Event::Withdraw { .. } => true,
    }
}
