//! The fields of a state as members of an object: all of them where a page begins, and those that differ from before at each entry.

ghost use Rattle.std.specs.Prelude.{◌≡◌, IfOk, OnOk, true};
ghost use Rattle.serde_json.specs.View.{view, members_view};
ghost use Rattle.st_entry.specs.Plain.{is_plain};
ghost use Rattle.st_player.specs.Json.{put_where};
ghost use Rattle.st_player.specs.Fields.{all_fields, fields_between, has_field, is_same_flag as is_same_flag_lem, is_same_health as is_same_health_lem, is_same_holder as is_same_holder_lem, is_same_open as is_same_open_lem, vals_data, holder_data, put_open as put_open_lem, with_standing, with_values, with_numbers, with_holders, with_known, with_fields, state_data, change_data};

use crate::safe_json::{Json, JsonObject};
use crate::state::State;
use st_net::{AppId, Vals};
use std::alloc::{AllocError, Global};

/// Which fields of a state are put.
#[derive(Clone, Copy)]
pub(crate) struct Fields {
    carriage: bool,
    knowledge: bool,
    untold: bool,
    target: bool,
    seen: bool,
    real: bool,
    level: bool,
    works: bool,
    stamp: bool,
    fence: bool,
    told: bool,
    health: bool,
    low: bool,
    high: bool,
    is_open: bool,
}

/// Whether two answers are one.
pub(crate) fn is_same_flag(a: bool, b: bool) -> bool
    ensures { result ≡ is_same_flag_lem a b }
{
    if a { b } else { !b }
}

/// Whether two locks have one holder, or none.
fn is_same_holder(a: Option<AppId>, b: Option<AppId>) -> bool
    ensures { result ≡ is_same_holder_lem a b }
{
    match (a, b) {
        (None, None) => true,
        (Some(a), Some(b)) => a.0 == b.0,
        _ => false,
    }
}

/// Whether two reports tell one health, or both tell none.
fn is_same_health(a: Option<u32>, b: Option<u32>) -> bool
    ensures { result ≡ is_same_health_lem a b }
{
    match (a, b) {
        (None, None) => true,
        (Some(a), Some(b)) => a == b,
        _ => false,
    }
}

/// Whether two links are both open or both not, or two entities are no links.
fn is_same_open(a: Option<bool>, b: Option<bool>) -> bool
    ensures { result ≡ is_same_open_lem a b }
{
    match (a, b) {
        (None, None) => true,
        (Some(a), Some(b)) => is_same_flag(a, b),
        _ => false,
    }
}

impl Fields {
    /// Every field.
    fn all() -> Fields
        ensures { result ≡ all_fields }
    {
        Fields {
            carriage: true,
            knowledge: true,
            untold: true,
            target: true,
            seen: true,
            real: true,
            level: true,
            works: true,
            stamp: true,
            fence: true,
            told: true,
            health: true,
            low: true,
            high: true,
            is_open: true,
        }
    }

    /// The fields in which two states differ.
    pub(crate) fn between(old: &State, new: &State) -> Fields
        ensures { result ≡ fields_between old.now new.now }
    {
        Fields {
            carriage: !old.carriage.is_same(new.carriage),
            knowledge: !old.knowledge.is_same(new.knowledge),
            untold: !is_same_flag(old.untold, new.untold),
            target: !old.target.is_same(new.target),
            seen: !old.seen.is_same(new.seen),
            real: !old.real.is_same(new.real),
            level: old.level != new.level,
            works: old.works != new.works,
            stamp: old.stamp != new.stamp,
            fence: old.fence != new.fence,
            told: old.told != new.told,
            health: !is_same_health(old.health, new.health),
            low: !is_same_holder(old.low, new.low),
            high: !is_same_holder(old.high, new.high),
            is_open: !is_same_open(old.is_open, new.is_open),
        }
    }

    /// Whether there is one.
    pub(crate) fn any(self) -> bool
        ensures { result ≡ has_field self }
    {
        self.carriage
            || self.knowledge
            || self.untold
            || self.target
            || self.seen
            || self.real
            || self.level
            || self.works
            || self.stamp
            || self.fence
            || self.told
            || self.health
            || self.low
            || self.high
            || self.is_open
    }
}

/// Puts an entity's values, where the test says so: two of a link, four of a device.
fn put_vals(
    object: &mut JsonObject,
    is: bool,
    key: &str,
    is_open: Option<bool>,
    vals: Vals,
) -> Result<(), AllocError>
    requires { is_plain key.now ≡ true }
    ensures { OnOk result (members_view object.new ≡ put_where is key.now (vals_data is_open vals) (members_view object.old)) }
{
    match is_open {
        None => object.put_array_where(is, key, &[vals.v0, vals.v1, vals.v2, vals.v3]),
        Some(_) => object.put_array_where(is, key, &[vals.v0, vals.v1]),
    }
}

/// The number of a lock's holder, or null.
fn holder_json(holder: Option<AppId>) -> Json
    ensures { view result ≡ holder_data holder }
{
    match holder {
        Some(app) => Json::number_or_null(Some(app.0)),
        None => Json::number_or_null(None),
    }
}

/// Puts whether a link is open, where the test says so.
fn put_open(object: &mut JsonObject, is: bool, is_open: Option<bool>) -> Result<(), AllocError>
    ensures { OnOk result (members_view object.new ≡ put_open_lem is is_open (members_view object.old)) }
{
    match is_open {
        Some(open) => object.put_where(is, "open", Json::flag(open)),
        None => Ok(()),
    }
}

/// Puts how an entity is and how it is known.
fn put_standing(object: &mut JsonObject, fields: Fields, state: &State) -> Result<(), AllocError>
    ensures { OnOk result (members_view object.new ≡ with_standing fields state.now (members_view object.old)) }
{
    object.put_text_where(fields.carriage, "is", state.carriage.word())?;
    object.put_text_where(fields.knowledge, "known", state.knowledge.word())?;
    object.put_where(fields.untold, "untold", Json::flag(state.untold))?;
    put_open(object, fields.is_open, state.is_open)
}

/// Puts its values.
fn put_values(object: &mut JsonObject, fields: Fields, state: &State) -> Result<(), AllocError>
    ensures { OnOk result (members_view object.new ≡ with_values fields state.now (members_view object.old)) }
{
    put_vals(object, fields.target, "target", state.is_open, state.target)?;
    put_vals(object, fields.seen, "seen", state.is_open, state.seen)?;
    put_vals(object, fields.real, "real", state.is_open, state.real)
}

/// Puts its levels, its stamp and its fence.
fn put_numbers(object: &mut JsonObject, fields: Fields, state: &State) -> Result<(), AllocError>
    ensures { OnOk result (members_view object.new ≡ with_numbers fields state.now (members_view object.old)) }
{
    object.put_where(fields.level, "level", Json::number(u64::from(state.level)))?;
    object.put_where(fields.works, "works", Json::number(u64::from(state.works)))?;
    object.put_where(fields.stamp, "stamp", Json::number(u64::from(state.stamp)))?;
    object.put_where(fields.fence, "fence", Json::number(u64::from(state.fence)))
}

/// Puts the holders of its locks.
fn put_holders(object: &mut JsonObject, fields: Fields, state: &State) -> Result<(), AllocError>
    ensures { OnOk result (members_view object.new ≡ with_holders fields state.now (members_view object.old)) }
{
    object.put_where(fields.low, "low", holder_json(state.low))?;
    object.put_where(fields.high, "high", holder_json(state.high))
}

/// Puts since which entry it is known so, and with which health.
fn put_known(object: &mut JsonObject, fields: Fields, state: &State) -> Result<(), AllocError>
    ensures { OnOk result (members_view object.new ≡ with_known fields state.now (members_view object.old)) }
{
    object.put_where(fields.told, "told", Json::number(u64::from(state.told)))?;
    object.put_where(fields.health, "health", Json::number_or_null(state.health))
}

/// Puts these fields of a state.
fn put_fields(object: &mut JsonObject, fields: Fields, state: &State) -> Result<(), AllocError>
    ensures { OnOk result (members_view object.new ≡ with_fields fields state.now (members_view object.old)) }
{
    put_standing(object, fields, state)?;
    put_values(object, fields, state)?;
    put_numbers(object, fields, state)?;
    put_holders(object, fields, state)?;
    put_known(object, fields, state)
}

/// A whole state.
pub(crate) fn state_json(alloc: Global, state: &State) -> Result<Json, AllocError>
    ensures { IfOk result (λ json. view json ≡ state_data state.now) }
{
    let mut object = JsonObject::new(alloc);
    put_fields(&mut object, Fields::all(), state)?;
    Ok(Json::object(object))
}

/// What became of the entity of this number.
pub(crate) fn change_json(
    alloc: Global,
    number: u32,
    old: &State,
    new: &State,
) -> Result<Json, AllocError>
    ensures { IfOk result (λ json. view json ≡ change_data number old.now new.now) }
{
    let mut object = JsonObject::new(alloc);
    object.put_number("entity", u64::from(number))?;
    put_fields(&mut object, Fields::between(old, new), new)?;
    Ok(Json::object(object))
}
