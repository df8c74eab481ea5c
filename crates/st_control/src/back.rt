//! What a withdrawal sets of one entity: the rows by which the entity's target is what was observed of the entity.

ghost use Rattle.std.specs.Prelude.{◌≡◌, IfOk};
ghost use Rattle.st_net.specs.Entities.{value_of, vars_of as vars_of_lem};
ghost use Rattle.st_event.specs.Replies.{rows_back as rows_back_lem};

use st_net::{Entity, Row, Vals, Var};
use std::alloc::{AllocError, Global};

static DEVICE_VARS: [Var; 4] = [Var::Power, Var::Firmware, Var::Config, Var::Routing];

static LINK_VARS: [Var; 2] = [Var::LinkPower, Var::Iface];

/// The variables of an entity, in order.
fn vars_of(entity: Entity) -> &'static [Var]
    ensures { result.now ≡ vars_of_lem entity }
{
    match entity {
        Entity::Device(_) => &DEVICE_VARS,
        Entity::Link(_) => &LINK_VARS,
    }
}

/// A row with the observed value for each variable of an entity whose observed value is not the target's, in order. Takes no memory where
/// there is no such variable.
pub fn rows_back(
    alloc: Global,
    entity: Entity,
    observed: Vals,
    target: Vals,
) -> Result<Vec<Row>, AllocError>
    ensures { IfOk result (λ rows. rows.items ≡ rows_back_lem entity (value_of entity observed) (value_of entity target) (vars_of_lem entity)) }
{
    let mut rows = Vec::new(alloc);
    for var in vars_of(entity) {
        let value = observed.get(entity, *var);
        if value != target.get(entity, *var) {
            rows.push(Row {
                entity,
                var: *var,
                value,
            })?;
        }
    }
    Ok(rows)
}
