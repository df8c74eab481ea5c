//! How a group stands: the variables that its target changes, and the entities that are not settled.

ghost use Rattle.std.specs.Prelude.{◌≡◌, ◌++◌, ◌∷◌, [], ◌==◌, if◌then◌else◌, not, IfOk, OnOk, flat_map, map};
ghost use Rattle.st_text.specs.Words.{spaced};
ghost use Rattle.st_net.specs.Entities.{vars_of as vars_of_lem};
ghost use Rattle.st_net.specs.Groups.{IsEntityOf, name_of};
ghost use Rattle.st_net.specs.InOrder.{entities_of};
ghost use Rattle.st_overlay.specs.Values.{IsIn, IsTableOf, value_in};
ghost use Rattle.st_entry.specs.Words.{assignment};
ghost use Rattle.st_report.specs.Lines.{changed_words};

use crate::lines::Lines;
use st_entry::entity_name;
use st_net::{Entity, GroupTopo, Var};
use st_overlay::Table;
use st_text::{Text, Word, print_word};
use st_token::var_word;
use std::alloc::{AllocError, Global};

static DEVICE_VARS: [Var; 4] = [Var::Power, Var::Firmware, Var::Config, Var::Routing];

static LINK_VARS: [Var; 2] = [Var::LinkPower, Var::Iface];

/// The variables of an entity, in order.
fn vars_of(entity: Entity) -> &'static [Var]
    ensures { result.now ≡ vars_of_lem entity }
{
    match entity {
        Entity::Device(_) => &DEVICE_VARS,
        Entity::Link(_) => &LINK_VARS,
    }
}

/// Adds a variable with its target, where that is not its opening value.
fn add_change(
    alloc: Global,
    topo: &GroupTopo,
    entity: Entity,
    var: Var,
    opening: u32,
    target: u32,
    lines: &mut Lines,
) -> Result<(), AllocError>
    ensures { OnOk result (lines.new ≡ lines.old ++ (if not (target == opening) then spaced (assignment topo.now (record { entity = entity; var = var; value = target }) ∷ []) ∷ [] else [])) }
{
    if target == opening {
        return Ok(());
    }
    topo.is_sound();
    let mut text = Text::new(alloc);
    let name = entity_name(topo, entity);
    print_word(
        Word::Assignment {
            name,
            var: var_word(var),
            value: target,
        },
        &mut text,
    )?;
    lines.add(text)
}

/// Adds each variable of an entity whose target is not its opening value.
fn add_changes(
    alloc: Global,
    topo: &GroupTopo,
    target: &Table,
    entity: Entity,
    lines: &mut Lines,
) -> Result<(), AllocError>
    requires entity { IsEntityOf topo.now entity }
    requires target { IsIn target.now entity }
    ensures { OnOk result (lines.new ≡ lines.old ++ map spaced (changed_words topo.now (value_in target.now) entity)) }
{
    let opening = topo.opening(entity);
    let vals = target.get(entity);
    for var in vars_of(entity) {
        add_change(
            alloc,
            topo,
            entity,
            *var,
            opening.get(entity, *var),
            vals.get(entity, *var),
            lines,
        )?;
    }
    Ok(())
}

/// Each variable whose target is not its opening value, in order of entities and variables.
pub(crate) fn target_lines(
    alloc: Global,
    topo: &GroupTopo,
    target: &Table,
) -> Result<Lines, AllocError>
    requires { IsTableOf topo.now target.now }
    ensures { IfOk result (λ lines. lines ≡ map spaced (flat_map (changed_words topo.now (value_in target.now)) (entities_of topo.now))) }
{
    let mut lines = Lines::new(alloc);
    for place in 0..topo.entity_count() {
        let entity = topo.entity_at(place);
        add_changes(alloc, topo, target, entity, &mut lines)?;
    }
    Ok(lines)
}

/// Adds the name of an entity.
fn add_name(
    alloc: Global,
    topo: &GroupTopo,
    entity: Entity,
    lines: &mut Lines,
) -> Result<(), AllocError>
    ensures { OnOk result (lines.new ≡ lines.old ++ spaced (name_of topo.now entity ∷ []) ∷ []) }
{
    topo.is_sound();
    let mut text = Text::new(alloc);
    let name = entity_name(topo, entity);
    print_word(Word::Plain(name), &mut text)?;
    lines.add(text)
}

/// The names of entities, in order.
pub(crate) fn name_lines(
    alloc: Global,
    topo: &GroupTopo,
    entities: &[Entity],
) -> Result<Lines, AllocError>
    ensures { IfOk result (λ lines. lines ≡ map spaced (map (λ e. name_of topo.now e ∷ []) entities.now)) }
{
    let mut lines = Lines::new(alloc);
    for entity in entities {
        add_name(alloc, topo, *entity, &mut lines)?;
    }
    Ok(lines)
}
