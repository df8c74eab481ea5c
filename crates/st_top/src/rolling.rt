//! The plan of an upgrade, group by group, as a text of lines: the batches of devices that would be accepted together, what each left and
//! why, and the devices that are in none. What a document's scripts came to is planned for; nothing is proposed.

ghost use Rattle.std.specs.Prelude.{◌≡◌, ◌++◌, ◌∷◌, [], ◌<◌, ◌^◌, IfOk, OnOk, All, flat_map, length, map};
ghost use Rattle.std.specs.List.{range_with_len};
ghost use Rattle.st_text.specs.Words.{spaced, text_of};
ghost use Rattle.st_entry.specs.Words.{device_words};
ghost use Rattle.st_report.specs.Lines.{histories};
ghost use Rattle.st_top.specs.Rolling.{batch_lines, batches_lines, left_words, plan_lines, roll_lines, roll_text_of, same_words, stuck_words, why_words};

use st_entry::{entity_name, print_cause};
use st_net::{AppId, Entity, GroupTopo, Name};
use st_roll::{Batch, Left, Roll, Stuck, Why, plan_roll};
use st_text::{Text, Word, begin_line, print_line, print_word, print_words};
use st_world::World;
use std::alloc::{AllocError, Global};

/// Adds the names of devices, each behind a space.
fn print_devices(topo: &GroupTopo, devices: &[u32], out: &mut Text) -> Result<(), AllocError>
    ensures { OnOk result (out.new ≡ out.old ++ spaced (device_words topo.now devices.now)) }
{
    for device in devices {
        let name = entity_name(topo, Entity::Device(*device));
        print_word(Word::Plain(name), out)?;
    }
    Ok(())
}

/// Adds why a device stayed behind a batch.
fn print_why(topo: &GroupTopo, apps: &[Name], why: &Why, out: &mut Text) -> Result<(), AllocError>
    ensures { OnOk result (out.new ≡ out.old ++ spaced (why_words topo.now apps.now why.now)) }
{
    match why {
        Why::Cause(cause) => print_cause(topo, apps, cause, out),
        Why::Full => print_words(&[Word::Plain(b"full")], out),
    }
}

/// Adds the line of a device that stayed behind the batch of this number.
fn print_left(
    topo: &GroupTopo,
    apps: &[Name],
    number: u64,
    left: &Left,
    out: &mut Text,
) -> Result<(), AllocError>
    ensures { OnOk result (out.new ≡ out.old ++ text_of (left_words topo.now apps.now number left.now ∷ [])) }
{
    let name = entity_name(topo, Entity::Device(left.device));
    begin_line(b"left", &[Word::Number(number), Word::Plain(name)], out)?;
    print_why(topo, apps, &left.why, out)?;
    out.word(b"\n")
}

/// Adds a line for each device that stayed behind it.
fn print_all_left(
    topo: &GroupTopo,
    apps: &[Name],
    number: u64,
    left: &[Left],
    out: &mut Text,
) -> Result<(), AllocError>
    ensures { OnOk result (out.new ≡ out.old ++ text_of (map (left_words topo.now apps.now number) left.now)) }
{
    for one in left {
        print_left(topo, apps, number, one, out)?;
    }
    Ok(())
}

/// Adds the lines of the batch of this number.
fn print_batch(
    topo: &GroupTopo,
    apps: &[Name],
    number: u64,
    batch: &Batch,
    out: &mut Text,
) -> Result<(), AllocError>
    ensures { OnOk result (out.new ≡ out.old ++ text_of (batch_lines topo.now apps.now number batch.now)) }
{
    begin_line(b"batch", &[Word::Number(number)], out)?;
    print_devices(topo, batch.devices.as_slice(), out)?;
    out.word(b"\n")?;
    print_all_left(topo, apps, number, batch.left.as_slice(), out)
}

/// Adds the lines of each batch. The first has number 1.
fn print_batches(
    topo: &GroupTopo,
    apps: &[Name],
    batches: &[Batch],
    out: &mut Text,
) -> Result<(), AllocError>
    ensures { OnOk result (out.new ≡ out.old ++ text_of (batches_lines topo.now apps.now 1 batches.now)) }
{
    for (i, batch) in batches.iter().enumerate() {
        print_batch(topo, apps, i as u64 + 1, batch, out)?;
    }
    Ok(())
}

/// Adds the line of a device that no batch can take.
fn print_stuck(
    topo: &GroupTopo,
    apps: &[Name],
    stuck: &Stuck,
    out: &mut Text,
) -> Result<(), AllocError>
    ensures { OnOk result (out.new ≡ out.old ++ text_of (stuck_words topo.now apps.now stuck.now ∷ [])) }
{
    let name = entity_name(topo, Entity::Device(stuck.device));
    begin_line(b"stuck", &[Word::Plain(name)], out)?;
    print_cause(topo, apps, &stuck.cause, out)?;
    out.word(b"\n")
}

/// Adds a line for each of them.
fn print_all_stuck(
    topo: &GroupTopo,
    apps: &[Name],
    stuck: &[Stuck],
    out: &mut Text,
) -> Result<(), AllocError>
    ensures { OnOk result (out.new ≡ out.old ++ text_of (map (stuck_words topo.now apps.now) stuck.now)) }
{
    for one in stuck {
        print_stuck(topo, apps, one, out)?;
    }
    Ok(())
}

/// Adds the line of a device whose target has the firmware.
fn print_same(topo: &GroupTopo, device: u32, out: &mut Text) -> Result<(), AllocError>
    ensures { OnOk result (out.new ≡ out.old ++ text_of (same_words topo.now device ∷ [])) }
{
    let name = entity_name(topo, Entity::Device(device));
    print_line(b"same", &[Word::Plain(name)], out)
}

/// Adds a line for each of them.
fn print_all_same(topo: &GroupTopo, same: &[u32], out: &mut Text) -> Result<(), AllocError>
    ensures { OnOk result (out.new ≡ out.old ++ text_of (map (same_words topo.now) same.now)) }
{
    for device in same {
        print_same(topo, *device, out)?;
    }
    Ok(())
}

/// Adds the lines of a plan for a group.
fn print_plan(
    topo: &GroupTopo,
    apps: &[Name],
    roll: &Roll,
    out: &mut Text,
) -> Result<(), AllocError>
    ensures { OnOk result (out.new ≡ out.old ++ text_of (plan_lines topo.now apps.now roll.now)) }
{
    print_line(b"group", &[Word::Plain(topo.name().bytes())], out)?;
    print_batches(topo, apps, roll.batches.as_slice(), out)?;
    print_all_stuck(topo, apps, roll.stuck.as_slice(), out)?;
    print_all_same(topo, roll.same.as_slice(), out)
}

/// The numbers of all devices of a group, in order.
fn all_devices(alloc: Global, topo: &GroupTopo) -> Result<Vec<u32>, AllocError>
    ensures { IfOk result (λ devices. devices.items ≡ range_with_len 0 (length topo.now.devices)) }
{
    let mut devices = Vec::new(alloc);
    for device in 0..topo.device_count() {
        devices.push(device)?;
    }
    Ok(devices)
}

/// Adds the lines of the plan for all devices of a world's group as it stands, for an application behind those that there are.
fn print_roll(
    alloc: Global,
    world: &World,
    apps: &[Name],
    firmware: u32,
    out: &mut Text,
) -> Result<(), AllocError>
    requires { length apps.now < 2 ^ 32 }
    ensures { OnOk result (out.new ≡ out.old ++ text_of (roll_lines apps.now firmware world.now.history)) }
{
    let control = world.control();
    let devices = all_devices(alloc, control.topo())?;
    let app = AppId(apps.len() as u32);
    let roll = plan_roll(alloc, control, app, devices.as_slice(), firmware)?;
    print_plan(control.topo(), apps, &roll, out)
}

/// Adds the lines of the plan for each world, in order.
fn print_rolls(
    alloc: Global,
    worlds: &[World],
    apps: &[Name],
    firmware: u32,
    out: &mut Text,
) -> Result<(), AllocError>
    requires { length apps.now < 2 ^ 32 }
    ensures { OnOk result (out.new ≡ out.old ++ text_of (flat_map (roll_lines apps.now firmware) (histories worlds.now))) }
{
    for world in worlds {
        print_roll(alloc, world, apps, firmware, out)?;
    }
    Ok(())
}

/// The plans of the upgrade of all devices of worlds to a firmware: `statesman roll 1`, the lines of each group in order, and `end`. `apps`
/// has the applications' names in order; the plan is for an application that is none of them, so that each lock bars it.
pub fn roll_text(
    alloc: Global,
    worlds: &[World],
    apps: &[Name],
    firmware: u32,
) -> Result<Text, AllocError>
    requires { length apps.now < 2 ^ 32 }
    ensures { IfOk result (λ text. text ≡ roll_text_of (histories worlds.now) apps.now firmware) }
{
    let mut out = Text::new(alloc);
    print_line(
        b"statesman",
        &[Word::Plain(b"roll"), Word::Plain(b"1")],
        &mut out,
    )?;
    print_rolls(alloc, worlds, apps, firmware, &mut out)?;
    print_line(b"end", &[], &mut out)?;
    Ok(out)
}
