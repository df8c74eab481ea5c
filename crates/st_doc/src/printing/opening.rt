//! The lines of how a group opens: the values and the healths of its devices and links that are not the default.

ghost use Rattle.std.specs.Prelude.{◌≡◌, ◌++◌, ◌∷◌, [], OnOk, flat_map};
ghost use Rattle.st_text.specs.Words.{text_of};
ghost use Rattle.st_doc.specs.Printed.{open_line, device_opens, link_opens, health_line, device_healths, link_healths};

use crate::printing::words::print_line;
use st_net::{DEVICE_HEALTH, DevicePart, LINK_HEALTH, LinkPart, Parts, Var};
use st_text::{Text, Word};
use st_token::var_word;
use std::alloc::AllocError;

/// The value of a variable that no line sets.
const DEFAULT_VALUE: u32 = 1;

/// Adds the line of an opening value that is not the default.
fn print_open(name: &[u8], var: Var, value: u32, out: &mut Text) -> Result<(), AllocError>
    ensures { OnOk result (out.new ≡ out.old ++ text_of (open_line name.now var value)) }
{
    if value == DEFAULT_VALUE {
        return Ok(());
    }
    print_line(
        b"open",
        &[Word::Assignment {
            name,
            var: var_word(var),
            value,
        }],
        out,
    )
}

/// Adds the opening values of a device.
fn print_device_opens(device: &DevicePart, out: &mut Text) -> Result<(), AllocError>
    ensures { OnOk result (out.new ≡ out.old ++ text_of (device_opens device.now)) }
{
    let name = device.name.bytes();
    let vals = device.vals;
    print_open(name, Var::Power, vals.v0, out)?;
    print_open(name, Var::Firmware, vals.v1, out)?;
    print_open(name, Var::Config, vals.v2, out)?;
    print_open(name, Var::Routing, vals.v3, out)
}

/// Adds the opening values of a link.
fn print_link_opens(link: &LinkPart, out: &mut Text) -> Result<(), AllocError>
    ensures { OnOk result (out.new ≡ out.old ++ text_of (link_opens link.now)) }
{
    let name = link.name.bytes();
    let vals = link.vals;
    print_open(name, Var::LinkPower, vals.v0, out)?;
    print_open(name, Var::Iface, vals.v1, out)
}

/// Adds the line of a health that is not the greatest.
fn print_health(name: &[u8], greatest: u32, health: u32, out: &mut Text) -> Result<(), AllocError>
    ensures { OnOk result (out.new ≡ out.old ++ text_of (health_line name.now greatest health)) }
{
    if health == greatest {
        return Ok(());
    }
    print_line(
        b"health",
        &[Word::Plain(name), Word::Number(u64::from(health))],
        out,
    )
}

/// Adds the opening values of devices.
fn print_devices_opens(devices: &[DevicePart], out: &mut Text) -> Result<(), AllocError>
    ensures { OnOk result (out.new ≡ out.old ++ text_of (flat_map device_opens devices.now)) }
{
    for device in devices {
        print_device_opens(device, out)?;
    }
    Ok(())
}

/// Adds the opening values of links.
fn print_links_opens(links: &[LinkPart], out: &mut Text) -> Result<(), AllocError>
    ensures { OnOk result (out.new ≡ out.old ++ text_of (flat_map link_opens links.now)) }
{
    for link in links {
        print_link_opens(link, out)?;
    }
    Ok(())
}

/// Adds the healths of devices.
fn print_devices_healths(devices: &[DevicePart], out: &mut Text) -> Result<(), AllocError>
    ensures { OnOk result (out.new ≡ out.old ++ text_of (flat_map device_healths devices.now)) }
{
    for device in devices {
        print_health(device.name.bytes(), DEVICE_HEALTH, device.health, out)?;
    }
    Ok(())
}

/// Adds the healths of links.
fn print_links_healths(links: &[LinkPart], out: &mut Text) -> Result<(), AllocError>
    ensures { OnOk result (out.new ≡ out.old ++ text_of (flat_map link_healths links.now)) }
{
    for link in links {
        print_health(link.name.bytes(), LINK_HEALTH, link.health, out)?;
    }
    Ok(())
}

/// Adds a line for each opening value of a group that is not the default, in the order of entities and of their variables.
pub fn print_opens(group: &Parts, out: &mut Text) -> Result<(), AllocError>
    ensures { OnOk result (out.new ≡ out.old ++ text_of (flat_map device_opens group.now.devices ++ flat_map link_opens group.now.links)) }
{
    print_devices_opens(group.devices.as_slice(), out)?;
    print_links_opens(group.links.as_slice(), out)
}

/// Adds a line for each health of a group that is not the greatest, in the order of entities.
pub fn print_healths(group: &Parts, out: &mut Text) -> Result<(), AllocError>
    ensures { OnOk result (out.new ≡ out.old ++ text_of (flat_map device_healths group.now.devices ++ flat_map link_healths group.now.links)) }
{
    print_devices_healths(group.devices.as_slice(), out)?;
    print_links_healths(group.links.as_slice(), out)
}
