//! The lines of a group's parts: devices, links and promises, each in order.

ghost use Rattle.std.specs.Prelude.{◌≡◌, ◌++◌, ◌∷◌, [], OnOk, map};
ghost use Rattle.st_text.specs.Words.{text_of};
ghost use Rattle.st_doc.specs.Printed.{device_words, link_words, promise_words};

use crate::printing::words::{print_line, tor_word};
use st_net::{DevicePart, LinkPart, PromisePart};
use st_text::{Text, Word};
use std::alloc::AllocError;

/// Adds the line of a device.
fn print_device(device: &DevicePart, out: &mut Text) -> Result<(), AllocError>
    ensures { OnOk result (out.new ≡ out.old ++ text_of (device_words device.now ∷ [])) }
{
    let kind = tor_word(device.tor);
    print_line(
        b"device",
        &[Word::Plain(device.name.bytes()), Word::Plain(kind)],
        out,
    )
}

/// Adds the line of a link.
fn print_link(link: &LinkPart, out: &mut Text) -> Result<(), AllocError>
    ensures { OnOk result (out.new ≡ out.old ++ text_of (link_words link.now ∷ [])) }
{
    print_line(
        b"link",
        &[
            Word::Plain(link.name.bytes()),
            Word::Plain(link.a.name.bytes()),
            Word::Plain(link.b.name.bytes()),
            Word::Number(u64::from(link.capacity)),
        ],
        out,
    )
}

/// Adds the line of a promise.
fn print_promise(promise: &PromisePart, out: &mut Text) -> Result<(), AllocError>
    ensures { OnOk result (out.new ≡ out.old ++ text_of (promise_words promise.now ∷ [])) }
{
    print_line(
        b"promise",
        &[
            Word::Plain(promise.a.bytes()),
            Word::Plain(promise.b.bytes()),
            Word::Number(u64::from(promise.percent)),
        ],
        out,
    )
}

/// Adds a line for each device.
pub fn print_devices(devices: &[DevicePart], out: &mut Text) -> Result<(), AllocError>
    ensures { OnOk result (out.new ≡ out.old ++ text_of (map device_words devices.now)) }
{
    for device in devices {
        print_device(device, out)?;
    }
    Ok(())
}

/// Adds a line for each link, whose ends are printed without a group.
pub fn print_links(links: &[LinkPart], out: &mut Text) -> Result<(), AllocError>
    ensures { OnOk result (out.new ≡ out.old ++ text_of (map link_words links.now)) }
{
    for link in links {
        print_link(link, out)?;
    }
    Ok(())
}

/// Adds a line for each promise.
pub fn print_promises(promises: &[PromisePart], out: &mut Text) -> Result<(), AllocError>
    ensures { OnOk result (out.new ≡ out.old ++ text_of (map promise_words promises.now)) }
{
    for promise in promises {
        print_promise(promise, out)?;
    }
    Ok(())
}
