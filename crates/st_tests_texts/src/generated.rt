//! The generated document as text, against a text that was written from the rules.

ghost use Rattle.std.specs.Prelude.{◌<◌, length};
ghost use Rattle.st_gen.specs.Generated.{IsPods};

use crate::outcome::holds;
use st_doc::{DocRead, print_doc, read_doc};
use st_gen::generate;
use st_text::Text;
use std::alloc::{AllocError, Global};
use std::test::Fail;

/// Four pods and the seed 7: the firmware is 9, and the last proposal names pod 3.
const FOUR_PODS: &[u8] = b"\
statesman 1
group dc1
device p0e0 tor
device p0e1 tor
device p0a0 switch
device p0a1 switch
device p1e0 tor
device p1e1 tor
device p1a0 switch
device p1a1 switch
device p2e0 tor
device p2e1 tor
device p2a0 switch
device p2a1 switch
device p3e0 tor
device p3e1 tor
device p3a0 switch
device p3a1 switch
device c0 switch
device c1 switch
device c2 switch
device c3 switch
link p0e0a0 p0e0 p0a0 10
link p0e0a1 p0e0 p0a1 10
link p0e1a0 p0e1 p0a0 10
link p0e1a1 p0e1 p0a1 10
link p0a0c0 p0a0 c0 10
link p0a0c1 p0a0 c1 10
link p0a1c2 p0a1 c2 10
link p0a1c3 p0a1 c3 10
link p1e0a0 p1e0 p1a0 10
link p1e0a1 p1e0 p1a1 10
link p1e1a0 p1e1 p1a0 10
link p1e1a1 p1e1 p1a1 10
link p1a0c0 p1a0 c0 10
link p1a0c1 p1a0 c1 10
link p1a1c2 p1a1 c2 10
link p1a1c3 p1a1 c3 10
link p2e0a0 p2e0 p2a0 10
link p2e0a1 p2e0 p2a1 10
link p2e1a0 p2e1 p2a0 10
link p2e1a1 p2e1 p2a1 10
link p2a0c0 p2a0 c0 10
link p2a0c1 p2a0 c1 10
link p2a1c2 p2a1 c2 10
link p2a1c3 p2a1 c3 10
link p3e0a0 p3e0 p3a0 10
link p3e0a1 p3e0 p3a1 10
link p3e1a0 p3e1 p3a0 10
link p3e1a1 p3e1 p3a1 10
link p3a0c0 p3a0 c0 10
link p3a0c1 p3a0 c1 10
link p3a1c2 p3a1 c2 10
link p3a1c3 p3a1 c3 10
promise p0e0 p0e1 50
promise p0e0 p1e0 50
promise p0e0 p1e1 50
promise p0e0 p2e0 50
promise p0e0 p2e1 50
promise p0e0 p3e0 50
promise p0e0 p3e1 50
promise p0e1 p1e0 50
promise p0e1 p1e1 50
promise p0e1 p2e0 50
promise p0e1 p2e1 50
promise p0e1 p3e0 50
promise p0e1 p3e1 50
promise p1e0 p1e1 50
promise p1e0 p2e0 50
promise p1e0 p2e1 50
promise p1e0 p3e0 50
promise p1e0 p3e1 50
promise p1e1 p2e0 50
promise p1e1 p2e1 50
promise p1e1 p3e0 50
promise p1e1 p3e1 50
promise p2e0 p2e1 50
promise p2e0 p3e0 50
promise p2e0 p3e1 50
promise p2e1 p3e0 50
promise p2e1 p3e1 50
promise p3e0 p3e1 50
app up
propose dc1 p0a0.firmware=9 p1a0.firmware=9 p2a0.firmware=9 p3a0.firmware=9
await dc1
settle dc1 2
propose dc1 p0a1.firmware=9 p1a1.firmware=9 p2a1.firmware=9 p3a1.firmware=9
await dc1
settle dc1 2
propose dc1 p3a0.firmware=10 p3a1.firmware=10
await dc1
app te
lock dc1 c0 high
read dc1 p0a0.firmware
unlock dc1 c0 high
";

/// What is printed of the document of these numbers.
fn printed(alloc: Global, pods: u32, seed: u32) -> Result<Text, AllocError>
    requires { IsPods pods }
{
    let doc = generate(alloc, pods, seed)?;
    let mut text = Text::new(alloc);
    let printed = print_doc(&doc, &mut text);
    drop(doc);
    printed?;
    Ok(text)
}

/// What is printed of the document that these bytes declare; nothing where they declare none.
fn printed_again(alloc: Global, bytes: &[u8]) -> Result<Text, AllocError>
    requires { length bytes.now < 4294967295 }
{
    match read_doc(alloc, bytes, false)? {
        DocRead::Doc(doc) => {
            let mut text = Text::new(alloc);
            let printed = print_doc(&doc, &mut text);
            drop(doc);
            printed?;
            Ok(text)
        }
        DocRead::Fault(_) => Ok(Text::new(alloc)),
    }
}

/// Whether a text is that of four pods.
fn is_four_pods(text: Result<Text, AllocError>) -> Result<bool, AllocError> {
    let text = text?;
    let is = text.bytes() == FOUR_PODS;
    drop(text);
    Ok(is)
}

#[test]
fn four_pods_are_printed_as_written(rt: HostRuntime) -> Result<(), Fail> {
    holds(is_four_pods(printed(rt.alloc(), 4, 7)))
}

#[test]
fn four_pods_are_read_back(rt: HostRuntime) -> Result<(), Fail> {
    holds(is_four_pods(printed_again(rt.alloc(), FOUR_PODS)))
}

/// How many groups the generated document of ten pods has, and how many devices, links and promises the first.
fn counts(alloc: Global) -> Result<[usize; 4], AllocError> {
    let doc = generate(alloc, 10, 0)?;
    let groups = doc.groups.as_slice();
    let counts = match groups.first() {
        Some(parts) => [
            groups.len(),
            parts.devices.as_slice().len(),
            parts.links.as_slice().len(),
            parts.promises.as_slice().len(),
        ],
        None => [0, 0, 0, 0],
    };
    drop(doc);
    Ok(counts)
}

#[test]
fn ten_pods_have_as_many_parts_as_a_fat_tree(rt: HostRuntime) -> Result<(), Fail> {
    assert_eq!(&rt; counts(rt.alloc())?, [1, 125, 500, 1225]);
    Ok(())
}
