//! What is printed, byte by byte.

ghost use Rattle.std.specs.Prelude.{◌<◌, length};

use crate::outcome::holds;
use st_doc::{DocRead, print_doc, read_doc};
use st_text::Text;
use std::alloc::{AllocError, Global};
use std::test::Fail;

/// Every kind of line in the order in which a document is printed.
static PRINTED: &[u8] = b"\
statesman 1
group dc1
device t1 tor
device t2 tor
device s1 switch
link l1 t1 s1 10
link l2 s1 t2 1000000
promise t1 t2 100
open t1.power=0
open t2.firmware=4294967295
open s1.config=0
open s1.routing=0
open l1.power=0
open l2.iface=7
health t1 0
health s1 4
health l2 0
group dc2
device t1 tor
drop dc1 command 1
repeat dc1 report 2 2
hold dc2 command 3 4
app up
propose dc1 t1.firmware=2 l1.iface=3
await dc1
settle dc1 64
lock dc1 t1 low
unlock dc1 l1 high
app down
read dc2 t1.routing
readat dc1 0 l2.power
fail dc1 s1 5
fail dc1 l1 0 power=0 iface=9
poll dc2 t1
order down
order up
order down
";

/// The same with what is not printed: comments, further blanks, ends with their group, lines that state a default, an order
/// of several names on a line, and lines of one kind between those of others.
static WRITTEN: &[u8] = b"\
# two groups
statesman\t1
group dc1
device t1 tor
device t2  tor
open t2.firmware=4294967295
open t1.firmware=1
health t2 5
device s1 switch
health s1 4
link l1 dc1/t1 s1 10
link l2 s1 dc1/t2 1000000
open l2.iface=7
open s1.routing=0
open s1.config=0
promise t1 t2 100

health l2 0
open l1.power=0
open t1.power=0
health t1 0
group dc2
device t1 tor
hold dc2 command 3 4
drop dc1 command 1
repeat dc1 report 2 2
app up
propose dc1 t1.firmware=2 l1.iface=3
await dc1
settle dc1 64
lock dc1 t1 low
unlock dc1 l1 high
app down
read dc2 t1.routing
readat dc1 0 l2.power
fail dc1 s1 5
fail dc1 l1 0 power=0 iface=9
poll dc2 t1
order down up
order down";

/// A document of two ToRs that two switches join, and one application.
const JOINED: &[u8] = b"\
statesman 1
group dc1
device t1 tor
device t2 tor
device a1 switch
device a2 switch
link l1 t1 a1 10
link l2 t1 a2 10
link l3 t2 a1 10
link l4 t2 a2 10
promise t1 t2 50
app up
propose dc1 a1.firmware=2
";

/// The same with CR before each LF; with tabs between tokens and about them; with comments and lines without tokens; without
/// LF behind the last line; and with the group's own name at ends.
const SPELLINGS: [&[u8]; 5] = [
    b"statesman 1\r
group dc1\r
device t1 tor\r
device t2 tor\r
device a1 switch\r
device a2 switch\r
link l1 t1 a1 10\r
link l2 t1 a2 10\r
link l3 t2 a1 10\r
link l4 t2 a2 10\r
promise t1 t2 50\r
app up\r
propose dc1 a1.firmware=2\r
",
    b"\tstatesman\t1
group\tdc1
device\tt1\ttor\t
device\tt2 \t tor
\t\tdevice\ta1\tswitch
device\ta2\tswitch
link\tl1\tt1\ta1\t10
link\tl2\tt1\ta2\t10
link\tl3\tt2\ta1\t10
link\tl4\tt2\ta2\t10
promise\tt1\tt2\t50
app\tup
propose\tdc1\ta1.firmware=2
",
    b"# two paths

#
statesman 1
group dc1
  # ToRs
device t1 tor
device t2 tor
 \t 
device a1 switch
device a2 switch
#link l1 t1 a1 5
link l1 t1 a1 10
link l2 t1 a2 10
\r
link l3 t2 a1 10
link l4 t2 a2 10
promise t1 t2 50
app up
# order up
propose dc1 a1.firmware=2

# end
",
    b"statesman 1
group dc1
device t1 tor
device t2 tor
device a1 switch
device a2 switch
link l1 t1 a1 10
link l2 t1 a2 10
link l3 t2 a1 10
link l4 t2 a2 10
promise t1 t2 50
app up
propose dc1 a1.firmware=2",
    b"statesman 1
group dc1
device t1 tor
device t2 tor
device a1 switch
device a2 switch
link l1 dc1/t1 dc1/a1 10
link l2 t1 dc1/a2 10
link l3 dc1/t2 a1 10
link l4 dc1/t2 dc1/a2 10
promise t1 t2 50
app up
propose dc1 a1.firmware=2
",
];

/// What is printed of the document that these bytes declare; nothing where they declare none.
fn printed(alloc: Global, bytes: &[u8]) -> Result<Text, AllocError>
    requires { length bytes.now < 4294967295 }
{
    match read_doc(alloc, bytes, false)? {
        DocRead::Doc(doc) => {
            let mut text = Text::new(alloc);
            let printed = print_doc(&doc, &mut text);
            drop(doc);
            printed?;
            Ok(text)
        }
        DocRead::Fault(_) => Ok(Text::new(alloc)),
    }
}

/// Whether the document that these bytes declare is printed so.
fn is_printed(alloc: Global, bytes: &[u8], want: &[u8]) -> Result<bool, AllocError>
    requires { length bytes.now < 4294967295 }
{
    let text = printed(alloc, bytes)?;
    let is = text.bytes() == want;
    drop(text);
    Ok(is)
}

#[test]
fn every_kind_of_line_is_printed_in_order(rt: HostRuntime) -> Result<(), Fail> {
    holds(is_printed(rt.alloc(), WRITTEN, PRINTED))
}

#[test]
fn what_is_printed_is_read_and_printed_again(rt: HostRuntime) -> Result<(), Fail> {
    holds(is_printed(rt.alloc(), PRINTED, PRINTED))
}

/// Whether these bytes declare the document of the two ToRs. No text here is too long to be read.
fn is_spelled_so(alloc: Global, bytes: &[u8]) -> Result<bool, AllocError> {
    if bytes.len() >= 4294967295 {
        return Err(AllocError);
    }
    is_printed(alloc, bytes, JOINED)
}

#[test]
fn other_spellings_are_read_as_the_same_document(rt: HostRuntime) -> Result<(), Fail> {
    for bytes in SPELLINGS {
        holds(is_spelled_so(rt.alloc(), bytes))?;
    }
    Ok(())
}
