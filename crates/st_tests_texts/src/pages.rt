//! Small texts are played, and what they come to is compared whole: the data of the pages, and the lines of faults. The whole page is the
//! stored run of the program.

use crate::outcome::holds;
use st_io::MAX_BYTES;
use st_player::{Played, Status, play};
use std::alloc::{AllocError, Global};
use std::test::Fail;

/// Two ToRs, two switches, and two proposals, of which the second is refused.
const ONE_AT_A_TIME: &str = "\
statesman 1
group dc1
device t1 tor
device t2 tor
device a1 switch
device a2 switch
link l1 t1 a1 10
link l2 t1 a2 10
link l3 t2 a1 10
link l4 t2 a2 10
promise t1 t2 50
app up
journal dc1
1 submit up a1.firmware=2 : queued 1
2 submit up a2.firmware=2 : queued 2
3 check : receipt 1 accepted 1
4 check : receipt 2 refused broken t1 t2 cutoff need 10 has 0 side t1
";

/// The data of its page behind three entries, with who set what differs from the opening.
const BEHIND_THREE: &str =
    r#"{"apps":["up"],"groups":[{"devices":[{"name":"t1","tor":1},{"name":"t2","tor":1},{"name":"a1"},{"name":"a2"}],"entries":[{"asked":2,"line":"check : receipt 2 refused broken t1 t2 cutoff need 10 has 0 side t1","on":[3],"pending":0,"refused":{"changes":[3],"far":[1],"gone":[2],"has":0,"kind":"cutoff","left":[],"need":10,"out":[0,1],"part":"side","promise":0,"side":[0]}}],"first":3,"links":[{"capacity":10,"ends":[0,2],"name":"l1"},{"capacity":10,"ends":[0,3],"name":"l2"},{"capacity":10,"ends":[1,2],"name":"l3"},{"capacity":10,"ends":[1,3],"name":"l4"}],"name":"dc1","opening":{"causes":{"set":[{"app":0,"entity":2,"var":1,"version":1}]},"network":{"lost":[]},"of":[0,0,1,0,2,2,2,2],"pending":1,"states":[{"fence":0,"health":5,"high":null,"is":"up","known":"sure","level":5,"low":null,"real":[1,1,1,1],"seen":[1,1,1,1],"stamp":0,"target":[1,1,1,1],"told":0,"untold":0,"works":5},{"fence":0,"health":5,"high":null,"is":"up","known":"waiting","level":5,"low":null,"real":[1,1,1,1],"seen":[1,1,1,1],"stamp":3,"target":[1,2,1,1],"told":0,"untold":0,"works":5},{"fence":0,"health":1,"high":null,"is":"up","known":"sure","level":1,"low":null,"open":1,"real":[1,1],"seen":[1,1],"stamp":0,"target":[1,1],"told":0,"untold":0,"works":1}],"sure":{"lost":[]},"version":1},"promises":[{"ends":[0,1],"need":10,"percent":50,"start":1}],"total":4}],"statesman":1}"#;

/// The same, and then the switch fails that alone counted as up, and reports it.
const ALONE: &str = "\
statesman 1
group dc1
device t1 tor
device t2 tor
device a1 switch
device a2 switch
link l1 t1 a1 10
link l2 t1 a2 10
link l3 t2 a1 10
link l4 t2 a2 10
promise t1 t2 50
app up
journal dc1
1 submit up a1.firmware=2 : queued 1
2 submit up a2.firmware=2 : queued 2
3 check : receipt 1 accepted 1
4 check : receipt 2 refused broken t1 t2 cutoff need 10 has 0 side t1
5 fail a2 0 power=1 firmware=1 config=1 routing=1 : changed
6 report a2 : reported 1
7 hear 1 : taken
";

/// Its data behind two entries: the accepted check tells what it alters, and the report what it takes from the sure set.
const ALONE_DATA: &str =
    r#"{"apps":["up"],"groups":[{"devices":[{"name":"t1","tor":1},{"name":"t2","tor":1},{"name":"a1"},{"name":"a2"}],"entries":[{"asked":1,"line":"check : receipt 1 accepted 1","on":[2],"pending":1,"set":[{"entity":2,"known":"waiting","stamp":3,"target":[1,2,1,1]}],"version":1},{"asked":2,"line":"check : receipt 2 refused broken t1 t2 cutoff need 10 has 0 side t1","on":[3],"pending":0,"refused":{"changes":[3],"far":[1],"gone":[2],"has":0,"kind":"cutoff","left":[],"need":10,"out":[0,1],"part":"side","promise":0,"side":[0]}},{"line":"fail a2 0 power=1 firmware=1 config=1 routing=1 : changed","on":[3],"set":[{"entity":3,"is":"failed","untold":1,"works":0},{"entity":5,"open":0},{"entity":7,"open":0}]},{"line":"report a2 : reported 1","on":[3]},{"line":"hear 1 : taken","on":[3],"set":[{"entity":3,"health":0,"known":"settled","level":0,"told":6,"untold":0}],"sure":{"lost":[0]}}],"first":2,"links":[{"capacity":10,"ends":[0,2],"name":"l1"},{"capacity":10,"ends":[0,3],"name":"l2"},{"capacity":10,"ends":[1,2],"name":"l3"},{"capacity":10,"ends":[1,3],"name":"l4"}],"name":"dc1","opening":{"network":{"lost":[]},"of":[0,0,0,0,1,1,1,1],"pending":2,"states":[{"fence":0,"health":5,"high":null,"is":"up","known":"sure","level":5,"low":null,"real":[1,1,1,1],"seen":[1,1,1,1],"stamp":0,"target":[1,1,1,1],"told":0,"untold":0,"works":5},{"fence":0,"health":1,"high":null,"is":"up","known":"sure","level":1,"low":null,"open":1,"real":[1,1],"seen":[1,1],"stamp":0,"target":[1,1],"told":0,"untold":0,"works":1}],"sure":{"lost":[]},"version":0},"promises":[{"ends":[0,1],"need":10,"percent":50,"start":1}],"total":7}],"statesman":1}"#;

/// A switch that fails, and is not told of before its second report is heard.
const UNTOLD: &str = "\
statesman 1
group g
device a switch
journal g
1 report a : reported 1
2 fail a 0 power=1 firmware=1 config=1 routing=1 : changed
3 hear 1 : taken
4 report a : reported 2
5 hear 2 : taken
";

/// Its data: `untold` goes with the second report alone, which tells the health that the failure left.
const UNTOLD_DATA: &str =
    r#"{"apps":[],"groups":[{"devices":[{"name":"a"}],"entries":[{"line":"report a : reported 1","on":[0]},{"line":"fail a 0 power=1 firmware=1 config=1 routing=1 : changed","on":[0],"set":[{"entity":0,"is":"failed","untold":1,"works":0}]},{"line":"hear 1 : taken","on":[0],"set":[{"entity":0,"told":1}]},{"line":"report a : reported 2","on":[0]},{"line":"hear 2 : taken","on":[0],"set":[{"entity":0,"health":0,"known":"settled","level":0,"told":4,"untold":0}]}],"first":0,"links":[],"name":"g","opening":{"network":{"lost":[]},"of":[0],"pending":0,"states":[{"fence":0,"health":5,"high":null,"is":"up","known":"sure","level":5,"low":null,"real":[1,1,1,1],"seen":[1,1,1,1],"stamp":0,"target":[1,1,1,1],"told":0,"untold":0,"works":5}],"sure":{"lost":[]},"version":0},"promises":[],"total":5}],"statesman":1}"#;

/// A switch fails untold, so the other may be drained: the promise is lost once that begins, and back with the first switch.
const LOST: &str = "\
statesman 1
group dc1
device t1 tor
device t2 tor
device a1 switch
device a2 switch
link l1 t1 a1 10
link l2 t1 a2 10
link l3 t2 a1 10
link l4 t2 a2 10
promise t1 t2 50
app up
journal dc1
1 fail a2 0 power=1 firmware=1 config=1 routing=1 : changed
2 submit up a1.routing=0 : queued 1
3 check : receipt 1 accepted 1
4 send a1 : sent 1
5 deliver 1 : begun
6 finish a1 : done
7 report a1 : reported 1
8 hear 1 : taken
9 fail a2 5 power=1 firmware=1 config=1 routing=1 : changed
";

/// Its data behind four entries: what counts as sure loses nothing. The entry that failed the one switch, and who drains the other, stand before.
const LOST_DATA: &str =
    r#"{"apps":["up"],"groups":[{"devices":[{"name":"t1","tor":1},{"name":"t2","tor":1},{"name":"a1"},{"name":"a2"}],"entries":[{"line":"deliver 1 : begun","network":{"lost":[0]},"on":[2],"set":[{"entity":2,"is":"busy","works":1},{"entity":4,"open":0},{"entity":6,"open":0}]},{"line":"finish a1 : done","on":[2],"set":[{"entity":2,"is":"drained","real":[1,1,1,0],"works":5}]},{"line":"report a1 : reported 1","on":[2]},{"line":"hear 1 : taken","on":[2],"set":[{"entity":2,"fence":3,"known":"settled","seen":[1,1,1,0],"told":7}]},{"line":"fail a2 5 power=1 firmware=1 config=1 routing=1 : changed","network":{"back":[0]},"on":[3],"set":[{"entity":3,"is":"up","works":5},{"entity":5,"open":1},{"entity":7,"open":1}]}],"first":4,"links":[{"capacity":10,"ends":[0,2],"name":"l1"},{"capacity":10,"ends":[0,3],"name":"l2"},{"capacity":10,"ends":[1,2],"name":"l3"},{"capacity":10,"ends":[1,3],"name":"l4"}],"name":"dc1","opening":{"causes":{"failed":[{"entity":3,"entry":1}],"set":[{"app":0,"entity":2,"var":3,"version":1}]},"network":{"lost":[]},"of":[0,0,1,2,3,4,3,4],"pending":0,"states":[{"fence":0,"health":5,"high":null,"is":"up","known":"sure","level":5,"low":null,"real":[1,1,1,1],"seen":[1,1,1,1],"stamp":0,"target":[1,1,1,1],"told":0,"untold":0,"works":5},{"fence":0,"health":5,"high":null,"is":"up","known":"waiting","level":5,"low":null,"real":[1,1,1,1],"seen":[1,1,1,1],"stamp":3,"target":[1,1,1,0],"told":0,"untold":0,"works":5},{"fence":0,"health":5,"high":null,"is":"failed","known":"sure","level":5,"low":null,"real":[1,1,1,1],"seen":[1,1,1,1],"stamp":0,"target":[1,1,1,1],"told":0,"untold":1,"works":0},{"fence":0,"health":1,"high":null,"is":"up","known":"sure","level":1,"low":null,"open":1,"real":[1,1],"seen":[1,1],"stamp":0,"target":[1,1],"told":0,"untold":0,"works":1},{"fence":0,"health":1,"high":null,"is":"up","known":"sure","level":1,"low":null,"open":0,"real":[1,1],"seen":[1,1],"stamp":0,"target":[1,1],"told":0,"untold":0,"works":1}],"sure":{"lost":[]},"version":1},"promises":[{"ends":[0,1],"need":10,"percent":50,"start":1}],"total":9}],"statesman":1}"#;

/// Adds a line to a text.
fn add_line(text: &mut String, line: Result<String, AllocError>) -> Result<(), AllocError> {
    text.push_str(line?.as_str())
}

/// A document of 16 groups of one switch each. The first group's journal has so many reports.
fn reports(alloc: Global, count: u32) -> Result<String, AllocError> {
    let mut text = format!(in alloc; "statesman 1\n")?;
    for n in 0..16 {
        add_line(
            &mut text,
            format!(in alloc; "group g{n}\ndevice a switch\n"),
        )?;
    }
    text.push_str("journal g0\n")?;
    for n in 0..count {
        let number = n + 1;
        add_line(
            &mut text,
            format!(in alloc; "{number} report a : reported {number}\n"),
        )?;
    }
    Ok(text)
}

/// Plays a text that is not too long.
fn played(alloc: Global, text: &str, from: u32) -> Result<Played, AllocError> {
    let bytes = text.as_bytes();
    if bytes.len() > MAX_BYTES {
        return Err(AllocError);
    }
    play(alloc, bytes, from)
}

/// The data of a page: what stands in its element of that kind.
fn data_of(page: &str) -> Option<&str> {
    let (_, rest) = page.split_once(r#"<script type="application/json" id="run">"#)?;
    let (data, _) = rest.split_once("</script>")?;
    Some(data)
}

/// Whether a page was made, with this data.
fn is_page(played: &Played, data: &str) -> bool {
    match str::from_utf8(played.text.bytes()) {
        Ok(page) => played.status == Status::Ok && data_of(page) == Some(data),
        Err(_) => false,
    }
}

/// Plays a text, which is to come to a page with this data.
fn shows(alloc: Global, text: &str, from: u32, data: &str) -> Result<(), Fail> {
    let played = played(alloc, text, from)?;
    let is_page = is_page(&played, data);
    drop(played);
    holds(Ok(is_page))
}

/// Plays a text, which is to come to this fault and this line.
fn fails(alloc: Global, text: &str, status: Status, line: &str) -> Result<(), Fail> {
    let played = played(alloc, text, 0)?;
    let is_told = played.status == status && played.text.bytes() == line.as_bytes();
    drop(played);
    holds(Ok(is_told))
}

#[test]
fn a_page_can_begin_behind_entries(rt: HostRuntime) -> Result<(), Fail> {
    shows(rt.alloc(), ONE_AT_A_TIME, 3, BEHIND_THREE)
}

#[test]
fn an_accepted_check_tells_what_it_alters(rt: HostRuntime) -> Result<(), Fail> {
    shows(rt.alloc(), ALONE, 2, ALONE_DATA)
}

/// Whether the first group of a page shows entries up to this one, which is not the last of its journal.
fn shows_up_to(played: &Played, last: &str, rest: &str) -> bool {
    match str::from_utf8(played.text.bytes()) {
        Ok(page) => match page.split_once(last) {
            Some((_, behind)) => behind.split_once(rest).is_some(),
            None => false,
        },
        Err(_) => false,
    }
}

/// The same of the page of so many reports.
fn reports_shown(alloc: Global, count: u32, last: &str, rest: &str) -> Result<bool, AllocError> {
    let text = reports(alloc, count)?;
    let played = played(alloc, text.as_str(), 0);
    drop(text);
    let played = played?;
    let shows = shows_up_to(&played, last, rest);
    drop(played);
    Ok(shows)
}

/// Of 16 groups each has 262,144 bytes. An entry whose number has d digits takes 41 + d of them with its comma, so 5,850 take 262,143.
#[test]
fn a_group_shows_as_many_entries_as_its_share_has_room_for(rt: HostRuntime) -> Result<(), Fail> {
    let last = r#"{"line":"report a : reported 5850","on":[0]}],"first":0,"#;
    holds(reports_shown(rt.alloc(), 5_860, last, r#","total":5860}"#))
}

#[test]
fn an_untold_failure_is_told_by_a_later_report(rt: HostRuntime) -> Result<(), Fail> {
    shows(rt.alloc(), UNTOLD, 0, UNTOLD_DATA)
}

#[test]
fn a_promise_is_lost_in_the_network_alone_and_comes_back(rt: HostRuntime) -> Result<(), Fail> {
    shows(rt.alloc(), LOST, 4, LOST_DATA)
}

#[test]
fn a_document_without_groups_has_an_empty_page(rt: HostRuntime) -> Result<(), Fail> {
    shows(
        rt.alloc(),
        "statesman 1\n",
        0,
        r#"{"apps":[],"groups":[],"statesman":1}"#,
    )
}

#[test]
fn an_entry_with_another_reply_makes_no_page(rt: HostRuntime) -> Result<(), Fail> {
    let status = Status::Illegal { group: 0, entry: 1 };
    let text = "\
statesman 1
group g
device a switch
journal g
1 finish a : done
";
    fails(rt.alloc(), text, status, "fault illegal g 1\n")
}

#[test]
fn a_bad_line_makes_no_page(rt: HostRuntime) -> Result<(), Fail> {
    let status = Status::BadInput {
        line: 2,
        kind: st_doc::DocKind::Word,
    };
    fails(
        rt.alloc(),
        "statesman 1\nnothing\n",
        status,
        "fault input line 2 word\n",
    )
}
