//! First bad lines and their kinds, and where journals begin. What is expected is worked by hand from the grammar.

mod faults;
mod places;

use crate::outcome::row_holds;
use faults::{FAULTS, OPENINGS, PLAIN};
use places::JOURNALS;
use st_doc::{DocRead, read_doc};
use st_token::FaultKind::{self, Cross, Limit, Loop, Number, Pair, Twice, Unknown};
use st_token::LineFault;
use std::alloc::{AllocError, Global};
use std::test::Fail;

/// Lines in place of one of `PLAIN`, with its number and their kind.
const REPLACED: [(&str, u32, FaultKind); 6] = [
    ("device t1 switch", 4, Twice),
    ("link l1 t1 t1 10", 7, Loop),
    ("link l1 t1 dc2/a1 10", 7, Cross),
    ("link l1 t1 a9 10", 7, Unknown),
    ("link l1 t1 a1 0", 7, Number),
    ("promise t1 a1 50", 11, Pair),
];

const HEAD: &str = "statesman 1\n";

const GROUP: &str = "\
statesman 1
group dc1
";

const PAIR: &str = "\
statesman 1
group dc1
device t1 tor
device a1 switch
";

const APP: &str = "\
statesman 1
group dc1
device a1 switch
app up
";

/// Documents that pass a limit: how each begins, its further lines, with the number of each in place of `#`, how many these
/// are, and the line of the document that is one too many.
const LIMITS: [(&str, &str, u32, u32); 17] = [
    (HEAD, "group g#", 17, 18),
    (GROUP, "device d# switch", 513, 515),
    (GROUP, "device d# tor", 65, 67),
    (PAIR, "link k# t1 a1 1", 4097, 4101),
    (GROUP, "drop dc1 command #", 1025, 1027),
    (GROUP, "repeat dc1 report 1 #", 1025, 1027),
    (GROUP, "hold dc1 report # 4294967295", 1025, 1027),
    (HEAD, "app p#", 33, 34),
    (APP, "propose dc1 a1.config=#", 1025, 1029),
    (APP, "await dc1", 1025, 1029),
    (APP, "settle dc1 1", 1025, 1029),
    (APP, "lock dc1 a1 low", 1025, 1029),
    (APP, "unlock dc1 a1 low", 1025, 1029),
    (APP, "read dc1 a1.power", 1025, 1029),
    (APP, "readat dc1 # a1.power", 1025, 1029),
    (APP, "fail dc1 a1 0", 1025, 1029),
    (APP, "poll dc1 a1", 1025, 1029),
];

/// The fault of a document, where it has one. No text of these tests is too long to be read.
fn fault_of(alloc: Global, bytes: &[u8]) -> Result<Option<LineFault>, AllocError> {
    if bytes.len() >= 4294967295 {
        return Err(AllocError);
    }
    match read_doc(alloc, bytes, false)? {
        DocRead::Doc(_) => Ok(None),
        DocRead::Fault(fault) => Ok(Some(fault)),
    }
}

/// The same of bytes that are not needed any more.
fn fault_once(alloc: Global, bytes: Vec<u8>) -> Result<Option<LineFault>, AllocError> {
    let fault = fault_of(alloc, bytes.as_slice());
    drop(bytes);
    fault
}

/// A text behind another, with LF in place of `;`.
fn behind(alloc: Global, opening: &str, text: &str) -> Result<Vec<u8>, AllocError> {
    let mut bytes = opening.as_bytes().to_vec(alloc)?;
    for byte in text.as_bytes() {
        bytes.push(if *byte == b';' { b'\n' } else { *byte })?;
    }
    Ok(bytes)
}

/// Whether a text, behind another, has the fault that a row of a table tells.
fn is_told(alloc: Global, opening: &str, row: &str) -> Result<bool, AllocError> {
    let (want, text) = row.split_once(':').unwrap_or(("", row));
    let told = match fault_once(alloc, behind(alloc, opening, text)?)? {
        Some(fault) => format!(in alloc; "{} {:?}", fault.line, fault.kind)?,
        None => format!(in alloc; "none")?,
    };
    Ok(told.as_str() == want)
}

/// The first row of a table whose text, behind another, has another fault.
fn other_row<'t>(
    alloc: Global,
    opening: &str,
    table: &'t str,
) -> Result<Option<&'t str>, AllocError> {
    for row in table.lines() {
        if !is_told(alloc, opening, row)? {
            return Ok(Some(row));
        }
    }
    Ok(None)
}

/// What is told of a text that is read with journals: the byte and the line where these begin, `none`, or its fault.
fn told_of(alloc: Global, bytes: &[u8]) -> Result<String, AllocError> {
    if bytes.len() >= 4294967295 {
        return Err(AllocError);
    }
    match read_doc(alloc, bytes, true)? {
        DocRead::Doc(doc) => {
            let journal_at = doc.journal_at;
            drop(doc);
            match journal_at {
                Some(at) => format!(in alloc; "{} {}", at.byte, at.line),
                None => format!(in alloc; "none"),
            }
        }
        DocRead::Fault(fault) => format!(in alloc; "{} {:?}", fault.line, fault.kind),
    }
}

/// Whether that is what a row tells of its text.
fn begins_so(alloc: Global, row: &str) -> Result<bool, AllocError> {
    let (want, text) = row.split_once(':').unwrap_or(("", row));
    let bytes = behind(alloc, "", text)?;
    let told = told_of(alloc, bytes.as_slice());
    drop(bytes);
    Ok(told?.as_str() == want)
}

/// `PLAIN` with a line in place of one of its own.
fn with_line(alloc: Global, line: u32, text: &str) -> Result<Vec<u8>, AllocError> {
    let mut bytes = Vec::new(alloc);
    for (n, own) in PLAIN.lines().enumerate() {
        let text = if n + 1 == line as usize { text } else { own };
        bytes.extend_from_slice(text.as_bytes())?;
        bytes.push(b'\n')?;
    }
    Ok(bytes)
}

/// Adds a line with a number in place of `#`.
fn add_numbered(bytes: &mut Vec<u8>, line: &str, number: &str) -> Result<(), AllocError> {
    for byte in line.as_bytes() {
        if *byte == b'#' {
            bytes.extend_from_slice(number.as_bytes())?;
        } else {
            bytes.push(*byte)?;
        }
    }
    bytes.push(b'\n')?;
    Ok(())
}

/// Adds lines, with the number of each, from 1, in place of `#`.
fn add_all_numbered(
    alloc: Global,
    bytes: &mut Vec<u8>,
    line: &str,
    count: u32,
) -> Result<(), AllocError> {
    for n in 1..=count {
        let number = n.to_string(alloc)?;
        let added = add_numbered(bytes, line, number.as_str());
        drop(number);
        added?;
    }
    Ok(())
}

/// A text and such lines behind it.
fn numbered(alloc: Global, opening: &str, line: &str, count: u32) -> Result<Vec<u8>, AllocError> {
    let mut bytes = opening.as_bytes().to_vec(alloc)?;
    add_all_numbered(alloc, &mut bytes, line, count)?;
    Ok(bytes)
}

#[test]
fn each_keyword_has_its_faults(rt: HostRuntime) -> Result<(), Fail> {
    let opening = other_row(rt.alloc(), "", OPENINGS)?;
    let behind = other_row(rt.alloc(), PLAIN, FAULTS)?;
    assert_eq!(rt; (opening, behind), (None, None));
    Ok(())
}

#[test]
fn a_bad_line_amid_others_is_told(rt: HostRuntime) -> Result<(), Fail> {
    for (text, line, kind) in REPLACED {
        let fault = fault_once(rt.alloc(), with_line(rt.alloc(), line, text)?)?;
        row_holds(text, Ok(fault == Some(LineFault { line, kind })))?;
    }
    Ok(())
}

#[test]
fn the_line_that_passes_a_limit_is_told(rt: HostRuntime) -> Result<(), Fail> {
    for (opening, text, count, line) in LIMITS {
        let fault = fault_once(rt.alloc(), numbered(rt.alloc(), opening, text, count)?)?;
        row_holds(text, Ok(fault == Some(LineFault { line, kind: Limit })))?;
    }
    Ok(())
}

#[test]
fn journals_begin_at_the_first_line_of_one(rt: HostRuntime) -> Result<(), Fail> {
    for row in JOURNALS.lines() {
        row_holds(row, begins_so(rt.alloc(), row))?;
    }
    Ok(())
}
