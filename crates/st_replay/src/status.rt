//! How a call ends, of the program and of the player: its status, with the exit status of each and the line that tells of it.

ghost use Rattle.std.specs.Prelude.{◌≡◌, ◌∷◌, [], ◌++◌, codes, decimal, map, IfOk, OnOk};
ghost use Rattle.st_text.specs.Printed.{bytes_of};
ghost use Rattle.st_text.specs.Words.{line};
ghost use Rattle.st_replay.specs.Statuses.{exit_code_of, kind_word as kind_word_lem, group_name as group_name_lem, status_line as status_line_lem, told as told_lem};

use st_doc::DocKind;
use st_io::Written;
use st_net::Parts;
use st_text::{Text, Word, print_line};
use std::alloc::{AllocError, Global};

/// Why a call ended.
#[derive(Clone, Copy, Debug, PartialEq, Eq)]
pub enum Status {
    /// What was asked for was done, and its output written. Of a call that reads it says that the input was read to its end.
    Ok,
    /// The words ask for nothing that is done.
    Usage,
    /// The source failed.
    ReadFault,
    /// The input has more than 1,048,576 bytes.
    TooLong,
    /// The input is no document: its first bad line, from 1, and the first kind that applies to it.
    BadInput { line: u32, kind: DocKind },
    /// The journal of this group, from 0, has 200,000 entries. Of `serial` and `demo` an event met it so, and the run stopped there. Of
    /// `run` it is the lowest at which a job stopped or an await behind the jobs met it so; no more is promised than that it is full. No
    /// other call ends so.
    JournalFull { group: u32 },
    /// The reply of this entry, from 1, of the journal of this group, from 0, is not the one that is called for. It is the first such.
    Illegal { group: u32, entry: u32 },
    /// The sink failed while a text was written. It holds a prefix of the text.
    WriteFault,
    /// Memory was refused.
    OutOfMemory,
}

impl Status {
    /// The exit status of the program.
    pub fn exit_code(self) -> u8
        ensures { result ≡ exit_code_of self }
    {
        match self {
            Status::Ok => 0,
            Status::Usage => 2,
            Status::ReadFault => 3,
            Status::TooLong => 4,
            Status::BadInput { .. } => 5,
            Status::JournalFull { .. } => 6,
            Status::Illegal { .. } => 7,
            Status::WriteFault => 8,
            Status::OutOfMemory => 9,
        }
    }

    /// The status that is told once writing its text ended so.
    pub fn told(self, written: Written) -> Status
        ensures { result ≡ told_lem written self }
    {
        match written {
            Written::All => self,
            Written::Failed => Status::WriteFault,
            Written::OutOfMemory => Status::OutOfMemory,
        }
    }
}

/// The word for a kind of bad line.
fn kind_word(kind: DocKind) -> &'static [u8]
    ensures { result.now ≡ kind_word_lem kind }
{
    match kind {
        DocKind::Header => b"header",
        DocKind::Byte => b"byte",
        DocKind::Word => b"word",
        DocKind::Count => b"count",
        DocKind::Name => b"name",
        DocKind::Unknown => b"unknown",
        DocKind::Twice => b"twice",
        DocKind::Number => b"number",
        DocKind::Value => b"value",
        DocKind::Cross => b"cross",
        DocKind::Loop => b"loop",
        DocKind::Pair => b"pair",
        DocKind::Limit => b"limit",
    }
}

/// The name of a group by its number; no bytes where there is none.
fn group_name(groups: &[Parts], n: u32) -> &[u8]
    ensures { result.now ≡ group_name_lem groups.now n }
{
    match groups.get(n as usize) {
        Some(parts) => parts.name.bytes(),
        None => b"",
    }
}

/// Adds the line of a fault, with these words behind the first.
fn add_fault(words: &[Word], out: &mut Text) -> Result<(), AllocError>
    ensures { OnOk result (out.new ≡ out.old ++ line (codes "fault") (map bytes_of words.now)) }
{
    print_line(b"fault", words, out)
}

/// Adds the line of an entry that is not legal, by the name of its group and its number.
fn add_illegal(name: &[u8], entry: u32, out: &mut Text) -> Result<(), AllocError>
    ensures { OnOk result (out.new ≡ out.old ++ line (codes "fault") (codes "illegal" ∷ name.now ∷ decimal entry ∷ [])) }
{
    let number = Word::Number(u64::from(entry));
    add_fault(&[Word::Plain(b"illegal"), Word::Plain(name), number], out)
}

/// Adds the line of a status.
fn add_status(groups: &[Parts], status: Status, out: &mut Text) -> Result<(), AllocError>
    ensures { OnOk result (out.new ≡ out.old ++ status_line_lem groups.now status) }
{
    match status {
        Status::Usage => add_fault(&[Word::Plain(b"usage")], out),
        Status::ReadFault => add_fault(&[Word::Plain(b"read")], out),
        Status::TooLong => add_fault(&[Word::Plain(b"long")], out),
        Status::BadInput { line, kind } => {
            let number = Word::Number(u64::from(line));
            let kind = Word::Plain(kind_word(kind));
            add_fault(
                &[Word::Plain(b"input"), Word::Plain(b"line"), number, kind],
                out,
            )
        }
        Status::JournalFull { group } => {
            let name = Word::Plain(group_name(groups, group));
            add_fault(&[Word::Plain(b"full"), name], out)
        }
        Status::Illegal { group, entry } => add_illegal(group_name(groups, group), entry, out),
        Status::Ok | Status::WriteFault | Status::OutOfMemory => Ok(()),
    }
}

/// The line that tells of a status, where the groups of the document are these; no bytes for a status that is no fault, and for one
/// after which nothing can be written. `Err` is for want of memory alone.
pub fn status_line(alloc: Global, groups: &[Parts], status: Status) -> Result<Text, AllocError>
    ensures { IfOk result (λ text. text ≡ status_line_lem groups.now status) }
{
    let mut out = Text::new(alloc);
    add_status(groups, status, &mut out)?;
    Ok(out)
}
