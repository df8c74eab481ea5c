//! The words that lines begin with, and the phases and the versions of a document in which they stand.

ghost use Rattle.std.specs.Prelude.{◌≡◌};
ghost use Rattle.st_grammar.specs.Keywords.{part_word_of, wire_word_of, act_word_of, keyword_of, phase_of, since};

/// The first token of a line that declares something.
#[derive(Clone, Copy, Debug, PartialEq, Eq)]
pub enum Keyword {
    /// Begins a group.
    Group,
    /// A line of the group that is begun.
    Part(PartWord),
    /// A line of any group's messages.
    Wire(WireWord),
    /// Begins an application.
    App,
    /// An act of the application that is begun.
    Act(ActWord),
    /// Applications in the order in which each does its next act.
    Order,
}

/// The lines of a group's section.
#[derive(Clone, Copy, Debug, PartialEq, Eq)]
pub enum PartWord {
    Device,
    Link,
    Promise,
    Open,
    Health,
}

/// The wire lines.
#[derive(Clone, Copy, Debug, PartialEq, Eq)]
pub enum WireWord {
    Drop,
    Repeat,
    Hold,
}

/// The acts of an application.
#[derive(Clone, Copy, Debug, PartialEq, Eq)]
pub enum ActWord {
    Propose,
    Await,
    Settle,
    Lock,
    Unlock,
    Read,
    ReadAt,
    Fail,
    Poll,
}

fn part_word_of(word: &[u8]) -> Option<PartWord>
    ensures { result ≡ part_word_of word.now }
{
    if word == b"device".as_slice() {
        Some(PartWord::Device)
    } else if word == b"link".as_slice() {
        Some(PartWord::Link)
    } else if word == b"promise".as_slice() {
        Some(PartWord::Promise)
    } else if word == b"open".as_slice() {
        Some(PartWord::Open)
    } else if word == b"health".as_slice() {
        Some(PartWord::Health)
    } else {
        None
    }
}

fn wire_word_of(word: &[u8]) -> Option<WireWord>
    ensures { result ≡ wire_word_of word.now }
{
    if word == b"drop".as_slice() {
        Some(WireWord::Drop)
    } else if word == b"repeat".as_slice() {
        Some(WireWord::Repeat)
    } else if word == b"hold".as_slice() {
        Some(WireWord::Hold)
    } else {
        None
    }
}

fn act_word_of(word: &[u8]) -> Option<ActWord>
    ensures { result ≡ act_word_of word.now }
{
    if word == b"propose".as_slice() {
        Some(ActWord::Propose)
    } else if word == b"await".as_slice() {
        Some(ActWord::Await)
    } else if word == b"settle".as_slice() {
        Some(ActWord::Settle)
    } else if word == b"lock".as_slice() {
        Some(ActWord::Lock)
    } else if word == b"unlock".as_slice() {
        Some(ActWord::Unlock)
    } else if word == b"read".as_slice() {
        Some(ActWord::Read)
    } else if word == b"readat".as_slice() {
        Some(ActWord::ReadAt)
    } else if word == b"fail".as_slice() {
        Some(ActWord::Fail)
    } else if word == b"poll".as_slice() {
        Some(ActWord::Poll)
    } else {
        None
    }
}

/// The keyword of a word.
pub fn keyword_of(word: &[u8]) -> Option<Keyword>
    ensures { result ≡ keyword_of word.now }
{
    if word == b"group".as_slice() {
        return Some(Keyword::Group);
    }
    if word == b"app".as_slice() {
        return Some(Keyword::App);
    }
    if word == b"order".as_slice() {
        return Some(Keyword::Order);
    }
    if let Some(part) = part_word_of(word) {
        return Some(Keyword::Part(part));
    }
    if let Some(wire) = wire_word_of(word) {
        return Some(Keyword::Wire(wire));
    }
    match act_word_of(word) {
        Some(act) => Some(Keyword::Act(act)),
        None => None,
    }
}

/// The phase of a keyword's lines. No line may stand behind one of a higher phase.
pub fn phase_of(keyword: Keyword) -> u32
    ensures { result ≡ phase_of keyword }
{
    match keyword {
        Keyword::Group => 1,
        Keyword::Part(_) => 1,
        Keyword::Wire(_) => 2,
        Keyword::App => 3,
        Keyword::Act(_) => 3,
        Keyword::Order => 4,
    }
}

/// The lowest version of a document in which a keyword's lines may stand.
pub fn since(keyword: Keyword) -> u32
    ensures { result ≡ since keyword }
{
    match keyword {
        Keyword::Group => 1,
        Keyword::Part(_) => 1,
        Keyword::Wire(_) => 1,
        Keyword::App => 1,
        Keyword::Act(_) => 1,
        Keyword::Order => 1,
    }
}
