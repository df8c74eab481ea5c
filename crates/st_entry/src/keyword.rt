//! The words that say which event an entry has, which reply, and which cause of a refusal. What prints entries and what reads them
//! take each word from here.

ghost use Rattle.std.specs.Prelude.{◌≡◌};
ghost use Rattle.st_entry.specs.Keywords.{event_word, reply_word, verdict_word, cause_word, kind_word as kind_word_lem};

use st_net::BrokenKind;

/// The first word of an event, one for each.
#[derive(Clone, Copy, Debug, PartialEq, Eq)]
pub enum EventWord {
    Submit,
    Check,
    Lock,
    Unlock,
    Send,
    Deliver,
    Finish,
    Report,
    Hear,
    Fail,
    Withdraw,
}

/// The first word of a reply, one for each. `Receipt` is that of a decision.
#[derive(Clone, Copy, Debug, PartialEq, Eq)]
pub enum ReplyWord {
    Queued,
    Full,
    Receipt,
    Idle,
    Granted,
    Held,
    Released,
    NotYours,
    Sent,
    Settled,
    Blocked,
    Begun,
    Stale,
    NoSuch,
    Done,
    NotBusy,
    Reported,
    Taken,
    Old,
    Changed,
    Withdrawn,
    Kept,
}

/// The first word of a verdict.
#[derive(Clone, Copy, Debug, PartialEq, Eq)]
pub enum VerdictWord {
    Accepted,
    Refused,
}

/// The first word of what a refusal names. A row that can't be set has two: `Level` where a working level is too low, `Off`
/// where the power is off.
#[derive(Clone, Copy, Debug, PartialEq, Eq)]
pub enum CauseWord {
    Level,
    Off,
    Locked,
    Broken,
}

impl EventWord {
    /// The word.
    pub fn word(self) -> &'static [u8]
        ensures { result.now ≡ event_word self }
    {
        match self {
            EventWord::Submit => b"submit",
            EventWord::Check => b"check",
            EventWord::Lock => b"lock",
            EventWord::Unlock => b"unlock",
            EventWord::Send => b"send",
            EventWord::Deliver => b"deliver",
            EventWord::Finish => b"finish",
            EventWord::Report => b"report",
            EventWord::Hear => b"hear",
            EventWord::Fail => b"fail",
            EventWord::Withdraw => b"withdraw",
        }
    }
}

impl ReplyWord {
    /// The word.
    pub fn word(self) -> &'static [u8]
        ensures { result.now ≡ reply_word self }
    {
        match self {
            ReplyWord::Queued => b"queued",
            ReplyWord::Full => b"full",
            ReplyWord::Receipt => b"receipt",
            ReplyWord::Idle => b"idle",
            ReplyWord::Granted => b"granted",
            ReplyWord::Held => b"held",
            ReplyWord::Released => b"released",
            ReplyWord::NotYours => b"notyours",
            ReplyWord::Sent => b"sent",
            ReplyWord::Settled => b"settled",
            ReplyWord::Blocked => b"blocked",
            ReplyWord::Begun => b"begun",
            ReplyWord::Stale => b"stale",
            ReplyWord::NoSuch => b"nosuch",
            ReplyWord::Done => b"done",
            ReplyWord::NotBusy => b"notbusy",
            ReplyWord::Reported => b"reported",
            ReplyWord::Taken => b"taken",
            ReplyWord::Old => b"old",
            ReplyWord::Changed => b"changed",
            ReplyWord::Withdrawn => b"withdrawn",
            ReplyWord::Kept => b"kept",
        }
    }
}

impl VerdictWord {
    /// The word.
    pub fn word(self) -> &'static [u8]
        ensures { result.now ≡ verdict_word self }
    {
        match self {
            VerdictWord::Accepted => b"accepted",
            VerdictWord::Refused => b"refused",
        }
    }
}

impl CauseWord {
    /// The word.
    pub fn word(self) -> &'static [u8]
        ensures { result.now ≡ cause_word self }
    {
        match self {
            CauseWord::Level => b"level",
            CauseWord::Off => b"off",
            CauseWord::Locked => b"locked",
            CauseWord::Broken => b"broken",
        }
    }
}

/// The word for how a promise breaks.
pub fn kind_word(kind: BrokenKind) -> &'static [u8]
    ensures { result.now ≡ kind_word_lem kind }
{
    match kind {
        BrokenKind::CutOff => b"cutoff",
        BrokenKind::Short => b"short",
    }
}
