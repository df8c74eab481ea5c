//! All messages ever sent in a group. A message stays under its number, so that it can arrive at any time and any number of times.

ghost use Rattle.std.specs.Prelude.{◌≡◌, [], ◌+◌, ◌<◌, ◌≤◌, ◌^◌, length, IfOk, IsOk, OnOk, OnErr};
ghost use Rattle.st_wire.specs.Messages.{HasSameMessages, HasCommand, HasReport, took_of};

use st_net::{Command, Report};
use std::alloc::{AllocError, Global};
use std::marker::Model;

/// The answer to a question for a message.
#[derive(Clone, Copy, Debug, PartialEq, Eq)]
pub enum Took<T> {
    /// The message of that number.
    Got(T),
    /// There is none: so many were sent.
    NoSuch { sent: u32 },
}

/// The commands and the reports of a group, each kind numbered from 1.
#[derive(Drop)]
pub struct Wire {
    commands: Vec<Command>,
    reports: Vec<Report>,
}

impl Model for Wire {
    ghost use Rattle.std.specs.Prelude.{◌-◌, min};
    ghost use Rattle.std.specs.Vec.{vec_len, vec_capacity};
    ghost use Rattle.st_wire.specs.Messages.{Messages, AreCounted};

    ghost Value = { Messages };

    ghost view = { λ w. record { commands = w.commands.items; reports = w.reports.items; room = min (vec_capacity w.commands - vec_len w.commands) (vec_capacity w.reports - vec_len w.reports) } };

    ghost invariant = { λ w. AreCounted w.commands.items w.reports.items };
}

/// The message of a number, of messages that are numbered from 1.
fn message_at<T: Copy>(messages: &[T], n: u32) -> Took<T>
    requires { length messages.now < 2 ^ 32 }
    ensures { result ≡ took_of messages.now n }
{
    let sent = messages.len() as u32;
    if n == 0 || n > sent {
        return Took::NoSuch { sent };
    }
    Took::Got(messages[n as usize - 1])
}

impl Wire {
    /// A group in which nothing was sent.
    pub fn start(alloc: Global) -> Wire
        ensures commands { result.commands ≡ [] }
        ensures reports { result.reports ≡ [] }
    {
        Wire {
            commands: Vec::new(alloc),
            reports: Vec::new(alloc),
        }
    }

    /// Keeps a command that is sent, and gives its number. At `Err` no message has changed. Where there is room it takes no memory.
    pub fn push_command(&mut self, command: Command) -> Result<u32, AllocError>
        requires { length self.old.commands + 1 < 2 ^ 32 }
        ensures number { IfOk result (λ n. n ≡ length self.old.commands + 1) }
        ensures ok { OnOk result (HasCommand self.old self.new command) }
        ensures err { OnErr result (HasSameMessages self.old self.new) }
        ensures without_memory { 0 < self.old.room → IsOk result }
        ensures room { self.old.room ≤ self.new.room + 1 }
        ensures spent { OnErr result (self.old.room ≤ self.new.room) }
    {
        self.commands.push(command)?;
        Ok(self.commands.len() as u32)
    }

    /// Keeps a report that is made, and gives its number. At `Err` no message has changed. Where there is room it takes no memory.
    pub fn push_report(&mut self, report: Report) -> Result<u32, AllocError>
        requires { length self.old.reports + 1 < 2 ^ 32 }
        ensures number { IfOk result (λ n. n ≡ length self.old.reports + 1) }
        ensures ok { OnOk result (HasReport self.old self.new report) }
        ensures err { OnErr result (HasSameMessages self.old self.new) }
        ensures without_memory { 0 < self.old.room → IsOk result }
        ensures room { self.old.room ≤ self.new.room + 1 }
        ensures spent { OnErr result (self.old.room ≤ self.new.room) }
    {
        self.reports.push(report)?;
        Ok(self.reports.len() as u32)
    }

    /// Makes room, so that the next `n` messages, of whichever kinds, take no memory.
    pub fn reserve(&mut self, n: u32) -> Result<(), AllocError>
        ensures room { OnOk result (n ≤ self.new.room) }
        ensures without_memory { n ≤ self.old.room → IsOk result }
        ensures more { self.old.room ≤ self.new.room }
        ensures same { HasSameMessages self.old self.new }
    {
        self.commands.reserve(n as usize)?;
        self.reports.reserve(n as usize)
    }

    /// How many commands were sent.
    pub fn command_count(&self) -> u32
        ensures { result ≡ length self.now.commands }
    {
        self.commands.len() as u32
    }

    /// How many reports were made.
    pub fn report_count(&self) -> u32
        ensures { result ≡ length self.now.reports }
    {
        self.reports.len() as u32
    }

    /// The command of a number. `NoSuch` comes exactly where the number is 0 or above those sent.
    pub fn command(&self, n: u32) -> Took<Command>
        ensures { result ≡ took_of self.now.commands n }
    {
        message_at(self.commands.as_slice(), n)
    }

    /// The report of a number. `NoSuch` comes exactly where the number is 0 or above those made.
    pub fn report(&self, n: u32) -> Took<Report>
        ensures { result ≡ took_of self.now.reports n }
    {
        message_at(self.reports.as_slice(), n)
    }
}
