//! The lines of journals, one after another: the reader takes each line over what the lines before it gave.

ghost use Rattle.std.specs.Prelude.{◌≡◌, ◌<◌, ◌≤◌, ◌^◌, None, length, map, All, OnOk, IfOk};
ghost use Rattle.st_text.specs.Tokens.{token_in, IsTokenOf};
ghost use Rattle.st_token.specs.Steps.{Gives};
ghost use Rattle.st_journal.specs.JournalLines.{nothing, journals_of, with_journal, filled, begins_with_digit as begins_with_digit_lem, journal_line as journal_line_lem, entry_in, with_entry, entry_line as entry_line_lem, tokens_line};

mod causes;
mod entries;
mod events;
mod groups;
mod replies;
mod withdrawals;
mod words;

use crate::reader::entries::entry_of;
use crate::reader::groups::{fill, group_in};
use st_event::{Entry, Journal};
use st_net::{GroupTopo, Items, Name};
use st_text::{Token, has_allowed_bytes, tokens};
use st_token::{FaultKind, LineError, TakesLines, is_comment, one_of};
use std::alloc::{AllocError, Global};
use std::marker::Model;

/// What the lines so far give.
#[derive(Drop)]
pub struct JournalReader<'a> {
    alloc: Global,
    topos: &'a [GroupTopo],
    apps: &'a [Name],
    ended: Vec<Journal>,
    begun: Option<Vec<Entry>>,
    // for each journal that is still to begin, how many lines stand in it, the last first: so much room is taken for its entries
    rooms: Vec<usize>,
}

impl<'a> Model for JournalReader<'a> {
    ghost use Rattle.st_journal.specs.JournalLines.{JournalDraft};
    ghost use Rattle.st_journal.specs.ReaderInside.{draft_of, IsWithinGroups};

    ghost Value = { JournalDraft };

    ghost view = { draft_of };

    ghost invariant = { λ r. IsWithinGroups (draft_of r) };
}

/// Whether a token begins with a digit.
fn begins_with_digit(token: &[u8]) -> bool
    ensures { result ≡ begins_with_digit_lem token.now }
{
    !token.is_empty() && token[0] >= b'0' && token[0] <= b'9'
}

impl<'a> JournalReader<'a> {
    /// No journal is begun. The last of `rooms` is how many entries the first journal may have, and so on: these numbers decide only
    /// how much room is taken for entries when their journal begins.
    pub fn new(
        alloc: Global,
        topos: &'a [GroupTopo],
        apps: &'a [Name],
        rooms: Vec<usize>,
    ) -> JournalReader<'a>
        requires few_groups { length topos.now < 2 ^ 32 }
        requires few_apps { length apps.now < 2 ^ 32 }
        ensures { result ≡ nothing topos.now apps.now }
    {
        JournalReader {
            alloc,
            topos,
            apps,
            ended: Vec::new(alloc),
            begun: None,
            rooms,
        }
    }

    /// How many journals there are, the one that is begun too.
    fn count(&self) -> usize
        ensures { result ≡ length (journals_of self.now) }
    {
        match &self.begun {
            None => self.ended.len(),
            Some(_) => self.ended.len() + 1,
        }
    }

    /// Ends the journal that is begun.
    fn end(&mut self) -> Result<(), AllocError>
        ensures { OnOk result (self.new ≡ record self.old { ended = journals_of self.old; begun = None }) }
    {
        self.ended.reserve(1)?;
        if let Some(entries) = self.begun.take() {
            let group = self.ended.len() as u32;
            self.ended.push(Journal {
                group,
                entries: Items::new(entries),
            })?;
        }
        Ok(())
    }

    /// Begins the journal of a group behind those that are begun.
    fn begin(&mut self, group: u32) -> Result<(), AllocError>
        requires behind { length (journals_of self.old) ≤ group }
        requires within { group < length self.old.groups }
        ensures { OnOk result (self.new ≡ with_journal self.old group) }
    {
        self.end()?;
        fill(self.alloc, &mut self.ended, group)?;
        let room = self.rooms.pop().unwrap_or(0);
        self.begun = Some(Vec::with_capacity(self.alloc, room)?);
        Ok(())
    }

    /// Takes a `journal` line.
    #[tactic(auto, unfolding(crate::specs::JournalLines::journal_line))]
    fn journal_line(&mut self, line: &[u8], tokens: &[Token]) -> Result<(), LineError>
        requires { All (IsTokenOf line.now) tokens.now }
        ensures { Gives (λ _. self.new) result (journal_line_lem self.old (map (token_in line.now) tokens.now)) }
    {
        let word = one_of(line, tokens)?;
        let group = group_in(self.alloc, self.topos, word)?;
        if (group as usize) < self.count() {
            return Err(LineError::Bad(FaultKind::Twice));
        }
        self.begin(group)?;
        Ok(())
    }

    /// The next entry of the journal that is begun.
    #[tactic(auto, unfolding(crate::specs::JournalLines::entry_in))]
    fn entry_in(&self, number: &[u8], line: &[u8], tokens: &[Token]) -> Result<Entry, LineError>
        requires { All (IsTokenOf line.now) tokens.now }
        ensures { Gives (λ entry. entry) result (entry_in self.now number.now (map (token_in line.now) tokens.now)) }
    {
        let Some(entries) = &self.begun else {
            return Err(LineError::Bad(FaultKind::Word));
        };
        let group = self.ended.len();
        if group >= self.topos.len() {
            return Err(LineError::Bad(FaultKind::Word));
        }
        let topo = &self.topos[group];
        let next = entries.len() + 1;
        entry_of(self.alloc, topo, self.apps, next, number, line, tokens)
    }

    /// Adds an entry to the journal that is begun.
    fn add(&mut self, entry: Entry) -> Result<(), AllocError>
        ensures { OnOk result (self.new ≡ with_entry self.old entry) }
    {
        if let Some(entries) = &mut self.begun {
            entries.push(entry)?;
        }
        Ok(())
    }

    /// Takes the line of an entry.
    #[tactic(auto, unfolding(crate::specs::JournalLines::entry_line))]
    fn entry_line(&mut self, number: &[u8], line: &[u8], tokens: &[Token]) -> Result<(), LineError>
        requires { All (IsTokenOf line.now) tokens.now }
        ensures { Gives (λ _. self.new) result (entry_line_lem self.old number.now (map (token_in line.now) tokens.now)) }
    {
        let entry = self.entry_in(number, line, tokens)?;
        self.add(entry)?;
        Ok(())
    }

    /// Takes a line with these tokens.
    fn words(&mut self, line: &[u8], tokens: &[Token]) -> Result<(), LineError>
        requires { All (IsTokenOf line.now) tokens.now }
        ensures { Gives (λ _. self.new) result (tokens_line self.old (map (token_in line.now) tokens.now)) }
    {
        if tokens.is_empty() {
            return Ok(());
        }
        let word = &line[tokens[0].start..tokens[0].end];
        if is_comment(word) {
            return Ok(());
        }
        if word == b"journal".as_slice() {
            return self.journal_line(line, &tokens[1..]);
        }
        if begins_with_digit(word) {
            return self.entry_line(word, line, &tokens[1..]);
        }
        Err(LineError::Bad(FaultKind::Word))
    }

    /// A journal of each group.
    pub fn finish(self) -> Result<Items<Journal>, AllocError>
        ensures { IfOk result (λ journals. journals ≡ filled (length self.entry.groups) (journals_of self.entry)) }
    {
        let mut reader = self;
        reader.end()?;
        let count = reader.topos.len() as u32;
        let alloc = reader.alloc;
        let mut journals = reader.ended;
        fill(alloc, &mut journals, count)?;
        Ok(Items::new(journals))
    }
}

impl<'a> TakesLines for JournalReader<'a> {
    ghost use Rattle.st_journal.specs.JournalLines.{line_of};

    ghost line_of = { line_of };

    #[tactic(auto, unfolding(crate::specs::JournalLines::line_of))]
    fn line(&mut self, line: &[u8]) -> Result<(), LineError> {
        if !has_allowed_bytes(line) {
            return Err(LineError::Bad(FaultKind::Byte));
        }
        let words = tokens(self.alloc, line)?;
        self.words(line, words.as_slice())
    }
}
