//! The lines of a document, one after another: the reader takes each line over what the lines before it declared.

ghost use Rattle.std.specs.Prelude.{◌≡◌, map, All, slice_get, option_copied, option_and_then};
ghost use Rattle.st_text.specs.Numbers.{number_of};
ghost use Rattle.st_text.specs.Tokens.{token_in, IsTokenOf};
ghost use Rattle.st_token.specs.Steps.{Gives};
ghost use Rattle.st_token.specs.Spelling.{known_name_in};
ghost use Rattle.st_grammar.specs.Draft.{nothing, has_header, groups_of, group_names};
ghost use Rattle.st_grammar.specs.Commands.{group_in};
ghost use Rattle.st_grammar.specs.Lines.{version_of, version_named, has_section, is_allowed, declared_by, phased_line, keyword_line, header_line, tokens_line, line_of};

mod commands;
mod ending;
mod sections;

use st_draft::Group;
use st_grammar::{Keyword, MAX_VERSION, Script, keyword_of, phase_of, since};
use st_net::NameIndex;
use st_text::{Token, has_allowed_bytes, number, tokens};
use st_token::{FaultKind, LineError, TakesLines, is_comment, known_name_in};
use std::alloc::Global;
use std::marker::Model;

/// What the lines so far declare.
#[derive(Drop)]
pub struct Reader {
    alloc: Global,
    // 0 before the header.
    version: u32,
    phase: u32,
    groups: Vec<Group>,
    // The group that was begun last stands apart, as does the application.
    group: Option<Group>,
    group_index: NameIndex,
    apps: Vec<Script>,
    app: Option<Script>,
    app_index: NameIndex,
    order: Vec<u32>,
}

impl Model for Reader {
    ghost use Rattle.st_grammar.specs.Draft.{Draft};
    ghost use Rattle.st_doc.specs.ReaderInside.{draft_of, KnowsNames};

    ghost Value = { Draft };

    ghost view = { draft_of };

    ghost invariant = { λ r. KnowsNames (draft_of r) r.group_index r.app_index };
}

/// The version of a document that a token names.
fn version_in(token: &[u8]) -> Option<u32>
    ensures { result ≡ option_and_then version_of (number_of token.now) }
{
    let version = number(token)?;
    if 1 <= version && version <= MAX_VERSION {
        Some(version)
    } else {
        None
    }
}

/// The version that a header names, where the line is one.
fn version_named(line: &[u8], tokens: &[Token]) -> Option<u32>
    requires { All (IsTokenOf line.now) tokens.now }
    ensures { result ≡ version_named (map (token_in line.now) tokens.now) }
{
    if tokens.len() != 2 {
        return None;
    }
    let word = &line[tokens[0].start..tokens[0].end];
    let version = &line[tokens[1].start..tokens[1].end];
    if word == b"statesman".as_slice() {
        version_in(version)
    } else {
        None
    }
}

impl Reader {
    /// Nothing is declared.
    pub fn new(alloc: Global) -> Reader
        ensures { result ≡ nothing }
    {
        Reader {
            alloc,
            version: 0,
            phase: 1,
            groups: Vec::new(alloc),
            group: None,
            group_index: NameIndex::new(alloc),
            apps: Vec::new(alloc),
            app: None,
            app_index: NameIndex::new(alloc),
            order: Vec::new(alloc),
        }
    }

    /// Whether the section that the keyword's lines need is begun.
    fn has_section(&self, keyword: Keyword) -> bool
        ensures { result ≡ has_section self.now keyword }
    {
        match keyword {
            Keyword::Group => true,
            Keyword::Part(_) => self.group.is_some(),
            Keyword::Wire(_) => true,
            Keyword::App => true,
            Keyword::Act(_) => self.app.is_some(),
            Keyword::Order => true,
        }
    }

    /// Whether a line of the keyword may stand here.
    fn is_allowed(&self, keyword: Keyword) -> bool
        ensures { result ≡ is_allowed self.now keyword }
    {
        self.phase <= phase_of(keyword)
            && since(keyword) <= self.version
            && self.has_section(keyword)
    }

    /// The group of a place.
    fn group_at(&self, place: usize) -> Option<&Group>
        ensures { option_copied result ≡ slice_get (groups_of self.now) place }
    {
        if place < self.groups.len() {
            return Some(&self.groups[place]);
        }
        if place == self.groups.len() {
            self.group.as_ref()
        } else {
            None
        }
    }

    /// The number of the group of a name.
    pub fn group_number(&self, token: &[u8]) -> Result<u32, LineError>
        ensures { Gives (λ n. n) result (known_name_in (group_names self.now) token.now) }
    {
        known_name_in(self.alloc, &self.group_index, token)
    }

    /// The memory that the reader takes from.
    pub fn memory(&self) -> Global {
        self.alloc
    }

    /// The group of a name, with its number.
    #[tactic(auto, unfolding(st_grammar::specs::Commands::group_in))]
    pub fn group_in(&self, token: &[u8]) -> Result<(u32, &Group), LineError>
        ensures { Gives (λ g. (g.0, g.1.now)) result (group_in self.now token.now) }
    {
        let place = self.group_number(token)?;
        match self.group_at(place as usize) {
            Some(group) => Ok((place, group)),
            None => Err(LineError::Bad(FaultKind::Unknown)),
        }
    }

    /// Takes the line of a keyword.
    fn declare(&mut self, keyword: Keyword, line: &[u8], tokens: &[Token]) -> Result<(), LineError>
        requires { All (IsTokenOf line.now) tokens.now }
        ensures { Gives (λ _. self.new) result (declared_by self.old keyword (map (token_in line.now) tokens.now)) }
    {
        match keyword {
            Keyword::Group => self.group(line, tokens),
            Keyword::Part(word) => self.part(word, line, tokens),
            Keyword::Wire(word) => self.wire(word, line, tokens),
            Keyword::App => self.app(line, tokens),
            Keyword::Act(word) => self.act(word, line, tokens),
            Keyword::Order => self.order(line, tokens),
        }
    }

    /// Takes the line of a keyword, and notes its phase.
    #[tactic(auto, unfolding(st_grammar::specs::Lines::phased_line))]
    fn phased(&mut self, keyword: Keyword, line: &[u8], tokens: &[Token]) -> Result<(), LineError>
        requires { All (IsTokenOf line.now) tokens.now }
        ensures { Gives (λ _. self.new) result (phased_line self.old keyword (map (token_in line.now) tokens.now)) }
    {
        self.declare(keyword, line, tokens)?;
        self.phase = phase_of(keyword);
        Ok(())
    }

    /// Takes a line that begins with this word.
    #[tactic(auto, unfolding(st_grammar::specs::Lines::keyword_line))]
    fn keyword_line(&mut self, word: &[u8], line: &[u8], tokens: &[Token]) -> Result<(), LineError>
        requires { All (IsTokenOf line.now) tokens.now }
        ensures { Gives (λ _. self.new) result (keyword_line self.old word.now (map (token_in line.now) tokens.now)) }
    {
        match keyword_of(word) {
            None => Err(LineError::Bad(FaultKind::Word)),
            Some(keyword) => {
                if self.is_allowed(keyword) {
                    self.phased(keyword, line, tokens)
                } else {
                    Err(LineError::Bad(FaultKind::Word))
                }
            }
        }
    }

    /// Takes the first line that is not skipped.
    #[tactic(auto, unfolding(st_grammar::specs::Lines::header_line))]
    fn header(&mut self, line: &[u8], tokens: &[Token]) -> Result<(), LineError>
        requires { All (IsTokenOf line.now) tokens.now }
        ensures { Gives (λ _. self.new) result (header_line self.old (map (token_in line.now) tokens.now)) }
    {
        match version_named(line, tokens) {
            Some(version) => {
                self.version = version;
                Ok(())
            }
            None => Err(LineError::Bad(FaultKind::Header)),
        }
    }

    /// Takes a line with these tokens.
    fn words(&mut self, line: &[u8], tokens: &[Token]) -> Result<(), LineError>
        requires { All (IsTokenOf line.now) tokens.now }
        ensures { Gives (λ _. self.new) result (tokens_line self.old (map (token_in line.now) tokens.now)) }
    {
        if tokens.is_empty() {
            return Ok(());
        }
        let word = &line[tokens[0].start..tokens[0].end];
        if is_comment(word) {
            return Ok(());
        }
        if self.has_header() {
            self.keyword_line(word, line, &tokens[1..])
        } else {
            self.header(line, tokens)
        }
    }

    /// Whether the header stood.
    pub fn has_header(&self) -> bool
        ensures { result ≡ has_header self.now }
    {
        1 <= self.version
    }
}

impl TakesLines for Reader {
    ghost line_of = { line_of };

    #[tactic(auto, unfolding(st_grammar::specs::Lines::line_of))]
    fn line(&mut self, line: &[u8]) -> Result<(), LineError> {
        if !has_allowed_bytes(line) {
            return Err(LineError::Bad(FaultKind::Byte));
        }
        let words = tokens(self.alloc, line)?;
        self.words(line, words.as_slice())
    }
}
