//! The lines that begin groups and applications, those of a group's section, and the order of applications.

ghost use Rattle.std.specs.Prelude.{◌≡◌, ◌<◌, ◌^◌, ◌++◌, ◌∷◌, [], length, map, OnOk, IfOk, All, Some, None, false};
ghost use Rattle.st_text.specs.Tokens.{token_in, IsTokenOf};
ghost use Rattle.st_net.specs.Names.{is_among};
ghost use Rattle.st_token.specs.Steps.{Gives};
ghost use Rattle.st_token.specs.Spelling.{known_name_in};
ghost use Rattle.st_grammar.specs.Draft.{empty_group, empty_script, groups_of, apps_of, group_names, app_names};
ghost use Rattle.st_grammar.specs.Sections.{part_line};
ghost use Rattle.st_grammar.specs.Lines.{begun_name, into_group, group_line, app_line, known_names_in, order_line};

use crate::reader::Reader;
use st_draft::Group;
use st_grammar::{MAX_APPS, MAX_GROUPS, PartWord, Script};
use st_net::{Items, Name, NameIndex};
use st_text::Token;
use st_token::{FaultKind, LineError, known_name_in, new_name_in, one_of};
use std::alloc::{AllocError, Global};

/// The name of a new section, where there are at most so many.
#[tactic(auto, unfolding(st_grammar::specs::Lines::begun_name, st_token::specs::Spelling::new_name_in))]
fn begun_name(
    alloc: Global,
    names: &NameIndex,
    most: usize,
    line: &[u8],
    tokens: &[Token],
) -> Result<Name, LineError>
    requires { All (IsTokenOf line.now) tokens.now }
    ensures gives { Gives (λ name. name) result (begun_name names.now most (map (token_in line.now) tokens.now)) }
    ensures fresh { IfOk result (λ name. is_among name names.now ≡ false) }
    ensures room { IfOk result (λ name. length names.now < most) }
{
    let word = one_of(line, tokens)?;
    let name = new_name_in(alloc, names.find(word).is_some(), word)?;
    if names.len() < most {
        Ok(name)
    } else {
        Err(LineError::Bad(FaultKind::Limit))
    }
}

/// The places of declared names.
#[tactic(auto, unfolding(st_grammar::specs::Lines::known_names_in))]
fn known_names_in(
    alloc: Global,
    names: &NameIndex,
    line: &[u8],
    tokens: &[Token],
) -> Result<Vec<u32>, LineError>
    requires tokens { All (IsTokenOf line.now) tokens.now }
    requires few { length names.now < 2 ^ 32 }
    ensures { Gives (λ places. places.items) result (known_names_in names.now [] (map (token_in line.now) tokens.now)) }
{
    let mut places = Vec::new(alloc);
    for token in tokens {
        add_known_name(alloc, names, &mut places, &line[token.start..token.end])?;
    }
    Ok(places)
}

/// Adds the place of a declared name, and gives it. All that can fail for one name stands here, where the places are borrowed.
fn add_known_name(
    alloc: Global,
    names: &NameIndex,
    places: &mut Vec<u32>,
    token: &[u8],
) -> Result<u32, LineError>
    requires { length names.now < 2 ^ 32 }
    ensures gives { Gives (λ place. place) result (known_name_in names.now token.now) }
    ensures added { IfOk result (λ place. places.new.items ≡ places.old.items ++ place ∷ []) }
{
    let place = known_name_in(alloc, names, token)?;
    places.push(place)?;
    Ok(place)
}

/// An application without commands.
fn empty_script(alloc: Global, name: Name) -> Script
    ensures { result ≡ empty_script name }
{
    Script {
        name,
        acts: Items::none(alloc),
    }
}

impl Reader {
    /// Ends the group that is begun.
    fn end_group(&mut self) -> Result<(), AllocError>
        ensures { OnOk result (self.new ≡ record self.old { groups = groups_of self.old; group = None }) }
    {
        self.groups.reserve(1)?;
        if let Some(ended) = self.group.take() {
            self.groups.push_reserved(ended);
        }
        Ok(())
    }

    /// Ends the group that is begun, and begins another.
    fn begin_group(&mut self, name: Name) -> Result<(), AllocError>
        requires fresh { is_among name (group_names self.old) ≡ false }
        requires room { length (group_names self.old) < MAX_GROUPS }
        ensures { OnOk result (self.new ≡ record self.old { groups = groups_of self.old; group = Some (empty_group name) }) }
    {
        self.end_group()?;
        self.group_index.add(&name)?;
        self.group = Some(Group::begin(self.alloc, name));
        Ok(())
    }

    /// Takes a `group` line.
    #[tactic(auto, unfolding(st_grammar::specs::Lines::group_line))]
    pub(crate) fn group(&mut self, line: &[u8], tokens: &[Token]) -> Result<(), LineError>
        requires { All (IsTokenOf line.now) tokens.now }
        ensures { Gives (λ _. self.new) result (group_line self.old (map (token_in line.now) tokens.now)) }
    {
        let name = begun_name(self.alloc, &self.group_index, MAX_GROUPS, line, tokens)?;
        self.begin_group(name)?;
        Ok(())
    }

    /// Ends the application that is begun, and begins another.
    fn begin_app(&mut self, name: Name) -> Result<(), AllocError>
        requires fresh { is_among name (app_names self.old) ≡ false }
        requires room { length (app_names self.old) < MAX_APPS }
        ensures { OnOk result (self.new ≡ record self.old { apps = apps_of self.old; app = Some (empty_script name) }) }
    {
        self.apps.reserve(1)?;
        self.app_index.add(&name)?;
        if let Some(ended) = self.app.replace(empty_script(self.alloc, name)) {
            self.apps.push_reserved(ended);
        }
        Ok(())
    }

    /// Takes an `app` line.
    #[tactic(auto, unfolding(st_grammar::specs::Lines::app_line))]
    pub(crate) fn app(&mut self, line: &[u8], tokens: &[Token]) -> Result<(), LineError>
        requires { All (IsTokenOf line.now) tokens.now }
        ensures { Gives (λ _. self.new) result (app_line self.old (map (token_in line.now) tokens.now)) }
    {
        let name = begun_name(self.alloc, &self.app_index, MAX_APPS, line, tokens)?;
        self.begin_app(name)?;
        Ok(())
    }

    /// Takes a line of a group's section.
    pub(crate) fn part(
        &mut self,
        word: PartWord,
        line: &[u8],
        tokens: &[Token],
    ) -> Result<(), LineError>
        requires { All (IsTokenOf line.now) tokens.now }
        ensures { Gives (λ _. self.new) result (into_group self.old (λ g. part_line g word (map (token_in line.now) tokens.now))) }
    {
        match &mut self.group {
            None => Err(LineError::Bad(FaultKind::Word)),
            Some(group) => group.part(word, line, tokens),
        }
    }

    /// Takes an `order` line.
    #[tactic(auto, unfolding(st_grammar::specs::Lines::order_line))]
    pub(crate) fn order(&mut self, line: &[u8], tokens: &[Token]) -> Result<(), LineError>
        requires { All (IsTokenOf line.now) tokens.now }
        ensures { Gives (λ _. self.new) result (order_line self.old (map (token_in line.now) tokens.now)) }
    {
        if tokens.is_empty() {
            return Err(LineError::Bad(FaultKind::Count));
        }
        let apps = known_names_in(self.alloc, &self.app_index, line, tokens)?;
        self.order.extend_from_slice(apps.as_slice())?;
        Ok(())
    }
}
