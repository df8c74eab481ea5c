//! The opening values and the healths of a group's entities. Each kind of line has a function that reads it, one that adds what
//! was read, and one that does both.

ghost use Rattle.std.specs.Prelude.{◌≡◌, map, OnOk, IfOk, All, false};
ghost use Rattle.st_text.specs.Tokens.{token_in, IsTokenOf};
ghost use Rattle.st_token.specs.Steps.{Gives};
ghost use Rattle.st_grammar.specs.Draft.{IsEntityIn, MaySet, with_open, opened, has_health, with_health};
ghost use Rattle.st_grammar.specs.Spelling.{untold_in};
ghost use Rattle.st_grammar.specs.Sections.{open_of, open_line, health_of, health_line};

use crate::group::Group;
use st_net::{Entity, Row, most_health};
use st_text::Token;
use st_token::{
    FaultKind, LineError, NamedEntities, new_assignment_in, number_within, one_of, two_of,
};
use std::alloc::AllocError;

impl Group {
    /// The opening value that a line sets.
    #[tactic(auto, unfolding(st_grammar::specs::Sections::open_of))]
    fn open_of(&self, line: &[u8], tokens: &[Token]) -> Result<Row, LineError>
        requires { All (IsTokenOf line.now) tokens.now }
        ensures gives { Gives (λ row. row) result (open_of self.now (map (token_in line.now) tokens.now)) }
        ensures fits { IfOk result (MaySet self.now self.now.opens) }
    {
        let word = one_of(line, tokens)?;
        new_assignment_in(self.alloc, self, &self.opens, word)
    }

    /// Sets an opening value.
    fn set_opening(&mut self, row: Row)
        requires { IsEntityIn self.old row.entity }
        ensures { self.new ≡ opened self.old row.entity row.var row.value }
    {
        match row.entity {
            Entity::Device(i) => {
                let device = &mut self.devices[i as usize];
                device.vals = device.vals.with(row.entity, row.var, row.value);
            }
            Entity::Link(i) => {
                let link = &mut self.links[i as usize];
                link.vals = link.vals.with(row.entity, row.var, row.value);
            }
        }
    }

    /// Adds an opening value.
    fn add_open(&mut self, row: Row) -> Result<(), AllocError>
        requires { MaySet self.old self.old.opens row }
        ensures ok { OnOk result (self.new ≡ with_open self.old row) }
        ensures name { self.new.name ≡ self.old.name }
    {
        self.opens.add(row)?;
        self.set_opening(row);
        Ok(())
    }

    /// Takes an `open` line.
    #[tactic(auto, unfolding(st_grammar::specs::Sections::open_line))]
    pub(crate) fn open(&mut self, line: &[u8], tokens: &[Token]) -> Result<(), LineError>
        requires { All (IsTokenOf line.now) tokens.now }
        ensures gives { Gives (λ _. self.new) result (open_line self.old (map (token_in line.now) tokens.now)) }
        ensures name { self.new.name ≡ self.old.name }
    {
        let row = self.open_of(line, tokens)?;
        self.add_open(row)?;
        Ok(())
    }

    /// Whether the health of an entity is given.
    fn has_health(&self, entity: Entity) -> bool
        ensures { result ≡ has_health self.now entity }
    {
        match entity {
            Entity::Device(i) => self.told_devices.has(i),
            Entity::Link(i) => self.told_links.has(i),
        }
    }

    /// An entity whose health is not given yet.
    #[tactic(auto, unfolding(st_grammar::specs::Spelling::untold_in))]
    fn untold_in(&self, token: &[u8]) -> Result<Entity, LineError>
        ensures gives { Gives (λ entity. entity) result (untold_in self.now token.now) }
        ensures within { IfOk result (IsEntityIn self.now) }
        ensures fresh { IfOk result (λ entity. has_health self.now entity ≡ false) }
    {
        let entity = self.entity_in(self.alloc, token)?;
        if self.has_health(entity) {
            Err(LineError::Bad(FaultKind::Twice))
        } else {
            Ok(entity)
        }
    }

    /// The health that a line gives.
    #[tactic(auto, unfolding(st_grammar::specs::Sections::health_of))]
    fn health_of(&self, line: &[u8], tokens: &[Token]) -> Result<(Entity, u32), LineError>
        requires { All (IsTokenOf line.now) tokens.now }
        ensures gives { Gives (λ told. told) result (health_of self.now (map (token_in line.now) tokens.now)) }
        ensures within { IfOk result (λ told. IsEntityIn self.now told.0) }
        ensures fresh { IfOk result (λ told. has_health self.now told.0 ≡ false) }
    {
        let (name, health) = two_of(line, tokens)?;
        let entity = self.untold_in(name)?;
        let health = number_within(0, most_health(entity), health)?;
        Ok((entity, health))
    }

    /// Adds a health.
    fn add_health(&mut self, entity: Entity, health: u32) -> Result<(), AllocError>
        requires within { IsEntityIn self.old entity }
        requires fresh { has_health self.old entity ≡ false }
        ensures ok { OnOk result (self.new ≡ with_health self.old entity health) }
        ensures name { self.new.name ≡ self.old.name }
    {
        match entity {
            Entity::Device(i) => {
                self.told_devices.add(i)?;
                self.devices[i as usize].health = health;
            }
            Entity::Link(i) => {
                self.told_links.add(i)?;
                self.links[i as usize].health = health;
            }
        }
        Ok(())
    }

    /// Takes a `health` line.
    #[tactic(auto, unfolding(st_grammar::specs::Sections::health_line))]
    pub(crate) fn health(&mut self, line: &[u8], tokens: &[Token]) -> Result<(), LineError>
        requires { All (IsTokenOf line.now) tokens.now }
        ensures gives { Gives (λ _. self.new) result (health_line self.old (map (token_in line.now) tokens.now)) }
        ensures name { self.new.name ≡ self.old.name }
    {
        let (entity, health) = self.health_of(line, tokens)?;
        self.add_health(entity, health)?;
        Ok(())
    }
}
