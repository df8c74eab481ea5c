//! A group, as the lines of its section declare it: its type, what its names find, and its lines by their words.

ghost use Rattle.std.specs.Prelude.{◌≡◌, map, length, OnOk, OnErr, IfOk, All};
ghost use Rattle.st_text.specs.Tokens.{token_in, IsTokenOf};
ghost use Rattle.st_token.specs.Steps.{Gives};
ghost use Rattle.st_grammar.specs.Draft.{empty_group, is_entity_name, IsEntityIn, parts_of, with_wire};
ghost use Rattle.st_grammar.specs.Spelling.{device_in, entity_named};
ghost use Rattle.st_grammar.specs.Sections.{part_line};

mod opening;
mod parts;

use crate::numbers::Numbers;
use st_grammar::PartWord;
use st_net::{DevicePart, Entity, Items, LinkPart, Name, NameIndex, Pairs, Parts, PromisePart};
use st_text::Token;
use st_token::{FaultKind, LineError, NamedEntities, RowSet, name_in};
use st_wire::WireLine;
use std::alloc::{AllocError, Global};
use std::marker::Model;

/// A group that is being declared, with the indexes that answer what was declared so far.
#[derive(Drop)]
pub struct Group {
    alloc: Global,
    name: Name,
    devices: Vec<DevicePart>,
    device_names: NameIndex,
    tors: usize,
    links: Vec<LinkPart>,
    link_names: NameIndex,
    promises: Vec<PromisePart>,
    // Each promised pair by the places of its devices, as it was declared.
    pairs: Pairs,
    opens: RowSet,
    // The devices and the links whose health is given.
    told_devices: Numbers,
    told_links: Numbers,
    wires: Items<WireLine>,
}

impl Model for Group {
    ghost use Rattle.st_grammar.specs.Draft.{GroupDraft};
    ghost use Rattle.st_draft.specs.GroupInside.{draft_of, HasIndexes, HasPairs};

    ghost Value = { GroupDraft };

    ghost view = { draft_of };

    ghost invariant = { λ g. HasIndexes g.devices.items g.device_names g.tors g.links.items g.link_names × HasPairs g.devices.items g.promises.items g.pairs };
}

impl Group {
    /// A group without parts.
    pub fn begin(alloc: Global, name: Name) -> Group
        ensures { result ≡ empty_group name }
    {
        Group {
            alloc,
            name,
            devices: Vec::new(alloc),
            device_names: NameIndex::new(alloc),
            tors: 0,
            links: Vec::new(alloc),
            link_names: NameIndex::new(alloc),
            promises: Vec::new(alloc),
            pairs: Pairs::new(alloc),
            opens: RowSet::new(alloc),
            told_devices: Numbers::new(alloc),
            told_links: Numbers::new(alloc),
            wires: Items::none(alloc),
        }
    }

    /// The parts that were declared, and the wire lines.
    pub fn into_parts(self) -> (Parts, Items<WireLine>)
        ensures parts { result.0 ≡ parts_of self }
        ensures wires { result.1 ≡ self.wires }
    {
        let Group {
            alloc: _,
            name,
            devices,
            device_names,
            tors: _,
            links,
            link_names,
            promises,
            pairs,
            opens,
            told_devices,
            told_links,
            wires,
        } = self;
        // What is left is handed to `drop` part by part: so the proof is short.
        drop(device_names);
        drop(link_names);
        drop(pairs);
        drop(opens);
        drop(told_devices);
        drop(told_links);
        let parts = Parts::of(
            name,
            Items::new(devices),
            Items::new(links),
            Items::new(promises),
        );
        (parts, wires)
    }

    /// Whether a device or a link has the name.
    pub(crate) fn is_entity_name(&self, name: &[u8]) -> bool
        ensures { result ≡ is_entity_name self.now name.now }
    {
        self.device_names.find(name).is_some() || self.link_names.find(name).is_some()
    }

    /// The name of a device.
    #[tactic(auto, unfolding(st_grammar::specs::Spelling::device_in))]
    pub(crate) fn device_in(&self, token: &[u8]) -> Result<Name, LineError>
        ensures { Gives (λ name. name) result (device_in self.now token.now) }
    {
        let name = name_in(self.alloc, token)?;
        if self.device_names.find(name.bytes()).is_some() {
            Ok(name)
        } else {
            Err(LineError::Bad(FaultKind::Unknown))
        }
    }

    /// Takes a line of the group's section. At `Err` the group has the name that it had, and no more is said of it: the
    /// reader stops there and drops it.
    pub fn part(&mut self, word: PartWord, line: &[u8], tokens: &[Token]) -> Result<(), LineError>
        requires { All (IsTokenOf line.now) tokens.now }
        ensures gives { Gives (λ _. self.new) result (part_line self.old word (map (token_in line.now) tokens.now)) }
        ensures name { self.new.name ≡ self.old.name }
    {
        match word {
            PartWord::Device => self.device(line, tokens),
            PartWord::Link => self.link(line, tokens),
            PartWord::Promise => self.promise(line, tokens),
            PartWord::Open => self.open(line, tokens),
            PartWord::Health => self.health(line, tokens),
        }
    }

    /// How many wire lines the group has.
    pub fn wire_count(&self) -> usize
        ensures { result ≡ length self.now.wires }
    {
        self.wires.as_slice().len()
    }

    /// Adds a wire line. `Err` is for want of memory alone, and nothing has changed then.
    pub fn add_wire(&mut self, line: WireLine) -> Result<(), AllocError>
        ensures ok { OnOk result (self.new ≡ with_wire self.old line) }
        ensures err { OnErr result (self.new ≡ self.old) }
        ensures name { self.new.name ≡ self.old.name }
    {
        self.wires.add(line)
    }
}

impl NamedEntities for Group {
    ghost find = { entity_named };

    ghost IsWithin = { IsEntityIn };

    // The draft's own indexes are asked first, and a name is copied only to say what is wrong with it.
    #[tactic(auto, unfolding(st_token::specs::Spelling::entity_in))]
    fn entity_in(&self, alloc: Global, token: &[u8]) -> Result<Entity, LineError> {
        if let Some(place) = self.device_names.find(token) {
            return Ok(Entity::Device(place as u32));
        }
        if let Some(place) = self.link_names.find(token) {
            return Ok(Entity::Link(place as u32));
        }
        let _name = name_in(alloc, token)?;
        Err(LineError::Bad(FaultKind::Unknown))
    }
}
