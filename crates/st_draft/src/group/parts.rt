//! The devices, links and promises of a group. Each kind of line has a function that reads it, one that adds what was read, and
//! one that does both.

ghost use Rattle.std.specs.Prelude.{◌≡◌, ◌≤◌, if◌then◌else◌, map, OnOk, IfOk, All, true};
ghost use Rattle.st_text.specs.Tokens.{token_in, IsTokenOf};
ghost use Rattle.st_net.specs.Names.{is_among};
ghost use Rattle.st_net.specs.Faults.{device_names, number_of as place_by, is_tor_name, was_promised, is_bad_pair};
ghost use Rattle.st_token.specs.Steps.{Gives};
ghost use Rattle.st_grammar.specs.Draft.{MayAddDevice, MayAddLink, MayAddPromise, with_device, with_link, with_promise};
ghost use Rattle.st_grammar.specs.Spelling.{end_in, cross_end_in};
ghost use Rattle.st_grammar.specs.Sections.{device_of, device_line, has_device_room, link_of, link_line, own_end, promise_of, promise_line};

use crate::group::Group;
use crate::spelling::is_tor_word;
use st_net::{
    DEVICE_HEALTH, DevicePart, EndPart, LINK_HEALTH, LinkPart, MAX_CAPACITY, MAX_DEVICES,
    MAX_LINKS, MAX_PERCENT, MAX_PROMISES, MAX_TORS, Name, Pair, PromisePart, Vals,
};
use st_text::Token;
use st_token::{
    FaultKind, LineError, cut_at, four_of, name_in, new_name_in, number_within, three_of, two_of,
};
use std::alloc::AllocError;

/// The values that a device opens with where no line says otherwise.
const DEVICE_DEFAULT: Vals = Vals {
    v0: 1,
    v1: 1,
    v2: 1,
    v3: 1,
};

/// The values that a link opens with where no line says otherwise; it has two variables alone.
const LINK_DEFAULT: Vals = Vals {
    v0: 1,
    v1: 1,
    v2: 0,
    v3: 0,
};

/// How many a device counts for among the ToRs.
fn count_of(tor: bool) -> usize
    ensures value { result ≡ (if tor then 1 else 0) }
    ensures few { result ≤ 1 }
{
    if tor { 1 } else { 0 }
}

/// An end in the link's own group.
fn own_end(name: Name) -> EndPart
    ensures { result ≡ own_end name }
{
    EndPart { group: None, name }
}

impl Group {
    /// Whether there is room for a device, which is a ToR or not.
    fn has_device_room(&self, tor: bool) -> bool
        ensures { result ≡ has_device_room self.now tor }
    {
        self.devices.len() < MAX_DEVICES && (!tor || self.tors < MAX_TORS)
    }

    /// The device that a line declares.
    #[tactic(auto, unfolding(st_grammar::specs::Sections::device_of, st_token::specs::Spelling::new_name_in))]
    fn device_of(&self, line: &[u8], tokens: &[Token]) -> Result<DevicePart, LineError>
        requires { All (IsTokenOf line.now) tokens.now }
        ensures gives { Gives (λ device. device) result (device_of self.now (map (token_in line.now) tokens.now)) }
        ensures fits { IfOk result (MayAddDevice self.now) }
    {
        let (name, kind) = two_of(line, tokens)?;
        let name = new_name_in(self.alloc, self.is_entity_name(name), name)?;
        let tor = is_tor_word(kind)?;
        if !self.has_device_room(tor) {
            return Err(LineError::Bad(FaultKind::Limit));
        }
        Ok(DevicePart {
            name,
            tor,
            vals: DEVICE_DEFAULT,
            health: DEVICE_HEALTH,
        })
    }

    /// Adds a device.
    fn add_device(&mut self, device: DevicePart) -> Result<(), AllocError>
        requires { MayAddDevice self.old device }
        ensures ok { OnOk result (self.new ≡ with_device self.old device) }
        ensures name { self.new.name ≡ self.old.name }
    {
        self.devices.reserve(1)?;
        self.device_names.add(&device.name)?;
        self.tors += count_of(device.tor);
        self.devices.push_reserved(device);
        Ok(())
    }

    /// Takes a `device` line.
    #[tactic(auto, unfolding(st_grammar::specs::Sections::device_line))]
    pub(crate) fn device(&mut self, line: &[u8], tokens: &[Token]) -> Result<(), LineError>
        requires { All (IsTokenOf line.now) tokens.now }
        ensures gives { Gives (λ _. self.new) result (device_line self.old (map (token_in line.now) tokens.now)) }
        ensures name { self.new.name ≡ self.old.name }
    {
        let device = self.device_of(line, tokens)?;
        self.add_device(device)?;
        Ok(())
    }

    /// An end with a group's name.
    #[tactic(auto, unfolding(st_grammar::specs::Spelling::cross_end_in))]
    fn cross_end_in(&self, group: &[u8], token: &[u8]) -> Result<Name, LineError>
        ensures { Gives (λ name. name) result (cross_end_in self.now group.now token.now) }
    {
        let own = name_in(self.alloc, group)?;
        let name = name_in(self.alloc, token)?;
        if own.is_same(&self.name) {
            self.device_in(name.bytes())
        } else {
            Err(LineError::Bad(FaultKind::Cross))
        }
    }

    /// An end of a link.
    fn end_in(&self, token: &[u8]) -> Result<Name, LineError>
        ensures { Gives (λ name. name) result (end_in self.now token.now) }
    {
        match cut_at(b'/', token) {
            Some((group, name)) => self.cross_end_in(group, name),
            None => self.device_in(token),
        }
    }

    /// The link that a line declares.
    #[tactic(auto, unfolding(st_grammar::specs::Sections::link_of, st_token::specs::Spelling::new_name_in))]
    fn link_of(&self, line: &[u8], tokens: &[Token]) -> Result<LinkPart, LineError>
        requires { All (IsTokenOf line.now) tokens.now }
        ensures gives { Gives (λ link. link) result (link_of self.now (map (token_in line.now) tokens.now)) }
        ensures fits { IfOk result (MayAddLink self.now) }
    {
        let (name, a, b, capacity) = four_of(line, tokens)?;
        let name = new_name_in(self.alloc, self.is_entity_name(name), name)?;
        let a = self.end_in(a)?;
        let b = self.end_in(b)?;
        let capacity = number_within(1, MAX_CAPACITY, capacity)?;
        if a.is_same(&b) {
            return Err(LineError::Bad(FaultKind::Loop));
        }
        if self.links.len() >= MAX_LINKS {
            return Err(LineError::Bad(FaultKind::Limit));
        }
        Ok(LinkPart {
            name,
            a: own_end(a),
            b: own_end(b),
            capacity,
            vals: LINK_DEFAULT,
            health: LINK_HEALTH,
        })
    }

    /// Adds a link.
    fn add_link(&mut self, link: LinkPart) -> Result<(), AllocError>
        requires { MayAddLink self.old link }
        ensures ok { OnOk result (self.new ≡ with_link self.old link) }
        ensures name { self.new.name ≡ self.old.name }
    {
        self.links.reserve(1)?;
        self.link_names.add(&link.name)?;
        self.links.push_reserved(link);
        Ok(())
    }

    /// Takes a `link` line.
    #[tactic(auto, unfolding(st_grammar::specs::Sections::link_line))]
    pub(crate) fn link(&mut self, line: &[u8], tokens: &[Token]) -> Result<(), LineError>
        requires { All (IsTokenOf line.now) tokens.now }
        ensures gives { Gives (λ _. self.new) result (link_line self.old (map (token_in line.now) tokens.now)) }
        ensures name { self.new.name ≡ self.old.name }
    {
        let link = self.link_of(line, tokens)?;
        self.add_link(link)?;
        Ok(())
    }

    /// Whether the device of a name is a ToR.
    fn is_tor_name(&self, name: &[u8]) -> bool
        ensures { result ≡ is_tor_name self.now.devices name.now }
    {
        match self.device_names.find(name) {
            Some(place) => self.devices[place].tor,
            None => false,
        }
    }

    /// Whether a pair was promised, in this order or in the other.
    fn was_promised(&self, a: &[u8], b: &[u8]) -> bool
        ensures { result ≡ was_promised a.now b.now self.now.promises }
    {
        match (self.device_names.find(a), self.device_names.find(b)) {
            (Some(a), Some(b)) => self.pairs.has_either(Pair {
                a: a as u32,
                b: b as u32,
            }),
            _ => false,
        }
    }

    /// Whether a promise is on a pair that it may not be on.
    fn is_bad_pair(&self, promise: &PromisePart) -> bool
        ensures { result ≡ is_bad_pair self.now.devices self.now.promises promise.now }
    {
        !self.is_tor_name(promise.a.bytes())
            || !self.is_tor_name(promise.b.bytes())
            || promise.a.is_same(&promise.b)
            || self.was_promised(promise.a.bytes(), promise.b.bytes())
    }

    /// The promise that a line declares.
    #[tactic(auto, unfolding(st_grammar::specs::Sections::promise_of, st_grammar::specs::Spelling::device_in))]
    fn promise_of(&self, line: &[u8], tokens: &[Token]) -> Result<PromisePart, LineError>
        requires { All (IsTokenOf line.now) tokens.now }
        ensures gives { Gives (λ promise. promise) result (promise_of self.now (map (token_in line.now) tokens.now)) }
        ensures fits { IfOk result (MayAddPromise self.now) }
    {
        let (a, b, percent) = three_of(line, tokens)?;
        let a = self.device_in(a)?;
        let b = self.device_in(b)?;
        let percent = number_within(0, MAX_PERCENT, percent)?;
        let promise = PromisePart { a, b, percent };
        if self.is_bad_pair(&promise) {
            return Err(LineError::Bad(FaultKind::Pair));
        }
        if self.promises.len() >= MAX_PROMISES {
            return Err(LineError::Bad(FaultKind::Limit));
        }
        Ok(promise)
    }

    /// The place of a device's name.
    fn place(&self, name: &[u8]) -> u32
        requires { is_among name.now (device_names self.now.devices) ≡ true }
        ensures { result ≡ place_by (device_names self.now.devices) name.now }
    {
        match self.device_names.find(name) {
            Some(place) => place as u32,
            None => unreachable!(),
        }
    }

    /// Adds a promise.
    fn add_promise(&mut self, promise: PromisePart) -> Result<(), AllocError>
        requires { MayAddPromise self.old promise }
        ensures ok { OnOk result (self.new ≡ with_promise self.old promise) }
        ensures name { self.new.name ≡ self.old.name }
    {
        let a = self.place(promise.a.bytes());
        let b = self.place(promise.b.bytes());
        self.promises.reserve(1)?;
        self.pairs.add(Pair { a, b })?;
        self.promises.push_reserved(promise);
        Ok(())
    }

    /// Takes a `promise` line.
    #[tactic(auto, unfolding(st_grammar::specs::Sections::promise_line))]
    pub(crate) fn promise(&mut self, line: &[u8], tokens: &[Token]) -> Result<(), LineError>
        requires { All (IsTokenOf line.now) tokens.now }
        ensures gives { Gives (λ _. self.new) result (promise_line self.old (map (token_in line.now) tokens.now)) }
        ensures name { self.new.name ≡ self.old.name }
    {
        let promise = self.promise_of(line, tokens)?;
        self.add_promise(promise)?;
        Ok(())
    }
}
