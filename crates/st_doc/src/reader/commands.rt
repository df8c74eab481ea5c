//! The acts of applications, and the wire lines: what a line of each word asks for, which is added to its application or its
//! group where there is room.

ghost use Rattle.std.specs.Prelude.{◌≡◌, map, OnOk, All};
ghost use Rattle.st_text.specs.Tokens.{token_in, IsTokenOf};
ghost use Rattle.st_token.specs.Steps.{Gives};
ghost use Rattle.st_grammar.specs.Commands.{group_entity_in, propose_of, await_of, settle_of, lock_of, unlock_of, read_of, readat_of, fail_of, poll_of, act_of, drop_of, repeat_of, hold_of, wire_of};
ghost use Rattle.st_grammar.specs.Lines.{act_added, act_line, wire_count, with_wire_line, wire_line};

use crate::reader::Reader;
use st_draft::wire_kind_in;
use st_event::{Act, Rows};
use st_grammar::{ActWord, MAX_ACTS, MAX_ROUNDS, MAX_WIRE_LINES, WireWord};
use st_net::{Entity, MAX_ROWS, most_health};
use st_text::Token;
use st_token::{
    FaultKind, LineError, NamedEntities, four_of, number_above, number_from, number_in,
    number_within, one_of, prio_in, rows_in, three_of, two_of, values_in, variable_in,
};
use st_wire::WireLine;
use std::alloc::AllocError;

impl Reader {
    /// The group of a name, with the entity of a name in it.
    #[tactic(auto, unfolding(st_grammar::specs::Commands::group_entity_in))]
    fn group_entity_in(&self, group: &[u8], name: &[u8]) -> Result<(u32, Entity), LineError>
        ensures { Gives (λ e. e) result (group_entity_in self.now group.now name.now) }
    {
        let (place, group) = self.group_in(group)?;
        let entity = group.entity_in(self.memory(), name)?;
        Ok((place, entity))
    }

    /// The proposal that a line asks for.
    #[tactic(auto, unfolding(st_grammar::specs::Commands::propose_of))]
    fn propose_of(&self, line: &[u8], tokens: &[Token]) -> Result<Act, LineError>
        requires { All (IsTokenOf line.now) tokens.now }
        ensures { Gives (λ act. act) result (propose_of self.now (map (token_in line.now) tokens.now)) }
    {
        if tokens.len() < 2 {
            return Err(LineError::Bad(FaultKind::Count));
        }
        let (group, parts) = self.group_in(&line[tokens[0].start..tokens[0].end])?;
        let rows = rows_in(self.memory(), parts, line, &tokens[1..])?;
        if rows.len() > MAX_ROWS {
            return Err(LineError::Bad(FaultKind::Limit));
        }
        Ok(Act::Propose {
            group,
            rows: Rows::new(rows),
        })
    }

    #[tactic(auto, unfolding(st_grammar::specs::Commands::await_of))]
    fn await_of(&self, line: &[u8], tokens: &[Token]) -> Result<Act, LineError>
        requires { All (IsTokenOf line.now) tokens.now }
        ensures { Gives (λ act. act) result (await_of self.now (map (token_in line.now) tokens.now)) }
    {
        let name = one_of(line, tokens)?;
        let group = self.group_number(name)?;
        Ok(Act::Await { group })
    }

    #[tactic(auto, unfolding(st_grammar::specs::Commands::settle_of))]
    fn settle_of(&self, line: &[u8], tokens: &[Token]) -> Result<Act, LineError>
        requires { All (IsTokenOf line.now) tokens.now }
        ensures { Gives (λ act. act) result (settle_of self.now (map (token_in line.now) tokens.now)) }
    {
        let (name, rounds) = two_of(line, tokens)?;
        let group = self.group_number(name)?;
        let rounds = number_within(1, MAX_ROUNDS, rounds)?;
        Ok(Act::Settle { group, rounds })
    }

    #[tactic(auto, unfolding(st_grammar::specs::Commands::lock_of))]
    fn lock_of(&self, line: &[u8], tokens: &[Token]) -> Result<Act, LineError>
        requires { All (IsTokenOf line.now) tokens.now }
        ensures { Gives (λ act. act) result (lock_of self.now (map (token_in line.now) tokens.now)) }
    {
        let (group, name, prio) = three_of(line, tokens)?;
        let (group, entity) = self.group_entity_in(group, name)?;
        let prio = prio_in(prio)?;
        Ok(Act::Lock {
            group,
            entity,
            prio,
        })
    }

    #[tactic(auto, unfolding(st_grammar::specs::Commands::unlock_of))]
    fn unlock_of(&self, line: &[u8], tokens: &[Token]) -> Result<Act, LineError>
        requires { All (IsTokenOf line.now) tokens.now }
        ensures { Gives (λ act. act) result (unlock_of self.now (map (token_in line.now) tokens.now)) }
    {
        let (group, name, prio) = three_of(line, tokens)?;
        let (group, entity) = self.group_entity_in(group, name)?;
        let prio = prio_in(prio)?;
        Ok(Act::Unlock {
            group,
            entity,
            prio,
        })
    }

    #[tactic(auto, unfolding(st_grammar::specs::Commands::read_of))]
    fn read_of(&self, line: &[u8], tokens: &[Token]) -> Result<Act, LineError>
        requires { All (IsTokenOf line.now) tokens.now }
        ensures { Gives (λ act. act) result (read_of self.now (map (token_in line.now) tokens.now)) }
    {
        let (name, variable) = two_of(line, tokens)?;
        let (group, parts) = self.group_in(name)?;
        let (entity, var) = variable_in(self.memory(), parts, variable)?;
        Ok(Act::Read { group, entity, var })
    }

    #[tactic(auto, unfolding(st_grammar::specs::Commands::readat_of))]
    fn readat_of(&self, line: &[u8], tokens: &[Token]) -> Result<Act, LineError>
        requires { All (IsTokenOf line.now) tokens.now }
        ensures { Gives (λ act. act) result (readat_of self.now (map (token_in line.now) tokens.now)) }
    {
        let (name, version, variable) = three_of(line, tokens)?;
        let (group, parts) = self.group_in(name)?;
        let version = number_in(version)?;
        let (entity, var) = variable_in(self.memory(), parts, variable)?;
        Ok(Act::ReadAt {
            group,
            version,
            entity,
            var,
        })
    }

    #[tactic(auto, unfolding(st_grammar::specs::Commands::fail_of))]
    fn fail_of(&self, line: &[u8], tokens: &[Token]) -> Result<Act, LineError>
        requires { All (IsTokenOf line.now) tokens.now }
        ensures { Gives (λ act. act) result (fail_of self.now (map (token_in line.now) tokens.now)) }
    {
        if tokens.len() < 3 {
            return Err(LineError::Bad(FaultKind::Count));
        }
        let (name, entity, health) = three_of(line, &tokens[..3])?;
        let (group, entity) = self.group_entity_in(name, entity)?;
        let health = number_within(0, most_health(entity), health)?;
        let rows = values_in(self.memory(), entity, line, &tokens[3..])?;
        Ok(Act::Fail {
            group,
            entity,
            health,
            rows: Rows::new(rows),
        })
    }

    #[tactic(auto, unfolding(st_grammar::specs::Commands::poll_of))]
    fn poll_of(&self, line: &[u8], tokens: &[Token]) -> Result<Act, LineError>
        requires { All (IsTokenOf line.now) tokens.now }
        ensures { Gives (λ act. act) result (poll_of self.now (map (token_in line.now) tokens.now)) }
    {
        let (group, name) = two_of(line, tokens)?;
        let (group, entity) = self.group_entity_in(group, name)?;
        Ok(Act::Poll { group, entity })
    }

    /// What an act asks for.
    fn act_of(&self, word: ActWord, line: &[u8], tokens: &[Token]) -> Result<Act, LineError>
        requires { All (IsTokenOf line.now) tokens.now }
        ensures { Gives (λ act. act) result (act_of self.now word (map (token_in line.now) tokens.now)) }
    {
        match word {
            ActWord::Propose => self.propose_of(line, tokens),
            ActWord::Await => self.await_of(line, tokens),
            ActWord::Settle => self.settle_of(line, tokens),
            ActWord::Lock => self.lock_of(line, tokens),
            ActWord::Unlock => self.unlock_of(line, tokens),
            ActWord::Read => self.read_of(line, tokens),
            ActWord::ReadAt => self.readat_of(line, tokens),
            ActWord::Fail => self.fail_of(line, tokens),
            ActWord::Poll => self.poll_of(line, tokens),
        }
    }

    /// Adds a command to the application that is begun.
    #[tactic(auto, unfolding(st_grammar::specs::Lines::act_added))]
    fn add_act(&mut self, act: Act) -> Result<(), LineError>
        ensures { Gives (λ _. self.new) result (act_added self.old act) }
    {
        match &mut self.app {
            None => Err(LineError::Bad(FaultKind::Word)),
            Some(app) => {
                if app.acts.as_slice().len() >= MAX_ACTS {
                    return Err(LineError::Bad(FaultKind::Limit));
                }
                app.acts.add(act)?;
                Ok(())
            }
        }
    }

    /// Takes a command.
    #[tactic(auto, unfolding(st_grammar::specs::Lines::act_line))]
    pub(crate) fn act(
        &mut self,
        word: ActWord,
        line: &[u8],
        tokens: &[Token],
    ) -> Result<(), LineError>
        requires { All (IsTokenOf line.now) tokens.now }
        ensures { Gives (λ _. self.new) result (act_line self.old (act_of self.old word (map (token_in line.now) tokens.now))) }
    {
        let act = self.act_of(word, line, tokens)?;
        self.add_act(act)
    }

    #[tactic(auto, unfolding(st_grammar::specs::Commands::drop_of))]
    fn drop_of(&self, line: &[u8], tokens: &[Token]) -> Result<(u32, WireLine), LineError>
        requires { All (IsTokenOf line.now) tokens.now }
        ensures { Gives (λ wire. wire) result (drop_of self.now (map (token_in line.now) tokens.now)) }
    {
        let (name, kind, n) = three_of(line, tokens)?;
        let group = self.group_number(name)?;
        let kind = wire_kind_in(kind)?;
        let n = number_from(1, n)?;
        Ok((group, WireLine::Drop { kind, n }))
    }

    #[tactic(auto, unfolding(st_grammar::specs::Commands::repeat_of))]
    fn repeat_of(&self, line: &[u8], tokens: &[Token]) -> Result<(u32, WireLine), LineError>
        requires { All (IsTokenOf line.now) tokens.now }
        ensures { Gives (λ wire. wire) result (repeat_of self.now (map (token_in line.now) tokens.now)) }
    {
        let (name, kind, n, m) = four_of(line, tokens)?;
        let group = self.group_number(name)?;
        let kind = wire_kind_in(kind)?;
        let n = number_from(1, n)?;
        let m = number_from(n, m)?;
        Ok((group, WireLine::Repeat { kind, n, m }))
    }

    #[tactic(auto, unfolding(st_grammar::specs::Commands::hold_of))]
    fn hold_of(&self, line: &[u8], tokens: &[Token]) -> Result<(u32, WireLine), LineError>
        requires { All (IsTokenOf line.now) tokens.now }
        ensures { Gives (λ wire. wire) result (hold_of self.now (map (token_in line.now) tokens.now)) }
    {
        let (name, kind, n, m) = four_of(line, tokens)?;
        let group = self.group_number(name)?;
        let kind = wire_kind_in(kind)?;
        let n = number_from(1, n)?;
        let m = number_above(n, m)?;
        Ok((group, WireLine::Hold { kind, n, m }))
    }

    /// What a wire line says, with the number of its group.
    fn wire_of(
        &self,
        word: WireWord,
        line: &[u8],
        tokens: &[Token],
    ) -> Result<(u32, WireLine), LineError>
        requires { All (IsTokenOf line.now) tokens.now }
        ensures { Gives (λ wire. wire) result (wire_of self.now word (map (token_in line.now) tokens.now)) }
    {
        match word {
            WireWord::Drop => self.drop_of(line, tokens),
            WireWord::Repeat => self.repeat_of(line, tokens),
            WireWord::Hold => self.hold_of(line, tokens),
        }
    }

    /// How many wire lines the group of a place has.
    fn wire_count(&self, place: u32) -> usize
        ensures { result ≡ wire_count self.now place }
    {
        let place = place as usize;
        if place < self.groups.len() {
            return self.groups[place].wire_count();
        }
        match &self.group {
            Some(group) => group.wire_count(),
            None => 0,
        }
    }

    /// Adds a wire line to the group of a place.
    fn add_wire(&mut self, place: u32, line: WireLine) -> Result<(), AllocError>
        ensures { OnOk result (self.new ≡ with_wire_line self.old place line) }
    {
        let place = place as usize;
        if place < self.groups.len() {
            return self.groups[place].add_wire(line);
        }
        match &mut self.group {
            Some(group) => group.add_wire(line),
            None => Ok(()),
        }
    }

    /// Takes a wire line.
    #[tactic(auto, unfolding(st_grammar::specs::Lines::wire_line))]
    pub(crate) fn wire(
        &mut self,
        word: WireWord,
        line: &[u8],
        tokens: &[Token],
    ) -> Result<(), LineError>
        requires { All (IsTokenOf line.now) tokens.now }
        ensures { Gives (λ _. self.new) result (wire_line self.old (wire_of self.old word (map (token_in line.now) tokens.now))) }
    {
        let (place, wire) = self.wire_of(word, line, tokens)?;
        if self.wire_count(place) >= MAX_WIRE_LINES {
            return Err(LineError::Bad(FaultKind::Limit));
        }
        self.add_wire(place, wire)?;
        Ok(())
    }
}
