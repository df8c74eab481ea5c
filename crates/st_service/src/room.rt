//! A room: a group's world with the board by which the group's target is published. A room lies behind a lock, and every event of its
//! group is entered there.

ghost use Rattle.std.specs.Prelude.{ℕ, ◌≡◌, ◌^◌, ◌<◌, ◌≤◌, ◌++◌, List, [], true, false, IfOk, IsErr, MatchResult, OnOk, OnErr, is_some, length, reverse};
ghost use mathlib.Core.List.{IsPrefix};
ghost use Rattle.st_event.specs.declared.journal.Entry.{Entry as entry};
ghost use Rattle.st_net.specs.Groups.{IsEntityOf, IsSound};
ghost use Rattle.st_net.specs.Numbered.{nth};
ghost use Rattle.st_board.specs.Published.{IsMergeOf};
ghost use Rattle.st_event.specs.Legal.{IsLegal};
ghost use Rattle.st_event.specs.Proposals.{first_rows, pending, overlays, deciders};
ghost use Rattle.st_world.specs.Acts.{seen_at as seen_at_lem};
ghost use Rattle.st_world.specs.Commits.{Begins, MayCommit};
ghost use Rattle.st_world.specs.Rounds.{HasSameSetting, IsPartOf, course_from, is_full, unsettled as unsettled_lem};
ghost use Rattle.st_world.specs.World.{IsBeginning};
ghost use Rattle.st_service.specs.OffLock.{going_by};
ghost use Rattle.st_service.specs.Rooms.{Adds, IsSameRoom, WasRefused};
ghost use Rattle.st_service.specs.Shares.{act_share, turn_share, work_share};
ghost use Rattle.st_service.specs.Works.{MayDo, WorkFits, check_course, course_at, may_decide, is_of_one_hold, part_of, is_decided as is_decided_lem};

use crate::laid::laid_rows;
use crate::work::{Part, Work};
use st_board::{Board, Held, Note, TargetReader};
use st_control::{Begin, Judged};
use st_event::{Act, Entry, LogSaw, MAX_ENTRIES, Rows};
use st_net::{AppId, Entity, Var};
use st_overlay::Table;
use st_world::{Committed, Going, World};
use std::alloc::{AllocError, Global};
use std::marker::Model;
use std::sync::Wait;

/// A group's world and the group's board. Once a publication was refused the room is spent: nothing more is entered.
#[derive(Drop)]
pub struct Room<H: Wait + Drop> {
    pub(crate) world: World,
    pub(crate) held: Held<H>,
    pub(crate) spent: bool,
}

impl<H: Wait + Drop> Model for Room<H> {
    ghost use Rattle.st_service.specs.Rooms.{RoomView, IsRoom};

    ghost Value = { RoomView };

    ghost view = { λ r. record { history = r.world.history; lines = r.world.lines; published = r.held.board; spent = r.spent } };

    ghost invariant = { λ r. IsRoom r.world.history r.held.board r.spent };
}

/// Enters the events of a work in a world. At `Full` an event met a full journal; then, and at `Err`, a part of the events was entered,
/// from the first, and stands.
fn enter(world: &mut World, number: u32, work: Work<'_>) -> Result<Going, AllocError>
    requires fits { WorkFits work world.old.history.group }
    requires may { MayDo work world.old.history.past }
    ensures ok { IfOk result (λ going. course_at number work.entry world.old.history.group world.old.lines world.old.history.past ≡ record { past = world.new.history.past; stopped = is_full going }) }
    ensures err { OnErr result (IsPartOf world.old world.new (course_at number work.entry world.old.history.group world.old.lines world.old.history.past)) }
    ensures setting { HasSameSetting world.old world.new }
{
    match work {
        Work::OneAct(act) => world.act(AppId(number), act),
        Work::Commit(judged) => commit(world, judged),
        Work::Turn(part, entity) => enter_turn(world, part, entity),
    }
}

/// Enters the events of an entity's turn, or of the half of the turn that updates or monitors the entity. At `Full` an event met a full
/// journal; then, and at `Err`, a part of the events was entered, from the first, and stands.
fn enter_turn(world: &mut World, part: Part, entity: Entity) -> Result<Going, AllocError>
    requires { IsEntityOf world.old.history.group entity }
    ensures ok { IfOk result (λ going. part_of part world.old.history.group world.old.lines (course_from world.old.history.past) entity ≡ record { past = world.new.history.past; stopped = is_full going }) }
    ensures err { OnErr result (IsPartOf world.old world.new (part_of part world.old.history.group world.old.lines (course_from world.old.history.past) entity)) }
    ensures setting { HasSameSetting world.old world.new }
{
    match part {
        Part::Whole => world.turn(entity),
        Part::Update => world.update_turn(entity),
        Part::Monitor => world.poll(entity),
    }
}

/// Commits what was judged away from a world. At `Full` the journal is full; then, at `Err`, and where the ticket is decided, nothing was
/// entered.
fn commit(world: &mut World, judged: &Judged) -> Result<Going, AllocError>
    requires { MayCommit world.old.history.past judged.now.ticket }
    ensures ok { IfOk result (λ going. check_course judged.now.ticket world.old.history.group world.old.history.past ≡ record { past = world.new.history.past; stopped = is_full going }) }
    ensures err { OnErr result (world.new.history ≡ world.old.history) }
    ensures setting { HasSameSetting world.old world.new }
{
    let committed = world.commit(judged)?;
    Ok(going_of(&committed))
}

/// Whether a commit met a full journal.
fn going_of(committed: &Committed) -> Going
    ensures { result ≡ going_by committed.now }
{
    match committed {
        Committed::Did(_) | Committed::Gone { .. } => Going::On,
        Committed::JournalFull { .. } => Going::Full,
    }
}

/// How many overlays the target of a world has.
fn version_of(world: &World) -> u32
    ensures { result ≡ length (overlays world.now.history.past) }
{
    world.control().store().version()
}

/// How many entries an entity's turn in a world makes at the most, or a half of it.
fn turn_most(world: &World, part: Part) -> usize
    ensures { (n : ℕ) → n ≤ turn_share part world.now.lines → n ≤ MAX_ENTRIES → n ≤ result }
{
    match part {
        Part::Whole => world.turn_most(),
        Part::Update => world.update_most(),
        Part::Monitor => world.poll_most(),
    }
}

/// How many entries an act of one hold makes in a world at the most.
fn act_most(world: &World, act: &Act) -> usize
    requires { is_of_one_hold act.now ≡ true }
    ensures { (n : ℕ) → n ≤ act_share act.now world.now.history.group world.now.lines → n ≤ MAX_ENTRIES → n ≤ result }
{
    match act {
        Act::Propose { .. } => 2,
        Act::Poll { .. } => turn_most(world, Part::Monitor),
        _ => 1,
    }
}

/// Whether a ticket is decided in a world.
fn is_decided(world: &World, ticket: u32) -> bool
    ensures { result ≡ is_decided_lem ticket world.now.history.past }
{
    ticket == 0 || world.control().store().decided(ticket).is_some()
}

impl<H: Wait + Drop> Room<H> {
    /// A room at the opening of a group, whose board shows that opening.
    pub fn new(world: World, board: Board, rt: H) -> Room<H>
        requires opens { world.history.past ≡ [] }
        requires board { (board.group ≡ world.history.group) × (board.proposals ≡ []) × (board.ended ≡ false) }
        ensures { result ≡ record { history = world.history; lines = world.lines; published = board; spent = false } }
    {
        Room {
            world,
            held: Held { board, rt },
            spent: false,
        }
    }

    /// Does a work for the pass of this number, and publishes what that overlays the target with. At `Full` an event met a full journal;
    /// then, and at `Err`, a part of the events was entered, from the first, and stands. Where the publication is refused, the room is
    /// spent.
    pub fn work(&mut self, alloc: Global, number: u32, work: Work<'_>) -> Result<Going, AllocError>
        requires open { self.old.spent ≡ false }
        requires fits { WorkFits work self.old.history.group }
        requires may { MayDo work self.old.history.past }
        ensures ok { IfOk result (λ going. course_at number work.entry self.old.history.group self.old.lines self.old.history.past ≡ record { past = self.new.history.past; stopped = is_full going }) }
        ensures full { IfOk result (λ going. is_full going ≡ true → length self.new.history.past ≡ MAX_ENTRIES) }
        ensures open { OnOk result (self.new.spent ≡ false) }
        ensures spent { self.new.spent ≡ true → WasRefused self.old self.new × IsErr result }
        ensures part { IsBeginning self.new.history.past (course_at number work.entry self.old.history.group self.old.lines self.old.history.past).past }
        ensures adds { Adds number (work_share work.entry self.old.history.group self.old.lines) self.old.history.past self.new.history.past }
        ensures room { IsSameRoom self.old self.new }
    {
        let rows = self.may_publish(alloc, work)?;
        let before = self.world.entries();
        let version = version_of(&self.world);
        // No `?` here: at `Err` what was entered may have to be published.
        let going = enter(&mut self.world, number, work);
        self.world.is_legal();
        if version_of(&self.world) == version {
            return going;
        }
        let laid = laid_rows(self.world.entries_since(before), rows.as_slice());
        match self.held.board.publish(&self.held.rt, alloc, laid) {
            Ok(_note) => going,
            Err(error) => {
                self.spent = true;
                Err(error)
            }
        }
    }

    /// What may have to be published of a work, beside what the work withdraws, which stands in its entry: the rows of the proposal that
    /// waits longest, which the work's check would decide; none where the work makes no check, or nothing waits.
    fn may_publish(&self, alloc: Global, work: Work<'_>) -> Result<Rows, AllocError>
        ensures { IfOk result (λ rows. may_decide work.entry ≡ true → rows ≡ first_rows (pending self.now.history.past)) }
    {
        if !work.may_decide() {
            return Ok(Rows::new(Vec::new(alloc)));
        }
        match self.world.control().store().oldest() {
            Some(oldest) => oldest.rows.copy(alloc),
            None => Ok(Rows::new(Vec::new(alloc))),
        }
    }

    /// How many entries a work makes at the most.
    pub fn most_of(&self, work: Work<'_>) -> usize
        requires { WorkFits work self.now.history.group }
        ensures { (n : ℕ) → n ≤ work_share work.entry self.now.history.group self.now.lines → n ≤ MAX_ENTRIES → n ≤ result }
    {
        match work {
            Work::OneAct(act) => act_most(&self.world, act),
            Work::Turn(part, _) => turn_most(&self.world, part),
            Work::Commit(_) => 1,
        }
    }

    /// The entry that decided a ticket, counted from 1, if it is decided.
    pub fn decided(&self, ticket: u32) -> Option<u32>
        requires { 0 < ticket }
        ensures entry { result ≡ nth (deciders self.now.history.past) ticket }
        ensures decided { is_some result ≡ is_decided_lem ticket self.now.history.past }
    {
        self.world.control().store().decided(ticket)
    }

    /// What the oldest proposal is judged on, in copies but for the group, which is shared. `Idle` where none is pending.
    pub fn begin_check(&self) -> Result<Begin, AllocError>
        ensures { IfOk result (Begins self.now.history) }
    {
        self.world.begin_check()
    }

    /// Whether a ticket is decided.
    pub fn is_decided(&self, ticket: u32) -> bool
        ensures { result ≡ is_decided_lem ticket self.now.history.past }
    {
        is_decided(&self.world, ticket)
    }

    /// The entities that are not settled, in order.
    pub fn unsettled(&self) -> Result<Vec<Entity>, AllocError>
        ensures entities { IfOk result (λ entities. entities.items ≡ unsettled_lem self.now.history.group self.now.history.past) }
        ensures few { IfOk result (λ entities. length entities.items < 2 ^ 32) }
    {
        self.world.is_legal();
        self.world.unsettled()
    }

    /// What is seen of a variable at a version of the target, if there is that version.
    pub fn seen_at(&self, version: u32, entity: Entity, var: Var) -> LogSaw
        requires { IsEntityOf self.now.history.group entity }
        ensures { result ≡ seen_at_lem self.now.history version entity var }
    {
        self.world.seen_at(version, entity, var)
    }

    /// What is published.
    pub fn note(&self) -> Note
        ensures published { result ≡ self.now.published }
        ensures whole { self.now.spent ≡ false → result.proposals ≡ overlays self.now.history.past }
    {
        self.held.board.note()
    }

    /// The target, which is the merge of what is published.
    pub fn target(&self) -> &Table
        requires { self.now.spent ≡ false }
        ensures { IsMergeOf self.now.published.group self.now.published.proposals result.now }
    {
        self.world.control().store().target()
    }

    /// Teaches a reader what is published, unless memory was refused, and hands the answer on.
    pub fn tell(
        &self,
        reader: &mut TargetReader,
        going: Result<Going, AllocError>,
    ) -> Result<Going, AllocError>
        requires book { reader.old.book ≡ self.now.published.book }
        requires open { OnOk going (self.now.spent ≡ false) }
        ensures same { result ≡ going }
        ensures board { (reader.new.book ≡ reader.old.book) × (reader.new.group ≡ reader.old.group) }
        ensures later { IsPrefix reader.old.proposals reader.new.proposals }
        ensures reads { OnOk result (IsPrefix (overlays self.now.history.past) reader.new.proposals) }
    {
        if going.is_ok() {
            reader.learn(&self.note(), self.target());
        }
        going
    }

    /// Refused exactly where the room is spent, since a publication was refused.
    pub fn still_open(&self) -> Result<(), AllocError>
        ensures { MatchResult result (λ _. self.now.spent ≡ false) (λ _. self.now.spent ≡ true) }
    {
        if self.spent {
            return Err(AllocError);
        }
        Ok(())
    }

    /// The journal is legal, and the group is sound.
    pub fn is_legal(&self)
        ensures legal { IsLegal self.now.history.group self.now.history.past }
        ensures sound { IsSound self.now.history.group }
    {
        self.world.is_legal();
    }

    /// How many entries the journal has.
    pub fn count(&self) -> u32
        ensures count { result ≡ length self.now.history.past }
        ensures few { result ≤ MAX_ENTRIES }
    {
        self.world.entries()
    }

    /// The entries behind the first so many, the oldest first.
    pub fn since(&self, from: u32) -> &[Entry]
        requires { from ≤ length self.now.history.past }
        ensures { (more : List entry) (past : List entry) → self.now.history.past ≡ more ++ past → length past ≡ from → result.now ≡ reverse more }
    {
        self.world.entries_since(from)
    }
}
