//! How a service starts: a room for each world, with its board and its units, and a place in each room for each pass.

ghost use Rattle.std.specs.Prelude.{ℕ, ◌≡◌, ◌+◌, ◌*◌, ◌<◌, ◌≤◌, [], All, length, IfOk, OnOk, slice_index_or};
ghost use Rattle.st_board.specs.Published.{opening_on};
ghost use Rattle.st_service.specs.Opened.{AreLinesOf, AreWorldsOf, IsFresh};

use crate::line::{Batch, JournalLine};
use crate::locked::Locked;
use crate::makers::Makers;
use crate::naming::Naming;
use crate::pass::Pass;
use crate::place::Place;
use crate::room::Room;
use crate::service::{Own, Service};
use st_board::{Board, Line, TargetReader};
use st_event::MAX_ENTRIES;
use st_line::Log;
use st_world::World;
use std::alloc::{AllocError, Global};
use std::mem;
use std::sync::ledger::{Blank, Ledger, Share};
use std::sync::{Mutex, Wait};

/// The lines of a room: that of its journal, and that of its board. They name a room before there is one.
#[derive(Drop)]
pub struct RoomLines {
    pub journal: JournalLine,
    pub board: Line,
}

impl RoomLines {
    /// New lines.
    pub fn new() -> RoomLines {
        RoomLines {
            journal: JournalLine::new(),
            board: Line::new(),
        }
    }
}

impl<'a, J: Naming, L: Ledger, R: Wait> Service<J, L, &'a R> {
    /// A room for each world, in their order, and a pass for each application and then for each worker, numbered from 0, which have seen
    /// nothing yet. There are 16 worlds at the most, each at its opening, and 512 passes at the most. At `Err` the boards already made
    /// are given up, and nothing is handed out. May wait for readers.
    pub fn start(
        rt: &'a R,
        alloc: Global,
        worlds: Vec<World>,
        lines: Vec<RoomLines>,
        blank: Blank,
        apps: u32,
        workers: u32,
    ) -> Result<(Service<J, L, &'a R>, Vec<Pass<J, L>>), AllocError>
        requires lines { (length lines.items ≡ length worlds.items) × AreLinesOf J.book J.board lines.items }
        requires worlds { AreWorldsOf J.group J.lines worlds.items }
        requires ledger { (blank.name ≡ L.name) × (blank.parts ≡ L.parts) }
        requires parts { blank.parts ≡ apps + workers + length worlds.items + 1 }
        requires few { (length worlds.items ≤ 16) × (apps + workers ≤ 512) }
        ensures rooms { IfOk result (λ made. length made.0.rooms.items ≡ length worlds.items) }
        ensures passes { IfOk result (λ made. (made.0.apps ≡ apps) × (made.0.passes ≡ apps + workers) × (length made.1.items ≡ apps + workers)) }
        ensures fresh { IfOk result (λ made. (n : ℕ) (p : _) → n < length made.1.items → IsFresh n (length worlds.items) (slice_index_or made.1.items n p)) }
    {
        let passes = apps + workers;
        let (mut book, mut own) = blank.open::<L>();
        book.add(&mut own, MAX_ENTRIES as u64 * worlds.len() as u64);
        let total = book.close();
        let mut all = new_passes::<J, L>(alloc, passes, &mut own)?;
        let rooms = open_all(rt, alloc, worlds, lines, &mut own, &mut all)?;
        let service = Service {
            rooms,
            total,
            own: Mutex::new(Own { share: own }),
            apps,
            passes: passes as usize,
        };
        Ok((service, all))
    }
}

/// So many passes, numbered from 0, of no room yet.
fn new_passes<J: Naming, L: Ledger>(
    alloc: Global,
    passes: u32,
    own: &mut Share<L>,
) -> Result<Vec<Pass<J, L>>, AllocError>
    requires parts { passes < own.old.parts }
    ensures count { IfOk result (λ all. length all.items ≡ passes) }
    ensures fresh { IfOk result (λ all. (n : ℕ) (p : _) → n < length all.items → IsFresh n 0 (slice_index_or all.items n p)) }
    ensures parts { OnOk result ((own.new.parts + passes ≡ own.old.parts) × (own.new.amount ≡ own.old.amount)) }
{
    let mut all = Vec::new(alloc);
    all.reserve(passes as usize)?;
    for number in 0..passes {
        let share = own.split_off(1, 0);
        all.push_reserved(Pass::new(alloc, number, share));
    }
    Ok(all)
}

/// A room for each world, in their order, each with its units and with a place for each pass.
fn open_all<'a, J: Naming, L: Ledger, R: Wait>(
    rt: &'a R,
    alloc: Global,
    worlds: Vec<World>,
    lines: Vec<RoomLines>,
    own: &mut Share<L>,
    passes: &mut [Pass<J, L>],
) -> Result<Vec<Mutex<Locked<J, L, &'a R>>>, AllocError>
    requires lines { (length lines.items ≡ length worlds.items) × AreLinesOf J.book J.board lines.items }
    requires worlds { AreWorldsOf J.group J.lines worlds.items }
    requires units { (own.old.parts ≡ length worlds.items + 1) × (own.old.amount ≡ 200000 * length worlds.items) }
    requires few { (length worlds.items ≤ 16) × (length passes.old ≤ 512) }
    requires fresh { (n : ℕ) (p : _) → n < length passes.old → IsFresh n 0 (slice_index_or passes.old n p) }
    ensures rooms { IfOk result (λ rooms. length rooms.items ≡ length worlds.items) }
    ensures units { OnOk result ((own.new.parts ≡ 1) × (own.new.amount ≡ 0)) }
    ensures count { length passes.new ≡ length passes.old }
    ensures fresh { OnOk result ((n : ℕ) (p : _) → n < length passes.new → IsFresh n (length worlds.items) (slice_index_or passes.new n p)) }
{
    let mut rooms = Vec::new(alloc);
    rooms.reserve(worlds.len())?;
    let mut lines = lines.into_iter();
    for world in worlds {
        let Some(line) = lines.next() else {
            unreachable!()
        };
        let units = own.split_off(1, MAX_ENTRIES as u64);
        let room = open_room(rt, alloc, rooms.len(), world, line, units, passes)?;
        rooms.push_reserved(Mutex::new(room));
    }
    Ok(rooms)
}

/// A room at the opening of its world, in which each pass gets a place.
fn open_room<'a, J: Naming, L: Ledger, R: Wait>(
    rt: &'a R,
    alloc: Global,
    group: usize,
    world: World,
    lines: RoomLines,
    units: Share<L>,
    passes: &mut [Pass<J, L>],
) -> Result<Locked<J, L, &'a R>, AllocError>
    requires lines { (lines.journal ≡ J.book group) × (lines.board ≡ J.board group) }
    requires world { (world.history ≡ record { group = J.group group; past = [] }) × (world.lines ≡ J.lines group) }
    requires units { (units.parts ≡ 1) × (units.amount ≡ 200000) }
    requires few { (length passes.old ≤ 512) × (group < 16) }
    requires fresh { (n : ℕ) (p : _) → n < length passes.old → IsFresh n group (slice_index_or passes.old n p) }
    ensures group { IfOk result (λ room. room.group ≡ group) }
    ensures count { length passes.new ≡ length passes.old }
    ensures fresh { IfOk result (λ _. (n : ℕ) (p : _) → n < length passes.new → IsFresh n (group + 1) (slice_index_or passes.new n p)) }
{
    let (room, seen, readers) = lock_room(
        rt,
        alloc,
        group,
        world,
        lines,
        units,
        passes.len() as u32,
    )?;
    match seat_all(alloc, group, &seen, readers, passes) {
        Ok(()) => Ok(room),
        Err(error) => {
            mem::drop(room);
            Err(error)
        }
    }
}

/// A room at the opening of its world, what was seen of its line, and so many readers of its board.
fn lock_room<'a, J: Naming, L: Ledger, R: Wait>(
    rt: &'a R,
    alloc: Global,
    group: usize,
    world: World,
    lines: RoomLines,
    units: Share<L>,
    readers: u32,
) -> Result<(Locked<J, L, &'a R>, Log<Batch>, Vec<TargetReader>), AllocError>
    requires lines { (lines.journal ≡ J.book group) × (lines.board ≡ J.board group) }
    requires world { (world.history ≡ record { group = J.group group; past = [] }) × (world.lines ≡ J.lines group) }
    requires units { (units.parts ≡ 1) × (units.amount ≡ 200000) }
    requires few { readers ≤ 512 }
    ensures group { IfOk result (λ made. made.0.group ≡ group) }
    ensures line { IfOk result (λ made. (made.1.book ≡ J.book group) × (made.1.log ≡ [])) }
    ensures count { IfOk result (λ made. length made.2.items ≡ readers) }
    ensures readers { IfOk result (λ made. All (λ r. r ≡ opening_on (J.board group) (J.group group)) made.2.items) }
{
    match open_board(rt, alloc, lines.board, &world, readers) {
        Ok((board, readers)) => {
            let (room, seen) = new_room(group, Room::new(world, board, rt), lines.journal, units);
            Ok((room, seen, readers))
        }
        Err(error) => {
            mem::drop(world);
            Err(error)
        }
    }
}

/// A board that shows the opening of a world's group, and so many readers of it.
fn open_board<R: Wait>(
    rt: &R,
    alloc: Global,
    line: Line,
    world: &World,
    readers: u32,
) -> Result<(Board, Vec<TargetReader>), AllocError>
    requires { readers ≤ 512 }
    ensures board { IfOk result (λ made. made.0 ≡ opening_on line world.now.history.group) }
    ensures count { IfOk result (λ made. length made.1.items ≡ readers) }
    ensures readers { IfOk result (λ made. All (λ r. r ≡ opening_on line world.now.history.group) made.1.items) }
{
    Board::start(rt, alloc, line, world.control().topo(), readers)
}

/// What lies under the lock of a room at its opening, and what was seen of its line.
fn new_room<J: Naming, L: Ledger, H: Wait + Drop>(
    group: usize,
    room: Room<H>,
    line: JournalLine,
    units: Share<L>,
) -> (Locked<J, L, H>, Log<Batch>)
    requires line { line ≡ J.book group }
    requires room { (room.history ≡ record { group = J.group group; past = [] }) × (room.lines ≡ J.lines group) × (room.published.book ≡ J.board group) }
    requires units { (units.parts ≡ 1) × (units.amount ≡ 200000) }
    ensures group { result.0.group ≡ group }
    ensures line { (result.1.book ≡ J.book group) × (result.1.log ≡ []) }
{
    let line = line.begin();
    let seen = line.log();
    let makers = Makers::new(group, line, units);
    let room = Locked {
        group,
        room,
        makers,
    };
    (room, seen)
}

/// A place in a room at its opening for each pass, each with a reader of its own.
fn seat_all<J: Naming, L: Ledger>(
    alloc: Global,
    group: usize,
    seen: &Log<Batch>,
    readers: Vec<TargetReader>,
    passes: &mut [Pass<J, L>],
) -> Result<(), AllocError>
    requires line { (seen.now.book ≡ J.book group) × (seen.now.log ≡ []) }
    requires readers { All (λ r. r ≡ opening_on (J.board group) (J.group group)) readers.items }
    requires count { length readers.items ≡ length passes.old }
    requires few { length passes.old ≤ 512 }
    requires fresh { (n : ℕ) (p : _) → n < length passes.old → IsFresh n group (slice_index_or passes.old n p) }
    ensures count { length passes.new ≡ length passes.old }
    ensures fresh { OnOk result ((n : ℕ) (p : _) → n < length passes.new → IsFresh n (group + 1) (slice_index_or passes.new n p)) }
{
    let mut next = 0;
    for reader in readers {
        let place = Place::new(alloc, group, next as u32, seen.again(), reader);
        passes[next].seat(place)?;
        next += 1;
    }
    Ok(())
}
