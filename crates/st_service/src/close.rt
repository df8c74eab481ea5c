//! How a service is closed: each room is ended, the passes hand in what they have seen and made, and the journals are taken.

ghost use Rattle.std.specs.Prelude.{ℕ, ◌≡◌, ◌+◌, ◌*◌, ◌<◌, ◌≤◌, List, length, map, true, IfOk, OnOk, reverse, sum_by, slice_index_or};
ghost use mathlib.Core.List.{IsPrefix};
ghost use Rattle.st_net.specs.Groups.{IsSound};
ghost use Rattle.st_event.specs.Legal.{IsLegal};
ghost use Rattle.st_event.specs.Proposals.{overlays};
ghost use Rattle.st_service.specs.Asked.{all_asked};
ghost use Rattle.st_service.specs.Closed.{IsWhole, Stands, entered};
ghost use Rattle.st_service.specs.Lines.{flat};
ghost use Rattle.st_service.specs.Made.{Made, IsMine, past_in};

use crate::ended::Ended;
use crate::line::Batch;
use crate::locked::Locked;
use crate::makers::Makers;
use crate::naming::Naming;
use crate::pass::Pass;
use crate::place::Place;
use crate::service::{Own, Service, cannot_be};
use st_event::{Journal, Log as AppLog, LogEntry};
use st_line::Writer;
use st_net::{AppId, Items};
use std::alloc::{AllocError, Global};
use std::marker::PhantomData;
use std::sync::ledger::{Ledger, Share};
use std::sync::{Mutex, Wait};

/// What a closed service hands out: the journals of the rooms, and the logs of the applications, each in order.
#[derive(Drop)]
pub struct Closed {
    pub journals: Vec<Journal>,
    pub logs: Vec<AppLog>,
}

/// A room that is ended, with the line of the room's journal.
#[derive(Drop)]
pub(crate) struct Shut<J: Naming, H: Wait + Drop> {
    pub group: usize,
    pub ended: Ended<H>,
    pub line: Writer<Batch>,
    pub of: PhantomData<J>,
    pub ghost named: { line.book ≡ J.book group },
    pub ghost kept: { past_in (flat line.log) ≡ ended.history.past },
    pub ghost asked: { all_asked (flat line.log) ≡ true },
    pub ghost group_is: { ended.history.group ≡ J.group group },
    pub ghost board_is: { ended.published.book ≡ J.board group },
}

impl<J: Naming, L: Ledger, H: Wait + Drop> Service<J, L, H> {
    /// Ends the service, of which all passes are handed in, in their order, and gives the journals of the rooms and the logs of the
    /// applications. Each journal is legal, of a sound group, and each pass's list has the places of just its own entries (`IsWhole`). At
    /// `Err`, as where a room is spent, the service and the passes are given up. May wait for readers.
    pub fn close(self, alloc: Global, passes: Vec<Pass<J, L>>) -> Result<Closed, AllocError>
        requires all { length passes.items ≡ self.passes }
        requires numbers { (n : ℕ) (p : _) → n < length passes.items → (slice_index_or passes.items n p).number ≡ n }
        requires rooms { (n : ℕ) (p : _) → n < length passes.items → length (slice_index_or passes.items n p).fronts ≡ length self.rooms.items }
        ensures journals { IfOk result (λ closed. length closed.journals.items ≡ length self.rooms.items) }
        ensures groups { IfOk result (λ closed. (k : ℕ) (j : _) → k < length closed.journals.items → (slice_index_or closed.journals.items k j).group ≡ k) }
        ensures whole { IfOk result (λ closed. (k : ℕ) (j : _) → k < length closed.journals.items → (front : List Made) × IsWhole (J.group k) passes.items k (slice_index_or closed.journals.items k j).entries front) }
        ensures logs { IfOk result (λ closed. length closed.logs.items ≡ self.apps) }
        ensures logged { IfOk result (λ closed. (n : ℕ) (l : _) (p : _) → n < self.apps → ((slice_index_or closed.logs.items n l).app.0 ≡ n) × ((slice_index_or closed.logs.items n l).entries ≡ (slice_index_or passes.items n p).log)) }
    {
        let Service {
            rooms,
            total,
            own,
            apps,
            passes: _,
        } = self;
        let Own { share: mut own } = own.into_inner();
        let mut shut = shut_all(alloc, rooms, &mut own)?;
        let logs = hand_in_all(alloc, passes, &mut shut, apps, &mut own)?;
        total.audit(&mut own);
        let journals = take_journals(alloc, shut)?;
        Ok(Closed { journals, logs })
    }
}

/// Ends the rooms, in their order, and takes their units back.
fn shut_all<J: Naming, L: Ledger, H: Wait + Drop>(
    alloc: Global,
    rooms: Vec<Mutex<Locked<J, L, H>>>,
    own: &mut Share<L>,
) -> Result<Vec<Shut<J, H>>, AllocError>
    ensures count { IfOk result (λ shut. length shut.items ≡ length rooms.items) }
    ensures groups { IfOk result (λ shut. (k : ℕ) (d : _) → k < length shut.items → (slice_index_or shut.items k d).group ≡ k) }
    ensures parts { OnOk result (own.new.parts ≡ own.old.parts + length rooms.items) }
    ensures units { IfOk result (λ shut. own.new.amount + sum_by (λ s. length (flat s.line.log)) shut.items ≡ own.old.amount + 200000 * length rooms.items) }
{
    let mut shut = Vec::new(alloc);
    for room in rooms {
        let one = shut_one(alloc, room.into_inner(), shut.len(), own)?;
        shut.push(one)?;
    }
    Ok(shut)
}

/// Ends the room of this number, and takes the room's units back. At `Err`, as where the room is spent, it is given up.
fn shut_one<J: Naming, L: Ledger, H: Wait + Drop>(
    alloc: Global,
    locked: Locked<J, L, H>,
    number: usize,
    own: &mut Share<L>,
) -> Result<Shut<J, H>, AllocError>
    ensures group { IfOk result (λ shut. shut.group ≡ number) }
    ensures parts { OnOk result (own.new.parts ≡ own.old.parts + 1) }
    ensures units { IfOk result (λ shut. own.new.amount + length (flat shut.line.log) ≡ own.old.amount + 200000) }
{
    let Locked {
        group,
        room,
        makers,
    } = locked;
    if group != number {
        drop((room, makers));
        return Err(cannot_be());
    }
    let Makers { line, units, .. } = makers;
    own.merge(units);
    match Ended::new(room, alloc) {
        Ok(ended) => Ok(Shut {
            group,
            ended,
            line,
            of: PhantomData,
        }),
        Err(error) => {
            drop(line);
            Err(error)
        }
    }
}

/// Takes in all passes, and gives the logs of the applications, which come first.
fn hand_in_all<J: Naming, L: Ledger, H: Wait + Drop>(
    alloc: Global,
    passes: Vec<Pass<J, L>>,
    shut: &mut [Shut<J, H>],
    apps: u32,
    own: &mut Share<L>,
) -> Result<Vec<AppLog>, AllocError>
    requires numbers { (n : ℕ) (p : _) → n < length passes.items → (slice_index_or passes.items n p).number ≡ n }
    requires rooms { (n : ℕ) (p : _) → n < length passes.items → length (slice_index_or passes.items n p).fronts ≡ length shut.old }
    requires groups { (k : ℕ) (d : _) → k < length shut.old → (slice_index_or shut.old k d).group ≡ k }
    requires apps { apps ≤ length passes.items }
    ensures groups { map (λ s. s.group) shut.new ≡ map (λ s. s.group) shut.old }
    ensures lines { map (λ s. s.line) shut.new ≡ map (λ s. s.line) shut.old }
    ensures stands { IfOk result (λ _. (n : ℕ) (p : _) (k : ℕ) (d : _) → n < length passes.items → k < length shut.old → Stands (slice_index_or passes.items n p) (flat (slice_index_or shut.old k d).line.log) k) }
    ensures lengths { IfOk result (λ _. (n : ℕ) (p : _) → n < length passes.items → length (slice_index_or passes.items n p).mines ≡ length shut.old) }
    ensures parts { OnOk result (own.new.parts ≡ own.old.parts + length passes.items) }
    ensures amount { OnOk result (own.new.amount ≡ own.old.amount + sum_by entered passes.items) }
    ensures logs { IfOk result (λ logs. length logs.items ≡ apps) }
    ensures logged { IfOk result (λ logs. (n : ℕ) (l : _) (p : _) → n < apps → ((slice_index_or logs.items n l).app.0 ≡ n) × ((slice_index_or logs.items n l).entries ≡ (slice_index_or passes.items n p).log)) }
{
    let mut logs = Vec::new(alloc);
    for pass in passes {
        let number = pass.number();
        let entries = hand_in(pass, shut, own);
        if number < apps {
            logs.push(AppLog {
                app: AppId(number),
                entries,
            })?;
        }
    }
    Ok(logs)
}

/// Takes in a pass, and gives the pass's log.
fn hand_in<J: Naming, L: Ledger, H: Wait + Drop>(
    pass: Pass<J, L>,
    shut: &mut [Shut<J, H>],
    own: &mut Share<L>,
) -> Items<LogEntry>
    requires rooms { length pass.fronts ≡ length shut.old }
    requires groups { (k : ℕ) (d : _) → k < length shut.old → (slice_index_or shut.old k d).group ≡ k }
    ensures log { result ≡ pass.log }
    ensures groups { map (λ s. s.group) shut.new ≡ map (λ s. s.group) shut.old }
    ensures lines { map (λ s. s.line) shut.new ≡ map (λ s. s.line) shut.old }
    ensures stands { (k : ℕ) (d : _) → k < length shut.old → Stands pass (flat (slice_index_or shut.old k d).line.log) k }
    ensures lengths { length pass.mines ≡ length pass.fronts }
    ensures parts { own.new.parts ≡ own.old.parts + 1 }
    ensures amount { own.new.amount ≡ own.old.amount + entered pass }
{
    let Pass {
        number: _,
        mut places,
        share,
        log,
    } = pass;
    own.merge(share);
    for group in 0..shut.len() {
        stand_in(&mut places[group], &mut shut[group]);
    }
    log
}

/// Teaches a place what its closed room has published. The journal goes on from what the place has seen, as the line's writer tells.
fn stand_in<J: Naming, H: Wait + Drop>(place: &mut Place<J>, shut: &mut Shut<J, H>)
    requires group { shut.old.group ≡ place.old.group }
    ensures same { (shut.new.group ≡ shut.old.group) × (shut.new.line ≡ shut.old.line) }
    ensures begins { IsPrefix (flat place.old.seen.log) (flat shut.old.line.log) }
    ensures mine { IsMine place.old.number (flat shut.old.line.log) place.old.mine.items }
    ensures reads { IsPrefix place.old.reader.proposals (overlays (past_in (flat shut.old.line.log))) }
{
    shut.line.has_all(&place.seen);
    shut.ended.teach(&mut place.reader);
}

/// The journals of these rooms, in their order.
fn take_journals<J: Naming, H: Wait + Drop>(
    alloc: Global,
    shut: Vec<Shut<J, H>>,
) -> Result<Vec<Journal>, AllocError>
    requires groups { (k : ℕ) (d : _) → k < length shut.items → (slice_index_or shut.items k d).group ≡ k }
    requires few { length shut.items ≤ 16 }
    ensures count { IfOk result (λ journals. length journals.items ≡ length shut.items) }
    ensures groups { IfOk result (λ journals. (k : ℕ) (j : _) → k < length journals.items → (slice_index_or journals.items k j).group ≡ k) }
    ensures legal { IfOk result (λ journals. (k : ℕ) (j : _) → k < length journals.items → IsLegal (J.group k) (reverse (slice_index_or journals.items k j).entries) × IsSound (J.group k)) }
    ensures entries { IfOk result (λ journals. (k : ℕ) (j : _) (d : _) → k < length journals.items → past_in (flat (slice_index_or shut.items k d).line.log) ≡ reverse (slice_index_or journals.items k j).entries) }
{
    let mut journals = Vec::new(alloc);
    for room in shut {
        room.ended.is_legal();
        journals.push(room.ended.into_journal(room.group as u32))?;
    }
    Ok(journals)
}
