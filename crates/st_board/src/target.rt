//! What the writer shows its readers, two copies of it by `left_right`, and the rule under which it does.

ghost use Rattle.std.specs.Prelude.{◌≡◌, ◌-◌, ◌<◌, ◌^◌, ◌∷◌, [], drop, fold, IfOk, OnOk, OnErr};
ghost use Rattle.left_right.specs.Sides.{view};
ghost use Rattle.st_board.specs.declared.post.Post.TheVariants.{Open as open_post};
ghost use Rattle.st_board.specs.Published.{IsMergeOf};
ghost use Rattle.st_board.specs.ShownInside.{code, absorbed, IsShown, IsReady};

use crate::front::Front;
use crate::recent::Recent;
use atomic_table::{Join, Split};
use core::mem::replace_with;
use crossbeam_utils::rule::{Outcome, Protocol};
use left_right::Absorb;
use left_right::reader::Reader;
use left_right::writer::Writer;
use st_event::Rows;
use st_net::GroupTopo;
use st_overlay::Table;
use std::alloc::{AllocError, Global};
use std::sync::Wait;

/// A table, the front that it is the merge of, and the rows that were merged last.
#[derive(Drop)]
pub struct Target {
    pub table: Table,
    pub front: Front,
    pub recent: Recent,
}

impl Target {
    /// The opening of a group at its first front, once for each side of a desk.
    pub fn openings(
        alloc: Global,
        topo: &GroupTopo,
        front: &Front,
    ) -> Result<(Target, Target), AllocError>
        requires { front.now.seen.log ≡ open_post topo.now ∷ [] }
        ensures shown { IfOk result (λ both. IsShown both.0) }
        ensures front { IfOk result (λ both. both.0.front ≡ front.now) }
        ensures alike { IfOk result (λ both. both.1 ≡ both.0) }
    {
        let (first, second) = opening_tables(alloc, topo)?;
        let (none, none_again) = no_rows(alloc)?;
        let target = Target {
            table: first,
            front: front.again(),
            recent: none,
        };
        let again = Target {
            table: second,
            front: front.again(),
            recent: none_again,
        };
        Ok((target, again))
    }
}

/// The opening values of a group, twice.
fn opening_tables(alloc: Global, topo: &GroupTopo) -> Result<(Table, Table), AllocError>
    ensures merge { IfOk result (λ both. IsMergeOf topo.now [] both.0) }
    ensures alike { IfOk result (λ both. both.1 ≡ both.0) }
{
    let table = Table::opening(alloc, topo)?;
    let again = table.copy(alloc)?;
    Ok((table, again))
}

/// No rows, twice.
fn no_rows(alloc: Global) -> Result<(Recent, Recent), AllocError>
    ensures none { IfOk result (λ both. both.0 ≡ record { since = 0; rows = [] }) }
    ensures alike { IfOk result (λ both. both.1 ≡ both.0) }
{
    let none = Recent::new(alloc)?;
    let again = Recent::new(alloc)?;
    Ok((none, again))
}

/// Rows to be merged, and the front that ends with them.
#[derive(Drop)]
pub struct Merge {
    pub rows: Rows,
    pub front: Front,
}

impl Absorb<Merge> for Target {
    ghost use Rattle.st_board.specs.ShownInside.{absorbed};

    type State = Target;

    ghost state = { λ s. s };

    ghost applied = { absorbed };

    ghost never_fails = { Unit {0} };

    fn absorb_first(&mut self, operation: &Merge, _other: &Target) -> Result<(), AllocError> {
        let rows = operation.rows.as_slice();
        self.table.overlay(rows);
        self.recent.add(rows, operation.front.version);
        self.front = operation.front.again();
        Ok(())
    }
}

/// What is shown is the merge of its front, and each seat that knows a line knows this one.
pub struct Binds;

impl Protocol<Target, [u64; 0]> for Binds {
    ghost use Rattle.std.specs.Prelude.{[]};
    ghost use Rattle.st_board.specs.ShownInside.{Bound};

    ghost holds = { Bound };

    ghost first = { [] };
}

/// What is shown was seen, or was put in place of what was.
pub struct Shows;

impl Outcome<Target, [u64; 0]> for Shows {
    ghost use Rattle.st_board.specs.ShownInside.{Shown};

    ghost then = { Shown };
}

/// A seat tells another which line it knows.
pub struct Same;

impl Split<[u64; 0]> for Same {
    ghost left = { λ v. v };

    ghost right = { λ v. v };
}

impl Join<[u64; 0]> for Same {
    ghost use Rattle.std.specs.Prelude.{[]};

    ghost both = { λ v w. w };

    ghost spent = { [] };
}

pub type Desk = Writer<Target, Merge, [u64; 0], Binds>;

pub type Place = Reader<Target, [u64; 0], Binds>;

/// A desk that shows a target to so many readers, and has an equal one as its other side. It may wait.
pub fn desk_with<R: Wait>(
    rt: &R,
    alloc: Global,
    first: Target,
    second: Target,
    readers: u32,
) -> Result<Desk, AllocError>
    requires shown { IsShown first }
    requires alike { second ≡ first }
    requires readers { readers < 2 ^ 32 - 1 }
    ensures shown { IfOk result (λ desk. desk.desk.shown.value ≡ first) }
    ensures idle { IfOk result (λ desk. drop desk.behind desk.log.items ≡ []) }
    ensures bound { IfOk result (λ desk. view desk.desk.place ≡ code first.front.seen.book) }
{
    let desk: Desk = Writer::new(alloc, first, second, readers as usize + 1)?;
    let (desk, ()) = show_next(desk, rt);
    Ok(desk)
}

/// Shows readers the copy that has each operation. It waits for those that still read that copy.
pub fn show_next<R: Wait>(desk: Desk, rt: &R) -> (Desk, ())
    requires { IsReady desk.desk.shown.value (drop desk.behind desk.log.items) }
    ensures shown { result.0.desk.shown.value ≡ fold absorbed desk.desk.shown.value (drop desk.behind desk.log.items) }
    ensures idle { drop result.0.behind result.0.log.items ≡ [] }
    ensures bound { view result.0.desk.place ≡ code result.0.desk.shown.value.front.seen.book }
{
    let (desk, shown) = desk.publish_as::<Shows, R>(rt);
    match shown {
        Ok(()) => (desk, ()),
        Err(_) => unreachable!(),
    }
}

/// Merges rows into what is shown.
pub fn show<R: Wait>(desk: &mut Desk, rt: &R, merge: Merge) -> Result<(), AllocError>
    requires ready { IsReady desk.old.desk.shown.value (merge ∷ []) }
    requires idle { drop desk.old.behind desk.old.log.items ≡ [] }
    ensures shown { OnOk result (desk.new.desk.shown.value ≡ absorbed desk.old.desk.shown.value merge) }
    ensures bound { OnOk result (view desk.new.desk.place ≡ code desk.new.desk.shown.value.front.seen.book) }
    ensures idle { drop desk.new.behind desk.new.log.items ≡ [] }
    ensures err { OnErr result ((desk.new.desk.shown.value ≡ desk.old.desk.shown.value) × (view desk.new.desk.place ≡ view desk.old.desk.place)) }
{
    if desk.append(merge).is_err() {
        return Err(AllocError);
    }
    replace_with(desk, rt, show_next::<R>);
    Ok(())
}
