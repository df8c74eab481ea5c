//! Candidates for a batch, judged as the checker would judge their proposal, which stays as it is.

ghost use Rattle.std.specs.Prelude.{◌≡◌, ◌∷◌, [], ◌++◌, length, All, option_map, IfOk};
ghost use Rattle.st_net.specs.Demands.{first_broken_of};
ghost use Rattle.st_net.specs.Ranges.{RowFits};
ghost use Rattle.st_event.specs.declared.reply.Cause.TheVariants.{Broken as broken_cause};
ghost use Rattle.st_roll.specs.Firmware.{firmware_row as firmware_row_lem, firmware_rows};
ghost use Rattle.st_roll.specs.Judging.{AreGroundsOf};
ghost use Rattle.st_event.specs.Standing.{sure_in};
ghost use Rattle.st_control.specs.Control.{standing_in};
ghost use Rattle.st_roll.specs.Refusal.{left_up, refusal_in};

use st_control::Control;
use st_event::Cause;
use st_net::{AppId, Entity, EntitySet, Row, Var};
use st_overlay::changed;
use st_promise::Book;
use st_rows::judge_rows;
use std::alloc::{AllocError, Global};

/// What candidates are judged on, which is made once for all of them: the sure entities, and a book of the promises, which keeps the flows
/// that it finds from one candidate to the next.
#[derive(Drop)]
pub(crate) struct Grounds {
    pub(crate) sure: EntitySet,
    pub(crate) book: Book,
}

/// The row that asks a device for a firmware.
fn firmware_row(device: u32, firmware: u32) -> Row
    ensures { result ≡ firmware_row_lem firmware device }
{
    Row {
        entity: Entity::Device(device),
        var: Var::Firmware,
        value: firmware,
    }
}

/// The rows that ask a batch, and one device more, for a firmware.
pub(crate) fn candidate_rows(
    alloc: Global,
    batch: &[u32],
    device: u32,
    firmware: u32,
) -> Result<Vec<Row>, AllocError>
    ensures { IfOk result (λ rows. rows.items ≡ firmware_rows firmware (batch.now ++ device ∷ [])) }
{
    let mut rows = Vec::new(alloc);
    for other in batch {
        rows.push(firmware_row(*other, firmware))?;
    }
    rows.push(firmware_row(device, firmware))?;
    Ok(rows)
}

impl Grounds {
    /// What candidates are judged on, as a checker stands.
    pub(crate) fn of(alloc: Global, control: &Control) -> Result<Grounds, AllocError>
        ensures { IfOk result (AreGroundsOf control.now) }
    {
        let sure = control.sure()?;
        let book = Book::start(alloc, control.topo())?;
        Ok(Grounds { sure, book })
    }

    /// The first promise that the rows would break, as a cause.
    fn broken(
        &mut self,
        alloc: Global,
        control: &Control,
        rows: &[Row],
    ) -> Result<Option<Cause>, AllocError>
        requires grounds { AreGroundsOf control.now self.old }
        requires rows { All (RowFits control.now.group) rows.now }
        ensures broken { IfOk result (λ cause. cause ≡ option_map broken_cause (first_broken_of control.now.group (sure_in control.now.group (standing_in control.now)) (left_up control.now.group (standing_in control.now) rows.now))) }
        ensures grounds { AreGroundsOf control.now self.new }
    {
        let topo = control.topo();
        let changed = changed(alloc, topo, control.store().target(), rows)?;
        let mut after = self.sure.copy(alloc)?;
        after.remove_all(&changed);
        let broken = self.book.judge_pairs(topo, &self.sure, &after)?;
        Ok(broken.map(Cause::Broken))
    }

    /// The cause for which an application's proposal of these rows would be refused; None where it would be accepted.
    pub(crate) fn refusal(
        &mut self,
        alloc: Global,
        control: &Control,
        app: AppId,
        rows: &[Row],
    ) -> Result<Option<Cause>, AllocError>
        requires grounds { AreGroundsOf control.now self.old }
        requires rows { All (RowFits control.now.group) rows.now }
        ensures cause { IfOk result (λ cause. cause ≡ refusal_in control.now.group (standing_in control.now) app rows.now) }
        ensures grounds { AreGroundsOf control.now self.new }
    {
        let store = control.store();
        let barred = judge_rows(
            control.topo(),
            store.observed(),
            store.target(),
            control.locks(),
            app,
            rows,
        );
        match barred {
            Some(cause) => Ok(Some(cause)),
            None => self.broken(alloc, control, rows),
        }
    }
}
