//! Withdrawals: what an entity is to become and can't be set any more is taken back, and the entity's target is then what was observed of
//! the entity. A world withdraws behind a Send that was blocked.

ghost use Rattle.std.specs.Prelude.{◌≡◌, ◌+◌, ◌<◌, ◌^◌, Some, IfOk, OnErr};
ghost use Rattle.st_net.specs.Groups.{IsEntityOf};
ghost use Rattle.st_event.specs.declared.event.Event.TheVariants.{Withdraw};
ghost use Rattle.st_event.specs.declared.reply.Reply.TheVariants.{Withdrawn as withdrawn_reply};
ghost use Rattle.st_control.specs.Control.{Moves};
ghost use Rattle.st_control.specs.Verdict.{IsLatest};
ghost use Rattle.st_control.specs.Withdrawals.{KeptChangesNothing, reply_of_withdrawal, withdrawal_due};

use crate::back::rows_back;
use crate::control::Control;
use crate::send::governing_row;
use crate::twice::Twice;
use st_event::Rows;
use st_net::Entity;
use st_rows::lack;
use std::alloc::AllocError;

/// The answer to a withdrawal.
#[derive(Drop)]
pub enum Withdrawal {
    /// These rows, 1 to 4 of the entity, were merged as this version.
    Withdrawn { version: u32, rows: Rows },
    /// Nothing was withdrawn: the entity's observed values are the target's, or the governing variable can be set.
    Kept,
}

impl Control {
    /// The rows that a withdrawal of an entity sets, where there are any.
    fn rows_due(&self, entity: Entity) -> Result<Option<Rows>, AllocError>
        requires { IsEntityOf self.now.group entity }
        ensures due { IfOk result (λ rows. rows ≡ withdrawal_due self.now entity) }
        ensures latest { IsLatest self.now.store }
    {
        let place = self.topo.place(entity);
        let observed = self.store.observed();
        let table = self.store.target();
        let vals = observed[place].vals;
        let target = table.get(entity);
        let row = governing_row(entity, vals, target);
        if lack(&self.topo, observed, table, &[], &row).is_none() {
            return Ok(None);
        }
        let rows = rows_back(self.alloc, entity, vals, target)?;
        if rows.is_empty() {
            return Ok(None);
        }
        Ok(Some(Rows::new(rows)))
    }

    /// Merges the rows that a withdrawal of an entity sets, as entry number `entry`, and stamps the entity. At `Err` nothing has changed.
    fn merge_back(&mut self, entry: u32, entity: Entity, rows: Rows) -> Result<u32, AllocError>
        requires entity { IsEntityOf self.old.group entity }
        requires due { Some rows ≡ withdrawal_due self.old entity }
        requires latest { IsLatest self.old.store }
        requires version { self.old.store.version + 1 < 2 ^ 32 }
        ensures ok { IfOk result (λ version. Moves self.old self.new entry (Withdraw entity) (withdrawn_reply version rows)) }
        ensures err { OnErr result (self.new ≡ self.old) }
        ensures runs { self.new.flows_run ≡ self.old.flows_run }
    {
        let place = self.topo.place(entity);
        let version = self.store.withdraw(rows)?;
        // What follows cannot fail.
        self.stamps[place] = entry;
        Ok(version)
    }

    /// Withdraws what an entity is to become, as entry number `entry`, where the entity's governing variable can't be set now: each
    /// variable whose observed value is not the target's goes back to the observed value, and the entity's stamp is `entry`. `Kept` comes
    /// exactly where no variable differs, or where the governing variable can be set, and changes nothing. The target's version has to be
    /// below 4294967295. At `Err` nothing has changed.
    pub fn withdraw(&mut self, entry: u32, entity: Entity) -> Result<Withdrawal, AllocError>
        requires entity { IsEntityOf self.old.group entity }
        requires version { self.old.store.version + 1 < 2 ^ 32 }
        ensures ok { IfOk result (λ withdrawal. Moves self.old self.new entry (Withdraw entity) (reply_of_withdrawal withdrawal)) }
        ensures kept { IfOk result (λ withdrawal. KeptChangesNothing withdrawal self.old self.new) }
        ensures err { OnErr result (self.new ≡ self.old) }
        ensures runs { self.new.flows_run ≡ self.old.flows_run }
    {
        let Some(rows) = self.rows_due(entity)? else {
            return Ok(Withdrawal::Kept);
        };
        let merged = rows.copy(self.alloc)?;
        let version = self.merge_back(entry, entity, merged)?;
        Ok(Withdrawal::Withdrawn { version, rows })
    }

    /// Does what `withdraw` does, and gives the answer twice: one to hand out and one to enter in a journal. The second is copied before
    /// the rows are merged, since a copy can be refused memory. At `Err` nothing has changed. The target's version has to be below
    /// 4294967295.
    pub fn withdraw_twice(
        &mut self,
        entry: u32,
        entity: Entity,
    ) -> Result<Twice<Withdrawal>, AllocError>
        requires entity { IsEntityOf self.old.group entity }
        requires version { self.old.store.version + 1 < 2 ^ 32 }
        ensures ok { IfOk result (λ withdrawals. Moves self.old self.new entry (Withdraw entity) (reply_of_withdrawal withdrawals.told)) }
        ensures unchanged { IfOk result (λ withdrawals. KeptChangesNothing withdrawals.told self.old self.new) }
        ensures kept { IfOk result (λ withdrawals. withdrawals.kept ≡ withdrawals.told) }
        ensures err { OnErr result (self.new ≡ self.old) }
        ensures runs { self.new.flows_run ≡ self.old.flows_run }
    {
        let Some(rows) = self.rows_due(entity)? else {
            return Ok(Twice {
                told: Withdrawal::Kept,
                kept: Withdrawal::Kept,
            });
        };
        let kept = rows.copy(self.alloc)?;
        let merged = rows.copy(self.alloc)?;
        let version = self.merge_back(entry, entity, merged)?;
        Ok(Twice {
            told: Withdrawal::Withdrawn { version, rows },
            kept: Withdrawal::Withdrawn {
                version,
                rows: kept,
            },
        })
    }
}
