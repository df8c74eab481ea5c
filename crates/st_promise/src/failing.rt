//! The asks that fail already. A book keeps which were found to fail, and with which entities up: while no more than these are
//! up they go on to fail, and no change breaks them.

ghost use Rattle.std.specs.Prelude.{◌≡◌, length, replicate, false, IfOk};
ghost use Rattle.st_net.specs.Asks.{ask_count};
ghost use Rattle.st_net.specs.Sets.{is_in, MarksOf};
ghost use Rattle.st_promise.specs.Book.{IsBookOf, AreFailing};

use crate::book::Book;
use crate::within::is_within;
use st_net::{EntitySet, GroupTopo};
use std::alloc::{AllocError, Global};

/// Asks that were found to fail, and the entities that were up then.
#[derive(Drop)]
pub(crate) struct Failing {
    pub(crate) up: EntitySet,
    pub(crate) marks: Vec<bool>,
}

/// So many marks, none of which is set.
pub(crate) fn unmarked(alloc: Global, count: u32) -> Result<Vec<bool>, AllocError>
    ensures { IfOk result (λ marks. marks.items ≡ replicate count false) }
{
    vec![in alloc; false; count as usize]
}

/// The same marks.
fn copied(alloc: Global, marks: &[bool]) -> Result<Vec<bool>, AllocError>
    ensures { IfOk result (λ copy. copy.items ≡ marks.now) }
{
    marks.to_vec(alloc)
}

impl Book {
    /// Whether each ask, in order, is known to fail while these entities are up: those that were found to fail, where no other
    /// entity was down then. Elsewhere none is known.
    pub(crate) fn failing_in(
        &self,
        topo: &GroupTopo,
        up: &EntitySet,
    ) -> Result<Vec<bool>, AllocError>
        requires book { IsBookOf topo.now self.now.of }
        requires marks { MarksOf topo.now up.now }
        ensures count { IfOk result (λ fails. length fails.items ≡ ask_count topo.now) }
        ensures fails { IfOk result (λ fails. AreFailing topo.now (is_in up.now) fails.items) }
    {
        topo.keeps_with_more();
        topo.held_means_kept();
        if let Some(failing) = &self.failing {
            if is_within(topo, up, &failing.up) {
                let fails = copied(self.alloc, failing.marks.as_slice())?;
                return Ok(fails);
            }
        }
        let none = unmarked(self.alloc, topo.ask_count())?;
        Ok(none)
    }

    /// Keeps which asks fail while these entities are up, where some do and it was not known of them. Where memory is refused,
    /// what was kept before stays.
    pub(crate) fn keep_failing(&mut self, topo: &GroupTopo, up: &EntitySet, marks: Vec<bool>)
        requires book { IsBookOf topo.now self.old.of }
        requires marks { MarksOf topo.now up.now }
        requires count { length marks.items ≡ ask_count topo.now }
        requires fails { AreFailing topo.now (is_in up.now) marks.items }
        ensures same { self.new ≡ self.old }
    {
        if !marks.as_slice().contains(&true) || self.knows_failing(marks.as_slice()) {
            return;
        }
        if let Ok(up) = up.copy(self.alloc) {
            self.failing = Some(Failing { up, marks });
        }
    }

    /// Whether just these asks are kept as failing.
    fn knows_failing(&self, marks: &[bool]) -> bool {
        match &self.failing {
            Some(failing) => failing.marks.as_slice() == marks,
            None => false,
        }
    }
}
