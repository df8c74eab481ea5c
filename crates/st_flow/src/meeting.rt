//! Where a search along a flow and a search against it meet. Taken together their ways are one way with room from the
//! start of the first to the start of the second; where they cannot meet, the first has looked everywhere.
ghost use Rattle.std.specs.Prelude.{IfOk, OnOk, IfNone, IfSome};
ghost use Rattle.std.specs.List.{AllZip};
ghost use Rattle.st_flow.specs.Network.{FitsEdge};
ghost use Rattle.st_flow.specs.Residual.{IsClosed};
ghost use Rattle.st_flow.specs.Search.{reached, IsFurther, IsRound, IsMeeting};

use crate::direction::Direction;
use crate::graph::Graph;
use crate::search::Search;
use std::alloc::AllocError;

/// An edge with room from a node that one search has reached to a node that the other has.
#[derive(Clone, Copy, Debug)]
pub(crate) struct Meeting {
    pub(crate) edge: u32,
    pub(crate) from: u32,
}

/// Goes on with the search `near` along the flow and the search `far` against it until they meet, or until `near` has
/// looked from all that it can reach.
pub(crate) fn meet(
    g: &Graph,
    amounts: &[i64],
    near: &mut Search,
    far: &mut Search,
) -> Result<Option<Meeting>, AllocError>
    requires fits { AllZip FitsEdge g.now.edges amounts.now }
    requires round { IsRound g.now amounts.now near.old far.old }
    ensures near { OnOk result (IsFurther near.old near.new) }
    ensures far { OnOk result (IsFurther far.old far.new) }
    ensures round { OnOk result (IsRound g.now amounts.now near.new far.new) }
    ensures closed { IfOk result (λ met. IfNone met (IsClosed g.now.edges amounts.now (reached near.new.marks.items))) }
    ensures met { IfOk result (λ met. IfSome met (λ m. IsMeeting g.now.edges amounts.now near.new.marks.items far.new.marks.items m.edge m.from)) }
{
    let edges = g.edges.as_slice();
    'steps: while near.waiting() > 0 {
        // The search that has fewer nodes to look from goes on, as long as it has any.
        if far.waiting() > 0 && far.waiting() < near.waiting() {
            let met = far.step(Direction::Against, g, amounts, near.marks.as_slice())?;
            if let Some(meeting) = met {
                let edge = meeting.edge;
                let from = edges[edge as usize].other(meeting.from);
                return Ok(Some(Meeting { edge, from }));
            }
        } else {
            let met = near.step(Direction::Along, g, amounts, far.marks.as_slice())?;
            if let Some(meeting) = met {
                return Ok(Some(meeting));
            }
        }
    }
    Ok(None)
}
