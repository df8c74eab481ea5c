//! Pushing along the way that two searches found: back to the start of the one, on to the start of the other, and over
//! the edge where they met. Their ways have no edge in common, so that the room of each is still there.
ghost use Rattle.std.specs.Prelude.{◌≡◌, ◌<◌, ◌≤◌, ℕ, Bool, All, length, pos, ◌+ℤ◌};
ghost use Rattle.std.specs.List.{AllZip};
ghost use Rattle.st_flow.specs.Network.{IsEdge, FitsEdge, net_out};
ghost use Rattle.st_flow.specs.Residual.{only_if, turned, amount_at};
ghost use Rattle.st_flow.specs.Search.{mark_at, limit_of, IsRound, IsMeeting, IsTree, IsOutside};

use crate::direction::Direction;
use crate::edge::Edge;
use crate::graph::Graph;
use crate::meeting::Meeting;
use crate::search::Search;

/// Pushes as much as has room along the way from the start of `near` to the start of `far`, and says how much it was.
pub(crate) fn push_across(
    g: &Graph,
    amounts: &mut [i64],
    near: &Search,
    far: &Search,
    meeting: Meeting,
) -> u32
    requires fits { AllZip FitsEdge g.now.edges amounts.old }
    requires round { IsRound g.now amounts.old near.now far.now }
    requires met { IsMeeting g.now.edges amounts.old near.now.marks.items far.now.marks.items meeting.edge meeting.from }
    ensures some { 0 < result }
    ensures limit { result ≤ limit_of near.now }
    ensures fits { AllZip FitsEdge g.now.edges amounts.new }
    ensures moved { (s : ℕ → Bool) → net_out g.now.edges amounts.new s +ℤ only_if (s far.now.start) (pos result) ≡ net_out g.now.edges amounts.old s +ℤ only_if (s near.now.start) (pos result) }
{
    let edges = g.edges.as_slice();
    let near_marks = near.marks.as_slice();
    let far_marks = far.marks.as_slice();
    let i = meeting.edge as usize;
    let edge = edges[i];
    let x = meeting.from;
    let y = edge.other(x);
    let room = edge.room(amounts[i], y);
    let more = room
        .min(near_marks[x as usize].width)
        .min(far_marks[y as usize].width);
    push_back(Direction::Along, edges, amounts, near, x, more);
    push_back(Direction::Against, edges, amounts, far, y, more);
    let amount = &mut amounts[i];
    *amount = edge.pushed(*amount, y, more);
    more
}

/// Pushes `more` along the way of a search from its start to `end`.
fn push_back(
    direction: Direction,
    edges: &[Edge],
    amounts: &mut [i64],
    search: &Search,
    end: u32,
    more: u32,
)
    requires edges_fit { All (IsEdge (length search.now.marks.items)) edges.now }
    requires fits { AllZip FitsEdge edges.now amounts.old }
    requires tree { IsTree edges.now (turned direction amounts.old) search.now.start search.now.marks.items }
    requires reached { 0 < (mark_at search.now.marks.items end).level }
    requires wide { more ≤ (mark_at search.now.marks.items end).width }
    ensures fits { AllZip FitsEdge edges.now amounts.new }
    ensures moved { (s : ℕ → Bool) → net_out edges.now (turned direction amounts.new) s +ℤ only_if (s end) (pos more) ≡ net_out edges.now (turned direction amounts.old) s +ℤ only_if (s search.now.start) (pos more) }
    ensures kept { (i : ℕ) → IsOutside edges.now search.now.marks.items i → amount_at amounts.new i ≡ amount_at amounts.old i }
{
    let marks = search.marks.as_slice();
    let mut y = end;
    while y != search.start {
        let i = marks[y as usize].edge as usize;
        let edge = edges[i];
        let amount = &mut amounts[i];
        *amount = edge.pushed_to(direction, *amount, y, more);
        y = edge.other(y);
    }
}
