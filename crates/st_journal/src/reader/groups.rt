//! The groups that journals are of: found by their names, and given an empty journal where they have none.

ghost use Rattle.std.specs.Prelude.{◌≡◌, ◌+◌, ◌-◌, ◌<◌, ◌≤◌, ◌^◌, length, OnOk, IfOk, IfSome};
ghost use Rattle.st_net.specs.Names.{place_of};
ghost use Rattle.st_token.specs.Steps.{Gives};
ghost use Rattle.st_token.specs.Spelling.{known_name_in};
ghost use Rattle.st_journal.specs.JournalLines.{group_names, filled};

use st_event::Journal;
use st_net::{GroupTopo, Items};
use st_token::{FaultKind, LineError, name_in};
use std::alloc::{AllocError, Global};

/// The place of the first group of a name.
fn place_among(topos: &[GroupTopo], name: &[u8]) -> Option<u32>
    requires { length topos.now < 2 ^ 32 }
    ensures place { result ≡ place_of name.now (group_names topos.now) }
    ensures within { IfSome result (λ place. place < length topos.now) }
{
    for (place, topo) in topos.iter().enumerate() {
        if name == topo.name().bytes() {
            return Some(place as u32);
        }
    }
    None
}

/// The number of the group of a name.
#[tactic(auto, unfolding(st_token::specs::Spelling::known_name_in))]
pub fn group_in(alloc: Global, topos: &[GroupTopo], token: &[u8]) -> Result<u32, LineError>
    requires { length topos.now < 2 ^ 32 }
    ensures gives { Gives (λ group. group) result (known_name_in (group_names topos.now) token.now) }
    ensures within { IfOk result (λ group. group < length topos.now) }
{
    let name = name_in(alloc, token)?;
    match place_among(topos, name.bytes()) {
        Some(place) => Ok(place),
        None => Err(LineError::Bad(FaultKind::Unknown)),
    }
}

/// Adds an empty journal of each group up to this number that has none.
pub fn fill(alloc: Global, journals: &mut Vec<Journal>, count: u32) -> Result<(), AllocError>
    requires { length journals.old.items < 2 ^ 32 }
    ensures ok { OnOk result (journals.new.items ≡ filled count journals.old.items) }
    ensures few { length journals.new.items ≤ length journals.old.items + (count - length journals.old.items) }
{
    let first = journals.len() as u32;
    for group in first..count {
        journals.push(Journal {
            group,
            entries: Items::none(alloc),
        })?;
    }
    Ok(())
}
