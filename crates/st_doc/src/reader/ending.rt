//! The end of a document: what the lines declared, as its groups and applications.

ghost use Rattle.std.specs.Prelude.{◌≡◌, ◌++◌, map, IfOk, option_to_list};
ghost use Rattle.st_grammar.specs.Draft.{parts_of};
ghost use Rattle.st_grammar.specs.Reading.{doc_at};

use crate::reader::Reader;
use st_draft::Group;
use st_grammar::{Doc, JournalAt, Script};
use st_net::{Items, Parts};
use st_wire::WireLine;
use std::alloc::{AllocError, Global};

/// The items with one more behind them, if there is one.
fn with_last<T: Drop>(mut items: Vec<T>, last: Option<T>) -> Result<Vec<T>, AllocError>
    ensures { IfOk result (λ all. all.items ≡ items.items ++ option_to_list last) }
{
    if let Some(item) = last {
        items.push(item)?;
    }
    Ok(items)
}

/// The parts and the wire lines of groups.
fn ended(
    alloc: Global,
    groups: Vec<Group>,
) -> Result<(Items<Parts>, Items<Items<WireLine>>), AllocError>
    ensures parts { IfOk result (λ ended. ended.0 ≡ map parts_of groups.items) }
    ensures wires { IfOk result (λ ended. ended.1 ≡ map (λ g. g.wires) groups.items) }
{
    let mut all = Vec::new(alloc);
    let mut wires = Vec::new(alloc);
    for group in groups {
        let (parts, lines) = group.into_parts();
        all.push(parts)?;
        wires.push(lines)?;
    }
    Ok((Items::new(all), Items::new(wires)))
}

/// The parts and the wire lines of groups, of which the last stands apart.
fn all_ended(
    alloc: Global,
    groups: Vec<Group>,
    last: Option<Group>,
) -> Result<(Items<Parts>, Items<Items<WireLine>>), AllocError>
    ensures parts { IfOk result (λ ended. ended.0 ≡ map parts_of (groups.items ++ option_to_list last)) }
    ensures wires { IfOk result (λ ended. ended.1 ≡ map (λ g. g.wires) (groups.items ++ option_to_list last)) }
{
    ended(alloc, with_last(groups, last)?)
}

/// The parts and the wire lines of groups, and the scripts of applications: of each the last stands apart.
fn sections(
    alloc: Global,
    groups: Vec<Group>,
    group: Option<Group>,
    apps: Vec<Script>,
    app: Option<Script>,
) -> Result<(Items<Parts>, Items<Items<WireLine>>, Items<Script>), AllocError>
    ensures parts { IfOk result (λ all. all.0 ≡ map parts_of (groups.items ++ option_to_list group)) }
    ensures wires { IfOk result (λ all. all.1 ≡ map (λ g. g.wires) (groups.items ++ option_to_list group)) }
    ensures apps { IfOk result (λ all. all.2 ≡ apps.items ++ option_to_list app) }
{
    let (groups, wires) = all_ended(alloc, groups, group)?;
    Ok((groups, wires, Items::new(with_last(apps, app)?)))
}

impl Reader {
    /// The document that the lines declare, with the place of its journals.
    pub fn finish(self, at: Option<JournalAt>) -> Result<Doc, AllocError>
        ensures { IfOk result (λ doc. doc ≡ doc_at at self) }
    {
        let Reader {
            alloc,
            version: _,
            phase: _,
            groups,
            group,
            group_index,
            apps,
            app,
            app_index,
            order,
        } = self;
        // The indexes are handed to `drop` before anything can fail: so the proof is short.
        drop(group_index);
        drop(app_index);
        let (groups, wires, apps) = sections(alloc, groups, group, apps, app)?;
        Ok(Doc {
            groups,
            wires,
            apps,
            order: Items::new(order),
            journal_at: at,
        })
    }
}
