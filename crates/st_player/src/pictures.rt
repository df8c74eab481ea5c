//! The picture of a document's groups with their journals, as text. It is written group by group.

ghost use Rattle.std.specs.Prelude.{◌≡◌, ◌++◌, [], IfOk, OnOk, length, map, reverse, true};
ghost use Rattle.serde_json.specs.Data.{string};
ghost use Rattle.serde_json.specs.View.{view, members_view};
ghost use Rattle.serde_json.specs.Written.{compact_text};
ghost use Rattle.st_net.specs.Groups.{are_names};
ghost use Rattle.st_event.specs.Legal.{IsLegal};
ghost use Rattle.st_replay.specs.Replaying.{AreLegal};
ghost use Rattle.st_player.specs.Joined.{joined};
ghost use Rattle.st_player.specs.Pictures.{begun_data, group_data, groups_data, picture as picture_lem, room_of};
ghost use Rattle.st_player.specs.PictureTexts.{group_head, with_beginning, with_other_parts};
ghost use Rattle.st_player.specs.Shown.{is_shown};
ghost use Rattle.st_player.specs.Steps.{IsSnapshot};

use crate::courses::{Moment, at_opening, played, write_entries};
use crate::joining::{begin_value, write_members, write_value};
use crate::openings::tell_opening;
use crate::parts::{devices_json, put_parts};
use crate::safe_json::{Json, JsonList, JsonObject};
use st_event::{Entry, Journal};
use st_net::{GroupTopo, Name};
use st_text::Text;
use std::alloc::{AllocError, Global};

/// The most bytes that the entries of all groups take together.
pub const MOST_BYTES: usize = 4_194_304;

/// The bytes that the entries of one of so many groups may take.
fn share_of(groups: usize) -> usize
    ensures { result ≡ room_of groups }
{
    MOST_BYTES / groups.max(1)
}

/// Puts how many of a journal's entries stand before the page, how many there are, and how the group stands behind those.
fn put_beginning(
    object: &mut JsonObject,
    alloc: Global,
    begun: &Moment,
    first: usize,
    total: usize,
) -> Result<(), AllocError>
    requires { IsSnapshot begun.now.playback begun.now.shown }
    ensures { OnOk result (members_view object.new ≡ with_beginning first total (begun_data begun.now.playback.group begun.now.playback.past) (members_view object.old)) }
{
    let opening = tell_opening(alloc, &begun.playback, &begun.shown)?;
    object.put_number("first", first as u64)?;
    object.put_number("total", total as u64)?;
    object.put("opening", opening)
}

/// Adds the devices of a group, up to the list of its entries.
fn begin_group(out: &mut Text, alloc: Global, topo: &GroupTopo) -> Result<(), AllocError>
    ensures text { OnOk result (out.new ≡ out.old ++ group_head topo.now) }
    ensures shown { OnOk result (is_shown (group_head topo.now) ≡ true) }
{
    let devices = Json::list(devices_json(alloc, topo)?);
    out.word(b"{\"devices\":")?;
    write_value(out, alloc, &devices)?;
    out.word(b",\"entries\":[")
}

/// A group at its opening, of which all parts but the devices are put.
fn opened_with_parts(
    object: &mut JsonObject,
    alloc: Global,
    topo: &GroupTopo,
) -> Result<Moment, AllocError>
    ensures playback { IfOk result (λ opened. opened.playback ≡ record { group = topo.now; past = [] }) }
    ensures shown { IfOk result (λ opened. IsSnapshot opened.playback opened.shown) }
    ensures parts { IfOk result (λ opened. members_view object.new ≡ with_other_parts topo.now (members_view object.old)) }
{
    let group = topo.copy(alloc)?;
    let opened = at_opening(alloc, group)?;
    let control = opened.playback.world().control();
    let start = opened.shown.network.kept.as_slice();
    put_parts(object, alloc, topo, control, start)?;
    Ok(opened)
}

/// Adds a group with its legal journal, the oldest entry first: the entries behind the first `from`, as far as there is room, and how the
/// group stands before them.
fn write_group(
    out: &mut Text,
    alloc: Global,
    topo: &GroupTopo,
    apps: &[Name],
    entries: &[Entry],
    from: usize,
    room: usize,
) -> Result<(), AllocError>
    requires legal { IsLegal topo.now (reverse entries.now) }
    requires apps { are_names apps.now ≡ true }
    ensures text { OnOk result (out.new ≡ out.old ++ compact_text (group_data apps.now from room topo.now entries.now)) }
    ensures shown { OnOk result (is_shown (compact_text (group_data apps.now from room topo.now entries.now)) ≡ true) }
{
    let first = from.min(entries.len());
    let (before, behind) = entries.split_at(first);
    let mut object = JsonObject::new(alloc);
    let opened = opened_with_parts(&mut object, alloc, topo)?;
    let begun = played(alloc, opened, before)?;
    put_beginning(&mut object, alloc, &begun, first, entries.len())?;
    begin_group(out, alloc, topo)?;
    write_entries(out, alloc, begun, apps, behind, room)?;
    out.word(b"]")?;
    write_members(out, alloc, object)
}

/// Adds the groups with their legal journals, in order.
fn write_groups(
    out: &mut Text,
    alloc: Global,
    topos: &[GroupTopo],
    journals: &[Journal],
    apps: &[Name],
    from: usize,
) -> Result<(), AllocError>
    requires legal { AreLegal topos.now journals.now }
    requires apps { are_names apps.now ≡ true }
    ensures text { OnOk result (out.new ≡ out.old ++ joined (groups_data apps.now from (room_of (length topos.now)) topos.now (map (λ journal. journal.entries) journals.now))) }
    ensures shown { OnOk result (is_shown (joined (groups_data apps.now from (room_of (length topos.now)) topos.now (map (λ journal. journal.entries) journals.now))) ≡ true) }
{
    let room = share_of(topos.len());
    for (i, topo) in topos.iter().enumerate() {
        let entries = journals[i].entries.as_slice();
        begin_value(out, i == 0)?;
        write_group(out, alloc, topo, apps, entries, from, room)?;
    }
    Ok(())
}

/// The names of applications, in order.
fn apps_json(alloc: Global, apps: &[Name]) -> Result<JsonList, AllocError>
    ensures { IfOk result (λ list. map view list ≡ map string apps.now) }
{
    let mut list = JsonList::new(alloc);
    for app in apps {
        list.push(Json::text(alloc, app.bytes())?)?;
    }
    Ok(list)
}

/// Adds the picture of groups with their legal journals, behind the first `from` entries of each.
pub(crate) fn write_picture(
    out: &mut Text,
    alloc: Global,
    topos: &[GroupTopo],
    journals: &[Journal],
    apps: &[Name],
    from: usize,
) -> Result<(), AllocError>
    requires legal { AreLegal topos.now journals.now }
    requires apps { are_names apps.now ≡ true }
    ensures text { OnOk result (out.new ≡ out.old ++ compact_text (picture_lem apps.now from topos.now (map (λ journal. journal.entries) journals.now))) }
    ensures shown { OnOk result (is_shown (compact_text (picture_lem apps.now from topos.now (map (λ journal. journal.entries) journals.now))) ≡ true) }
{
    let names = Json::list(apps_json(alloc, apps)?);
    out.word(b"{\"apps\":")?;
    write_value(out, alloc, &names)?;
    out.word(b",\"groups\":[")?;
    write_groups(out, alloc, topos, journals, apps, from)?;
    out.word(b"],\"statesman\":1}")
}
