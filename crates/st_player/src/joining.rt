//! Values one after another, as text, with a comma before each but the first. A value is written when it is made, and not kept.

ghost use Rattle.std.specs.Prelude.{◌≡◌, ◌+◌, ◌++◌, IfOk, OnOk, drop, length, not, true};
ghost use Rattle.serde_json.specs.View.{view, members_view};
ghost use Rattle.serde_json.specs.Written.{comma_if, compact_text, members_text};
ghost use Rattle.st_player.specs.Joined.{HasMembers, WritesFitting};
ghost use Rattle.st_player.specs.Shown.{is_shown};

use crate::safe_json::{Json, JsonObject};
use st_text::Text;
use std::alloc::{AllocError, Global};

/// Adds a comma, but before the first value.
pub(crate) fn begin_value(out: &mut Text, is_first: bool) -> Result<(), AllocError>
    ensures { OnOk result (out.new ≡ out.old ++ comma_if (not is_first)) }
{
    if is_first { Ok(()) } else { out.word(b",") }
}

/// Adds a value.
pub(crate) fn write_value(out: &mut Text, alloc: Global, json: &Json) -> Result<(), AllocError>
    ensures text { OnOk result (out.new ≡ out.old ++ compact_text (view json.now)) }
    ensures shown { OnOk result (is_shown (compact_text (view json.now)) ≡ true) }
{
    let text = json.to_text(alloc)?;
    out.word(text.as_bytes())
}

/// The bytes that a text takes in a list, with a comma.
fn size_in_list(text: &str) -> usize
    ensures { result ≡ length text.now + 1 }
{
    text.len().saturating_add(1)
}

/// Adds a value behind others where there is room for it with its comma, and gives the room that is left.
pub(crate) fn write_fitting(
    out: &mut Text,
    alloc: Global,
    json: &Json,
    is_first: bool,
    room: usize,
) -> Result<Option<usize>, AllocError>
    ensures { IfOk result (WritesFitting out.old out.new (view json.now) is_first room) }
{
    let text = json.to_text(alloc)?;
    let size = size_in_list(text.as_str());
    if size > room {
        return Ok(None);
    }
    begin_value(out, is_first)?;
    out.word(text.as_bytes())?;
    Ok(Some(room - size))
}

/// The bytes behind the first.
pub(crate) fn behind_first(bytes: &[u8]) -> &[u8]
    ensures { result.now ≡ drop 1 bytes.now }
{
    match bytes.split_first() {
        Some((_first, rest)) => rest,
        None => b"",
    }
}

/// Adds the members of an object, of which there is one at least, behind others, and the bracket behind all.
pub(crate) fn write_members(
    out: &mut Text,
    alloc: Global,
    object: JsonObject,
) -> Result<(), AllocError>
    requires { HasMembers (members_view object) }
    ensures text { OnOk result (out.new ≡ out.old ++ members_text true (members_view object)) }
    ensures shown { OnOk result (is_shown (members_text true (members_view object)) ≡ true) }
{
    let text = Json::object(object).to_text(alloc)?;
    out.word(b",")?;
    // Without the bracket that it begins with.
    out.word(behind_first(text.as_bytes()))
}
