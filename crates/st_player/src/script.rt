//! The page behind its data: its script, in pieces by what they do. A name that one piece gives is known in all of them.

ghost use Rattle.std.specs.Prelude.{◌≡◌, ◌++◌, OnOk};
ghost use Rattle.st_player.specs.Playing.{page_script};

mod data;
mod drawing;
mod labels;
mod layout;
mod listing;
mod lists;
mod moving;
mod printing;
mod start;
mod timeline;
mod words;

use data::DATA;
use drawing::DRAWING;
use labels::LABELS;
use layout::LAYOUT;
use listing::LISTING;
use lists::LISTS;
use moving::MOVING;
use printing::PRINTING;
use st_text::Text;
use start::START;
use std::alloc::AllocError;
use timeline::TIMELINE;
use words::WORDS;

/// Adds the page behind its data. `Err` is for want of memory alone.
pub(crate) fn put_script(out: &mut Text) -> Result<(), AllocError>
    ensures ok { OnOk result (out.new ≡ out.old ++ page_script) }
{
    out.word(DATA.as_bytes())?;
    out.word(LAYOUT.as_bytes())?;
    out.word(LABELS.as_bytes())?;
    out.word(DRAWING.as_bytes())?;
    out.word(WORDS.as_bytes())?;
    out.word(LISTS.as_bytes())?;
    out.word(LISTING.as_bytes())?;
    out.word(TIMELINE.as_bytes())?;
    out.word(MOVING.as_bytes())?;
    out.word(PRINTING.as_bytes())?;
    out.word(START.as_bytes())?;
    Ok(())
}
