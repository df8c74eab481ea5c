//! The page before its data: how it looks, and the elements that its script fills.

ghost use Rattle.std.specs.Prelude.{◌≡◌, ◌++◌, OnOk};
ghost use Rattle.st_player.specs.Playing.{page_head};

mod body;
mod style;

use body::BODY;
use st_text::Text;
use std::alloc::AllocError;
use style::STYLE;

/// Adds the page before its data. `Err` is for want of memory alone.
pub(crate) fn put_head(out: &mut Text) -> Result<(), AllocError>
    ensures ok { OnOk result (out.new ≡ out.old ++ page_head) }
{
    out.word(STYLE.as_bytes())?;
    out.word(BODY.as_bytes())?;
    Ok(())
}
