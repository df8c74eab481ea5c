//! The withdrawals in a group's journal: the version that each makes, and the rows that it withdraws.

ghost use Rattle.std.specs.Prelude.{◌≡◌, ◌++◌, ◌∷◌, IfOk, OnOk, decimal, map};
ghost use Rattle.st_text.specs.Words.{spaced};
ghost use Rattle.st_entry.specs.Words.{assignment_words};
ghost use Rattle.st_report.specs.Lines.{back_words, withdrawn_among};

use crate::lines::Lines;
use st_entry::print_assignments;
use st_event::{Entry, Reply};
use st_net::{GroupTopo, Row};
use st_text::{Text, Word, print_words};
use std::alloc::{AllocError, Global};

/// The words of one withdrawal.
fn withdrawn_text(
    alloc: Global,
    topo: &GroupTopo,
    version: u32,
    rows: &[Row],
) -> Result<Text, AllocError>
    ensures { IfOk result (λ text. text ≡ spaced (decimal version ∷ assignment_words topo.now rows.now)) }
{
    let mut text = Text::new(alloc);
    print_words(&[Word::Number(u64::from(version))], &mut text)?;
    print_assignments(topo, rows, &mut text)?;
    Ok(text)
}

/// Adds what an entry withdraws, where it withdraws any rows.
fn add_withdrawn(
    alloc: Global,
    topo: &GroupTopo,
    entry: &Entry,
    lines: &mut Lines,
) -> Result<(), AllocError>
    ensures { OnOk result (lines.new ≡ lines.old ++ map spaced (back_words topo.now entry.now.reply)) }
{
    topo.is_sound();
    match &entry.reply {
        Reply::Withdrawn { version, rows } => {
            lines.add(withdrawn_text(alloc, topo, *version, rows.as_slice())?)
        }
        _ => Ok(()),
    }
}

/// The withdrawals among these entries, in their order: the version that each makes, and its rows.
pub(crate) fn withdrawn_lines(
    alloc: Global,
    topo: &GroupTopo,
    entries: &[Entry],
) -> Result<Lines, AllocError>
    ensures { IfOk result (λ lines. lines ≡ map spaced (withdrawn_among topo.now entries.now)) }
{
    let mut lines = Lines::new(alloc);
    for entry in entries {
        add_withdrawn(alloc, topo, entry, &mut lines)?;
    }
    Ok(lines)
}
